#![tactic(auto)]
// The graph of a formula yields what direct evaluation yields: laws in specs/. No function stands here.

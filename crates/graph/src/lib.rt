#![tactic(auto)]
// The graph of a formula, as definitions and laws in specs/. No function stands here.

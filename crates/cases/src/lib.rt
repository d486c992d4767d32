#![tactic(auto)]
// The marked examples of document 01, in specs/. No function stands here.

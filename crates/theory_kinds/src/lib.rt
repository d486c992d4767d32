#![tactic(auto)]
// Nothing runs here: the crate holds theory only (specs/): in direct evaluation no err comes from a wrong kind or a bad test.

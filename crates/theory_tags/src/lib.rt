#![tactic(auto)]
// Nothing runs here: the crate holds theory only (specs/): what a sheet without for and its graph have not.

#![tactic(auto)]
// Nothing runs here: the crate holds theory only (specs/), the residual of a reference schedule.

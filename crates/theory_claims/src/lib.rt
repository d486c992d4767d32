#![tactic(auto)]
// Nothing runs here: the crate holds theory only (specs/): no firing of the machine computes on a wrong kind.

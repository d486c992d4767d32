#![tactic(auto)]
// Nothing runs here: the crate holds theory only (specs/): the schedule of one set through the graph of every fit formula.

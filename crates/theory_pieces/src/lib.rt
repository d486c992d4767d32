#![tactic(auto)]
// Nothing runs here: the crate holds theory only (specs/): the schedule lemma as a statement about a piece of a graph, and demand 3 from it.

#![tactic(auto)]
// Nothing runs here: the crate holds theory only (specs/): the gates' firing rules, Brock's history rules, and networks of links.

#![tactic(auto)]
// The operators that the graph maker writes (document 01, "The graph"): one as a record, copies, rows of
// gates, chains and rings.
pub mod emit;
pub mod links;
pub mod records;

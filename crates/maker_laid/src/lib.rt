#![tactic(auto)]
// Graphs as operators in memory: definitions and laws alone, in specs/. Document 01, "The graph". Assumes nothing.

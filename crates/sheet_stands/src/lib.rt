#![tactic(auto)]
// Rows of small sheets (document 02, Job 14): the rows that one can have, whether a row can stand in one, and whether a given sheet is one.
pub mod contents; // contents.rt: the rows by their number
pub mod tests; // tests.rt: what is asked of a row and of a sheet

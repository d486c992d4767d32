#![tactic(auto)]
// The rows that drift is not told for (document 02, Job 13, 20): those of another sort, and those with a value not of kind W. The definition is
// sheet_movement's specs/Sorts.
pub mod constants; // constants.rt: whole constants, and the operators that want one
pub mod walk; // walk.rt: the lowest row at fault

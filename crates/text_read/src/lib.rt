#![tactic(auto)]
// Reading the bench program's files (document 01, "Program and readings"): value fields and set lines, and test 1 of a sheet
// over a file that is read part by part. What they are is said in text/specs. Assumes nothing.
pub mod values; // values.rt: a value field of eleven characters
pub mod scan; // scan.rt: test 1 part by part
pub mod sets; // sets.rt: set lines

#![tactic(auto)]
// Tests 8 and 9 of document 01 with the tables that they fill, widths and masks, and the tables that test 10 rests on: how
// each row ends and the returned width of the loop around it.
pub mod ends;
pub mod loops;
pub mod masks;
pub mod widths;

#![tactic(auto)]
// Tests 4 to 7 of document 01 on the table of fields, and the places of the rows.
pub mod places;
pub mod rows;

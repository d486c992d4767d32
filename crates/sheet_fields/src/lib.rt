#![tactic(auto)]
// The bytes of a formula sheet to its fields, with tests 1 to 3 of document 01, and a row of the fields by its kind.
pub mod decode;
pub mod field;
pub mod layout;
pub mod shape;

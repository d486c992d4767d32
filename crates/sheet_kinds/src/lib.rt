#![tactic(auto)]
// The kinds of a sheet's rows (document 02: "Every row gets the kind of each of its values"), told beforehand by the kinds line. An
// expression's kinds and a body's are found by functions that call each other; row numbers fall.
pub mod bytes; // bytes.rt: kinds as bytes in lent arrays
pub mod checks; // checks.rt: the lowest row at fault
pub mod line; // line.rt: the kinds line
pub mod walk; // walk.rt: the kinds of each row's values, and the rows that break them

// What is told of a body: the lowest row at fault, and how many kinds it starts the next round with and returns; 0 where it does not
// have them.
#[derive(Clone, Copy)]
pub struct BodyKinds {
    pub fault: Result<(), usize>,
    pub again: usize,
    pub back: usize,
}

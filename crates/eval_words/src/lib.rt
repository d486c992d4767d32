#![tactic(auto)]
// What the evaluators of a formula sheet are made of (document 01, "The meaning"): values as words, and rows of width one taken
// apart. Assumes an accepted sheet's rows.
pub mod inputs; // inputs.rt: a formula's inputs by the mask of its free names
pub mod parts; // parts.rt: what the value of a row of width one is made of
pub mod words; // words.rt: values as words in lent arrays

// A row of width one: a value, an operator on one row or on two rows of width one, an operator on a row of width two, or a
// row of another kind.
#[derive(Clone, Copy)]
pub enum Part {
    // the word of the value
    Value(u64),
    // the code, the operand's row
    One(u32, usize),
    // the code, the operands' rows
    Two(u32, usize, usize),
    // the code, the row of both operands
    Wide(u32, usize),
    Other,
}

#![tactic(auto)]
// The evaluators of a formula sheet (document 01, "The meaning": "An expression may hold a loop, a loop holds a body"). They call
// each other; row number and rounds left fall.
pub mod cycle; // cycle.rt: the expression and body evaluators

// How one round of a body ends, with the rounds left: with an iter, or with values to return.
#[derive(Clone, Copy)]
pub enum Turn {
    Again(u32),
    Back(u32),
}

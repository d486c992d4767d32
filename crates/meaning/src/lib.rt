#![tactic(auto)]
// What a formula means, as definitions and laws in specs/, and the answer of its direct evaluation (document 01, "Direct
// evaluation is lent rounds and tells those used"). No function stands here.
use formula::Refused;
use value::Value;

// One place of a result set.
#[derive(Clone, Copy)]
pub struct Cell {
    pub v: Value,
}

// The answer of an evaluation: "A result set is sixteen values carried whole, with its width; places past the width hold
// err", the rounds used, and whether it was accepted or refused (a refusal has width 0 and 0 rounds).
#[derive(Clone, Copy)]
pub struct Evaluation {
    pub cells: [Cell; 16],
    pub width: usize,
    pub rounds: u32,
    pub verdict: Result<(), Refused>,
}

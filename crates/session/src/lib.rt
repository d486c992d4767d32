#![tactic(auto)]
// The session of the bench program (document 01, "Program and readings"): what it prints, from its opening through each
// repetition of pushes, a run and takes, that it ends, and that each line is its set's own verdict. Definitions and laws are
// in specs/; the code is in `session_pass` and `session_run`. Assumes nothing.
use text::Seen;

// "It uses capacity 2 and 1,000,000 firings in all".
pub const CAPACITY: u32 = 2;

pub const FIRINGS: u32 = 1000000;

// "a set file over 65,536 bytes" is refused, and one byte more tells it.
pub const SET_FILE: usize = 65536;

pub const SETS_READ: usize = 65537;

// A kinds line has at most 34 bytes (specs/LongLines), so what stands behind these is not looked at.
pub const KINDS_READ: usize = 64;

// A repetition's end: where the next set's line starts, the sets not taken yet, the firings left, and how many bytes are
// to be printed.
#[derive(Clone, Copy)]
pub struct Stage {
    pub at: usize,
    pub remaining: u32,
    pub firings: u32,
    pub printed: usize,
}

// The inputs of an accepted sheet, and where the loop begins. After a refusal no set remains.
#[derive(Clone, Copy)]
pub struct Opened {
    pub inputs: usize,
    pub stage: Stage,
}

// How many of a sheet's bytes are at hand, and what was seen of all of them.
#[derive(Clone, Copy)]
pub struct Sheet {
    pub length: usize,
    pub seen: Seen,
}

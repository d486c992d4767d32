#![tactic(auto)]
// The text of the bench program (document 01, "Program and readings"): what printed fields, value fields and set lines are,
// and test 1 of a sheet over a file that is read part by part. Definitions and laws are in specs/; the code is in
// `text_read` and `text_print`. Assumes nothing.

// "one 11-character field a value", and the bytes of a value in a set or a result set (value/specs/Bytes).
pub const VALUE_FIELD: usize = 11;

pub const VALUE_BYTES: usize = 5;

// How many patterns 32 bits have, which a number below 0 is added to in two's complement.
pub const PATTERNS: u64 = 1 << 32;

// "six-character fields"
pub const NUMBER_FIELD: usize = 6;

// The bytes of a set of 32 values and of a result set of 16, the most that there are.
pub const SET_BYTES: usize = 160;

pub const RESULT_BYTES: usize = 80;

// The bytes of a printed line: the first, a refusal's, and the longest of a result set.
pub const HEAD_LINE: usize = 19;

pub const REFUSAL_LINE: usize = 13;

pub const RESULT_LINE: usize = 177;

// The bytes of the 200 rows that a sheet may have, and up to how many are counted: one more tells a sheet that is too long.
pub const SHEET: usize = 6200;

pub const COUNTED: usize = 6201;

// The place of a row's line feed.
pub const LAST_COLUMN: usize = 30;

// What is kept of the bytes of a sheet seen so far: their number, up to 6,201, the place in the row, and whether each row
// that is whole has its line feed.
#[derive(Clone, Copy)]
pub struct Seen {
    pub length: usize,
    pub column: usize,
    pub ended: bool,
}

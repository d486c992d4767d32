// The byte form of a value (specs/Bytes): five bytes, read and written as one word below 2^40.
// Tokens in memory and the sets that the firmware lends have this form. Assumes of a place that five bytes lie there.
ghost use Rattle.std.specs.Prelude.{◌≡◌, ℕ, ◌+◌, ◌*◌, ◌≤◌, ◌<◌, length};
ghost use Rattle.value.specs.Kinds.{is_letter, of_kind};
ghost use Rattle.value.specs.Bytes.{word_of, value_of, decoded, is_some, word_or, word_at, stored, whole_of, truth_of, err_of, float_of};
ghost use Rattle.value.specs.Constants.{in_constant_range};

use crate::{Reason, Value};

// The words of no token, true, false, and of the errs: the plain one and those with a reason.
pub const NONE: u64 = 0;

pub const TRUE: u64 = 258;

pub const FALSE: u64 = 2;

pub const ERR: u64 = 3;

pub const ZERO_DIVISOR: u64 = 259;

pub const OUT_OF_RANGE: u64 = 515;

// How many reasons an err can have.
const REASONS: u64 = 3;

// How many numbers 32 bits have.
const PATTERNS: u64 = 4294967296;

// The bit of a float's sign, and the pattern of infinity: without its sign, the patterns below it are those of the finite numbers.
const SIGN: u64 = 2147483648;

const INFINITY: u64 = 2139095040;

// The greatest constants of a sheet: a whole number, and the pattern of 999.999.
const MOST_WHOLE: u64 = 999999;

const MOST_REAL: u64 = 1148846064;

// The letters of a kinds line; for a kind every other letter counts as that of whole numbers.
const WHOLE_LETTER: u8 = b'W';

pub const TRUTH_LETTER: u8 = b'T';

pub const REAL_LETTER: u8 = b'R';

#[tactic(auto, unfolding(crate::specs::Bytes::word_of))]
fn err_word(r: Reason) -> u64
    ensures { result ≡ word_of (Value.Err r) }
{
    match r {
        Reason::Other => ERR,
        Reason::ZeroDivisor => ZERO_DIVISOR,
        Reason::OutOfRange => OUT_OF_RANGE,
    }
}

// A float that is no finite number, which nothing here makes, has the word of V.
fn real_word(x: f32) -> u64
    ensures { result ≡ word_of (Value.Real x) }
{
    if x.is_finite() {
        4 + 256 * u64::from(x.to_bits())
    } else {
        OUT_OF_RANGE
    }
}

#[tactic(auto, unfolding(crate::specs::Bytes::word_of))]
pub fn to_word(v: Value) -> u64
    ensures { result ≡ word_of v }
{
    match v {
        Value::Whole(z) => 1 + 256 * u64::from(z.cast_unsigned()),
        Value::Truth(true) => TRUE,
        Value::Truth(false) => FALSE,
        Value::Err(r) => err_word(r),
        Value::Real(x) => real_word(x),
    }
}

fn from_whole(bits: u64) -> Option<Value>
    ensures { result ≡ decoded (whole_of bits) }
{
    let bits = u32::try_from(bits).ok()?;
    Some(Value::Whole(bits.cast_signed()))
}

#[tactic(auto, unfolding(crate::specs::Bytes::truth_of))]
fn from_truth(bits: u64) -> Option<Value>
    ensures { result ≡ decoded (truth_of bits) }
{
    match bits {
        0 => Some(Value::Truth(false)),
        1 => Some(Value::Truth(true)),
        _ => None,
    }
}

#[tactic(auto, unfolding(crate::specs::Bytes::err_of))]
fn from_err(bits: u64) -> Option<Value>
    ensures { result ≡ decoded (err_of bits) }
{
    match bits {
        0 => Some(Value::Err(Reason::Other)),
        1 => Some(Value::Err(Reason::ZeroDivisor)),
        2 => Some(Value::Err(Reason::OutOfRange)),
        _ => None,
    }
}

// Whether bits are the pattern of a finite number.
fn is_pattern(bits: u64) -> bool
    ensures { result ≡ is_some (float_of bits) }
{
    bits < PATTERNS && bits % SIGN < INFINITY
}

fn from_real(bits: u64) -> Option<Value>
    ensures { result ≡ decoded (float_of bits) }
{
    if is_pattern(bits) {
        Some(Value::Real(f32::from_bits(bits as u32)))
    } else {
        None
    }
}

// The value that a word is the byte form of, or none.
#[tactic(auto, unfolding(crate::specs::Bytes::value_of))]
pub fn from_word(w: u64) -> Option<Value>
    ensures { result ≡ decoded (value_of w) }
{
    let tag = w % 256;
    let bits = w / 256;
    match tag {
        1 => from_whole(bits),
        2 => from_truth(bits),
        3 => from_err(bits),
        4 => from_real(bits),
        _ => None,
    }
}

// Whether a word is the byte form of a value.
pub fn is_value(w: u64) -> bool
    ensures { result ≡ is_some (value_of w) }
{
    let bits = w / 256;
    match w % 256 {
        1 => bits < PATTERNS,
        2 => bits < 2,
        3 => bits < REASONS,
        4 => is_pattern(bits),
        _ => false,
    }
}

// Whether a word is the byte form of a value in the range of a sheet's constants.
pub fn in_constant_range(w: u64) -> bool
    ensures { result ≡ in_constant_range (value_of w) }
{
    let bits = w / 256;
    match w % 256 {
        1 => bits <= MOST_WHOLE,
        2 => bits < 2,
        4 => bits <= MOST_REAL,
        _ => false,
    }
}

pub fn is_letter(b: u8) -> bool
    ensures { result ≡ is_letter b }
{
    matches!(b, WHOLE_LETTER | TRUTH_LETTER | REAL_LETTER)
}

// Whether a word is the byte form of a value of a letter's kind, or of an err.
pub fn is_of_kind(letter: u8, w: u64) -> bool
    ensures { result ≡ is_some (of_kind letter (value_of w)) }
{
    let bits = w / 256;
    match w % 256 {
        1 => whole_in(letter, bits),
        2 => truth_in(letter, bits),
        3 => bits < REASONS,
        4 => real_in(letter, bits),
        _ => false,
    }
}

fn whole_in(letter: u8, bits: u64) -> bool
    ensures { result ≡ is_some (of_kind letter (whole_of bits)) }
{
    match letter {
        TRUTH_LETTER => false,
        REAL_LETTER => false,
        _ => bits < PATTERNS,
    }
}

fn truth_in(letter: u8, bits: u64) -> bool
    ensures { result ≡ is_some (of_kind letter (truth_of bits)) }
{
    letter == TRUTH_LETTER && bits < 2
}

fn real_in(letter: u8, bits: u64) -> bool
    ensures { result ≡ is_some (of_kind letter (float_of bits)) }
{
    letter == REAL_LETTER && is_pattern(bits)
}

// A word that was read, where it is a value's; that of no token where it is none.
pub fn token_word(w: u64) -> u64
    ensures { result ≡ word_or (decoded (value_of w)) }
{
    if is_value(w) { w } else { NONE }
}

// The word in the five bytes from `at` on. Byte by byte, here and in `store`: no integer of the language has five bytes.
pub fn load(s: &[u8], at: usize) -> u64
    requires { at + 5 ≤ length s.now }
    ensures { (result ≡ word_at s.now at) × (result < 1099511627776) }
{
    u64::from(s[at])
        + 256 * u64::from(s[at + 1])
        + 65536 * u64::from(s[at + 2])
        + 16777216 * u64::from(s[at + 3])
        + 4294967296 * u64::from(s[at + 4])
}

// Writes a word to the five bytes from `at` on.
pub fn store(s: &mut [u8], at: usize, word: u64)
    requires { at + 5 ≤ length s.old }
    ensures { s.new ≡ stored s.old at word }
{
    s[at] = (word % 256) as u8;
    s[at + 1] = (word / 256 % 256) as u8;
    s[at + 2] = (word / 65536 % 256) as u8;
    s[at + 3] = (word / 16777216 % 256) as u8;
    s[at + 4] = (word / 4294967296 % 256) as u8;
}

// A value field of eleven characters (text/specs/Fields; document 01, "Program and readings"), read into the word of the value's
// byte form; 0 is a bad field.
ghost use Rattle.std.specs.Prelude.{◌≡◌, Bool, ◌+◌, ◌-◌, ◌≤◌, ◌<◌, length, get_or, eqb};
ghost use Rattle.std.proofs.Math.Seq.{slice};
ghost use Rattle.value.specs.Operators.{pick};
ghost use Rattle.formula.specs.Sheet.{digits_of, field_of};
ghost use Rattle.text.specs.Fields.{word_by, positive as positiveOf, negative as negativeOf, behind_minus, patterned, behind_r, field_value};

use text::{PATTERNS, VALUE_FIELD};
use value::bytes::{ERR, FALSE, OUT_OF_RANGE, REAL_LETTER, TRUE, ZERO_DIVISOR, token_word};

// "-2,147,483,648 to 2,147,483,647", as distances from 0.
const GREATEST: u64 = 2147483647;

const LEAST: u64 = 2147483648;

// The tag of a float's word.
const REAL: u64 = 4;

// The byte form's word of no value, which no kind takes: an Option around words would be a second way to say it.
const NO_VALUE: u64 = value::bytes::NONE;

fn digit(b: u8) -> u64
    requires { 48 ≤ b }
    ensures { result ≡ b - 48 }
{
    u64::from(b - b'0')
}

// The number `first`, then the digits of s from `from` to `end`. The sheet's fields have a twin in 32 bits: over both types it would
// need traits for sums and products, which is no plainer.
fn digits(s: &[u8], from: usize, end: usize, first: u64) -> Option<u64>
    requires { (from ≤ end) × (end ≤ length s.now) × (end - from ≤ 10) × (first < 10) }
    ensures { result ≡ digits_of first (slice from end s.now) }
{
    let mut v = first;
    for &b in &s[from..end] {
        if !b.is_ascii_digit() {
            return None;
        }
        v = v * 10 + digit(b);
    }
    Some(v)
}

// The word of a number from 0 on.
fn positive(d: Option<u64>) -> u64
    ensures { result ≡ word_by (positiveOf d) }
{
    match d {
        Some(n) if n <= GREATEST => 1 + 256 * n,
        _ => NO_VALUE,
    }
}

// The word of a number below 0, by its distance from 0: two's complement in 32 bits.
fn negative(d: Option<u64>) -> u64
    ensures { result ≡ word_by (negativeOf d) }
{
    match d {
        Some(n) if n != 0 && n <= LEAST => 1 + 256 * (PATTERNS - n),
        _ => NO_VALUE,
    }
}

fn behind_minus(s: &[u8], i: usize, end: usize) -> u64
    requires { (i ≤ end) × (end ≤ length s.now) × (end - i ≤ 10) }
    ensures { result ≡ word_by (behind_minus (slice i end s.now)) }
{
    if i == end {
        return NO_VALUE;
    }
    match s[i] {
        b @ b'1'..=b'9' => negative(digits(s, i + 1, end, digit(b))),
        _ => NO_VALUE,
    }
}

// The word of the float of a pattern.
fn real(d: Option<u64>) -> u64
    ensures { result ≡ word_by (patterned d) }
{
    match d {
        Some(n) if n < PATTERNS => token_word(REAL + 256 * n),
        _ => NO_VALUE,
    }
}

// A number as in the sheet, behind its spaces.
fn number(s: &[u8], i: usize, end: usize) -> Option<u64>
    requires { (i < end) × (end ≤ length s.now) × (end - i ≤ 11) × (get_or s.now i 0 ≡ 32 → ⊥) }
    ensures { result ≡ field_of (slice i end s.now) }
{
    match s[i] {
        b'0' if i + 1 == end => Some(0),
        b @ b'1'..=b'9' => digits(s, i + 1, end, digit(b)),
        _ => None,
    }
}

fn behind_r(s: &[u8], i: usize, end: usize) -> u64
    requires { (i ≤ end) × (end ≤ length s.now) × (end - i ≤ 10) }
    ensures { result ≡ word_by (behind_r (slice i end s.now)) }
{
    if i == end || s[i] == b' ' {
        return NO_VALUE;
    }
    real(number(s, i, end))
}

fn alone(i: usize, end: usize, word: u64) -> u64
    ensures { result ≡ pick (eqb i end) word 0 }
{
    if i == end { word } else { NO_VALUE }
}

// A field behind its spaces.
fn unspaced(s: &[u8], i: usize, end: usize) -> u64
    requires { (i < end) × (end ≤ length s.now) × (end - i ≤ 11) × (get_or s.now i 0 ≡ 32 → ⊥) }
    ensures { result ≡ word_by (field_value (slice i end s.now)) }
{
    match s[i] {
        b'T' => alone(i + 1, end, TRUE),
        b'F' => alone(i + 1, end, FALSE),
        b'E' => alone(i + 1, end, ERR),
        b'Z' => alone(i + 1, end, ZERO_DIVISOR),
        b'V' => alone(i + 1, end, OUT_OF_RANGE),
        REAL_LETTER => behind_r(s, i + 1, end),
        b'-' => behind_minus(s, i + 1, end),
        _ => positive(number(s, i, end)),
    }
}

// The field whose eleven characters start at `at`.
pub fn word_in(s: &[u8], at: usize) -> u64
    requires { at + 11 ≤ length s.now }
    ensures { result ≡ word_by (field_value (slice at (at + 11) s.now)) }
{
    let end = at + VALUE_FIELD;
    match s[at..end].iter().position(|b| *b != b' ') {
        Some(k) => unspaced(s, at + k, end),
        None => NO_VALUE,
    }
}

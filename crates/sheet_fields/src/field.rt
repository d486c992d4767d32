// A decimal field of six characters (document 01, "The formula sheet": "decimal fields .. right-justified with spaces, no
// leading zeros; zero is one digit 0").
ghost use Rattle.std.specs.Prelude.{◌≡◌, Bool, ◌+◌, ◌*◌, ◌-◌, ◌≤◌, ◌<◌, length, get_or, Some};
ghost use Rattle.std.proofs.Math.Seq.{slice};
ghost use Rattle.formula.specs.Sheet.{field_of, digits_of, number_in};
ghost use Rattle.formula.specs.Tests.{well_formed};
ghost use Rattle.sheet_fields.specs.Decoding.{not_short};

// A field's characters, the last of which is no space.
const FIELD_BYTES: usize = 6;

const LAST: usize = 5;

fn digit(b: u8) -> u32
    requires { 48 ≤ b }
    ensures { result ≡ b - 48 }
{
    u32::from(b - b'0')
}

// The number `first`, then the digits of s from `from` to `end`.
fn digits(s: &[u8], from: usize, end: usize, first: u32) -> Option<u32>
    requires { (from ≤ end) × (end ≤ length s.now) × (end - from ≤ 8) × (first < 10) }
    ensures { result ≡ digits_of first (slice from end s.now) }
{
    let mut v = first;
    for &b in &s[from..end] {
        if !b.is_ascii_digit() {
            return None;
        }
        v = v * 10 + digit(b);
    }
    Some(v)
}

// How many of the five characters from `at` on are spaces, up to the first that is none: they add nothing to the field.
fn blanks(s: &[u8], at: usize) -> usize
    requires { at + 6 ≤ length s.now }
    ensures { (result ≤ 5) × (field_of (slice (at + result) (at + 6) s.now) ≡ field_of (slice at (at + 6) s.now)) × (result < 5 → get_or s.now (at + result) 0 ≡ 32 → ⊥) }
{
    for k in 0..LAST {
        if s[at + k] != b' ' {
            return k;
        }
    }
    LAST
}

// The field whose six characters start at `at`.
pub fn field_in(s: &[u8], at: usize) -> Option<u32>
    requires { at + 6 ≤ length s.now }
    ensures { result ≡ field_of (slice at (at + 6) s.now) }
{
    let k = blanks(s, at);
    let i = at + k;
    let b = s[i];
    if !b.is_ascii_digit() {
        return None;
    }
    if k == LAST {
        return Some(digit(b));
    }
    if b == b'0' {
        return None;
    }
    digits(s, i + 1, at + FIELD_BYTES, digit(b))
}

// Four characters as one number, which is one load of the machine.
fn four(s: &[u8], at: usize) -> u32
    requires { at + 4 ≤ length s.now }
    ensures { result ≡ get_or s.now at 0 + 256 * get_or s.now (at + 1) 0 + 65536 * get_or s.now (at + 2) 0 + 16777216 * get_or s.now (at + 3) 0 }
{
    u32::from_le_bytes([s[at], s[at + 1], s[at + 2], s[at + 3]])
}

// What the quick readings below give where they leave a field to `field_in`; a number that they read is less. No Option: reading takes most
// of its time here, and a number that is compared stays in one register.
pub const NOT_SHORT: u32 = 1000;

// The number of a field of one or two digits in two characters, NOT_SHORT where it is none.
fn two(s: &[u8], at: usize) -> u32
    requires { at + 2 ≤ length s.now }
    ensures { result < not_short → field_of (slice at (at + 2) s.now) ≡ Some result }
{
    let c = s[at];
    let d = s[at + 1];
    if !d.is_ascii_digit() {
        return NOT_SHORT;
    }
    if c == b' ' {
        return digit(d);
    }
    if !matches!(c, b'1'..=b'9') {
        return NOT_SHORT;
    }
    digit(c) * 10 + digit(d)
}

// The number of three digits, NOT_SHORT where they are none or begin with 0.
fn three(s: &[u8], at: usize) -> u32
    requires { at + 3 ≤ length s.now }
    ensures { result < not_short → field_of (slice at (at + 3) s.now) ≡ Some result }
{
    let b = s[at];
    let c = s[at + 1];
    let d = s[at + 2];
    if !matches!(b, b'1'..=b'9') || !c.is_ascii_digit() || !d.is_ascii_digit() {
        return NOT_SHORT;
    }
    (digit(b) * 10 + digit(c)) * 10 + digit(d)
}

// Four spaces as one number, and three in front of a character without that character's share.
const FOUR_SPACES: u32 = 538976288;

const THREE_SPACES: u32 = 2105376;

// The number of the field at `at` if it has three digits or fewer, as most have; else NOT_SHORT.
pub fn short(s: &[u8], at: usize) -> u32
    requires { at + 6 ≤ length s.now }
    ensures { result < not_short → field_of (slice at (at + 6) s.now) ≡ Some result }
{
    let w = four(s, at);
    if w == FOUR_SPACES {
        return two(s, at + 4);
    }
    if w != THREE_SPACES + 16777216 * u32::from(s[at + 3]) {
        return NOT_SHORT;
    }
    three(s, at + 3)
}

#![tactic(auto)]
// Printed fields and lines (text/specs/Printed; document 01, "Program and readings"). Each function writes at a place of a lent
// buffer and leaves its other bytes as they were.
ghost use Rattle.std.specs.Prelude.{◌≡◌, ◌+◌, ◌*◌, ◌%◌, ◌≤◌, ◌<◌, length, replicate};
ghost use Rattle.std.proofs.lemmas.List.Edits.{sets};
ghost use Rattle.value.specs.Bytes.{whole_of, truth_of};
ghost use Rattle.text.specs.Printed.{led as ledOf, shown, number_field, letter_field, option_field, word_field, result_line, head_line, refusal_line};

use text::{NUMBER_FIELD, PATTERNS, VALUE_BYTES, VALUE_FIELD};
use value::bytes::{OUT_OF_RANGE, REAL_LETTER, ZERO_DIVISOR};

// The numbers of 32 bits in two's complement: those from here on stand for the number less 2^32.
const FIRST_NEGATIVE: u64 = 1 << 31;

// Where a letter stands in a value's field, the third number in the first line, and the line feeds of that line and of a refusal's.
const LETTER_AT: usize = 10;

const THIRD_FIELD: usize = 12;

const HEAD_END: usize = 18;

const REFUSAL_END: usize = 12;

// The tags of a word (value/specs/Bytes).
const WHOLE: u64 = 1;

const TRUTH: u64 = 2;

const REAL: u64 = 4;

// Spaces, and last the character before a number.
fn lead(part: &mut [u8], before: u8)
    ensures { part.new ≡ ledOf before (length part.old) }
{
    part.fill(b' ');
    if let Some(last) = part.last_mut() {
        *last = before;
    }
}

// A number right-justified in the whole of a field, behind a space, "-" or R.
fn show(field: &mut [u8], before: u8, n: u64)
    ensures { field.new ≡ shown before (length field.old) n }
{
    let mut rest = n;
    for i in (0..field.len()).rev() {
        field[i] = b'0' + (rest % 10) as u8;
        if rest < 10 {
            lead(&mut field[..i], before);
            return;
        }
        rest /= 10;
    }
}

// A number in six characters.
pub fn put_number(out: &mut [u8], at: usize, n: u32)
    requires { at + 6 ≤ length out.old }
    ensures { out.new ≡ sets out.old at (number_field n) }
{
    let end = at + NUMBER_FIELD;
    show(&mut out[at..end], b' ', u64::from(n));
}

// A letter in eleven characters.
fn put_letter(out: &mut [u8], at: usize, letter: u8)
    requires { at + 11 ≤ length out.old }
    ensures { out.new ≡ sets out.old at (letter_field letter) }
{
    let end = at + LETTER_AT;
    out[at..end].fill(b' ');
    out[end] = letter;
}

// A whole number by its 32 bits, two's complement.
fn put_whole(out: &mut [u8], at: usize, bits: u64)
    requires { at + 11 ≤ length out.old }
    ensures { out.new ≡ sets out.old at (option_field (whole_of bits)) }
{
    let end = at + VALUE_FIELD;
    if bits < FIRST_NEGATIVE {
        show(&mut out[at..end], b' ', bits);
    } else if bits < PATTERNS {
        show(&mut out[at..end], b'-', PATTERNS - bits);
    } else {
        put_letter(out, at, b'E');
    }
}

fn put_truth(out: &mut [u8], at: usize, bits: u64)
    requires { at + 11 ≤ length out.old }
    ensures { out.new ≡ sets out.old at (option_field (truth_of bits)) }
{
    match bits {
        0 => put_letter(out, at, b'F'),
        1 => put_letter(out, at, b'T'),
        _ => put_letter(out, at, b'E'),
    }
}

// The value of a float's word: its pattern.
fn put_real(out: &mut [u8], at: usize, word: u64)
    requires { (at + 11 ≤ length out.old) × (word % 256 ≡ 4) }
    ensures { out.new ≡ sets out.old at (word_field word) }
{
    if value::bytes::is_value(word) {
        let end = at + VALUE_FIELD;
        show(&mut out[at..end], REAL_LETTER, word / 256);
    } else {
        put_letter(out, at, b'E');
    }
}

// The value of a word in eleven characters.
pub fn put_value(out: &mut [u8], at: usize, word: u64)
    requires { at + 11 ≤ length out.old }
    ensures { out.new ≡ sets out.old at (word_field word) }
{
    let bits = word / 256;
    match word % 256 {
        WHOLE => put_whole(out, at, bits),
        TRUTH => put_truth(out, at, bits),
        REAL => put_real(out, at, word),
        _ => match word {
            ZERO_DIVISOR => put_letter(out, at, b'Z'),
            OUT_OF_RANGE => put_letter(out, at, b'V'),
            // the plain err, or no value
            _ => put_letter(out, at, b'E'),
        },
    }
}

// The first k values of a result set, and a line feed.
pub fn put_results(out: &mut [u8], at: usize, k: usize, results: &[u8])
    requires { (k ≤ 16) × (5 * k ≤ length results.now) × (at + 11 * k + 1 ≤ length out.old) }
    ensures { out.new ≡ sets out.old at (result_line k results.now) }
{
    for j in 0..k {
        let word = value::bytes::load(results, VALUE_BYTES * j);
        put_value(out, at + VALUE_FIELD * j, word);
    }
    out[at + VALUE_FIELD * k] = b'\n';
}

// Inputs, results and sets, in three fields.
pub fn put_head(out: &mut [u8], inputs: u32, results: u32, count: u32)
    requires { 19 ≤ length out.old }
    ensures { out.new ≡ sets out.old 0 (head_line inputs results count) }
{
    put_number(out, 0, inputs);
    put_number(out, NUMBER_FIELD, results);
    put_number(out, THIRD_FIELD, count);
    out[HEAD_END] = b'\n';
}

// A refusal's number and row, in two fields.
pub fn put_refusal(out: &mut [u8], at: usize, number: u32, row: u32)
    requires { at + 13 ≤ length out.old }
    ensures { out.new ≡ sets out.old at (refusal_line number row) }
{
    put_number(out, at, number);
    put_number(out, at + NUMBER_FIELD, row);
    out[at + REFUSAL_END] = b'\n';
}

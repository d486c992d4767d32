#![tactic(auto)]
// Stored drifts (document 02, Job 13): makes the cases 001, 002 and so on, up to the first without room.txt, and writes for each what the
// call answers, refusal, row and results, in six-character fields, and where there are results their numbers in a line of eleven-character
// fields. A case has a sheet in formula.txt, its kinds line in kinds.txt, the bytes of its tolerances in tolerances, and in room.txt how many
// bytes are lent for the numbers, in a six-character field. The cases in data/ and the answers in stdout are those of the separately written
// drift (compare/, drift_cases).
ghost use Rattle.std.specs.Prelude.{◌≡◌, ◌≤◌, length};
ghost use Rattle.files.specs.Counts.{IsPrefixLen};
ghost use Rattle.text.specs.Printed.{head_line as headLine};

use case_files::{KINDS_LINE, MOST_CASES, head_line, load_case};
use files::{LONG, SHORT, count};
use sheet_drift::numbers::NUMBER_BYTES;
use sheet_drift::{DriftAnswer, drift};
use sheet_fields::field::field_in;
use std::rt::Files;
use text::{HEAD_LINE, RESULT_LINE, VALUE_FIELD};
use text_print::put_value;

// A line of room.txt.
const ROOM_LINE: usize = 7;

// The results that a formula has at the most.
const MOST_RESULTS: usize = 16;

// The tag of a word that is a whole number (value/specs/Bytes), and what the number behind it counts.
const WHOLE: u64 = 1;

const SECOND_BYTE: u64 = 256;

// How many bytes of a buffer are lent, by a line of room.txt: none where it is malformed.
fn room_of(line: &[u8], buf: &[u8]) -> usize
    requires { 7 ≤ length line.now }
    ensures { IsPrefixLen result buf.now }
{
    count(field_in(line, 0).unwrap_or(0) as isize, buf)
}

// An answer as a line.
fn line(a: DriftAnswer) -> [u8; HEAD_LINE]
    ensures { result ≡ headLine a.refusal a.row a.results }
{
    head_line(a.refusal, a.row, a.results)
}

// The word of a whole number, by its bytes, lowest first.
fn word_of(number: &[u8; NUMBER_BYTES]) -> u64 {
    WHOLE + SECOND_BYTE * u64::from(u32::from_le_bytes(*number))
}

// Writes a line of so many numbers, where there are so many.
fn write_numbers(rt: &impl Print, numbers: &[u8], results: u32) {
    let n = results as usize;
    let (numbers, _) = numbers.as_chunks::<NUMBER_BYTES>();
    if MOST_RESULTS < n || numbers.len() < n {
        return;
    }
    let mut text = [b'\n'; RESULT_LINE];
    for (i, number) in numbers[..n].iter().enumerate() {
        put_value(&mut text, VALUE_FIELD * i, word_of(number));
    }
    let _ = rt.write_all(&text[..VALUE_FIELD * n + 1]);
}

// Makes the call with memory that is lent, and writes the answer and the numbers.
fn tell(rt: &impl Print, sheet: &[u8], kinds: &[u8], tolerances: &[u8], out: &mut [u8]) {
    let a = drift(sheet, kinds, tolerances, out);
    let _ = rt.write_all(&line(a));
    if 0 < a.results {
        write_numbers(rt, out, a.results);
    }
}

// Makes case k; none where it is missing.
fn show<R: Files + Print>(rt: &R, k: u32) -> Option<()>
    requires { k ≤ 999 }
{
    let mut asked = [0u8; ROOM_LINE];
    let n = load_case(rt, k, "room.txt", &mut asked);
    if n < ROOM_LINE {
        return None;
    }
    let mut out = [0u8; SHORT];
    let room = room_of(&asked, &out);
    let mut sheet = [0u8; LONG];
    let rows = load_case(rt, k, "formula.txt", &mut sheet);
    let mut kinds = [0u8; KINDS_LINE];
    let told = load_case(rt, k, "kinds.txt", &mut kinds);
    let mut tolerances = [0u8; SHORT];
    let size = load_case(rt, k, "tolerances", &mut tolerances);
    tell(
        rt,
        &sheet[..rows],
        &kinds[..told],
        &tolerances[..size],
        &mut out[..room],
    );
    Some(())
}

fn main(rt: HostRuntime) {
    for k in 1..=MOST_CASES {
        if show(&rt, k).is_none() {
            return;
        }
    }
}

#![tactic(auto)]
// Stored checks of logs (document 02, Job 3): reads the cases 001, 002 and so on, up to the first without asked.txt, and writes for each
// what the checker answers, refusal, row, results and their width, in six-character fields, then a line for each result. A case has a sheet
// in formula.txt, its kinds line in kinds.txt, a list of sets as the set lines of sets.txt, a log in log.txt, and in asked.txt the capacity
// and how many sets the list is told to have, in two six-character fields. Machine and results are lent 65,536 bytes each. The cases in
// data/ and the answers in stdout are those of the separately written checker (compare/, log_cases).
ghost use Rattle.std.specs.Prelude.{◌≡◌, ◌≤◌};
ghost use Rattle.log_runs.specs.Lines.{line_of};

use case_files::{KINDS_LINE, MOST_CASES, letters_of, load_case, load_sets, result_line};
use files::{LONG, SHORT};
use machine_log::{LogAnswer, check_log};
use sheet_fields::field::field_in;
use std::rt::Files;
use text::{NUMBER_FIELD, RESULT_BYTES, RESULT_LINE, VALUE_BYTES};
use text_print::{put_number, put_refusal};

const ANSWER_LINE: usize = 25;

// Where the third field of an answer starts.
const THIRD_FIELD: usize = 12;

// A line of asked.txt.
const ASKED: usize = 13;

// A number of asked.txt; 0 where it is malformed.
fn number_at(asked: &[u8; ASKED], at: usize) -> u32
    requires { at ≤ 6 }
{
    match field_in(asked, at) {
        Some(n) => n,
        None => 0,
    }
}

// An answer as a line.
fn line(a: LogAnswer) -> [u8; ANSWER_LINE]
    ensures { result ≡ line_of a }
{
    let mut out = [0u8; ANSWER_LINE];
    put_number(&mut out, 0, a.refusal);
    put_number(&mut out, NUMBER_FIELD, a.row);
    put_refusal(&mut out, THIRD_FIELD, a.count, a.width);
    out
}

// Writes a line for each result that was handed out.
fn write_results(rt: &impl Print, results: &[u8], count: u32, width: u32) {
    for result in results.chunks_exact(RESULT_BYTES).take(count as usize) {
        let mut text = [0u8; RESULT_LINE];
        let n = result_line(&mut text, result, width);
        let _ = rt.write_all(&text[..n]);
    }
}

// Checks a log, and writes the answer and the results.
fn check(
    rt: &impl Print,
    sheet: &[u8],
    kinds: &[u8],
    capacity: u32,
    sets: &[u8],
    number: u32,
    log: &[u8],
) {
    let mut mem = [0u8; LONG];
    let mut out = [0u8; LONG];
    let a = check_log(
        sheet, kinds, capacity, sets, number, log, &mut mem, &mut out,
    );
    let _ = rt.write_all(&line(a));
    write_results(rt, &out, a.count, a.width);
}

// Makes case k; none where it is missing.
fn show<R: Files + Print>(rt: &R, k: u32) -> Option<()>
    requires { k ≤ 999 }
{
    let mut asked = [0u8; ASKED];
    let n = load_case(rt, k, "asked.txt", &mut asked);
    if n < ASKED {
        return None;
    }
    let mut sheet = [0u8; LONG];
    let rows = load_case(rt, k, "formula.txt", &mut sheet);
    let mut kinds = [0u8; KINDS_LINE];
    let told = load_case(rt, k, "kinds.txt", &mut kinds);
    let letters = letters_of(&kinds[..told]);
    let mut sets = [0u8; SHORT];
    let size = load_sets(rt, k, &kinds[..letters], VALUE_BYTES * letters, &mut sets);
    let mut log = [0u8; LONG];
    let end = load_case(rt, k, "log.txt", &mut log);
    check(
        rt,
        &sheet[..rows],
        &kinds[..told],
        number_at(&asked, 0),
        &sets[..size],
        number_at(&asked, NUMBER_FIELD),
        &log[..end],
    );
    Some(())
}

fn main(rt: HostRuntime) {
    for k in 1..=MOST_CASES {
        if show(&rt, k).is_none() {
            return;
        }
    }
}

#![tactic(auto)]
// Stored lists of calls on machines with tags (document 02, Job 12): reads the cases 001, 002 and so on, up to the first without a line in
// calls.txt. A case has a sheet in formula.txt, its kinds line in kinds.txt, sets as the set lines of sets.txt, and in calls.txt a line of
// three six-character fields for each call: 1 and a set's number for push, 2, an operator and a tag for fire, 3 and a number of firings for
// run, 4 and a tag for take. Written are a line for start, 0, refusal and row, and, where it is accepted, a line for each call, its first
// field, refusal and count, in six-character fields, with the result behind an accepted take. A set that there is not has no bytes. The cases
// in data/ and the answers in stdout are those of the separately written machine (compare/, tag_cases).
ghost use Rattle.std.specs.Prelude.{◌≤◌, length};

use case_files::{
    KINDS_LINE, MOST_CASES, head_line, letters_of, load_case, load_sets, result_line,
};
use files::{LONG, SHORT};
use machine_calls::Answer;
use machine_tag_calls::{fire, push, run, take};
use machine_tag_start::start;
use machine_tag_valid::TAGGED_NEED;
use sheet_fields::field::field_in;
use std::rt::Files;
use text::{NUMBER_FIELD, RESULT_BYTES, RESULT_LINE, SET_BYTES, VALUE_BYTES};

// The first field of a call's line, a number as calls.txt and what is printed have it; any other than these is a run.
const START: u32 = 0;

const PUSH: u32 = 1;

const FIRE: u32 = 2;

const TAKE: u32 = 4;

// A line of calls.txt, and where its third field starts.
const CALL_LINE: usize = 19;

const THIRD_FIELD: usize = 12;

// Sets, each in a place that has room for the longest, and the bytes of one.
#[derive(Clone, Copy)]
struct Sets<'a> {
    places: &'a [u8],
    size: usize,
}

impl<'a> Sets<'a> {
    // Set k, which counts from 1; none where there is no such set.
    fn get(&self, k: u32) -> Option<&'a [u8]> {
        let at = SET_BYTES * k.checked_sub(1)? as usize;
        self.places.get(at..)?.get(..self.size)
    }
}

fn write_answer(rt: &impl Print, call: u32, a: Answer) {
    let _ = rt.write_all(&head_line(call, a.refusal, a.count));
}

// Takes a tag's result, and writes the answer and the result.
fn show_take(rt: &impl Print, mem: &mut [u8], tag: u32) {
    let mut result = [0u8; RESULT_BYTES];
    let a = take(mem, tag, &mut result);
    write_answer(rt, TAKE, a);
    if a.refusal == 0 {
        let mut text = [0u8; RESULT_LINE];
        let n = result_line(&mut text, &result, a.count);
        let _ = rt.write_all(&text[..n]);
    }
}

// Makes a call that hands out no result.
fn make_call(mem: &mut [u8], sets: Sets<'_>, call: u32, a: u32, b: u32) -> Answer {
    match call {
        PUSH => push(mem, sets.get(a).unwrap_or(&[])),
        FIRE => fire(mem, a, b),
        _ => run(mem, a),
    }
}

// Makes the call of a line, and writes what it answers.
fn show_call(rt: &impl Print, mem: &mut [u8], sets: Sets<'_>, line: &[u8])
    requires { 19 ≤ length line.now }
{
    let call = field_in(line, 0).unwrap_or(0);
    let a = field_in(line, NUMBER_FIELD).unwrap_or(0);
    let b = field_in(line, THIRD_FIELD).unwrap_or(0);
    if call == TAKE {
        show_take(rt, mem, a);
        return;
    }
    write_answer(rt, call, make_call(mem, sets, call, a, b));
}

// Starts a machine and makes the calls of a list one after another.
fn show_machine(rt: &impl Print, sheet: &[u8], kinds: &[u8], sets: Sets<'_>, calls: &[u8]) {
    let mut mem = [0u8; TAGGED_NEED];
    let a = start(sheet, kinds, &mut mem);
    let _ = rt.write_all(&head_line(START, a.refusal, a.row));
    if a.refusal == 0 {
        for call in calls.chunks_exact(CALL_LINE) {
            show_call(rt, &mut mem, sets, call);
        }
    }
}

// Makes case k; none where it is missing.
fn show<R: Files + Print>(rt: &R, k: u32) -> Option<()>
    requires { k ≤ 999 }
{
    let mut calls = [0u8; LONG];
    let n = load_case(rt, k, "calls.txt", &mut calls);
    if n < CALL_LINE {
        return None;
    }
    let mut sheet = [0u8; LONG];
    let rows = load_case(rt, k, "formula.txt", &mut sheet);
    let mut kinds = [0u8; KINDS_LINE];
    let told = load_case(rt, k, "kinds.txt", &mut kinds);
    let letters = letters_of(&kinds[..told]);
    let mut places = [0u8; SHORT];
    let end = load_sets(rt, k, &kinds[..letters], SET_BYTES, &mut places);
    let sets = Sets {
        places: &places[..end],
        size: VALUE_BYTES * letters,
    };
    show_machine(rt, &sheet[..rows], &kinds[..told], sets, &calls[..n]);
    Some(())
}

fn main(rt: HostRuntime) {
    for k in 1..=MOST_CASES {
        if show(&rt, k).is_none() {
            return;
        }
    }
}

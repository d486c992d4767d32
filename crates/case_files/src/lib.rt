#![tactic(auto)]
// What the programs over stored cases share. Case k, from 1 on, has its files in folder k of the working directory, whose name has three
// digits; its answers are printed as lines.
ghost use Rattle.std.specs.Prelude.{◌≡◌, ◌+◌, ◌*◌, ◌-◌, ◌%◌, ◌≤◌, min, length, take, IfSome};
ghost use Rattle.files.specs.Counts.{IsPrefixLen};
ghost use Rattle.text.specs.Printed.{head_line as headLine};
ghost use Rattle.case_files.specs.Paths.{case_path};
ghost use Rattle.case_files.specs.Results.{shown_result};

use arrayvec::ArrayString;
use files::{LONG, open_read, read_full};
use std::rt::Files;
use text::{HEAD_LINE, RESULT_BYTES, RESULT_LINE, VALUE_FIELD};
use text_print::{put_head, put_results};
use text_read::sets::read_set;

pub const MOST_CASES: u32 = 999;

// More than any kinds line has: 32 letters and a line feed.
pub const KINDS_LINE: usize = 64;

const MOST_INPUTS: usize = 32;

// The width of the widest result set.
const MOST_WIDTH: usize = 16;

// The longest name, formula.txt; before it stand a folder's three digits and a slash.
const LONGEST_NAME: usize = 11;

const PATH: usize = 15;

// The last digit of k.
fn digit(k: u32) -> char
    ensures { result ≡ 48 + k % 10 }
{
    char::from(b'0' + (k % 10) as u8)
}

// The path of the file of case k that has this name. Not by `write!`, of which no contract says that it succeeds.
#[tactic(auto, unfolding(crate::specs::Paths::case_path, crate::specs::Paths::digit_at))]
fn path(k: u32, name: &str) -> ArrayString<PATH>
    requires { length name.now ≤ 11 }
    ensures { result.bytes ≡ case_path k name.now }
{
    let mut path = ArrayString::new();
    path.push(digit(k / 100));
    path.push(digit(k / 10));
    path.push(digit(k));
    path.push('/');
    path.push_str(name);
    path
}

// Reads as much of the file of case k that has this name as fits, none where it is missing.
pub fn read_case<R: Files>(files: &R, k: u32, name: &str, buf: &mut [u8]) -> Option<usize>
    requires { k ≤ 999 }
    ensures { IfSome result (λ n. IsPrefixLen n buf.new) }
{
    if LONGEST_NAME < name.len() {
        return None;
    }
    let path = path(k, name);
    let mut file = open_read(files, path.as_bytes())?;
    Some(read_full(&mut file, buf))
}

// The same, nothing where it is missing.
pub fn load_case<R: Files>(files: &R, k: u32, name: &str, buf: &mut [u8]) -> usize
    requires { k ≤ 999 }
    ensures { IsPrefixLen result buf.new }
{
    match read_case(files, k, name, buf) {
        Some(n) => n,
        None => 0,
    }
}

// How many letters a kinds line has, as far as there can be inputs.
pub fn letters_of(kinds: &[u8]) -> usize
    ensures in_bounds { IsPrefixLen result kinds.now × (result ≤ 32) }
    ensures value { result ≡ min (length kinds.now - 1) 32 }
{
    kinds.len().saturating_sub(1).min(MOST_INPUTS)
}

// The sets of a file's lines up to the first line that is none, each `step` bytes behind the one before; gives the bytes up to
// where the next would be.
fn read_sets(lines: &[u8], kinds: &[u8], step: usize, sets: &mut [u8]) -> usize
    requires { (length kinds.now ≤ 32) × (5 * length kinds.now ≤ step) }
    ensures { IsPrefixLen result sets.new }
{
    let mut end = 0;
    for line in lines.chunks(VALUE_FIELD * kinds.len() + 1) {
        if sets.len() - end < step || !read_set(line, 0, kinds, &mut sets[end..]) {
            break;
        }
        end += step;
    }
    end
}

// The sets of case k for inputs of these kinds.
pub fn load_sets<R: Files>(files: &R, k: u32, kinds: &[u8], step: usize, sets: &mut [u8]) -> usize
    requires { (k ≤ 999) × (length kinds.now ≤ 32) × (5 * length kinds.now ≤ step) }
    ensures { IsPrefixLen result sets.new }
{
    let mut lines = [0u8; LONG];
    let n = load_case(files, k, "sets.txt", &mut lines);
    read_sets(&lines[..n], kinds, step, sets)
}

// Three numbers as a line.
pub fn head_line(a: u32, b: u32, c: u32) -> [u8; HEAD_LINE]
    ensures { result ≡ headLine a b c }
{
    let mut out = [0u8; HEAD_LINE];
    put_head(&mut out, a, b, c);
    out
}

// A result set as a line at the front of `text`, and the line's bytes: none where the width is none or not all of the set is there.
pub fn result_line(text: &mut [u8; RESULT_LINE], results: &[u8], width: u32) -> usize
    ensures shown { take result text.new ≡ shown_result width results.now }
    ensures in_bounds { IsPrefixLen result text.new }
{
    let values = width as usize;
    if MOST_WIDTH < values || results.len() < RESULT_BYTES {
        return 0;
    }
    put_results(text, 0, values, results);
    VALUE_FIELD * values + 1
}

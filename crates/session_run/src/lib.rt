#![tactic(auto)]
// The bench program on three files: reads them, opens the session, and writes what each repetition prints. What is read and
// written no contract can say; that the parts belong together is said here.
pub mod opening; // opening.rt: the tests and the first line

ghost use Rattle.std.specs.Prelude.{◌≡◌, ◌+◌, ◌≤◌, length, IfSome};
ghost use Rattle.files.specs.Counts.{IsPrefixLen};
ghost use Rattle.session.specs.Reading.{Continued, SheetRead};
ghost use Rattle.session.specs.Output.{most_sheet_bytes, most_set_bytes};
ghost use Rattle.session.specs.Passes.{out_bytes};
ghost use Rattle.session.specs.Opening.{kinds_read};
ghost use Rattle.session.specs.Ending.{Proceeds, RepeatsTo};

use crate::opening::open;
use files::{LONG, open_read, read_full};
use session::{KINDS_READ, Opened, SETS_READ, Sheet};
use session_pass::pass;
use std::io::Read;
use std::rt::Files;
use text::{SHEET, Seen};

// One part more of a file, seen; none where there was none.
fn see_part(file: &mut impl Read, x: Seen) -> Option<Seen>
    ensures { IfSome result (λ y. Continued x y) }
{
    let mut part = [0u8; LONG];
    let n = read_full(file, &mut part);
    if n == 0 {
        return None;
    }
    Some(text_read::scan::scan(x, &part[..n]))
}

// The rest of a file, seen, up to the part behind its last. The count bounds what no file reaches.
fn see_rest(file: &mut impl Read, x: Seen) -> Seen
    ensures { Continued x result }
{
    let mut y = x;
    for _ in 0..u64::MAX {
        let Some(more) = see_part(file, y) else {
            break;
        };
        y = more;
    }
    y
}

// Reads a sheet's first bytes and sees the others. "A missing file counts as empty."
fn read_sheet<R: Files>(files: &R, path: &[u8], first: &mut [u8]) -> Sheet
    requires { most_sheet_bytes ≤ length first.old }
    ensures { SheetRead first.new result }
{
    let none = text_read::scan::none_seen();
    let Some(mut file) = open_read(files, path) else {
        return Sheet {
            length: 0,
            seen: none,
        };
    };
    let length = read_full(&mut file, first);
    let seen = text_read::scan::scan(none, &first[..length]);
    if length < SHEET {
        return Sheet { length, seen };
    }
    let all = see_rest(&mut file, seen);
    Sheet { length, seen: all }
}

// Reads as much of a file as fits, nothing where it is missing.
fn load<R: Files>(files: &R, path: &[u8], buf: &mut [u8]) -> usize
    ensures { IsPrefixLen result buf.new }
{
    match open_read(files, path) {
        Some(mut file) => read_full(&mut file, buf),
        None => 0,
    }
}

// Reads a kinds line: no right one is longer than what is read, so what stands behind it makes no difference.
fn load_kinds<R: Files>(files: &R, path: &[u8], line: &mut [u8]) -> usize
    requires { kinds_read ≡ length line.old }
    ensures { IsPrefixLen result line.new }
{
    load(files, path, line)
}

// Reads the sets, and of a file with more bytes than one may have the byte that tells so.
fn load_sets<R: Files>(files: &R, path: &[u8], sets: &mut [u8]) -> usize
    requires { most_set_bytes + 1 ≡ length sets.old }
    ensures { IsPrefixLen result sets.new }
{
    load(files, path, sets)
}

// Writes the first part, and repeats until every set is taken. It ends since each repetition
// leaves fewer sets to take and firings to make (session/specs/Onward).
fn repeat(
    rt: &impl Print,
    mem: &mut [u8],
    sets: &[u8],
    kinds: &[u8],
    opened: Opened,
    out: &mut [u8],
)
    requires kinds_len_bound { (length kinds.now ≤ 32) × (opened.stage.at ≤ length sets.now) × (opened.stage.printed ≤ out_bytes) × (out_bytes ≤ length out.old) }
    requires proceeds { Proceeds kinds.now sets.now opened.stage mem.old }
    ensures { RepeatsTo kinds.now sets.now opened.stage mem.old mem.new }
{
    let mut stage = opened.stage;
    let mut printed = stage.printed;
    let _ = rt.write_all(&out[..printed]);
    while 0 < stage.remaining {
        stage = pass(mem, sets, kinds, stage, out);
        printed = stage.printed;
        let _ = rt.write_all(&out[..printed]);
    }
}

// The paths are bytes, since those of a list of runs are: one that is no text is that of a missing file.
pub fn run<R: Files + Print>(rt: &R, formula: &[u8], kinds: &[u8], file: &[u8]) {
    // "over 200 rows" is refused, so 200 rows are all that is ever looked at.
    let mut first = [0u8; SHEET];
    let mut line = [0u8; KINDS_READ];
    let mut sets = [0u8; SETS_READ];
    let mut mem = [0u8; LONG];
    let mut out = [0u8; LONG];
    let sheet = read_sheet(rt, formula, &mut first);
    let told = load_kinds(rt, kinds, &mut line);
    let n = load_sets(rt, file, &mut sets);
    let length = sheet.length;
    let opened = open(
        &first[..length],
        sheet.seen,
        &line[..told],
        &sets[..n],
        &mut mem,
        &mut out,
    );
    let inputs = opened.inputs;
    repeat(rt, &mut mem, &sets[..n], &line[..inputs], opened, &mut out);
}

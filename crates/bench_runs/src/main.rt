#![tactic(auto)]
// Stored runs of the bench program: each line of data/runs.txt has the paths of a run's three files, with a space between, and
// what the runs must print stands in stdout, one after the other. In their order: accepted sheets and sets; a sheet at
// fault; a kinds line at fault, and rows that break the kinds; a field that is no value, or of another kind; a line of another
// length, or unended; files that are missing, cannot be read or are too long; a million firings, and more. Folder `missing` has
// no file; in `folders` the files are folders; a folder `kinds_` may have only the file that differs.
// What `million_one`, `behind_endless` and `starved` print before their 36 rests on the numbering of docs/NUMBERING.md.
ghost use Rattle.std.specs.Prelude.{◌+◌, ◌≡◌, length, IfSome};

use files::{LONG, open_read, read_full};
use session_run::run;
use std::rt::Files;

// The bytes before the first b and those behind it, none where it does not stand.
fn cut(list: &[u8], b: u8) -> Option<(&[u8], &[u8])>
    ensures { IfSome result (λ parts. length parts.0.now + 1 + length parts.1.now ≡ length list.now) }
{
    let at = list.iter().position(|x| *x == b)?;
    Some((&list[..at], &list[at + 1..]))
}

// Makes each run of a list.
fn run_all<R: Files + Print>(rt: &R, list: &[u8]) -> Option<()> {
    let mut rest = list;
    while !rest.is_empty() {
        let (formula, behind) = cut(rest, b' ')?;
        let (kinds, behind) = cut(behind, b' ')?;
        let Some((file, behind)) = cut(behind, b'\n') else {
            run(rt, formula, kinds, behind);
            return None;
        };
        run(rt, formula, kinds, file);
        rest = behind;
    }
    Some(())
}

fn main(rt: HostRuntime) {
    let mut list = [0u8; LONG];
    let Some(mut file) = open_read(&rt, b"runs.txt") else {
        return;
    };
    let n = read_full(&mut file, &mut list);
    let _ = run_all(&rt, &list[..n]);
}

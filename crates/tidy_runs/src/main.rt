#![tactic(auto)]
// Stored tidied sheets (document 02, Job 8): tidies the sheets 001/formula.txt, 002/formula.txt and so on, up to the first that is missing,
// and writes for each what the call answers, refusal, row and rows, in six-character fields, and then the new sheet. The sheets in data/ and
// what stdout has are those of the separately written tidy (compare/, tidy_cases).
ghost use Rattle.std.specs.Prelude.{◌≡◌, ◌≤◌};
ghost use Rattle.text.specs.Printed.{head_line as headLine};

use case_files::{MOST_CASES, head_line, read_case};
use files::LONG;
use sheet_fields::layout::{MOST_ROWS, ROW_BYTES};
use sheet_tidy::{TidyAnswer, tidy};
use std::rt::Files;
use text::HEAD_LINE;

// An answer as a line.
fn line(a: TidyAnswer) -> [u8; HEAD_LINE]
    ensures { result ≡ headLine a.refusal a.row a.rows }
{
    head_line(a.refusal, a.row, a.rows)
}

// Tidies a sheet, and writes the answer and the new sheet.
fn write_tidied(rt: &impl Print, sheet: &[u8]) {
    let mut out = [0u8; LONG];
    let a = tidy(sheet, &mut out);
    let _ = rt.write_all(&line(a));
    let rows = a.rows as usize;
    if rows <= MOST_ROWS {
        let _ = rt.write_all(&out[..ROW_BYTES * rows]);
    }
}

// Makes case k; none where it is missing.
fn show<R: Files + Print>(rt: &R, k: u32) -> Option<()>
    requires { k ≤ 999 }
{
    let mut sheet = [0u8; LONG];
    let n = read_case(rt, k, "formula.txt", &mut sheet)?;
    write_tidied(rt, &sheet[..n]);
    Some(())
}

fn main(rt: HostRuntime) {
    for k in 1..=MOST_CASES {
        if show(&rt, k).is_none() {
            return;
        }
    }
}

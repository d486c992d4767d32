#![tactic(auto)]
// Reads the sheets 001/formula.txt, 002/formula.txt and so on with their kinds lines 001/kinds.txt and so on, up to the first
// that is missing, and writes for each what bench_read answers: refusal, row, rows, operators, inputs, results, in
// six-character fields. The sheets in data/ and the answers in stdout are those of the separately written reader (compare/,
// reader_cases).
ghost use Rattle.std.specs.Prelude.{◌≡◌, ◌≤◌};
ghost use Rattle.formula.specs.Tests.{reading_of};
ghost use Rattle.sheet_read.specs.Reading.{answer_of};
ghost use Rattle.sheet_runs.specs.Lines.{line_of};

use case_files::{KINDS_LINE, MOST_CASES, read_case};
use files::LONG;
use sheet_read::read::{ReadAnswer, bench_read};
use std::rt::Files;
use text::NUMBER_FIELD;
use text_print::put_number;

const LINE: usize = 37;

fn line(a: ReadAnswer) -> [u8; LINE]
    ensures { result ≡ line_of a }
{
    let mut out = [b'\n'; LINE];
    put_number(&mut out, 0, a.refusal);
    put_number(&mut out, NUMBER_FIELD, a.row);
    put_number(&mut out, 2 * NUMBER_FIELD, a.rows);
    put_number(&mut out, 3 * NUMBER_FIELD, a.operators);
    put_number(&mut out, 4 * NUMBER_FIELD, a.inputs);
    put_number(&mut out, 5 * NUMBER_FIELD, a.results);
    out
}

// What reading says of a sheet with its kinds line, as a line.
fn told(sheet: &[u8], kinds: &[u8]) -> [u8; LINE]
    ensures { result ≡ line_of (answer_of (reading_of sheet.now kinds.now)) }
{
    line(bench_read(sheet, kinds))
}

// Writes the line of sheet k; none where it or its kinds line is missing, or the write fails.
fn show<R: Files + Print>(rt: &R, k: u32) -> Option<()>
    requires { k ≤ 999 }
{
    let mut sheet = [0u8; LONG];
    let n = read_case(rt, k, "formula.txt", &mut sheet)?;
    let mut kinds = [0u8; KINDS_LINE];
    let m = read_case(rt, k, "kinds.txt", &mut kinds)?;
    rt.write_all(&told(&sheet[..n], &kinds[..m])).ok()
}

fn main(rt: HostRuntime) {
    for k in 1..=MOST_CASES {
        if show(&rt, k).is_none() {
            return;
        }
    }
}

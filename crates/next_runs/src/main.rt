#![tactic(auto)]
// The list of small sheets (document 02, Job 14), walked from the empty sheet on: each call is lent what the one before wrote, up to the
// first that is refused. Written are every 5,000th sheet, behind the answer that it came with, refusal, row and rows in six-character fields;
// wherever the number of rows changes, the rows up to then, how many sheets have so many and how many have up to so many, in such fields, and
// a line with FNV-1a (64 bits) over all bytes so far; at the end the last sheet and the refused call's answer. What stdout has is the list of
// the separately written enumerator (compare/, next_cases).
ghost use Rattle.std.specs.Prelude.{◌≡◌, ◌+◌, ◌<◌, ◌≤◌, length};
ghost use Rattle.text.specs.Printed.{head_line as headLine};

use case_files::head_line;
use sheet_fields::layout::ROW_BYTES;
use sheet_next::{NextAnswer, next_sheet};
use text::HEAD_LINE;

// The rows and bytes of the longest small sheet; more sheets than there are.
const SMALL_ROWS: usize = 5;

const SMALL_BYTES: usize = SMALL_ROWS * ROW_BYTES;

const MOST_SHEETS: u32 = 99999;

const SHOWN: u32 = 5000;

// FNV-1a of no bytes.
const NO_BYTES: u64 = 0xcbf29ce484222325;

// FNV's prime, 2 to the 40th and 435.
const PRIME: u64 = (1 << 40) + 435;

// An answer as a line.
fn answer_line(a: NextAnswer) -> [u8; HEAD_LINE]
    ensures { result ≡ headLine a.refusal a.row a.rows }
{
    head_line(a.refusal, a.row, a.rows)
}

// A digest with a sheet's bytes more.
fn digest_with(digest: u64, sheet: &[u8]) -> u64 {
    let mut sum = digest;
    for b in sheet {
        sum = (sum ^ u64::from(*b)).wrapping_mul(PRIME);
    }
    sum
}

// The bytes of so many rows; no small sheet has more than five.
fn bytes_of(rows: u32) -> usize
    ensures { result ≤ 155 }
{
    let n = rows as usize;
    if SMALL_ROWS < n {
        return 0;
    }
    ROW_BYTES * n
}

// Writes how many sheets have so many rows, and how many are listed up to them.
fn write_count(rt: &impl Print, rows: u32, alike: u32, listed: u32, digest: u64) {
    let _ = rt.write_all(&head_line(rows, alike, listed));
    let _ = println!(rt; "{digest:016x}");
}

// Writes some rows of a sheet.
fn write_rows(rt: &impl Print, sheet: &[u8], rows: u32) {
    if let Some(part) = sheet.get(..bytes_of(rows)) {
        let _ = rt.write_all(part);
    }
}

// Writes a sheet behind its answer where it is to be shown.
fn show(rt: &impl Print, listed: u32, a: NextAnswer, sheet: &[u8]) {
    if listed % SHOWN == 0 {
        let _ = rt.write_all(&answer_line(a));
        write_rows(rt, sheet, a.rows);
    }
}

fn main(rt: HostRuntime) {
    let mut sheet = [0u8; SMALL_BYTES];
    let mut rows = 0;
    let mut alike = 0;
    let mut digest = NO_BYTES;
    for listed in 1..=MOST_SHEETS {
        let mut next = [0u8; SMALL_BYTES];
        let a = next_sheet(&sheet[..bytes_of(rows)], &mut next);
        if a.rows != rows {
            write_count(&rt, rows, alike, listed - 1, digest);
            alike = 0;
        }
        if a.refusal != 0 {
            write_rows(&rt, &sheet, rows);
            let _ = rt.write_all(&answer_line(a));
            return;
        }
        sheet = next;
        rows = a.rows;
        alike += 1;
        digest = digest_with(digest, &sheet[..bytes_of(rows)]);
        show(&rt, listed, a, &sheet);
    }
}

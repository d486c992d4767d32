#![tactic(auto)]
// Tidying a formula sheet (document 02, Job 8): rows that cannot be reached from the last are dropped, the rest renumbered and written to
// lent memory. Refusals 11, then 1 to 5. The definitions are specs/Tidying and sheet_tidied's; the contract of `tidy`, which the entry point
// calls, is an equation on the answer and on every lent byte, and asks nothing of its caller.
pub mod kept;
pub mod rows;

ghost use Rattle.std.specs.Prelude.{◌≡◌, ◌*◌, ◌≤◌, length};
ghost use Rattle.std.proofs.lemmas.List.Edits.{sets};
ghost use Rattle.formula.specs.Refusals.{number_of};
ghost use Rattle.formula.specs.TreeLaws.{Named};
ghost use Rattle.sheet_tidied.specs.Text.{sheet_text};
ghost use Rattle.sheet_tidied.specs.Tidy.{tidy_need};
ghost use Rattle.sheet_tidy.specs.Rows.{rows_of};
ghost use Rattle.sheet_tidy.specs.Tidying.{handed, answers, tidied_into};

use crate::kept::{find_kept, number_rows};
use crate::rows::write_rows;
use formula::{Refusal, Refused};
use sheet_fields::layout::{MOST_ROWS, ROW_BYTES};
use sheet_fields::shape::{FIELDS, MOST_FIELDS};
use sheet_read::read::row_tests;

// The answer: document 01's number of a refusal, 0 where accepted; its row; the rows of the new sheet.
#[repr(C)]
#[derive(Clone, Copy)]
pub struct TidyAnswer {
    pub refusal: u32,
    pub row: u32,
    pub rows: u32,
}

const MOST_SHEET_BYTES: usize = MOST_ROWS * ROW_BYTES;

fn refused(r: Refusal, row: u32) -> TidyAnswer
    ensures { result ≡ answers (number_of r) row 0 }
{
    TidyAnswer {
        refusal: u32::from(r),
        row,
        rows: 0,
    }
}

// The room that a tidied sheet may need, by the length of the sheet.
#[tactic(auto, unfolding(sheet_tidied::specs::Tidy::tidy_need))]
fn need(sheet: &[u8]) -> usize
    ensures { result ≡ tidy_need sheet.now }
{
    sheet.len().min(MOST_SHEET_BYTES)
}

// Writes the kept rows of a sheet of n rows with these fields, and counts them.
fn write_kept(fields: &[u32], n: usize, out: &mut [u8]) -> u32
    requires { (length fields.now ≡ 5 * n) × (1 ≤ n) × (n ≤ 200) × Named fields.now n × (31 * n ≤ length out.old) }
    ensures { (result ≡ length (rows_of fields.now n)) × (out.new ≡ sets out.old 0 (sheet_text (rows_of fields.now n))) }
{
    let mut kept = [false; MOST_ROWS];
    let mut numbers = [0u32; MOST_ROWS];
    find_kept(fields, n, &mut kept[..n]);
    let rows = number_rows(&kept[..n], &mut numbers[..n]);
    write_rows(fields, n, &kept[..n], &numbers[..n], out);
    rows
}

// Tidies a sheet into the start of `out`.
pub fn tidy(sheet: &[u8], out: &mut [u8]) -> TidyAnswer
    ensures { handed result out.new ≡ tidied_into sheet.now out.old }
{
    if out.len() < need(sheet) {
        return refused(Refusal::Memory, 0);
    }
    let mut fields = [0u32; MOST_FIELDS];
    match row_tests(sheet, &mut fields) {
        Err(Refused { refusal, row }) => refused(refusal, row as u32),
        Ok(()) => {
            let n = sheet.len() / ROW_BYTES;
            let end = FIELDS * n;
            TidyAnswer {
                refusal: 0,
                row: 0,
                rows: write_kept(&fields[..end], n, out),
            }
        }
    }
}

#![tactic(auto)]
// The next small sheet (document 02, Job 14): given a sheet of the list, or none, the one behind it is written to lent memory. Refusals 11, 22, 23. The
// definitions are specs/Next and sheet_listed's; the contract of `next_sheet`, which the entry point calls, is an equation on the answer and on every lent
// byte, and asks nothing of its caller.
pub mod search; // search.rt: the first small sheet behind given rows

ghost use Rattle.std.specs.Prelude.{◌≡◌, ◌*◌, ◌≤◌, length};
ghost use Rattle.std.proofs.lemmas.List.Edits.{sets};
ghost use Rattle.formula.specs.Refusals.{number_of};
ghost use Rattle.sheet_tidied.specs.Text.{sheet_text};
ghost use Rattle.sheet_stands.specs.Fronts.{rows_to};
ghost use Rattle.sheet_next.specs.Next.{handed, answers, next_into};

use crate::search::behind;
use formula::Refusal;
use sheet_fields::layout::ROW_BYTES;
use sheet_stands::contents::row_at;
use sheet_stands::tests::{SMALL_BYTES, SMALL_FIELDS, listed};
use sheet_tidy::rows::put_row;

// The answer: document 01's number of a refusal, 0 where accepted; its row, 0; the rows of the next sheet.
#[repr(C)]
#[derive(Clone, Copy)]
pub struct NextAnswer {
    pub refusal: u32,
    pub row: u32,
    pub rows: u32,
}

fn refused(r: Refusal) -> NextAnswer
    ensures { result ≡ answers (number_of r) 0 0 }
{
    NextAnswer {
        refusal: u32::from(r),
        row: 0,
        rows: 0,
    }
}

// Writes the first n rows of a table.
fn write_rows(fields: &[u32], n: usize, out: &mut [u8])
    requires { (5 * n ≤ length fields.now) × (31 * n ≤ length out.old) }
    ensures { out.new ≡ sets out.old 0 (sheet_text (rows_to n fields.now)) }
{
    for i in 0..n {
        put_row(out, ROW_BYTES * i, row_at(fields, i + 1));
    }
}

// Writes the next small sheet into the start of `out`.
pub fn next_sheet(sheet: &[u8], out: &mut [u8]) -> NextAnswer
    ensures { handed result out.new ≡ next_into sheet.now out.old }
{
    if out.len() < SMALL_BYTES {
        return refused(Refusal::Memory);
    }
    let mut fields = [0; SMALL_FIELDS];
    if !listed(sheet, &mut fields) {
        return refused(Refusal::Unlisted);
    }
    let rows = behind(&mut fields, sheet.len() / ROW_BYTES);
    if rows == 0 {
        return refused(Refusal::LastListed);
    }
    write_rows(&fields, rows, out);
    NextAnswer {
        refusal: 0,
        row: 0,
        rows: rows as u32,
    }
}

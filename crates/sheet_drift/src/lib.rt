#![tactic(auto)]
// How far each result can move (document 02, Job 13): given a sheet, its kinds line and a tolerance for each input, the number of each result is
// written to lent memory. Refusals 11, the sheet's, 20, 21. The definitions are specs/Drifting and sheet_movement's; the contract of `drift`, which
// the entry point calls, is an equation on the answer and on every lent byte, and asks nothing of its caller.
pub mod moves; // moves.rt: the numbers of each row's values
pub mod numbers; // numbers.rt: tolerances and numbers as bytes

ghost use Rattle.std.specs.Prelude.{◌≡◌, ◌≤◌, length, Ok};
ghost use Rattle.std.proofs.lemmas.List.Edits.{sets};
ghost use Rattle.formula.specs.Refusals.{number_of};
ghost use Rattle.sheet_drift.specs.Drifting.{handed, answers, drifted_into};
ghost use Rattle.sheet_drift.specs.Tested.{Tabled, rows_verdict, last_moves, by_rows};

use crate::moves::row_moves;
use crate::numbers::{NUMBER_BYTES, in_order, tolerances_well, write_numbers};
use eval_words::inputs::inputs_in;
use formula::{Refusal, Refused, at_row};
use sheet_fields::layout::{MOST_ROWS, ROW_BYTES};
use sheet_fields::shape::{FIELDS, MOST_FIELDS, width_at};
use sheet_read::read::fill_tables;
use sheet_sorts::walk::test_sorts;

// The answer: document 01's number of a refusal, 0 where accepted; its row; how many results there are, a number each.
#[repr(C)]
#[derive(Clone, Copy)]
pub struct DriftAnswer {
    pub refusal: u32,
    pub row: u32,
    pub results: u32,
}

// The results that a formula has at the most.
const MOST_RESULTS: usize = 16;

// The room for their numbers.
const NEED: usize = NUMBER_BYTES * MOST_RESULTS;

fn refused(r: Refusal, row: u32) -> DriftAnswer
    ensures { result ≡ answers (number_of r) row 0 }
{
    DriftAnswer {
        refusal: u32::from(r),
        row,
        results: 0,
    }
}

// 20 and 21 of n rows of an accepted sheet, the last of which has the free names `free`; the numbers of its values go to the start of `numbers`.
fn drift_tests(
    fields: &[u32],
    widths: &[u8],
    n: usize,
    free: u64,
    line: &[u8],
    tolerances: &[u8],
    numbers: &mut [u32],
) -> Result<(), Refused>
    requires { Tabled fields.now widths.now n free line.now × (length numbers.old ≡ 16) }
    ensures { (result ≡ rows_verdict fields.now n line.now tolerances.now)
        × (result ≡ Ok tt → numbers.new ≡ sets numbers.old 0 (last_moves fields.now n tolerances.now)) }
{
    at_row(Refusal::Sort, test_sorts(fields, widths, n, free, line))?;
    if !tolerances_well(tolerances, inputs_in(free)) {
        return Err(Refused {
            refusal: Refusal::Movement,
            row: 0,
        });
    }
    let env = in_order(free, tolerances);
    if !row_moves(fields, widths, n, &env, numbers, 0) {
        return Err(Refused {
            refusal: Refusal::Movement,
            row: 0,
        });
    }
    Ok(())
}

// The answer for these rows; the numbers of the last row's values are written to the start of `out` where they pass.
fn drift_rows(
    fields: &[u32],
    widths: &[u8],
    n: usize,
    free: u64,
    line: &[u8],
    tolerances: &[u8],
    out: &mut [u8],
) -> DriftAnswer
    requires { Tabled fields.now widths.now n free line.now × (n ≤ 200) × (64 ≤ length out.old) }
    ensures { handed result out.new ≡ by_rows (rows_verdict fields.now n line.now tolerances.now) (last_moves fields.now n tolerances.now) out.old }
{
    let mut numbers = [0; MOST_RESULTS];
    match drift_tests(fields, widths, n, free, line, tolerances, &mut numbers) {
        Err(Refused { refusal, row }) => refused(refusal, row as u32),
        Ok(()) => {
            let results = width_at(widths, n);
            write_numbers(&numbers, results, out);
            DriftAnswer {
                refusal: 0,
                row: 0,
                results: results as u32,
            }
        }
    }
}

// Tells the numbers of a sheet's results into the start of `out`.
pub fn drift(sheet: &[u8], line: &[u8], tolerances: &[u8], out: &mut [u8]) -> DriftAnswer
    ensures { handed result out.new ≡ drifted_into sheet.now line.now tolerances.now out.old }
{
    if out.len() < NEED {
        return refused(Refusal::Memory, 0);
    }
    let mut fields = [0u32; MOST_FIELDS];
    let mut widths = [0u8; MOST_ROWS];
    let mut masks = [0u64; MOST_ROWS];
    let tested = fill_tables(sheet, line, &mut fields, &mut widths, &mut masks);
    match tested {
        Err(Refused { refusal, row }) => refused(refusal, row as u32),
        Ok(_) => {
            let n = sheet.len() / ROW_BYTES;
            let end = FIELDS * n;
            let last = n - 1;
            drift_rows(
                &fields[..end],
                &widths[..n],
                n,
                masks[last],
                line,
                tolerances,
                out,
            )
        }
    }
}

#![tactic(auto)]
// Direct evaluation of a sheet's bytes with its kinds line on a set (document 01, "Direct evaluation is lent rounds and tells
// those used"), with its result set written to lent bytes. Refusals come in the order 11, the reader's, 12, 36. Any bytes of any
// length may be handed in. The definitions are meaning's specs/Evaluate and, for lent bytes, specs/Handed.
ghost use Rattle.std.specs.Prelude.{◌≡◌, ℕ, ◌+◌, ◌*◌, ◌-◌, ◌≤◌, ◌<◌, length};
ghost use Rattle.formula.specs.Refusals.{number_of};
ghost use Rattle.meaning.specs.Evaluate.{evaluation_of};
ghost use Rattle.eval_sheet.specs.Handed.{answers, handed, written, handed_out};

use crate::row::{evaluate_row, refuse};
use eval_words::inputs::inputs_in;
use formula::{Refusal, Refused};
use meaning::{Cell, Evaluation};
use sheet_fields::layout::MOST_ROWS;
use sheet_fields::shape::MOST_FIELDS;
use sheet_read::read::fill_tables;

mod row; // row.rt: the evaluation of an accepted row on a set

// What evaluation tells the firmware: refusal 0 is an accepted evaluation.
#[repr(C)]
#[derive(Clone, Copy)]
pub struct EvaluateAnswer {
    pub refusal: u32,
    pub row: u32,
    pub width: u32,
    pub rounds: u32,
}

// A sheet's formula on a set, with as many rounds as lent.
pub fn evaluate(sheet: &[u8], line: &[u8], set: &[u8], rounds: u32) -> Evaluation
    ensures { result ≡ evaluation_of sheet.now line.now set.now rounds }
{
    let mut fields = [0u32; MOST_FIELDS];
    let mut returned = [0u8; MOST_ROWS];
    let mut masks = [0u64; MOST_ROWS];
    let tested = fill_tables(sheet, line, &mut fields, &mut returned, &mut masks);
    match tested {
        Err(Refused { refusal, row }) => refuse(refusal, row),
        Ok(_) => {
            let n = sheet.len() / 31;
            let end = 5 * n;
            let last = n - 1;
            let free = masks[last];
            let inputs = inputs_in(free);
            evaluate_row(
                &fields[..end],
                &returned[..n],
                n,
                free,
                &line[..inputs],
                set,
                rounds,
            )
        }
    }
}

fn refused(r: Refusal, row: u32) -> EvaluateAnswer
    ensures { result ≡ answers (number_of r) row 0 0 }
{
    EvaluateAnswer {
        refusal: u32::from(r),
        row,
        width: 0,
        rounds: 0,
    }
}

// Sixteen values of five bytes each.
fn write_cells(cells: [Cell; 16], out: &mut [u8])
    requires { 80 ≤ length out.old }
    ensures { out.new ≡ written 16 cells out.old }
{
    for (j, c) in cells.iter().enumerate() {
        value::bytes::store(out, 5 * j, value::bytes::to_word(c.v));
    }
}

// Evaluation for the firmware: the result set is written to the first 80 bytes of `out`, on acceptance only.
pub fn evaluate_into(
    sheet: &[u8],
    line: &[u8],
    set: &[u8],
    rounds: u32,
    out: &mut [u8],
) -> EvaluateAnswer
    ensures { handed result out.new ≡ handed_out sheet.now line.now set.now rounds out.old }
{
    if out.len() < 80 {
        return refused(Refusal::Memory, 0);
    }
    let e = evaluate(sheet, line, set, rounds);
    let verdict = e.verdict;
    match verdict {
        Err(Refused { refusal, row }) => refused(refusal, row as u32),
        Ok(()) => {
            let cells = e.cells;
            write_cells(cells, out);
            EvaluateAnswer {
                refusal: 0,
                row: 0,
                width: e.width as u32,
                rounds: e.rounds,
            }
        }
    }
}

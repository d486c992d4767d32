#![tactic(auto)]
// A log of another bench checked on a machine of our own (document 02, Job 3): refusals 11, 14, those of the sheet and its kinds
// line, 12, 15, 16. The definitions are specs/Checked; the contract of `check_log`, which the firmware's entry point calls, is an equation
// on the answer and on every lent byte, and asks nothing of its caller.
pub mod follow;
pub mod lines;
pub mod sets;

ghost use Rattle.std.specs.Prelude.{◌≡◌, ◌<◌, length};
ghost use Rattle.formula.specs.Refusals.{number_of};
ghost use Rattle.formula.specs.Tree.{formula_of};
ghost use Rattle.formula.specs.Widths.{width};
ghost use Rattle.formula.specs.Faults.{letters_of};
ghost use Rattle.machine_log.specs.Checked.{checks, answers, room_for, width_of, opening, checked};
ghost use Rattle.machine_log.specs.CheckedLaws.{lent_verdict, log_verdict, opened_by, told_by};

use crate::follow::{Progress, follow};
use crate::lines::{LINE_BYTES, MOST_LINES, bad_line};
use crate::sets::{VALUE_BYTES, are_sets};
use formula::{Refusal, Refused, at_row};
use machine_calls::RESULT_BYTES;
use machine_start::{MOST_CAPACITY, capacity_asked, start};
use sheet_read::read::read;

// The checker's answer: document 01's number of a refusal, 0 where accepted; its row, which is the log's line for 15 and 16; the results
// handed out, and the width of each.
#[repr(C)]
#[derive(Clone, Copy)]
pub struct LogAnswer {
    pub refusal: u32,
    pub row: u32,
    pub count: u32,
    pub width: u32,
}

const MOST_RESULTS: usize = MOST_LINES / 2;

fn refused(r: Refusal, row: u32) -> LogAnswer
    ensures { result ≡ answers (number_of r) row 0 0 }
{
    LogAnswer {
        refusal: u32::from(r),
        row,
        count: 0,
        width: 0,
    }
}

// The room for the results of a log of so many bytes: each takes a push's line and a take's.
#[tactic(auto, unfolding(crate::specs::Checked::room_for))]
fn room_for(bytes: usize) -> usize
    ensures { result ≡ room_for bytes }
{
    RESULT_BYTES * (bytes / (2 * LINE_BYTES)).min(MOST_RESULTS)
}

// 11 and 14, for a log of so many bytes, by the bytes lent for the machine and for the results.
fn test_lent(capacity: u32, bytes: usize, lent: usize, room: usize) -> Result<(), Refused>
    ensures { result ≡ lent_verdict capacity bytes lent room }
{
    if lent < machine_layout::machine_need(capacity_asked(capacity)) {
        return Err(Refused {
            refusal: Refusal::Memory,
            row: 0,
        });
    }
    if room < room_for(bytes) {
        return Err(Refused {
            refusal: Refusal::Memory,
            row: 0,
        });
    }
    if capacity < 1 {
        return Err(Refused {
            refusal: Refusal::Capacity,
            row: 0,
        });
    }
    if MOST_CAPACITY < capacity {
        return Err(Refused {
            refusal: Refusal::Capacity,
            row: 0,
        });
    }
    Ok(())
}

// 12 and 15, for a formula of this width whose inputs are of these kinds.
fn test_log(
    kinds: &[u8],
    sets: &[u8],
    number: u32,
    log: &[u8],
    width: usize,
) -> Result<(usize, usize), Refused>
    requires { length kinds.now < 256 }
    ensures { result ≡ opened_by (log_verdict kinds.now sets.now number log.now) (length kinds.now) width }
{
    if !are_sets(sets, number, kinds) {
        return Err(Refused {
            refusal: Refusal::Set,
            row: 0,
        });
    }
    at_row(Refusal::LogLine, bad_line(log, number))?;
    Ok((kinds.len(), width))
}

// 11, 14, the sheet's tests, 12 and 15.
fn open_log(
    sheet: &[u8],
    line: &[u8],
    capacity: u32,
    sets: &[u8],
    number: u32,
    log: &[u8],
    lent: usize,
    room: usize,
) -> Result<(usize, usize), Refused>
    ensures { result ≡ opened_by (opening sheet.now line.now capacity sets.now number log.now lent room)
        (length (letters_of (formula_of sheet.now) line.now)) (width (formula_of sheet.now)) }
{
    test_lent(capacity, log.len(), lent, room)?;
    let f = read(sheet, line)?;
    let inputs = f.inputs;
    test_log(&line[..inputs], sets, number, log, f.results)
}

// The width of so many results.
fn width_of(count: u32, width: u32) -> u32
    ensures { result ≡ width_of count width }
{
    if count == 0 { 0 } else { width }
}

// The answer once a log is followed: 16 with the line that was refused, or accepted.
fn told(progress: Progress, width: u32) -> LogAnswer
    ensures { result ≡ told_by progress width }
{
    let count = progress.count;
    if progress.line == 0 {
        return LogAnswer {
            refusal: 0,
            row: 0,
            count,
            width: width_of(count, width),
        };
    }
    LogAnswer {
        refusal: u32::from(Refusal::LogRefused),
        row: progress.line,
        count,
        width: width_of(count, width),
    }
}

// Follows a log from an empty machine of a given capacity, in lent memory, and hands out the results.
pub fn check_log(
    sheet: &[u8],
    line: &[u8],
    capacity: u32,
    sets: &[u8],
    number: u32,
    log: &[u8],
    mem: &mut [u8],
    out: &mut [u8],
) -> LogAnswer
    ensures { checks result mem.new out.new ≡ checked sheet.now line.now capacity sets.now number log.now mem.old out.old }
{
    match open_log(
        sheet,
        line,
        capacity,
        sets,
        number,
        log,
        mem.len(),
        out.len(),
    ) {
        Err(Refused { refusal, row }) => refused(refusal, row as u32),
        Ok((inputs, width)) => {
            start(sheet, line, capacity, mem);
            let progress = follow(log, sets, VALUE_BYTES * inputs, mem, out);
            told(progress, width as u32)
        }
    }
}

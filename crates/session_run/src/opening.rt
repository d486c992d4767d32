// The opening of the program (session/specs/Output): the sheet's tests, 13, 12, the machine started, and the first line.
ghost use Rattle.std.specs.Prelude.{◌≡◌, ℕ, ◌+◌, ◌≤◌, ◌<◌, length, drop};
ghost use Rattle.session.specs.Opening.{refusal_bytes, head_bytes, opened_memory, OpensTo, Refuses, Judges, Within};
ghost use Rattle.session.specs.Output.{link_capacity, most_set_bytes};
ghost use Rattle.session.specs.Passes.{out_bytes};
ghost use Rattle.machine_layout.specs.Layout.{need, size_of};

use formula::Refusal;
use session::{CAPACITY, FIRINGS, Opened, SET_FILE, Stage};
use text::{HEAD_LINE, REFUSAL_LINE, SHEET, Seen};

// A refusal is the whole output.
fn refused(number: u32, row: u32, end: usize, out: &mut [u8]) -> Opened
    requires { refusal_bytes ≤ length out.old }
    ensures refuses { Refuses number row end result out.new }
    ensures out_unchanged { drop result.stage.printed out.new ≡ drop result.stage.printed out.old }
{
    text_print::put_refusal(out, 0, number, row);
    let stage = Stage {
        at: end,
        remaining: 0,
        firings: 0,
        printed: REFUSAL_LINE,
    };
    Opened { inputs: 0, stage }
}

// `first` has the sheet's first bytes, up to 6,200; `seen` is what was kept of all of them. `line` has the kinds line's
// first bytes, up to 64, and `sets` the set file's, up to 65,537.
pub fn open(
    first: &[u8],
    seen: Seen,
    line: &[u8],
    sets: &[u8],
    mem: &mut [u8],
    out: &mut [u8],
) -> Opened
    requires { (need (size_of link_capacity) ≤ length mem.old) × (out_bytes ≤ length out.old) × (length sets.now ≤ most_set_bytes + 1) }
    ensures opens_to { OpensTo first.now seen line.now sets.now result mem.new out.new }
    ensures within { Within line.now (length sets.now) result
        × (mem.new ≡ opened_memory first.now seen line.now mem.old)
        × (drop result.stage.printed out.new ≡ drop result.stage.printed out.old) }
{
    let end = sets.len();
    if !text_read::scan::seen_laid_out(seen) {
        return refused(u32::from(Refusal::Layout), 0, end, out);
    }
    if SHEET < seen.length {
        return refused(u32::from(Refusal::Rows), 0, end, out);
    }
    let a = machine_start::start(first, line, CAPACITY, mem);
    if a.refusal != 0 {
        return refused(a.refusal, a.row, end, out);
    }
    if SET_FILE < end {
        return refused(u32::from(Refusal::SetFile), 0, end, out);
    }
    let inputs = a.inputs as usize;
    judge(&line[..inputs], a.results, sets, out)
}

// 12, or the first line and the loop to come.
fn judge(kinds: &[u8], results: u32, sets: &[u8], out: &mut [u8]) -> Opened
    requires { (length kinds.now ≤ 32) × (head_bytes ≤ length out.old) × (length sets.now ≤ most_set_bytes) }
    ensures judges { Judges kinds.now results sets.now result out.new }
    ensures out_unchanged { drop result.stage.printed out.new ≡ drop result.stage.printed out.old }
{
    let inputs = kinds.len();
    match text_read::sets::count_sets(sets, kinds) {
        Err(line) => refused(u32::from(Refusal::Set), line as u32, sets.len(), out),
        Ok(n) => {
            let count = n as u32;
            text_print::put_head(out, inputs as u32, results, count);
            let stage = Stage {
                at: 0,
                remaining: count,
                firings: FIRINGS,
                printed: HEAD_LINE,
            };
            Opened { inputs, stage }
        }
    }
}

#![tactic(auto)]
// One repetition of the program's loop (session/specs/Passes): "it pushes until refused or out of sets, runs with the firings left,
// takes until refused".
ghost use Rattle.std.specs.Prelude.{◌≡◌, ℕ, ◌+◌, ◌*◌, ◌≤◌, ◌<◌, length, take, drop, MatchOption};
ghost use Rattle.std.proofs.lemmas.List.Edits.{sets};
ghost use Rattle.session.specs.Passes.{longest_line, out_bytes, taken_from, line_by, drained_of};
ghost use Rattle.session.specs.Waiting.{Waits, FeedsTo, PassesTo};

use session::Stage;
use text::{REFUSAL_LINE, RESULT_BYTES, SET_BYTES, VALUE_BYTES, VALUE_FIELD};

// What was taken: sets, and the bytes of their lines.
#[derive(Clone, Copy)]
pub struct Handful {
    pub count: u32,
    pub printed: usize,
}

// Takes one result set, writes its line at `at` and tells the line's length; none where the take is refused.
fn take_line(mem: &mut [u8], out: &mut [u8], at: usize) -> Option<usize>
    requires { at + longest_line ≤ length out.old }
    ensures { MatchOption result (length (line_by (taken_from mem.old)) ≡ 0) (λ n. (0 < n) × (n ≡ length (line_by (taken_from mem.old))))
        × (mem.new ≡ (taken_from mem.old).mem)
        × (out.new ≡ sets out.old at (line_by (taken_from mem.old))) }
{
    let mut result = [0; RESULT_BYTES];
    let a = machine_calls::take(mem, &mut result);
    if a.refusal == 0 {
        let width = a.count as usize;
        text_print::put_results(out, at, width, &result);
        return Some(VALUE_FIELD * width + 1);
    }
    None
}

// Takes until refused.
fn drain(mem: &mut [u8], out: &mut [u8]) -> Handful
    requires { out_bytes ≤ length out.old }
    ensures { (result.count ≡ (drained_of mem.old).count)
        × (take result.printed out.new ≡ (drained_of mem.old).lines)
        × (mem.new ≡ (drained_of mem.old).mem)
        × (result.printed ≤ 45135)
        × (drop result.printed out.new ≡ drop result.printed out.old) }
{
    let mut count = 0;
    let mut at = 0;
    while let Some(line) = take_line(mem, out, at) {
        at += line;
        count += 1;
    }
    Handful { count, printed: at }
}

// Pushes the sets whose lines start at `at`, until one is refused or none is left, and tells where the next line starts.
// No counted loop: where a line ends, the next starts only if it was read as a set.
fn feed(mem: &mut [u8], sets: &[u8], at: usize, kinds: &[u8]) -> usize
    requires { (length kinds.now ≤ 32) × (at ≤ length sets.now) × Waits kinds.now sets.now at }
    ensures feeds_to { FeedsTo kinds.now sets.now at mem.old result mem.new }
    ensures upper_bound { result ≤ length sets.now }
{
    let mut next = at;
    let mut set = [0; SET_BYTES];
    let inputs = kinds.len();
    let size = VALUE_BYTES * inputs;
    while next < sets.len() {
        if text_read::sets::read_set(sets, next, kinds, &mut set) {
            let a = machine_calls::push(mem, &set[..size]);
            if a.refusal != 0 {
                return next;
            }
            next += VALUE_FIELD * inputs + 1;
        } else {
            return next;
        }
    }
    next
}

// One repetition: its lines are in the front of `out`.
pub fn pass(mem: &mut [u8], sets: &[u8], kinds: &[u8], stage: Stage, out: &mut [u8]) -> Stage
    requires { (length kinds.now ≤ 32) × (stage.at ≤ length sets.now) × (out_bytes ≤ length out.old) × Waits kinds.now sets.now stage.at }
    ensures passes_to { PassesTo kinds.now sets.now stage mem.old result mem.new out.new }
    ensures at_in_bounds { (result.at ≤ length sets.now) × (result.printed ≤ out_bytes)
        × (drop result.printed out.new ≡ drop result.printed out.old) }
{
    let at = feed(mem, sets, stage.at, kinds);
    let a = machine_calls::run(mem, stage.firings);
    let taken = drain(mem, out);
    let firings = stage.firings.saturating_sub(a.count);
    if a.refusal == 0 {
        return Stage {
            at,
            remaining: stage.remaining.saturating_sub(taken.count),
            firings,
            printed: taken.printed,
        };
    }
    text_print::put_refusal(out, taken.printed, a.refusal, 0);
    Stage {
        at,
        remaining: 0,
        firings,
        printed: taken.printed + REFUSAL_LINE,
    }
}

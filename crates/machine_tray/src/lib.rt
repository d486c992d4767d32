#![tactic(auto)]
// A tray of sets pushed one after the other (document 02, Job 1). The definition is specs/Tray; the
// contract is an equation on the answer and on every lent byte, and asks nothing of the caller.
ghost use Rattle.std.specs.Prelude.{◌≡◌, ◌≤◌};
ghost use Rattle.machine_calls.specs.Calls.{outcome, standing};
ghost use Rattle.machine_tray.specs.Tray.{set_bytes, trayed};
ghost use Rattle.machine_tray.specs.TrayLaws.{Ends};

use machine_calls::{Answer, refused, reply};
use machine_layout::TOKEN_BYTES;

// The bytes of a set. Memory too short to tell the inputs counts as having none: no push on it is
// accepted.
fn set_bytes(mem: &[u8]) -> usize
    ensures { standing mem.now ≡ 0 → result ≡ set_bytes mem.now }
{
    if mem.len() < machine_layout::RECORDS_AT {
        return 0;
    }
    TOKEN_BYTES * machine_layout::inputs(mem)
}

// Where a set of `size` bytes at `at` ends, or the lent bytes where they end before.
fn end_of(at: usize, size: usize, lent: usize) -> usize
    requires { at ≤ lent }
    ensures { Ends size lent at result }
{
    at + usize::min(size, lent - at)
}

// Pushes sets lying behind each other until one is refused, and tells how many went in.
pub fn push_tray(mem: &mut [u8], sets: &[u8], number: u32) -> Answer
    ensures { outcome result mem.new ≡ trayed mem.old sets.now number }
{
    if number == 0 {
        return match machine_calls::standing(mem) {
            Ok(()) => reply(0, 0),
            Err(r) => refused(r),
        };
    }
    let size = set_bytes(mem);
    let mut at = 0;
    for count in 0..number {
        let end = end_of(at, size, sets.len());
        let answer = machine_calls::push(mem, &sets[at..end]);
        if answer.refusal != 0 {
            return reply(answer.refusal, count);
        }
        at = end;
    }
    reply(0, number)
}

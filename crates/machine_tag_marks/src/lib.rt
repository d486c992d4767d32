#![tactic(auto)]
// The marks of one tag's operators in a run with tags (machine_tag_runs): which operators begin with a
// mark, and a step of the first that has one. `base` is the byte where the tag's links begin, a link's
// stretch has one place. Between calls all marks stand in their sixteen words (specs/FirstMarks).
// Assumes that the memory is as long as its links need and that they begin behind the registers.
ghost use Rattle.std.specs.Prelude.{◌≡◌, false, ℕ, ◌+◌, ◌/◌, ◌≤◌, ◌<◌, length, None};
ghost use Rattle.network.specs.Rules.{FM-gate};
ghost use Rattle.machine_layout.specs.Kinds.{byte_of};
ghost use Rattle.machine_layout.specs.Layout.{most_operators, links_at, least_size, need_from, kind_byte, port_of};
ghost use Rattle.machine_firing.specs.Links.{token_from};
ghost use Rattle.machine_firing.specs.Fire.{able_from};
ghost use Rattle.machine_marks.specs.Words.{mark};
ghost use Rattle.machine_marks.specs.Held.{held, Stands, Woke};
ghost use Rattle.machine_runs.specs.Marks.{Resting};
ghost use Rattle.machine_tag_marks.specs.FirstMarks.{FirstMark, Stepped};

use machine_layout::{SLOT_BYTES, Stretches};
use machine_marks::{BLOCK, Marks};

// Whether a token may wait on the first input of operator j.
fn waits(mem: &[u8], base: usize, j: usize) -> bool
    requires { (need_from base least_size ≤ length mem.now) × (j < most_operators) }
    ensures { result ≡ false → token_from mem.now base least_size (port_of mem.now j 0) ≡ None }
{
    let l = machine_layout::port_of(mem, j, machine_layout::FIRST_INPUT);
    if machine_layout::LINKS <= l {
        return false;
    }
    let at = machine_layout::link_from(base, SLOT_BYTES, l);
    mem[at] != 0
}

// Marks operator j where a token waits on its first input; no other can be able.
fn wake_waiting(mem: &[u8], base: usize, j: usize, awake: &mut [u64], m: Marks) -> Marks
    requires { (need_from base least_size ≤ length mem.now) × (j < most_operators) × (kind_byte mem.now j < byte_of FM-gate) × (Stands awake.old m) }
    ensures { (Woke awake.old m awake.new result) × (mark (held awake.new result) j ≡ 0 → able_from mem.now base least_size j ≡ false) }
{
    if waits(mem, base, j) {
        return machine_marks::wake(awake, m, j);
    }
    m
}

// Puts the held marks back into their words, and tells the first operator with a mark.
fn settle(awake: &mut [u64], m: Marks) -> usize
    requires { (Stands awake.old m) × (m.low ≡ m.block) }
    ensures { (awake.new ≡ held awake.old m) × (FirstMark awake.new result) }
{
    let a = machine_marks::forward(awake, m);
    let block = a.block;
    awake[block] = a.here;
    if a.here == 0 {
        return machine_layout::OPERATORS;
    }
    machine_marks::first_of(a)
}

// Marks those of the n operators that may be able, and tells the first of them.
pub fn mark_plane(mem: &[u8], base: usize, n: usize, awake: &mut [u64]) -> usize
    requires { (need_from base least_size ≤ length mem.now) × (n ≤ most_operators) × ((j : ℕ) → j < n → kind_byte mem.now j < byte_of FM-gate) × (length awake.old ≡ 16) }
    ensures { (length awake.new ≡ 16) × (FirstMark awake.new result) × (Resting mem.now base least_size n awake.new) }
{
    let mut m = Marks {
        here: 0,
        block: 0,
        low: 0,
    };
    for j in 0..n {
        m = wake_waiting(mem, base, j, awake, m);
    }
    let least = machine_marks::backward(awake, m);
    settle(awake, least)
}

// Whether an operator fired, and the first one with a mark after that, which there is in either case.
#[derive(Clone, Copy)]
pub struct Step {
    pub fired: bool,
    pub next: usize,
}

// A step of the first operator with a mark: it fires, or loses its mark.
pub fn step_plane(mem: &mut [u8], base: usize, users: &[u16], i: usize, awake: &mut [u64]) -> Step
    requires { (links_at ≤ base) × (need_from base least_size ≤ length mem.old) × (i < most_operators) × (length awake.old ≡ 16) × (FirstMark awake.old i) }
    ensures { Stepped users.now mem.old base i awake.old mem.new awake.new result.fired result.next }
{
    let block = i / BLOCK;
    let m = Marks {
        here: awake[block],
        block,
        low: block,
    };
    let links = Stretches {
        base,
        size: SLOT_BYTES,
    };
    if machine_operators::fire_at(mem, links, i) {
        let woken = machine_runs::wake(mem, links, users, i, awake, m);
        return Step {
            fired: true,
            next: settle(awake, woken),
        };
    }
    let rest = machine_marks::without(m, i);
    Step {
        fired: false,
        next: settle(awake, rest),
    }
}

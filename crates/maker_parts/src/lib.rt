#![tactic(auto)]
// Parts of a graph that need no other row: copies for shared names, names, constants, operators, an arm's
// gates, the joins of an if, the ring of a loop (document 01, "The graph"). Each writes from the next
// numbers on and gives those behind it.
ghost use Rattle.std.specs.Prelude.{◌≡◌, ℕ, ◌+◌, ◌*◌, ◌-◌, ◌^◌, ◌≤◌, ◌<◌, false, List, length};
ghost use Rattle.machine_layout.specs.Layout.{most_operators, most_links, links_at};
ghost use Rattle.graph.specs.Assembly.{wire};
ghost use Rattle.graph.specs.Translation.{constant_of};
ghost use Rattle.maker_laid.specs.Masked.{list_of, Mask};
ghost use Rattle.maker_laid.specs.Done.{Forked};
ghost use Rattle.maker_parts.specs.Room.{Room};
ghost use Rattle.maker_parts.specs.Parts.{Gives, Applied, Gated, side_kind, JoinNeeds, JoinGives, Numbered, Closed};

use machine_layout::{CONSTANT, F, M, NO_LINK, Operator, T, store_operator};
use maker_emit::emit::{ring_gates, share, spread};
use maker_emit::links::part;
use maker_emit::records::{assign, deal, gate_of, gather};
use maker_joins::{Emitted, Next, gates, join_arms, results_of};
use names::{TRIGGER, count, has, range_mask};
use value::Value;
use value::bytes::to_word;

// Where a row is read: whether as a body, and how many values its loop returns.
#[derive(Clone, Copy)]
pub struct Place {
    pub body: bool,
    pub returned: usize,
}

// A let or a loop: `count` identifiers from `first` on have the results of row `value` in row `inner`.
#[derive(Clone, Copy)]
pub struct Binding {
    pub first: u32,
    pub count: u32,
    pub value: usize,
    pub inner: usize,
}

// How many names a mask has.
pub fn names_in(mask: u64) -> usize
    requires { Mask mask }
    ensures { (result ≡ length (list_of mask)) × (result ≤ 33) }
{
    count(mask) as usize
}

// The links that two parts have for the names that both use, and the next numbers behind the copies.
#[derive(Clone, Copy)]
pub struct Forking {
    pub first: [u16; 33],
    pub second: [u16; 33],
    pub next: Next,
}

// "A name .. used k times, k above 1, passes k-1 two-way copies": a copy for each name of a mask.
pub fn fork(mem: &mut [u8], mask: u64, env: [u16; 33], next: Next) -> Forking
    requires { Mask mask × Room next.link next.operator (length (list_of mask)) × (links_at ≤ length mem.old) }
    ensures { Forked mask next.link next.operator env mem.old mem.new result.first result.second result.next.link result.next.operator }
{
    let k = names_in(mask);
    let n = next.link as u16;
    let first = deal(mask, env, n, 2);
    let second = deal(mask, env, n + 1, 2);
    share(mem, next.operator, mask, env, first, second);
    let behind = Next {
        link: next.link + 2 * k,
        operator: next.operator + k,
    };
    Forking {
        first,
        second,
        next: behind,
    }
}

// "An identifier is a bare link."
pub fn identifier(a: u32, env: [u16; 33], next: Next) -> Emitted
    requires { a < 33 }
    ensures { (mem : List ℕ) → Gives (wire a) next.link next.operator env mem mem result }
{
    let l = env[a as usize];
    Emitted {
        outs: [l; 33],
        count: 1,
        iterated: 0,
        next,
    }
}

// "A constant takes one trigger"
pub fn constant(mem: &mut [u8], v: Value, env: [u16; 33], next: Next) -> Emitted
    requires { Room next.link next.operator 1 × (links_at ≤ length mem.old) }
    ensures { Gives (constant_of v) next.link next.operator env mem.old mem.new result }
{
    let n = next.link as u16;
    let o = Operator {
        kind: CONSTANT,
        in1: env[TRIGGER as usize],
        in2: NO_LINK,
        in3: NO_LINK,
        out1: n,
        out2: NO_LINK,
        out3: NO_LINK,
        register: to_word(v),
    };
    store_operator(mem, next.operator, o);
    let behind = Next {
        link: next.link + 1,
        operator: next.operator + 1,
    };
    Emitted {
        outs: [n; 33],
        count: 1,
        iterated: 0,
        next: behind,
    }
}

// An operator behind its operands.
pub fn applied(mem: &mut [u8], code: u32, x: Emitted) -> Emitted
    requires { (code < 256) × ((1 ≤ x.count) × (x.count ≤ 2)) × (x.count ≤ length x.outs) × Room x.next.link x.next.operator 1 × (links_at ≤ length mem.old) }
    ensures { Applied code mem.old mem.new x result }
{
    let outs = x.outs;
    let l = x.next.link as u16;
    let second = if 1 < x.count { outs[1] } else { NO_LINK };
    let o = gate_of(code as u8, outs[0], second, NO_LINK, l);
    store_operator(mem, x.next.operator, o);
    let behind = Next {
        link: x.next.link + 1,
        operator: x.next.operator + 1,
    };
    Emitted {
        outs: [l; 33],
        count: 1,
        iterated: 0,
        next: behind,
    }
}

// The links of the names behind an arm's gates, and the next numbers.
#[derive(Clone, Copy)]
pub struct Inside {
    pub env: [u16; 33],
    pub next: Next,
}

// An arm's gates on the names of its mask: "Any if puts a T gate on each free name of arm b and an F gate
// on each of arm c".
pub fn gated(
    mem: &mut [u8],
    yes: bool,
    control: u16,
    mask: u64,
    env: [u16; 33],
    next: Next,
) -> Inside
    requires { Mask mask × (1 ≤ length (list_of mask)) × Room next.link next.operator (2 * length (list_of mask) - 1) × (links_at ≤ length mem.old) }
    ensures { Gated (side_kind yes) mask control next.link next.operator env mem.old mem.new result.env result.next.link result.next.operator }
{
    let k = names_in(mask);
    let links = gather(mask, env);
    let none = [NO_LINK; 33];
    let kind = if yes { T } else { F };
    let x = gates(mem, kind, control, links, none, k, next);
    let outs = x.outs;
    let inner = assign(mask, env, outs);
    let behind = x.next;
    Inside {
        env: inner,
        next: behind,
    }
}

// "an expression if also an M gate on each result"
fn merged(mem: &mut [u8], test: u16, x: Emitted, y: Emitted, next: Next) -> Emitted
    requires { JoinNeeds false 0 next.link next.operator x y × (links_at ≤ length mem.old) }
    ensures { JoinGives false 0 test next.link next.operator mem.old mem.new x y result }
{
    let xs = x.outs;
    let ys = y.outs;
    gates(mem, M, test, xs, ys, x.count, next)
}

// What joins the arms of an if in its place.
pub fn joined(
    mem: &mut [u8],
    place: Place,
    test: u16,
    x: Emitted,
    y: Emitted,
    next: Next,
) -> Emitted
    requires { JoinNeeds place.body place.returned next.link next.operator x y × (links_at ≤ length mem.old) }
    ensures { JoinGives place.body place.returned test next.link next.operator mem.old mem.new x y result }
{
    if place.body {
        return join_arms(
            mem,
            place.returned,
            test,
            results_of(x),
            results_of(y),
            next,
        );
    }
    merged(mem, test, x, y, next)
}

// The links n, n + 1, .. for the names of a mask, rising.
pub fn numbered(mask: u64, n: usize) -> [u16; 33]
    requires { n ≤ most_links }
    ensures { Numbered mask n result }
{
    let mut e = [NO_LINK; 33];
    let mut l = n;
    for (i, link) in e.iter_mut().enumerate() {
        *link = l as u16;
        l += usize::from(has(mask, i as u32));
    }
    e
}

// "A for puts FM on its identifiers and FS on the body's other names, trigger included": what follows the
// start x and the body y, which has the names of a mask.
pub fn closed(
    mem: &mut [u8],
    mask: u64,
    binding: Binding,
    env: [u16; 33],
    own: [u16; 33],
    inner: [u16; 33],
    x: Emitted,
    y: Emitted,
) -> Emitted
    requires { Mask mask × (binding.first + binding.count ≤ 32) × (1 ≤ length (list_of mask)) × ((1 + binding.count ≤ y.count) × (y.count ≤ 33))
        × (y.next.operator + (2 * length (list_of mask) - 1) ≤ most_operators) × (y.next.link ≤ most_links) × (links_at ≤ length mem.old) }
    ensures { Closed mask binding.first binding.count env own inner mem.old mem.new x y result }
{
    let k = names_in(mask);
    let ids = range_mask(binding.first, binding.count);
    let j = binding.count as usize;
    let c = y.count - (1 + j);
    let at = y.next.operator + (k - 1);
    let ys = y.outs;
    let xs = x.outs;
    let again = part(ys, 1, j);
    let outs = part(ys, 1 + j, c);
    let iterated = assign(ids, env, again);
    let started = assign(ids, env, xs);
    let controls = spread(mem, y.next.operator, y.next.link as u16, ys[0], k);
    ring_gates(mem, at, mask, ids, controls, iterated, started, own, inner);
    let end = Next {
        link: y.next.link + 2 * (k - 1),
        operator: at + k,
    };
    Emitted {
        outs,
        count: c,
        iterated: 0,
        next: end,
    }
}

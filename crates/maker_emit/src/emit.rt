// The emitters: loops that write operators into memory one after another, from operator `m` on.
// Document 01, "The graph": copies for the names that two parts share, a row of gates with one
// control, the chain of copies of iter?, and the ring of a loop's FM and FS gates.
ghost use Rattle.std.specs.Prelude.{◌≡◌, ℕ, ◌+◌, ◌*◌, ◌≤◌, ◌<◌, length, take};
ghost use Rattle.machine_layout.specs.Layout.{most_operators, links_at, no_link};
ghost use Rattle.graph.specs.Assembly.{copies_for, chain, chain_ends, ring};
ghost use Rattle.maker_laid.specs.Encode.{encoded, written};
ghost use Rattle.maker_laid.specs.Emitted.{link_in, row_records, row_outputs};
ghost use Rattle.maker_laid.specs.Masked.{list_of, Mask};
ghost use Rattle.names.specs.Names.{names_in};

use crate::records::{copy_of, gate_of, ring_gate};
use machine_layout::store_operator;
use names::{has, members};

// A copy for each name of a mask: from its link to those that two parts have for it.
pub fn share(
    mem: &mut [u8],
    m: usize,
    mask: u64,
    env: [u16; 33],
    first: [u16; 33],
    second: [u16; 33],
)
    requires { Mask mask × (m + length (list_of mask) ≤ most_operators) × (links_at ≤ length mem.old) }
    ensures { mem.new ≡ written mem.old m (encoded (copies_for (list_of mask) (link_in env) (link_in first) (link_in second))) }
{
    for (i, x) in members(mask).enumerate() {
        store_operator(mem, m + i, copy_of(env[x], first[x], second[x]));
    }
}

// k gates of a kind on the links of `a` and `b`; each but the last takes its control from a copy.
pub fn gate_row(
    mem: &mut [u8],
    m: usize,
    n: u16,
    kind: u8,
    control: u16,
    a: [u16; 33],
    b: [u16; 33],
    k: usize,
) -> [u16; 33]
    requires { (k ≤ 33) × (m + 2 * k ≤ 1 + most_operators) × (n + 3 * k ≤ no_link) × (links_at ≤ length mem.old) }
    ensures { (mem.new ≡ written mem.old m (row_records kind control n a b 0 k)) × (take k result ≡ row_outputs n k) }
{
    let mut outs = [0u16; 33];
    if k == 0 {
        return outs;
    }
    let last = k - 1;
    let mut c = control;
    for i in 0..last {
        let at = m + 2 * i;
        let l = n + 3 * i as u16;
        store_operator(mem, at, copy_of(c, l, l + 1));
        store_operator(mem, at + 1, gate_of(kind, l, a[i], b[i], l + 2));
        outs[i] = l + 2;
        c = l + 1;
    }
    let l = n + 3 * last as u16;
    store_operator(mem, m + 2 * last, gate_of(kind, c, a[last], b[last], l));
    outs[last] = l;
    outs
}

// A chain of copies from link `l` to k users, and the users' links.
pub fn spread(mem: &mut [u8], m: usize, n: u16, l: u16, k: usize) -> [u16; 33]
    requires { (k ≤ 33) × (m + k ≤ 1 + most_operators) × (n + 2 * k ≤ no_link) × (links_at ≤ length mem.old) }
    ensures { (mem.new ≡ written mem.old m (encoded (chain l n k))) × (take k result ≡ chain_ends l n k) }
{
    let mut ends = [0u16; 33];
    if k == 0 {
        return ends;
    }
    let last = k - 1;
    let mut c = l;
    for i in 0..last {
        let to = n + 2 * i as u16;
        store_operator(mem, m + i, copy_of(c, to, to + 1));
        ends[i] = to;
        c = to + 1;
    }
    ends[last] = c;
    ends
}

// A loop's gates on the names of a mask: FM on its identifiers, FS on the others. The arrays give
// for each name the iterated and the starting link, the link of its own, and the gate's output.
pub fn ring_gates(
    mem: &mut [u8],
    m: usize,
    mask: u64,
    ids: u64,
    controls: [u16; 33],
    iterated: [u16; 33],
    started: [u16; 33],
    own: [u16; 33],
    out: [u16; 33],
)
    requires { Mask mask × (m + length (list_of mask) ≤ most_operators) × (links_at ≤ length mem.old) }
    ensures { mem.new ≡ written mem.old m (encoded (ring (list_of mask) (names_in ids) controls (link_in iterated) (link_in started) (link_in own) (link_in out))) }
{
    for (k, x) in members(mask).enumerate() {
        let o = ring_gate(
            has(ids, x as u32),
            controls[k],
            iterated[x],
            started[x],
            own[x],
            out[x],
        );
        store_operator(mem, m + k, o);
    }
}

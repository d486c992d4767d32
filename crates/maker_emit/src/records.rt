// One operator as a record of memory (machine_layout/specs/Record), and the loops over the names of a mask
// that need no memory. Document 01, "Forms to follow": "trailing zeros walk the names".
ghost use Rattle.std.specs.Prelude.{◌≡◌, map, ◌∷◌, [], ℕ, ◌+◌, ◌*◌, ◌≤◌, ◌<◌, length, take};
ghost use Rattle.machine_layout.specs.Layout.{most_links, no_link};
ghost use Rattle.graph.specs.Assembly.{ring_gate, gate_of, IC as IC-gate};
ghost use Rattle.maker_laid.specs.Encode.{encode};
ghost use Rattle.maker_laid.specs.Emitted.{copy_record, gate_record, dealt, assigned, link_in};
ghost use Rattle.maker_laid.specs.Masked.{list_of, Mask};

use machine_layout::{COPY, FM, FS, IC, NO_LINK, Operator};
use names::members;

// "two-way copies"
pub fn copy_of(l: u16, a: u16, b: u16) -> Operator
    ensures { result ≡ copy_record l a b }
{
    Operator {
        kind: COPY,
        in1: l,
        in2: NO_LINK,
        in3: NO_LINK,
        out1: a,
        out2: b,
        out3: NO_LINK,
        register: 0,
    }
}

// A gate with one output.
pub fn gate_of(kind: u8, a: u16, b: u16, c: u16, out: u16) -> Operator
    ensures { result ≡ gate_record kind a b c out }
{
    Operator {
        kind,
        in1: a,
        in2: b,
        in3: c,
        out1: out,
        out2: NO_LINK,
        out3: NO_LINK,
        register: 0,
    }
}

// "A body if joins these by one IC gate."
pub fn ic_of(both: bool, test: u16, x: u16, y: u16, n: u16) -> Operator
    requires { n ≤ most_links }
    ensures { result ≡ encode (gate_of (IC-gate both) (test ∷ x ∷ y ∷ []) n) }
{
    if both {
        return Operator {
            kind: IC,
            in1: test,
            in2: x,
            in3: y,
            out1: n,
            out2: n + 1,
            out3: n + 2,
            register: 0,
        };
    }
    Operator {
        kind: IC,
        in1: test,
        in2: x,
        in3: y,
        out1: n,
        out2: NO_LINK,
        out3: n + 1,
        register: 0,
    }
}

// "A for puts FM on its identifiers and FS on the body's other names"
pub fn ring_gate(
    identifier: bool,
    control: u16,
    iterated: u16,
    started: u16,
    own: u16,
    out: u16,
) -> Operator
    ensures { result ≡ encode (ring_gate identifier control iterated started own out) }
{
    if identifier {
        return gate_of(FM, control, iterated, started, out);
    }
    gate_of(FS, control, own, NO_LINK, out)
}

// The names of a mask get the links n, n + step, ..
pub fn deal(mask: u64, env: [u16; 33], n: u16, step: u16) -> [u16; 33]
    requires { Mask mask × (step ≤ 2) × (n + 2 * length (list_of mask) ≤ no_link) }
    ensures { result ≡ dealt step (list_of mask) n env }
{
    let mut e = env;
    let mut l = n;
    for x in members(mask) {
        e[x] = l;
        l += step;
    }
    e
}

// The names of a mask get the links of an array.
pub fn assign(mask: u64, env: [u16; 33], links: [u16; 33]) -> [u16; 33]
    requires { Mask mask }
    ensures { result ≡ assigned (list_of mask) links env }
{
    let mut e = env;
    for (k, x) in members(mask).enumerate() {
        e[x] = links[k];
    }
    e
}

// The links of the names of a mask.
pub fn gather(mask: u64, env: [u16; 33]) -> [u16; 33]
    requires { Mask mask }
    ensures { take (length (list_of mask)) result ≡ map (link_in env) (list_of mask) }
{
    let mut links = [NO_LINK; 33];
    for (k, x) in members(mask).enumerate() {
        links[k] = env[x];
    }
    links
}

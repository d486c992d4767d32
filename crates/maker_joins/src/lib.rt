#![tactic(auto)]
// What joins the results of a body if's arms (document 01, "The graph"): M, E or copies, or
// straight. Each contract holds for every environment that gives the arms' names their links.
ghost use Rattle.std.specs.Prelude.{◌≡◌, true, false, cond, ◌&&◌, ◌∷◌, ◌++◌, ℕ, ◌+◌, ◌*◌, ◌-◌, ◌≤◌, ◌<◌, length, take, drop, get_or, ltb};
ghost use Rattle.machine_layout.specs.Layout.{most_operators, most_links, links_at};
ghost use Rattle.graph.specs.Assembly.{Env, chain, chain_ends};
ghost use Rattle.graph.specs.Translation.{test_name, iterated_name, returned_name, join_name};
ghost use Rattle.theory_yields.specs.Joins.{join_i, join_r};
ghost use Rattle.maker_laid.specs.Encode.{encoded, written};
ghost use Rattle.maker_laid.specs.Emitted.{row_records, row_outputs};
ghost use Rattle.maker_laid.specs.Laid.{Laid};
ghost use Rattle.maker_laid.specs.Results.{Reads, ArmLinks};
ghost use Rattle.maker_laid.specs.Joined.{join_graph};
ghost use Rattle.maker_laid.specs.Counts.{operator_count};

use machine_layout::{E, M, NO_LINK, store_operator};
use maker_emit::emit::{gate_row, spread};
use maker_emit::links::{join, part};
use maker_emit::records::ic_of;

// The next numbers, of a link and of an operator. Both are as wide as an index, so that no unset
// bytes lie behind one.
#[derive(Clone, Copy)]
pub struct Next {
    pub link: usize,
    pub operator: usize,
}

// A part of a graph once it is written: its outputs, how many there are and how many of them are
// iterated results, and the next numbers.
#[derive(Clone, Copy)]
pub struct Emitted {
    pub outs: [u16; 33],
    pub count: usize,
    pub iterated: usize,
    pub next: Next,
}

// A list of links: the first `len` places of `at`.
#[derive(Clone, Copy)]
pub struct LinkList {
    pub at: [u16; 33],
    pub len: usize,
}

// k gates of a kind with one control, on the links of `a` and `b`.
pub fn gates(
    mem: &mut [u8],
    kind: u8,
    control: u16,
    a: [u16; 33],
    b: [u16; 33],
    k: usize,
    next: Next,
) -> Emitted
    requires { ((1 ≤ k) × (k ≤ 33)) × (next.operator + 2 * k ≤ 1 + most_operators) × (next.link ≤ 2 * most_links) × (links_at ≤ length mem.old) }
    ensures { (mem.new ≡ written mem.old next.operator (row_records kind control next.link a b 0 k)) × (take k result.outs ≡ row_outputs next.link k) × (result.count ≡ k) × (result.iterated ≡ k) × (result.next.link ≡ next.link + (3 * k - 2)) × (result.next.operator ≡ next.operator + (2 * k - 1)) }
{
    let outs = gate_row(mem, next.operator, next.link as u16, kind, control, a, b, k);
    let behind = Next {
        link: next.link + 3 * k - 2,
        operator: next.operator + 2 * k - 1,
    };
    Emitted {
        outs,
        count: k,
        iterated: k,
        next: behind,
    }
}

// "Its iterated results join by M on the second IC output where both arms iterate, else pass
// straight."
pub fn join_iterated(
    mem: &mut [u8],
    control: u16,
    xs: LinkList,
    ys: LinkList,
    next: Next,
) -> Emitted
    requires { (xs.len ≤ 16) × (ys.len ≤ 16) × (0 < xs.len → 0 < ys.len → (xs.len ≡ ys.len) × (next.operator + 2 * xs.len ≤ 1 + most_operators)) × (next.link ≤ 2 * most_links) × (links_at ≤ length mem.old) }
    ensures { (result.count ≤ 16) × (result.iterated ≡ result.count) × (result.count ≡ cond (ltb 0 xs.len) xs.len ys.len) × (result.next.operator ≡ next.operator + operator_count (join_i (ltb 0 xs.len) (ltb 0 ys.len) xs.len ys.len)) × (result.next.link ≤ next.link + 48) × ((env : Env) → ((xs.len ≡ 0 → ⊥) → (ys.len ≡ 0 → ⊥) → env (join_name + 1) ≡ control) → Reads env (iterated_name true) xs.len xs.at → Reads env (iterated_name false) ys.len ys.at → Laid (join_i (ltb 0 xs.len) (ltb 0 ys.len) xs.len ys.len) next.link next.operator env mem.old mem.new (take result.count result.outs) result.next.link result.next.operator) }
{
    if xs.len == 0 {
        let outs = ys.at;
        return Emitted {
            outs,
            count: ys.len,
            iterated: ys.len,
            next,
        };
    }
    if ys.len == 0 {
        let outs = xs.at;
        return Emitted {
            outs,
            count: xs.len,
            iterated: xs.len,
            next,
        };
    }
    gates(mem, M, control, xs.at, ys.at, xs.len, next)
}

// A link copied to k users.
fn copies(mem: &mut [u8], l: u16, k: usize, next: Next) -> Emitted
    requires { ((1 ≤ k) × (k ≤ 33)) × (next.operator + k ≤ 1 + most_operators) × (next.link ≤ 2 * most_links) × (links_at ≤ length mem.old) }
    ensures { (mem.new ≡ written mem.old next.operator (encoded (chain l next.link k))) × (take k result.outs ≡ chain_ends l next.link k) × (result.count ≡ k) × (result.next.link ≡ next.link + 2 * (k - 1)) × (result.next.operator ≡ next.operator + (k - 1)) }
{
    let outs = spread(mem, next.operator, next.link as u16, l, k);
    let behind = Next {
        link: next.link + 2 * (k - 1),
        operator: next.operator + (k - 1),
    };
    Emitted {
        outs,
        count: k,
        iterated: 0,
        next: behind,
    }
}

// "Its returned results, as many as the whole loop returns, join by M on the third output where
// both arms return, by E where one does; where neither does, each is a copy of that third output."
pub fn join_returned(
    mem: &mut [u8],
    control: u16,
    xs: LinkList,
    ys: LinkList,
    w: usize,
    next: Next,
) -> Emitted
    requires { (1 ≤ w) × (w ≤ 16) × (0 < xs.len → xs.len ≡ w) × (0 < ys.len → ys.len ≡ w) × (0 < xs.len + ys.len → next.operator + 2 * w ≤ 1 + most_operators) × (next.operator + w ≤ 1 + most_operators) × (next.link ≤ 2 * most_links) × (links_at ≤ length mem.old) }
    ensures { (result.count ≡ w) × ((env : Env) → env (join_name + 2) ≡ control → Reads env (returned_name true) xs.len xs.at → Reads env (returned_name false) ys.len ys.at → Laid (join_r (ltb 0 xs.len) (ltb 0 ys.len) w) next.link next.operator env mem.old mem.new (take result.count result.outs) result.next.link result.next.operator) }
{
    let none = [NO_LINK; 33];
    if xs.len == 0 {
        if ys.len == 0 {
            return copies(mem, control, w, next);
        }
        return gates(mem, E, control, ys.at, none, w, next);
    }
    if ys.len == 0 {
        return gates(mem, E, control, xs.at, none, w, next);
    }
    gates(mem, M, control, xs.at, ys.at, w, next)
}

// The results of an arm of a body if: iter?, the iterated and the returned results.
#[derive(Clone, Copy)]
pub struct Arm {
    pub iter: u16,
    pub iterated: LinkList,
    pub returned: LinkList,
}

pub fn results_of(x: Emitted) -> Arm
    requires { (1 + x.iterated ≤ x.count) × (x.count ≤ 33) }
    ensures { (result.iter ≡ get_or x.outs 0 0) × (result.iterated.len ≡ x.iterated) × (take x.iterated result.iterated.at ≡ take x.iterated (drop 1 x.outs)) × (result.returned.len ≡ x.count - (1 + x.iterated)) × (take (x.count - (1 + x.iterated)) result.returned.at ≡ take (x.count - (1 + x.iterated)) (drop (1 + x.iterated) x.outs)) }
{
    let outs = x.outs;
    let i = x.iterated;
    let r = x.count - (1 + i);
    let at = part(outs, 1, i);
    let iterated = LinkList { at, len: i };
    let at = part(outs, 1 + i, r);
    let returned = LinkList { at, len: r };
    Arm {
        iter: outs[0],
        iterated,
        returned,
    }
}

// A link, then two lists of links.
fn listed(l: u16, a: Emitted, b: Emitted) -> [u16; 33]
    requires { 1 + a.count + b.count ≤ 33 }
    ensures { take (1 + a.count + b.count) result ≡ l ∷ (take a.count a.outs ++ take b.count b.outs) }
{
    let first = [l; 33];
    let ao = a.outs;
    let front = join(first, 1, ao, a.count);
    let bo = b.outs;
    join(front, 1 + a.count, bo, b.count)
}

// What joins the arms of a body if: "one IC gate", the iterated results, the returned results.
pub fn join_arms(mem: &mut [u8], w: usize, test: u16, x: Arm, y: Arm, next: Next) -> Emitted
    requires { ((1 ≤ w) × (w ≤ 16)) × ((x.iterated.len ≤ 16) × (y.iterated.len ≤ 16)) × (0 < x.iterated.len → 0 < y.iterated.len → x.iterated.len ≡ y.iterated.len) × (0 < x.returned.len → x.returned.len ≡ w) × (0 < y.returned.len → y.returned.len ≡ w) × (next.operator + operator_count (join_graph (ltb 0 x.iterated.len) (ltb 0 y.iterated.len) (ltb 0 x.returned.len) (ltb 0 y.returned.len) x.iterated.len y.iterated.len w) ≤ most_operators) × (next.link ≤ most_links) × (links_at ≤ length mem.old) }
    ensures { (result.iterated ≡ cond (ltb 0 x.iterated.len) x.iterated.len y.iterated.len) × (result.count ≡ 1 + result.iterated + w) × ((env : Env) → env test_name ≡ test → ArmLinks env true x.iter x.iterated.at x.iterated.len x.returned.at x.returned.len → ArmLinks env false y.iter y.iterated.at y.iterated.len y.returned.at y.returned.len → Laid (join_graph (ltb 0 x.iterated.len) (ltb 0 y.iterated.len) (ltb 0 x.returned.len) (ltb 0 y.returned.len) x.iterated.len y.iterated.len w) next.link next.operator env mem.old mem.new (take result.count result.outs) result.next.link result.next.operator) }
{
    let both = 0 < x.iterated.len && 0 < y.iterated.len;
    let n = next.link as u16;
    store_operator(mem, next.operator, ic_of(both, test, x.iter, y.iter, n));
    // "An output with no user is not emitted": the second, where not both arms iterate.
    let outputs = 2 + u16::from(both);
    let at = n + outputs;
    let behind = Next {
        link: at as usize,
        operator: next.operator + 1,
    };
    let i = join_iterated(mem, n + 1, x.iterated, y.iterated, behind);
    let r = join_returned(mem, at - 1, x.returned, y.returned, w, i.next);
    let outs = listed(n, i, r);
    let end = r.next;
    Emitted {
        outs,
        count: 1 + i.count + w,
        iterated: i.count,
        next: end,
    }
}

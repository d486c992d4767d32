// The operators of each row with all below it, and test 10 of document 01, "over 1,024 operators". A row has at least the
// operators of the rows that it names, so the first row over 1,024 decides.
ghost use Rattle.std.specs.Prelude.{◌≡◌, Bool, cond, ◌&&◌, ◌||◌, ℕ, ◌+◌, ◌*◌, ◌-◌, ◌≤◌, ◌<◌, length, get_or};
ghost use Rattle.formula.specs.Sheet.{named_in};
ghost use Rattle.formula.specs.TreeLaws.{AllBetween};
ghost use Rattle.sheet_tables.specs.Masks.{Ranged};
ghost use Rattle.sheet_count.specs.Counts.{own as own_of, sharing as sharingOf, if_copies, arm_gates, exp_if, for_own, both_iterate, one_returns, body_if, plain_own, ended as ended_of, own_by, own_operators, named_total, Small, total_of};
ghost use Rattle.formula.specs.Tests.{operators_of};
ghost use Rattle.sheet_count.specs.Filled.{Filled};
ghost use Rattle.sheet_tables.specs.Ready.{Ready, Noded};

use formula::Shape;
use names::{TRIGGER_MASK, count};
use sheet_fields::layout::MOST_ROWS;
use sheet_fields::shape::{entry, shape_at};
use sheet_tables::ends::{ITERATES, find_ends};
use sheet_tables::loops::find_loops;
use sheet_tables::masks::{outside, plain_mask};

// The operators of a row's own: gates with one output, two-way copies, and IC gates.
#[derive(Clone, Copy)]
pub struct Own {
    pub gates: u32,
    pub copies: u32,
    pub joins: u32,
}

const MOST_OPERATORS: u32 = 1024;

// Gates and copies alone.
fn simple(gates: u32, copies: u32) -> Own
    ensures { result ≡ own_of gates copies }
{
    Own {
        gates,
        copies,
        joins: 0,
    }
}

// How many names two masks have in common.
fn sharing(a: u64, b: u64) -> u32
    ensures { (result ≡ sharingOf a b) × (result ≤ 64) }
{
    count(a & b)
}

fn if_copies(x: u64, y: u64, z: u64) -> u32
    ensures { (result ≡ if_copies x y z) × (result ≤ 128) }
{
    sharing(x, y | z) + sharing(y, z)
}

fn arm_gates(y: u64, z: u64) -> u32
    ensures { (result ≡ arm_gates y z) × (result ≤ 128) }
{
    count(y) + count(z)
}

fn exp_if(x: u64, y: u64, z: u64, w: u32) -> Own
    requires { w < 256 }
    ensures { (result ≡ exp_if x y z w) × (Small 1000 result) }
{
    let g = arm_gates(y, z) + w;
    simple(g, if_copies(x, y, z) + g.saturating_sub(1))
}

fn for_own(x: u64, y: u64, a: u32, b: u32) -> Own
    requires { a + b ≤ 32 }
    ensures { (result ≡ for_own x y a b) × (Small 1000 result) }
{
    let g = count(y);
    simple(g, sharing(x, outside(y, a, b)) + g.saturating_sub(1))
}

fn both_iterate(e: u8, f: u8) -> bool
    ensures { result ≡ both_iterate e f }
{
    ITERATES <= e && ITERATES <= f
}

fn one_returns(e: u8, f: u8) -> bool
    ensures { result ≡ one_returns e f }
{
    e != ITERATES || f != ITERATES
}

fn when(b: bool, k: u32) -> u32
    ensures { (result ≡ cond b k 0) × (result ≤ k) }
{
    if b { k } else { 0 }
}

// A body if: v is arm b's iterated width, w the loop's returned width, e and f the arms' ends.
fn body_if(x: u64, y: u64, z: u64, v: u32, w: u32, e: u8, f: u8) -> Own
    requires { (v < 256) × (w < 256) }
    ensures { (result ≡ body_if x y z v w e f) × (Small 1000 result) }
{
    let both = both_iterate(e, f);
    let g = arm_gates(y, z);
    Own {
        gates: g + when(both, v) + when(one_returns(e, f), w),
        copies: if_copies(x, y, z) + g + when(both, v.saturating_sub(1)) + w.saturating_sub(1),
        joins: 1,
    }
}

// The operators of row r's own, of shape s, read as an expression.
#[tactic(auto, unfolding(crate::specs::Counts::plain_own, formula::specs::Sheet::named_in))]
fn plain_own(s: Shape, r: usize, masks: &[u64], returned: &[u8]) -> Own
    requires { (AllBetween r (named_in s)) × (Ranged s) × (r ≤ length masks.now + 1) × (r ≤ length returned.now + 1) }
    ensures { (result ≡ plain_own (λ k. get_or masks.now (k - 1) 0) (λ k. get_or returned.now (k - 1) 0) s) × (Small 1000 result) }
{
    match s {
        Shape::Identifier(_) => simple(0, 0),
        Shape::Constant(_, _) | Shape::Operator(_, _) => simple(1, 0),
        Shape::Pair(a, b) => simple(0, sharing(entry(masks, a), entry(masks, b))),
        Shape::Let(a, b, c, d) => simple(
            0,
            sharing(entry(masks, c), outside(entry(masks, d), a, b)),
        ),
        Shape::If(a, b, c) => exp_if(
            entry(masks, a),
            entry(masks, b),
            entry(masks, c),
            u32::from(entry(returned, b)),
        ),
        Shape::For(a, b, c, d) => for_own(entry(masks, c), entry(masks, d), a, b),
        Shape::Iter(a) => simple(1, sharing(TRIGGER_MASK, entry(masks, a))),
    }
}

// A returned expression has its false constant besides.
fn ended(o: Own, m: u64) -> Own
    requires { Small 1000 o }
    ensures { (result ≡ ended_of o m) × (Small 2000 result) }
{
    Own {
        gates: o.gates + 1,
        copies: o.copies + sharing(TRIGGER_MASK, m),
        joins: o.joins,
    }
}

// The operators of row r's own, of shape s, in its place; w is the loop's returned width.
#[tactic(auto, unfolding(crate::specs::Counts::own_by, crate::specs::Counts::body_own, formula::specs::Sheet::named_in))]
fn own_of(
    s: Shape,
    r: usize,
    in_body: bool,
    w: u32,
    masks: &[u64],
    returned: &[u8],
    iterated: &[u8],
    ends: &[u8],
) -> Own
    requires { (AllBetween r (named_in s)) × (Ranged s) × (w < 256) × (r ≤ length masks.now + 1) × (r ≤ length returned.now + 1) × (r ≤ length iterated.now + 1) × (r ≤ length ends.now + 1) }
    ensures { (result ≡ own_by in_body (λ k. get_or masks.now (k - 1) 0) (λ k. get_or returned.now (k - 1) 0) (λ k. get_or iterated.now (k - 1) 0) (λ k. get_or ends.now (k - 1) 0) w s) × (Small 2000 result) }
{
    let plain = plain_own(s, r, masks, returned);
    if !in_body {
        return plain;
    }
    match s {
        Shape::Identifier(_)
        | Shape::Constant(_, _)
        | Shape::Pair(_, _)
        | Shape::Operator(_, _)
        | Shape::For(_, _, _, _) => ended(plain, plain_mask(s, r, masks)),
        Shape::Let(_, _, _, _) | Shape::Iter(_) => plain,
        Shape::If(a, b, c) => body_if(
            entry(masks, a),
            entry(masks, b),
            entry(masks, c),
            u32::from(entry(iterated, b)),
            w,
            entry(ends, b),
            entry(ends, c),
        ),
    }
}

// The sum of the entries of the rows that row r names.
#[tactic(auto, unfolding(crate::specs::Counts::named_total, formula::specs::Sheet::named_in))]
fn named_total(s: Shape, r: usize, counts: &[u32]) -> u32
    requires { (AllBetween r (named_in s)) × (r ≤ length counts.now + 1) × ((k : ℕ) → get_or counts.now k 0 ≤ 3072) }
    ensures { (result ≡ named_total (λ k. get_or counts.now (k - 1) 0) s) × (result ≤ 9216) }
{
    match s {
        Shape::Identifier(_) | Shape::Constant(_, _) => 0,
        Shape::Operator(_, a) | Shape::Iter(a) => entry(counts, a),
        Shape::Pair(a, b) | Shape::Let(_, _, a, b) | Shape::For(_, _, a, b) => {
            entry(counts, a) + entry(counts, b)
        }
        Shape::If(a, b, c) => entry(counts, a) + entry(counts, b) + entry(counts, c),
    }
}

fn operators_of(o: Own, below: u32) -> u32
    requires { (Small 2000 o) × (below ≤ 9216) }
    ensures { result ≡ own_operators o + below }
{
    o.gates + o.copies + o.joins + below
}

// The operators of the last row with all below it; the tables have the rows' loop widths, masks, widths and ends.
fn count_rows(
    fields: &[u32],
    n: usize,
    places: &[bool],
    loops: &[u8],
    masks: &[u64],
    returned: &[u8],
    iterated: &[u8],
    ends: &[u8],
) -> Option<u32>
    requires { Filled fields.now n places.now loops.now masks.now returned.now iterated.now ends.now }
    ensures { result ≡ total_of (operators_of fields.now n) }
{
    let mut operators = [0u32; MOST_ROWS];
    for i in 0..n {
        let r = i + 1;
        let s = shape_at(fields, r);
        let own = own_of(
            s,
            r,
            places[i],
            u32::from(entry(loops, r)),
            masks,
            returned,
            iterated,
            ends,
        );
        let total = operators_of(own, named_total(s, r, &operators[..i]));
        if MOST_OPERATORS < total {
            return None;
        }
        operators[i] = total;
    }
    Some(operators[n - 1])
}

// Test 10 of n rows in these places, with their masks and widths.
pub fn test_operators(
    fields: &[u32],
    n: usize,
    places: &[bool],
    returned: &[u8],
    iterated: &[u8],
    masks: &[u64],
) -> Option<u32>
    requires { (Ready fields.now n places.now) × (1 ≤ n) × (n ≤ 200) × (Noded fields.now n places.now returned.now iterated.now masks.now) }
    ensures { result ≡ total_of (operators_of fields.now n) }
{
    let mut ends = [0u8; MOST_ROWS];
    find_ends(fields, n, &mut ends[..n]);
    let mut loops = [0u8; MOST_ROWS];
    find_loops(fields, n, places, returned, &mut loops[..n]);
    count_rows(
        fields,
        n,
        places,
        &loops[..n],
        masks,
        returned,
        iterated,
        &ends[..n],
    )
}

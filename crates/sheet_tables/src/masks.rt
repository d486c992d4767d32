// The free names of each row as a u64 mask, and test 9 of document 01, "a bound identifier not free in row d".
ghost use Rattle.std.specs.Prelude.{◌≡◌, Bool, true, false, ℕ, ◌+◌, ◌*◌, ◌-◌, ◌^◌, ◌≤◌, ◌<◌, length, get_or, eqb, Ok};
ghost use Rattle.std.specs.Int.Bits.{bit_or};
ghost use Rattle.names.specs.Names.{mask};
ghost use Rattle.formula.specs.Sheet.{named_in};
ghost use Rattle.formula.specs.TreeLaws.{AllBetween};
ghost use Rattle.formula.specs.Tests.{lowest, bound_well};
ghost use Rattle.sheet_tables.specs.Nodes.{node_at, free_in, Holds};
ghost use Rattle.sheet_tables.specs.Ready.{Ready};
ghost use Rattle.sheet_tables.specs.Masks.{plain_mask, mask_by, bound_by, outside as outsideOf, missing, is_returned, Ranged};

use formula::Shape;
use names::{TRIGGER_MASK, count, minus, range_mask, single};
use sheet_fields::shape::{entry, shape_at};

// The mask of row r.
pub fn mask_at(masks: &[u64], r: usize) -> u64
    requires { (1 ≤ r) × (r ≤ length masks.now) }
    ensures { result ≡ get_or masks.now (r - 1) 0 }
{
    entry(masks, r)
}

// The names of m but the identifiers a to a + b - 1.
pub fn outside(m: u64, a: u32, b: u32) -> u64
    requires { a + b ≤ 32 }
    ensures { result ≡ outsideOf m a b }
{
    minus(m, range_mask(a, b))
}

// The mask of row r, of shape s, read as an expression.
#[tactic(auto, unfolding(crate::specs::Masks::plain_mask, formula::specs::Sheet::named_in))]
pub fn plain_mask(s: Shape, r: usize, masks: &[u64]) -> u64
    requires { (AllBetween r (named_in s)) × (Ranged s) × (r ≤ length masks.now + 1) }
    ensures { result ≡ plain_mask (λ k. get_or masks.now (k - 1) 0) s }
{
    match s {
        Shape::Identifier(a) => single(a),
        Shape::Constant(_, _) => TRIGGER_MASK,
        Shape::Pair(a, b) => entry(masks, a) | entry(masks, b),
        Shape::Operator(_, b) => entry(masks, b),
        Shape::Let(a, b, c, d) | Shape::For(a, b, c, d) => {
            entry(masks, c) | outside(entry(masks, d), a, b)
        }
        Shape::If(a, b, c) => entry(masks, a) | (entry(masks, b) | entry(masks, c)),
        Shape::Iter(a) => TRIGGER_MASK | entry(masks, a),
    }
}

// Whether a row of this kind, in a body place, is a returned expression.
pub fn is_returned(s: Shape) -> bool
    ensures { result ≡ is_returned s }
{
    !matches!(
        s,
        Shape::Let(_, _, _, _) | Shape::If(_, _, _) | Shape::Iter(_)
    )
}

fn mask_of(s: Shape, r: usize, in_body: bool, masks: &[u64]) -> u64
    requires { (AllBetween r (named_in s)) × (Ranged s) × (r ≤ length masks.now + 1) }
    ensures { result ≡ mask_by in_body (λ k. get_or masks.now (k - 1) 0) s }
{
    let plain = plain_mask(s, r, masks);
    if in_body && is_returned(s) {
        TRIGGER_MASK | plain
    } else {
        plain
    }
}

// Whether no identifier from a to a + b - 1 is missing from m.
fn covered(m: u64, a: u32, b: u32) -> bool
    requires { a + b ≤ 32 }
    ensures { result ≡ eqb (missing m a b) 0 }
{
    count(minus(range_mask(a, b), m)) == 0
}

// Test 9 of row r, of shape s.
#[tactic(auto, unfolding(crate::specs::Masks::bound_by, formula::specs::Sheet::named_in))]
pub fn bound_well(s: Shape, r: usize, masks: &[u64]) -> bool
    requires { (AllBetween r (named_in s)) × (Ranged s) × (r ≤ length masks.now + 1) }
    ensures { result ≡ bound_by (λ k. get_or masks.now (k - 1) 0) s }
{
    match s {
        Shape::Identifier(_)
        | Shape::Constant(_, _)
        | Shape::Pair(_, _)
        | Shape::Operator(_, _)
        | Shape::If(_, _, _)
        | Shape::Iter(_) => true,
        Shape::Let(a, b, _, d) | Shape::For(a, b, _, d) => covered(entry(masks, d), a, b),
    }
}

// Test 9. The rows before the first fault have their masks in the table.
pub fn test_bound(fields: &[u32], n: usize, places: &[bool], masks: &mut [u64]) -> Result<(), usize>
    requires { (Ready fields.now n places.now) × (length masks.old ≡ n) }
    ensures { (result ≡ lowest n (bound_well fields.now places.now))
        × (result ≡ Ok tt → Holds 0 masks.new n (λ k. mask (free_in (node_at fields.now places.now k)))) }
{
    for i in 0..n {
        let r = i + 1;
        let s = shape_at(fields, r);
        if !bound_well(s, r, &masks[..i]) {
            return Err(r);
        }
        masks[i] = mask_of(s, r, places[i], &masks[..i]);
    }
    Ok(())
}

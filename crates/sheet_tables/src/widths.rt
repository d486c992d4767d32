// Test 8 of document 01, "a width rule broken": the returned and the iterated width of each row, from the first row up.
ghost use Rattle.std.specs.Prelude.{◌≡◌, Bool, true, false, not, ◌&&◌, ℕ, ◌+◌, ◌*◌, ◌-◌, ◌≤◌, ◌<◌, length, get_or, eqb, Ok};
ghost use Rattle.value.specs.Operators.{operands};
ghost use Rattle.formula.specs.Sheet.{named_in};
ghost use Rattle.formula.specs.TreeLaws.{AllBetween};
ghost use Rattle.formula.specs.Tests.{lowest, widths_well};
ghost use Rattle.formula.specs.Widths.{either, agree as agreeing};
ghost use Rattle.sheet_tables.specs.Nodes.{node_at, returned_in, iterated_in, Holds};
ghost use Rattle.sheet_tables.specs.Ready.{Ready};
ghost use Rattle.sheet_tables.specs.Widths.{widths_by, well_by};

use formula::Shape;
use sheet_fields::shape::{shape_at, width_at};

// The widths of a row, 0 for one that it does not have, and whether its kind's rule holds.
#[derive(Clone, Copy)]
pub struct Widths {
    pub returned: usize,
    pub iterated: usize,
    pub fits: bool,
}

// "no width above 16"
const WIDEST: usize = 16;

// How many values an operator takes.
#[tactic(auto, unfolding(value::specs::Operators::operands))]
fn operand_width(code: u32) -> usize
    ensures { result ≡ operands code }
{
    match code {
        10..=11 => 1,
        _ => 2,
    }
}

// The width of two arms: that of the first that has one.
fn of_arms(u: usize, v: usize) -> usize
    ensures { result ≡ either u v }
{
    if u == 0 { v } else { u }
}

// "body arms are equal in each width that both have"
fn agree(u: usize, v: usize) -> bool
    ensures { result ≡ agreeing u v }
{
    u == 0 || v == 0 || u == v
}

// A body if with test u; v and w are the arms' iterated widths, x and y their returned ones.
fn if_widths(u: usize, v: usize, w: usize, x: usize, y: usize) -> Widths
    ensures { result ≡ record { returned = either x y; iterated = either v w; fits = (eqb u 1 && agreeing v w && agreeing x y) } }
{
    Widths {
        returned: of_arms(x, y),
        iterated: of_arms(v, w),
        fits: u == 1 && agree(v, w) && agree(x, y),
    }
}

// An expression of this width, whose rule holds or not.
fn expression(width: usize, rule: bool) -> Widths
    ensures { result ≡ record { returned = width; iterated = 0; fits = rule } }
{
    Widths {
        returned: width,
        iterated: 0,
        fits: rule,
    }
}

// A for of k names; u is the width of what enters it, v and x are its body's iterated and returned widths.
fn for_widths(k: usize, u: usize, v: usize, x: usize) -> Widths
    ensures { result ≡ record { returned = x; iterated = 0; fits = (eqb u k && eqb v k && not (eqb x 0)) } }
{
    expression(x, u == k && v == k && x != 0)
}

// The widths of row r, of shape s, from those of earlier rows.
#[tactic(auto, unfolding(crate::specs::Widths::widths_by, formula::specs::Sheet::named_in))]
pub fn widths_of(s: Shape, r: usize, in_body: bool, returned: &[u8], iterated: &[u8]) -> Widths
    requires { (AllBetween r (named_in s)) × (r ≤ length returned.now + 1) × (r ≤ length iterated.now + 1) }
    ensures { result ≡ widths_by in_body (λ k. get_or returned.now (k - 1) 0) (λ k. get_or iterated.now (k - 1) 0) s }
{
    match s {
        Shape::Identifier(_) | Shape::Constant(_, _) => expression(1, true),
        Shape::Pair(a, b) => expression(width_at(returned, a) + width_at(returned, b), true),
        Shape::Operator(k, b) => expression(1, width_at(returned, b) == operand_width(k)),
        Shape::Let(_, b, c, d) => Widths {
            returned: width_at(returned, d),
            iterated: width_at(iterated, d),
            fits: width_at(returned, c) == b as usize,
        },
        Shape::If(a, b, c) => {
            let u = width_at(returned, a);
            let x = width_at(returned, b);
            let y = width_at(returned, c);
            if in_body {
                if_widths(u, width_at(iterated, b), width_at(iterated, c), x, y)
            } else {
                expression(x, u == 1 && x == y)
            }
        }
        Shape::For(_, b, c, d) => for_widths(
            b as usize,
            width_at(returned, c),
            width_at(iterated, d),
            width_at(returned, d),
        ),
        Shape::Iter(a) => Widths {
            returned: 0,
            iterated: width_at(returned, a),
            fits: true,
        },
    }
}

// Test 8 of a row's widths.
pub fn widths_well(w: Widths) -> bool
    ensures { result ≡ well_by w }
{
    w.iterated <= WIDEST && w.returned <= WIDEST && w.fits
}

// Test 8. The rows before the first fault have their widths in the tables.
pub fn test_widths(
    fields: &[u32],
    n: usize,
    places: &[bool],
    returned: &mut [u8],
    iterated: &mut [u8],
) -> Result<(), usize>
    requires { (Ready fields.now n places.now) × (length returned.old ≡ n) × (length iterated.old ≡ n) }
    ensures { (result ≡ lowest n (widths_well fields.now places.now))
        × (result ≡ Ok tt → (Holds 0 returned.new n (λ k. returned_in (node_at fields.now places.now k))) × (Holds 0 iterated.new n (λ k. iterated_in (node_at fields.now places.now k)))) }
{
    for i in 0..n {
        let r = i + 1;
        let w = widths_of(
            shape_at(fields, r),
            r,
            places[i],
            &returned[..i],
            &iterated[..i],
        );
        if !widths_well(w) {
            return Err(r);
        }
        returned[i] = w.returned as u8;
        iterated[i] = w.iterated as u8;
    }
    Ok(())
}

// For each row in a body place the returned width of the innermost for above it (document 01, "The graph": "as many as the
// whole loop returns"), from the last row down.
ghost use Rattle.std.specs.Prelude.{◌≡◌, [], ◌∷◌, ℕ, ◌+◌, ◌-◌, ◌≤◌, length, get_or, replicate};
ghost use Rattle.formula.specs.Sheet.{named_in};
ghost use Rattle.formula.specs.Places.{bodies_in};
ghost use Rattle.formula.specs.TreeLaws.{AllBetween};
ghost use Rattle.sheet_tables.specs.Ready.{Ready};
ghost use Rattle.sheet_tables.specs.Loops.{handed, fill, loops_of};

use formula::Shape;
use sheet_fields::shape::{entry, shape_at};
use sheet_rows::places::{Bodies, bodies_of};

#[tactic(auto, unfolding(crate::specs::Loops::handed, formula::specs::Sheet::named_in))]
fn hand_on(s: Shape, r: usize, w: u8, returned: &[u8]) -> u8
    requires { (AllBetween r (named_in s)) × (r ≤ length returned.now) }
    ensures { result ≡ handed (λ k. get_or returned.now (k - 1) 0) w s }
{
    match s {
        Shape::Identifier(_)
        | Shape::Constant(_, _)
        | Shape::Pair(_, _)
        | Shape::Operator(_, _)
        | Shape::Let(_, _, _, _)
        | Shape::If(_, _, _)
        | Shape::Iter(_) => w,
        Shape::For(_, _, _, d) => entry(returned, d),
    }
}

#[tactic(auto, unfolding(crate::specs::Loops::fill))]
fn fill_one(loops: &mut [u8], r: usize, v: u8)
    requires { (1 ≤ r) × (r ≤ length loops.old) }
    ensures { loops.new ≡ fill (r ∷ []) v loops.old }
{
    loops[r - 1] = v;
}

// The rows that row r, of shape s, names in body places get v.
fn fill_row(loops: &mut [u8], s: Shape, r: usize, in_body: bool, v: u8)
    requires { (AllBetween r (named_in s)) × (r ≤ length loops.old) }
    ensures { loops.new ≡ fill (bodies_in in_body s) v loops.old }
{
    let bodies = bodies_of(s, in_body);
    match bodies {
        Bodies::None => {}
        Bodies::One(d) => {
            fill_one(loops, d, v);
        }
        Bodies::Two(b, c) => {
            fill_one(loops, b, v);
            fill_one(loops, c, v);
        }
    }
}

// From a blank table.
pub fn find_loops(fields: &[u32], n: usize, places: &[bool], returned: &[u8], loops: &mut [u8])
    requires { (Ready fields.now n places.now) × (length returned.now ≡ n) × (loops.old ≡ replicate n 0) }
    ensures { loops.new ≡ loops_of fields.now places.now (λ k. get_or returned.now (k - 1) 0) n }
{
    for r in (1..=n).rev() {
        let s = shape_at(fields, r);
        let v = hand_on(s, r, loops[r - 1], returned);
        fill_row(loops, s, r, places[r - 1], v);
    }
}

// How each row ends (document 01, "The graph": "an arm that ends, behind any lets, in a body if always returns"), from the
// first row up.
ghost use Rattle.std.specs.Prelude.{◌≡◌, ℕ, ◌+◌, ◌-◌, ◌≤◌, length, get_or};
ghost use Rattle.formula.specs.Sheet.{named_in};
ghost use Rattle.formula.specs.Places.{places_of};
ghost use Rattle.formula.specs.TreeLaws.{AllBetween};
ghost use Rattle.sheet_tables.specs.Nodes.{node_at, Holds};
ghost use Rattle.sheet_tables.specs.Ready.{Ready};
ghost use Rattle.sheet_tables.specs.Ends.{ends_in, ends_by, arms_end};

use formula::Shape;
use sheet_fields::shape::{entry, shape_at};

// How a row ends (specs/Ends): a byte a row of the table, as the widths beside it have.
const RETURNS: u8 = 1;

pub const ITERATES: u8 = 2;

const DOES_BOTH: u8 = 3;

// An if whose arms end as u and v.
#[tactic(auto, unfolding(crate::specs::Ends::arms_end))]
fn arms_end(u: u8, v: u8) -> u8
    ensures { result ≡ arms_end u v }
{
    if ITERATES <= u || ITERATES <= v {
        DOES_BOTH
    } else {
        RETURNS
    }
}

// How row r, of shape s, ends, by the ends of earlier rows.
#[tactic(auto, unfolding(crate::specs::Ends::ends_by, formula::specs::Sheet::named_in))]
fn ends_of(s: Shape, r: usize, ends: &[u8]) -> u8
    requires { (AllBetween r (named_in s)) × (r ≤ length ends.now + 1) }
    ensures { result ≡ ends_by (λ k. get_or ends.now (k - 1) 0) s }
{
    match s {
        Shape::Identifier(_)
        | Shape::Constant(_, _)
        | Shape::Pair(_, _)
        | Shape::Operator(_, _)
        | Shape::For(_, _, _, _) => RETURNS,
        Shape::Let(_, _, _, d) => entry(ends, d),
        Shape::If(_, b, c) => arms_end(entry(ends, b), entry(ends, c)),
        Shape::Iter(_) => ITERATES,
    }
}

// The ends of n rows.
pub fn find_ends(fields: &[u32], n: usize, ends: &mut [u8])
    requires { (Ready fields.now n (places_of fields.now n)) × (length ends.old ≡ n) }
    ensures { Holds 0 ends.new n (λ k. ends_in (node_at fields.now (places_of fields.now n) k)) }
{
    for i in 0..n {
        let r = i + 1;
        ends[i] = ends_of(shape_at(fields, r), r, &ends[..i]);
    }
}

// The places of rows, and test 7 (document 01: "Body places are d of a for, and, of a row in a body place, d of a let and
// b, c of an if. All other places are expression places."). A row is named by a later one, so places are found from the
// last row down.
ghost use Rattle.std.specs.Prelude.{◌≡◌, [], ◌∷◌, Bool, true, false, not, ◌||◌, ◌+◌, ◌*◌, ◌≤◌, ◌<◌, length, replicate, set, Ok};
ghost use Rattle.formula.specs.Sheet.{shape_at, named_in};
ghost use Rattle.formula.specs.Places.{bodies_in, mark, places_of, is_in_body};
ghost use Rattle.formula.specs.Tests.{lowest, names_well, all_between, is_iter, placed_well};
ghost use Rattle.sheet_rows.specs.Bodies.{listed};

use formula::Shape;
use sheet_fields::shape::shape_at;

// Row r has its mark, here that of a body place.
pub fn mark_one(marks: &mut [bool], r: usize)
    requires { (1 ≤ r) × (r ≤ length marks.old) }
    ensures { marks.new ≡ mark (r ∷ []) marks.old }
{
    marks[r - 1] = true;
}

// The rows that a row names in body places: a list of two at the most, without a heap.
#[derive(Clone, Copy)]
pub enum Bodies {
    None,
    One(usize),
    Two(usize, usize),
}

#[tactic(auto, unfolding(formula::specs::Places::bodies_in))]
pub fn bodies_of(s: Shape, in_body: bool) -> Bodies
    ensures { listed result ≡ bodies_in in_body s }
{
    match s {
        Shape::For(_, _, _, d) => Bodies::One(d),
        Shape::Let(_, _, _, d) if in_body => Bodies::One(d),
        Shape::If(_, b, c) if in_body => Bodies::Two(b, c),
        Shape::Identifier(_)
        | Shape::Constant(_, _)
        | Shape::Pair(_, _)
        | Shape::Operator(_, _)
        | Shape::Let(_, _, _, _)
        | Shape::If(_, _, _)
        | Shape::Iter(_) => Bodies::None,
    }
}

// The rows that row r, of shape s, names in body places.
fn mark_row(places: &mut [bool], s: Shape, r: usize, in_body: bool)
    requires { (r ≤ length places.old) × (all_between r (named_in s) ≡ true) }
    ensures { places.new ≡ mark (bodies_in in_body s) places.old }
{
    let bodies = bodies_of(s, in_body);
    match bodies {
        Bodies::None => {}
        Bodies::One(d) => {
            mark_one(places, d);
        }
        Bodies::Two(b, c) => {
            mark_one(places, b);
            mark_one(places, c);
        }
    }
}

// The places of n rows, in a table that has every row in an expression place.
pub fn find_places(fields: &[u32], n: usize, places: &mut [bool])
    requires { (length fields.now ≡ 5 * n) × (places.old ≡ replicate n false) × (lowest n (names_well fields.now) ≡ Ok tt) }
    ensures { places.new ≡ places_of fields.now n }
{
    for r in (1..=n).rev() {
        let in_body = places[r - 1];
        mark_row(places, shape_at(fields, r), r, in_body);
    }
}

fn placed_well(s: Shape, in_body: bool) -> bool
    ensures { result ≡ (not (is_iter s) || in_body) }
{
    !matches!(s, Shape::Iter(_)) || in_body
}

// Test 7.
#[tactic(auto, using(sheet_fields::proofs::PassLaws::passing), unfolding(formula::specs::Tests::placed_well))]
pub fn test_places(fields: &[u32], n: usize, places: &[bool]) -> Result<(), usize>
    requires { (length fields.now ≡ 5 * n) × (length places.now ≡ n) }
    ensures { result ≡ lowest n (placed_well fields.now places.now) }
{
    for r in 1..=n {
        if !placed_well(shape_at(fields, r), places[r - 1]) {
            return Err(r);
        }
    }
    Ok(())
}

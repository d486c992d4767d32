// Tests 4, 5 and 6 of document 01, on the table of fields: ranges, rows named wrongly, rows not named once.
ghost use Rattle.std.specs.Prelude.{◌≡◌, Bool, true, ◌&&◌, [], ◌∷◌, ◌+◌, ◌*◌, ◌-◌, ◌≤◌, ◌<◌, length, replicate, get_or, eqb, leb, ltb, Ok};
ghost use Rattle.formula.specs.Sheet.{shape_at, named_in};
ghost use Rattle.formula.specs.Tests.{lowest, in_range, binds_well, ranges_well, names_well, all_between, all_named, named_once};
ghost use Rattle.sheet_rows.specs.Tallies.{tally, tallied};

use formula::Shape;
use names::TRIGGER;
use sheet_fields::layout::MOST_ROWS;
use sheet_fields::shape::{field_at, shape_at};

// The bounds of test 4.
const LAST_IDENTIFIER: u32 = 31;

const LARGEST_NUMBER: u32 = 999999;

const LARGEST_TRUTH: u32 = 1;

const LAST_OPERATOR: u32 = 11;

// Whether three fields are 0: "Unlisted fields are 0."
fn none_of(b: u32, c: u32, d: u32) -> bool
    ensures { result ≡ (eqb b 0 && eqb c 0 && eqb d 0) }
{
    b == 0 && c == 0 && d == 0
}

// The identifiers a to a + b - 1 are at least one, and all lie before the trigger.
#[tactic(auto, unfolding(formula::specs::Tests::binds_well))]
fn binds_well(a: u32, b: u32) -> bool
    ensures { result ≡ binds_well a b }
{
    1 <= b && b <= TRIGGER && a <= TRIGGER - b
}

// A row with a field a up to `most` alone.
fn only_up_to(most: u32, a: u32, b: u32, c: u32, d: u32) -> bool
    ensures { result ≡ (leb a most && eqb b 0 && eqb c 0 && eqb d 0) }
{
    a <= most && none_of(b, c, d)
}

// Test 4 of one row's fields.
#[tactic(auto, unfolding(formula::specs::Tests::in_range, formula::specs::Tests::binds_well))]
fn in_range(kind: u32, a: u32, b: u32, c: u32, d: u32) -> bool
    ensures { result ≡ in_range kind a b c d }
{
    match kind {
        1 => only_up_to(LAST_IDENTIFIER, a, b, c, d),
        2 | 10 => only_up_to(LARGEST_NUMBER, a, b, c, d),
        3 => only_up_to(LARGEST_TRUTH, a, b, c, d),
        4 => none_of(0, c, d),
        5 => 1 <= a && a <= LAST_OPERATOR && none_of(0, c, d),
        6 | 8 => binds_well(a, b),
        7 => d == 0,
        9 => none_of(b, c, d),
        _ => false,
    }
}

// Test 4.
#[tactic(auto, using(sheet_fields::proofs::PassLaws::passing), unfolding(formula::specs::Tests::ranges_well))]
pub fn test_ranges(fields: &[u32], n: usize) -> Result<(), usize>
    requires { length fields.now ≡ 5 * n }
    ensures { result ≡ lowest n (ranges_well fields.now) }
{
    for r in 1..=n {
        if !in_range(
            field_at(fields, r, 0),
            field_at(fields, r, 1),
            field_at(fields, r, 2),
            field_at(fields, r, 3),
            field_at(fields, r, 4),
        ) {
            return Err(r);
        }
    }
    Ok(())
}

// "A row named is at least 1 and smaller than the row naming it."
fn between(x: usize, r: usize) -> bool
    ensures { result ≡ (leb 1 x && ltb x r) }
{
    1 <= x && x < r
}

// Test 5 of row r, by its shape.
#[tactic(auto, unfolding(formula::specs::Sheet::named_in, formula::specs::Tests::all_between))]
pub fn names_well(s: Shape, r: usize) -> bool
    ensures { result ≡ all_between r (named_in s) }
{
    match s {
        Shape::Identifier(_) | Shape::Constant(_, _) => true,
        Shape::Operator(_, a) | Shape::Iter(a) => between(a, r),
        Shape::Pair(a, b) | Shape::Let(_, _, a, b) | Shape::For(_, _, a, b) => {
            between(a, r) && between(b, r)
        }
        Shape::If(a, b, c) => between(a, r) && between(b, r) && between(c, r),
    }
}

// Test 5.
#[tactic(auto, using(sheet_fields::proofs::PassLaws::passing), unfolding(formula::specs::Tests::names_well))]
pub fn test_naming(fields: &[u32], n: usize) -> Result<(), usize>
    requires { length fields.now ≡ 5 * n }
    ensures { result ≡ lowest n (names_well fields.now) }
{
    for r in 1..=n {
        if !names_well(shape_at(fields, r), r) {
            return Err(r);
        }
    }
    Ok(())
}

// Row r is named once more.
#[tactic(auto, unfolding(crate::specs::Tallies::tally))]
fn tally_one(times: &mut [u8], r: usize)
    requires { (1 ≤ r) × (r ≤ length times.old) }
    ensures { times.new ≡ tally (r ∷ []) times.old }
{
    times[r - 1] = if times[r - 1] == 0 { 1 } else { 2 };
}

// The rows that row r names are named once more each.
#[tactic(auto, unfolding(formula::specs::Sheet::named_in, crate::specs::Tallies::tally, formula::specs::Tests::all_between))]
fn tally_row(times: &mut [u8], s: Shape, r: usize)
    requires { (r ≤ length times.old) × (all_between r (named_in s) ≡ true) }
    ensures { times.new ≡ tally (named_in s) times.old }
{
    match s {
        Shape::Identifier(_) | Shape::Constant(_, _) => {}
        Shape::Operator(_, a) | Shape::Iter(a) => {
            tally_one(times, a);
        }
        Shape::Pair(a, b) | Shape::Let(_, _, a, b) | Shape::For(_, _, a, b) => {
            tally_one(times, a);
            tally_one(times, b);
        }
        Shape::If(a, b, c) => {
            tally_one(times, a);
            tally_one(times, b);
            tally_one(times, c);
        }
    }
}

// How often each row is named: 0 never, 1 once, 2 more than once.
pub fn tally_all(fields: &[u32], n: usize, times: &mut [u8])
    requires { (length fields.now ≡ 5 * n) × (length times.old ≡ n) × (lowest n (names_well fields.now) ≡ Ok tt) }
    ensures { times.new ≡ tallied fields.now n times.old }
{
    for r in 1..=n {
        tally_row(times, shape_at(fields, r), r);
    }
}

// The lowest of n rows that a table does not have as named once.
#[tactic(auto, using(sheet_fields::proofs::PassLaws::passing))]
fn first_unnamed(times: &[u8], n: usize) -> Result<(), usize>
    requires { n ≤ length times.now }
    ensures { result ≡ lowest n (λ k. eqb (get_or times.now (k - 1) 0) 1) }
{
    for r in 1..=n {
        if times[r - 1] != 1 {
            return Err(r);
        }
    }
    Ok(())
}

// Test 6.
pub fn test_named(fields: &[u32], n: usize) -> Result<(), usize>
    requires { (length fields.now ≡ 5 * n) × (1 ≤ n) × (n ≤ 200) × (lowest n (names_well fields.now) ≡ Ok tt) }
    ensures { result ≡ lowest (n - 1) (λ k. named_once (all_named fields.now n) k) }
{
    let mut named = [0u8; MOST_ROWS];
    tally_all(fields, n, &mut named[..n]);
    first_unnamed(&named[..n], n - 1)
}

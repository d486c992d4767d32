// A row of the fields' table by its kind (document 01, "The formula sheet").
ghost use Rattle.std.specs.Prelude.{◌≡◌, ℕ, ◌+◌, ◌*◌, ◌-◌, ◌≤◌, ◌<◌, length, get_or};
ghost use Rattle.formula.specs.Sheet.{field, shape_at, shape_of};
ghost use Rattle.formula.specs.Ways.{way_of};

use crate::layout::MOST_ROWS;
use formula::{Shape, Way};

// The fields of a row, and of the most rows.
pub const FIELDS: usize = 5;

pub const MOST_FIELDS: usize = FIELDS * MOST_ROWS;

// The identifiers that a row can name.
pub const IDENTIFIERS: usize = 32;

// Field j of row r, in a table of five fields a row.
pub fn field_at(fields: &[u32], r: usize, j: usize) -> u32
    requires { (1 ≤ r) × (5 * r ≤ length fields.now) × (j < 5) }
    ensures { result ≡ field fields.now r j }
{
    fields[FIELDS * (r - 1) + j]
}

#[tactic(auto, unfolding(formula::specs::Sheet::shape_of))]
fn shape_of(kind: u32, a: u32, b: u32, c: u32, d: u32) -> Shape
    ensures { result ≡ shape_of kind a b c d }
{
    match kind {
        1 => Shape::Identifier(a),
        2 | 3 | 10 => Shape::Constant(kind, a),
        4 => Shape::Pair(a as usize, b as usize),
        5 => Shape::Operator(a, b as usize),
        6 => Shape::Let(a, b, c as usize, d as usize),
        7 => Shape::If(a as usize, b as usize, c as usize),
        8 => Shape::For(a, b, c as usize, d as usize),
        9 => Shape::Iter(a as usize),
        _ => Shape::Constant(2, 0),
    }
}

// Row r by its kind.
pub fn shape_at(fields: &[u32], r: usize) -> Shape
    requires { (1 ≤ r) × (5 * r ≤ length fields.now) }
    ensures { result ≡ shape_at fields.now r }
{
    shape_of(
        field_at(fields, r, 0),
        field_at(fields, r, 1),
        field_at(fields, r, 2),
        field_at(fields, r, 3),
        field_at(fields, r, 4),
    )
}

// Row r of a body by what its place asks of it.
pub fn way_at(fields: &[u32], r: usize) -> Way
    requires { (1 ≤ r) × (5 * r ≤ length fields.now) }
    ensures { result ≡ way_of (shape_at fields.now r) }
{
    match shape_at(fields, r) {
        Shape::Let(a, b, c, d) => Way::Let(a, b, c, d),
        Shape::If(a, b, c) => Way::If(a, b, c),
        Shape::Iter(a) => Way::Iter(a),
        Shape::Identifier(_)
        | Shape::Constant(_, _)
        | Shape::Pair(_, _)
        | Shape::Operator(_, _)
        | Shape::For(_, _, _, _) => Way::End,
    }
}

// The entry of row r, in a table of one entry a row.
pub fn entry<T: Copy>(table: &[T], r: usize) -> T
    requires { (1 ≤ r) × (r ≤ length table.now) }
    ensures { (d : T) → result ≡ get_or table.now (r - 1) d }
{
    table[r - 1]
}

// The width of row r, in a table of one byte a row.
pub fn width_at(widths: &[u8], r: usize) -> usize
    requires { (1 ≤ r) × (r ≤ length widths.now) }
    ensures { (result ≡ get_or widths.now (r - 1) 0) × (result < 256) }
{
    usize::from(widths[r - 1])
}

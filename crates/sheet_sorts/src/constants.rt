// Whole constants, and the operators whose operand row has to name one (specs/Shapes). Row numbers are those of a table of five fields a row.
ghost use Rattle.std.specs.Prelude.{◌≡◌, ◌*◌, ◌≤◌, length};
ghost use Rattle.formula.specs.Sheet.{shape_at};
ghost use Rattle.sheet_sorts.specs.Shapes.{whole_row, amount_row, names_whole_row, divides_by_whole_row, code_row, Known};

use formula::Shape;
use sheet_fields::shape::shape_at;

// The row kind of a whole constant.
pub const WHOLE_ROW: u32 = 2;

pub const ADD: u32 = 1;

pub const SUBTRACT: u32 = 2;

pub const MULTIPLY: u32 = 3;

pub const DIVIDE: u32 = 4;

pub const NEGATE: u32 = 11;

// Whether row r is a whole constant.
pub fn is_whole(t: &[u32], r: usize) -> bool
    requires { (1 ≤ r) × (5 * r ≤ length t.now) }
    ensures { result ≡ whole_row (shape_at t.now r) }
{
    matches!(shape_at(t, r), Shape::Constant(WHOLE_ROW, _))
}

// A constant's a, 0 of another row.
pub fn amount(t: &[u32], r: usize) -> u32
    requires { (1 ≤ r) × (5 * r ≤ length t.now) }
    ensures { result ≡ amount_row (shape_at t.now r) }
{
    let Shape::Constant(_, a) = shape_at(t, r) else {
        return 0;
    };
    a
}

// Whether row r is a pair that names a whole constant.
#[tactic(auto, unfolding(formula::specs::Sheet::named_in))]
fn names_whole(t: &[u32], r: usize) -> bool
    requires { Known t.now r }
    ensures { result ≡ names_whole_row t.now (shape_at t.now r) }
{
    let Shape::Pair(a, b) = shape_at(t, r) else {
        return false;
    };
    is_whole(t, a) || is_whole(t, b)
}

// Whether row r is a pair with b naming a whole constant that is not 0.
#[tactic(auto, unfolding(formula::specs::Sheet::named_in))]
fn divides_by_whole(t: &[u32], r: usize) -> bool
    requires { Known t.now r }
    ensures { result ≡ divides_by_whole_row t.now (shape_at t.now r) }
{
    let Shape::Pair(_, b) = shape_at(t, r) else {
        return false;
    };
    is_whole(t, b) && amount(t, b) != 0
}

// Whether drift is told for the operator of a code on row r.
pub fn code_sort(t: &[u32], code: u32, r: usize) -> bool
    requires { Known t.now r }
    ensures { result ≡ code_row t.now code (shape_at t.now r) }
{
    match code {
        ADD | SUBTRACT | NEGATE => true,
        MULTIPLY => names_whole(t, r),
        DIVIDE => divides_by_whole(t, r),
        _ => false,
    }
}

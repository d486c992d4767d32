// What the value of a row of width one is made of (document 01, "Widths": kinds 1 to 3 have one value, an operator one), so
// that names, constants and operators on such rows need no lent words (specs/Parts). Assumes an accepted sheet's row.
ghost use Rattle.std.specs.Prelude.{◌≡◌, length};
ghost use Rattle.meaning.specs.Rows.{ExpRow};
ghost use Rattle.eval_words.specs.Words.{env_of};
ghost use Rattle.eval_words.specs.Parts.{PartOf, Operands};

use crate::Part;
use crate::words::constant_word;
use formula::Shape;
use sheet_fields::shape::{shape_at, width_at};

// The operator of a code on row b.
fn operator_at(t: &[u32], widths: &[u8], code: u32, b: usize) -> Part
    requires { ExpRow t.now widths.now b }
    ensures { Operands t.now widths.now code b result }
{
    if width_at(widths, b) == 1 {
        return Part::One(code, b);
    }
    match shape_at(t, b) {
        Shape::Pair(x, y) if width_at(widths, x) == 1 && width_at(widths, y) == 1 => {
            Part::Two(code, x, y)
        }
        _ => Part::Wide(code, b),
    }
}

// Row r, whose identifiers are bound in `env`.
pub fn part_at(t: &[u32], widths: &[u8], r: usize, env: &[u64; 32]) -> Part
    requires { ExpRow t.now widths.now r × (length env.now ≡ 32) }
    ensures { PartOf t.now widths.now r (env_of env.now) result }
{
    match shape_at(t, r) {
        Shape::Identifier(a) => Part::Value(env[a as usize]),
        Shape::Constant(kind, a) => Part::Value(constant_word(kind, a)),
        Shape::Operator(code, b) => operator_at(t, widths, code, b),
        Shape::Pair(_, _)
        | Shape::Let(_, _, _, _)
        | Shape::If(_, _, _)
        | Shape::For(_, _, _, _)
        | Shape::Iter(_) => Part::Other,
    }
}

// The number of each of a row's values: how far it can move (sheet_movement's specs/Moves). The numbers of the 32 identifiers are an environment;
// numbers are written to lent arrays, so that those of a let's row c are written where they are used. A row that names an identifier may be numbered
// below the row that it is bound to, so the rows are gone through as the tree of the formula has them.
ghost use Rattle.std.specs.Prelude.{◌≡◌, true, ◌+◌, ◌≤◌, ◌<◌, leb, length, set};
ghost use Rattle.formula.specs.Tree.{exp_of};
ghost use Rattle.meaning.specs.Rows.{ExpRow};
ghost use Rattle.eval_words.specs.Needs.{W};
ghost use Rattle.sheet_movement.specs.Moves.{moved, multiplied, divided};
ghost use Rattle.sheet_drift.specs.Numbers.{moves_in};
ghost use Rattle.sheet_movement.specs.Drifts.{Drifts};
ghost use Rattle.sheet_drift.specs.Moved.{Operand};
ghost use Rattle.sheet_drift.specs.Walk.{InRange, Told};

use crate::numbers::MOST;
use formula::Shape;
use sheet_fields::shape::{shape_at, width_at};
use sheet_sorts::constants::{DIVIDE, MULTIPLY, NEGATE, amount, is_whole};

// A product's number: the whole constant that the pair in row b names times the other's.
fn multiplied(t: &[u32], b: usize, d: u64, e: u64) -> u64
    requires { Operand t.now 3 b × (d ≤ 2147483647) × (e ≤ 2147483647) }
    ensures { result ≡ multiplied (exp_of t.now b) d e }
{
    let Shape::Pair(x, y) = shape_at(t, b) else {
        return 0;
    };
    if is_whole(t, x) {
        return amount(t, x) as u64 * e;
    }
    amount(t, y) as u64 * d
}

// A quotient's: the number over the whole constant that b of the pair in row b names, rounded up.
fn divided(t: &[u32], b: usize, d: u64) -> u64
    requires { Operand t.now 4 b × (d ≤ 2147483647) }
    ensures { result ≡ divided (exp_of t.now b) d }
{
    let Shape::Pair(_, y) = shape_at(t, b) else {
        return 0;
    };
    let c = amount(t, y) as u64;
    (d + (c - 1)) / c
}

// An operator's number, on row b whose values have the numbers d and e.
fn moved(t: &[u32], code: u32, b: usize, d: u64, e: u64) -> u64
    requires { Operand t.now code b × (d ≤ 2147483647) × (e ≤ 2147483647) }
    ensures { result ≡ moved code (exp_of t.now b) d e }
{
    match code {
        NEGATE => d,
        MULTIPLY => multiplied(t, b, d, e),
        DIVIDE => divided(t, b, d),
        _ => d + e,
    }
}

// Puts a number in its place where it does not pass the greatest, and says so. An Option would be no plainer: the place is the caller's.
fn put_within(out: &mut [u32], at: usize, number: u64) -> bool
    requires { at < length out.old }
    ensures { (result ≡ leb number 2147483647) × (result ≡ true → out.new ≡ set out.old at number) }
{
    if MOST < number {
        return false;
    }
    out[at] = number as u32;
    true
}

// The numbers of row r's values go to `out` from `at` on; false where one of the row or of those below it passes the greatest.
pub fn row_moves(
    t: &[u32],
    widths: &[u8],
    r: usize,
    env: &[u32; 32],
    out: &mut [u32],
    at: usize,
) -> bool
    requires { ExpRow t.now widths.now r × Drifts (exp_of t.now r) × (length env.now ≡ 32) × InRange (moves_in env.now) × (at + W widths.now r ≤ length out.old) }
    ensures { Told t.now r (moves_in env.now) at out.old out.new result }
{
    match shape_at(t, r) {
        Shape::Identifier(a) => {
            out[at] = env[a as usize];
            true
        }
        Shape::Constant(_, _) => {
            out[at] = 0;
            true
        }
        Shape::Pair(a, b) => {
            row_moves(t, widths, a, env, out, at)
                && row_moves(t, widths, b, env, out, at + width_at(widths, a))
        }
        Shape::Operator(code, b) => {
            let mut operands = [0; 2];
            if !row_moves(t, widths, b, env, &mut operands, 0) {
                return false;
            }
            put_within(
                out,
                at,
                moved(t, code, b, operands[0] as u64, operands[1] as u64),
            )
        }
        Shape::Let(a, _, c, d) => {
            let mut inner = *env;
            if !row_moves(t, widths, c, env, &mut inner, a as usize) {
                return false;
            }
            row_moves(t, widths, d, &inner, out, at)
        }
        // no such row is handed in
        Shape::If(_, _, _) => false,
        Shape::For(_, _, _, _) => false,
        Shape::Iter(_) => false,
    }
}

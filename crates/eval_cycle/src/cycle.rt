// The evaluators (document 01: "expression and body evaluators call each other; row number and rounds left fall"). They read the
// tables of an accepted sheet (meaning's specs/Rows): five fields a row, and each row's width. An environment is 32 words; values
// are written to lent words, so that a let's row c or a loop's identifiers are written where they are used. Each answers with the
// rounds left, or with none where more are needed than were lent.
ghost use Rattle.std.specs.Prelude.{◌≡◌, ℕ, ◌+◌, ◌*◌, ◌-◌, ◌≤◌, ◌<◌, length};
ghost use Rattle.formula.specs.Sheet.{shape_at};
ghost use Rattle.formula.specs.Tree.{exp_of, body_of};
ghost use Rattle.formula.specs.Widths.{returned, iterated};
ghost use Rattle.meaning.specs.Meaning.{eval_e, eval_b};
ghost use Rattle.meaning.specs.Rounds.{turns};
ghost use Rattle.meaning.specs.Rows.{ExpRow, BodyRow};
ghost use Rattle.meaning.specs.WidthLaws.{Suits};
ghost use Rattle.eval_words.specs.Needs.{W};
ghost use Rattle.eval_words.specs.Parts.{Compound};
ghost use Rattle.eval_words.specs.Words.{env_of, outcome_of};
ghost use Rattle.eval_cycle.specs.Told.{Told, ToldB};

use crate::Turn;
use eval_words::Part;
use eval_words::parts::part_at;
use eval_words::words::{chosen, copy, operated, put_errs};
use formula::{Shape, Way};
use sheet_fields::shape::{shape_at, way_at, width_at};
use value::Sense;

// Row r as an expression: its values go to the words of `out` from `at` on.
#[cycle(body_by_kind_expr_rounds_single)]
pub fn expr(
    t: &[u32],
    widths: &[u8],
    r: usize,
    env: &[u64; 32],
    out: &mut [u64],
    at: usize,
    left: u32,
) -> Option<u32>
    requires { ExpRow t.now widths.now r × (length env.now ≡ 32) × (at + W widths.now r ≤ length out.old) }
    ensures { Told (eval_e (exp_of t.now r) (env_of env.now) left) result at out.old out.new × (length out.new ≡ length out.old) }
{
    if width_at(widths, r) != 1 {
        return by_kind(t, widths, r, env, out, at, left);
    }
    let (w, left) = single(t, widths, r, env, left)?;
    out[at] = w;
    Some(left)
}

// Row r, of width one: the word of its value, with the rounds left.
#[cycle(body_by_kind_expr_rounds_single)]
fn single(t: &[u32], widths: &[u8], r: usize, env: &[u64; 32], left: u32) -> Option<(u64, u32)>
    requires { ExpRow t.now widths.now r × (length env.now ≡ 32) × (W widths.now r ≡ 1) }
    ensures { eval_e (exp_of t.now r) (env_of env.now) left ≡ outcome_of result }
{
    match part_at(t, widths, r, env) {
        Part::Value(w) => Some((w, left)),
        Part::One(code, b) => {
            let (a, left) = single(t, widths, b, env, left)?;
            Some((operated(code, a, 0), left))
        }
        Part::Two(code, x, y) => {
            let (a, left) = single(t, widths, x, env, left)?;
            let (b, left) = single(t, widths, y, env, left)?;
            Some((operated(code, a, b), left))
        }
        Part::Wide(code, b) => {
            let mut operands = [0; 2];
            let left = expr(t, widths, b, env, &mut operands, 0, left)?;
            Some((operated(code, operands[0], operands[1]), left))
        }
        Part::Other => {
            let mut value = [0; 1];
            let left = by_kind(t, widths, r, env, &mut value, 0, left)?;
            Some((value[0], left))
        }
    }
}

// Row r by its kind, where it is evaluated by its parts' rows: as expr.
#[cycle(body_by_kind_expr_rounds_single)]
fn by_kind(
    t: &[u32],
    widths: &[u8],
    r: usize,
    env: &[u64; 32],
    out: &mut [u64],
    at: usize,
    left: u32,
) -> Option<u32>
    requires { ExpRow t.now widths.now r × (length env.now ≡ 32) × (at + W widths.now r ≤ length out.old) × Compound (shape_at t.now r) }
    ensures { Told (eval_e (exp_of t.now r) (env_of env.now) left) result at out.old out.new × (length out.new ≡ length out.old) }
{
    match shape_at(t, r) {
        Shape::Pair(a, b) => {
            let left = expr(t, widths, a, env, out, at, left)?;
            expr(t, widths, b, env, out, at + width_at(widths, a), left)
        }
        Shape::Let(a, _, c, d) => {
            let mut inner = *env;
            let left = expr(t, widths, c, env, &mut inner, a as usize, left)?;
            expr(t, widths, d, &inner, out, at, left)
        }
        Shape::If(a, b, c) => {
            let (w, left) = single(t, widths, a, env, left)?;
            match chosen(w) {
                Sense::True => expr(t, widths, b, env, out, at, left),
                Sense::False => expr(t, widths, c, env, out, at, left),
                Sense::Neither => {
                    put_errs(out, at, width_at(widths, b));
                    Some(left)
                }
            }
        }
        Shape::For(a, b, c, d) => {
            let (a, b) = (a as usize, b as usize);
            let w = width_at(widths, r);
            let mut inner = *env;
            let left = expr(t, widths, c, env, &mut inner, a, left)?;
            rounds(t, widths, d, w, a, b, &mut inner, out, at, left)
        }
        // no such row is handed in
        Shape::Identifier(_) | Shape::Constant(_, _) | Shape::Operator(_, _) | Shape::Iter(_) =>
            None,
    }
}

// The rounds of the loop whose body is row d and whose identifiers are a to a+b-1, started with them bound in `inner`: its
// w values go to the words of `out` from `at` on.
#[cycle(body_by_kind_expr_rounds_single)]
fn rounds(
    t: &[u32],
    widths: &[u8],
    d: usize,
    w: usize,
    a: usize,
    b: usize,
    inner: &mut [u64; 32],
    out: &mut [u64],
    at: usize,
    left: u32,
) -> Option<u32>
    requires { BodyRow t.now widths.now d × (returned (body_of t.now d) ≡ w) × (iterated (body_of t.now d) ≡ b) × (w ≤ 16) × (b ≤ 16) × (a + b ≤ 32) × (length inner.old ≡ 32) × (at + w ≤ length out.old) }
    ensures { Told (turns (body_of t.now d) a b (env_of inner.old) (env_of inner.old) left) result at out.old out.new × (length out.new ≡ length out.old) }
{
    let mut values = [0; 16];
    let mut l = left;
    // a body may use up rounds of its own, so this is no `for`
    while 0 < l {
        match body(t, widths, d, w, inner, &mut values, l - 1)? {
            Turn::Back(left) => {
                copy(out, at, &values, w);
                return Some(left);
            }
            Turn::Again(left) => {
                copy(inner, a, &values, b);
                l = left;
            }
        }
    }
    None
}

// Row r as a body of a loop that returns w values: the values of its iter, or those returned, go to the first words of
// `out`.
#[cycle(body_by_kind_expr_rounds_single)]
fn body(
    t: &[u32],
    widths: &[u8],
    r: usize,
    w: usize,
    env: &[u64; 32],
    out: &mut [u64],
    left: u32,
) -> Option<Turn>
    requires { BodyRow t.now widths.now r × Suits (returned (body_of t.now r)) w × (w ≤ 16) × (length env.now ≡ 32) × (length out.old ≡ 16) }
    ensures { ToldB (eval_b (body_of t.now r) w (env_of env.now) left) result out.old out.new × (length out.new ≡ length out.old) }
{
    match way_at(t, r) {
        Way::Iter(a) => Some(Turn::Again(expr(t, widths, a, env, out, 0, left)?)),
        Way::Let(a, _, c, d) => {
            let mut inner = *env;
            let left = expr(t, widths, c, env, &mut inner, a as usize, left)?;
            body(t, widths, d, w, &inner, out, left)
        }
        Way::If(a, b, c) => {
            let (v, left) = single(t, widths, a, env, left)?;
            match chosen(v) {
                Sense::True => body(t, widths, b, w, env, out, left),
                Sense::False => body(t, widths, c, w, env, out, left),
                Sense::Neither => {
                    put_errs(out, 0, w);
                    Some(Turn::Back(left))
                }
            }
        }
        Way::End => Some(Turn::Back(expr(t, widths, r, env, out, 0, left)?)),
    }
}

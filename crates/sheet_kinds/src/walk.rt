// The kinds of each row's values and the lowest row that breaks them (formula's specs/Kinds and Faults). They read the tables of an
// accepted sheet (meaning's specs/Rows): five fields a row, and each row's width. An environment is the kinds of the 32 identifiers, a
// byte each; kinds are written to lent bytes, so that those of a let's or a for's row c are written where they are used.
ghost use Rattle.std.specs.Prelude.{◌≡◌, ◌+◌, ◌≤◌, length};
ghost use Rattle.formula.specs.Sheet.{shape_at};
ghost use Rattle.meaning.specs.Rows.{ExpRow, BodyRow};
ghost use Rattle.eval_words.specs.Needs.{W};
ghost use Rattle.sheet_kinds.specs.Bytes.{kinds_in};
ghost use Rattle.sheet_kinds.specs.Walk.{Told};
ghost use Rattle.sheet_kinds.specs.WalkBody.{ToldB};

use crate::BodyKinds;
use crate::bytes::{
    TRUTH, agree, all_kinds, constant_kind, copy, given_kind, hold_first, put_kind, same_kinds,
    wanted_kinds,
};
use crate::checks::{lower, own};
use formula::{Shape, Way};
use sheet_fields::shape::{shape_at, way_at, width_at};

// Row r as an expression: the kinds of its values go to the bytes of `out` from `at` on, the answer is the lowest row at fault
// among row r and those below it.
#[cycle(arms_body_kinds_codes_exp_kinds_fors_ifs)]
pub fn exp_kinds(
    t: &[u32],
    widths: &[u8],
    r: usize,
    env: &[u8; 32],
    out: &mut [u8],
    at: usize,
) -> Result<(), usize>
    requires { ExpRow t.now widths.now r × (length env.now ≡ 32) × (at + W widths.now r ≤ length out.old) }
    ensures { Told t.now r (kinds_in env.now) at out.old out.new result }
{
    match shape_at(t, r) {
        Shape::Identifier(a) => {
            put_kind(out, at, env[a as usize]);
            Ok(())
        }
        Shape::Constant(kind, _) => {
            put_kind(out, at, constant_kind(kind));
            Ok(())
        }
        Shape::Pair(a, b) => {
            let first = exp_kinds(t, widths, a, env, out, at);
            let second = exp_kinds(t, widths, b, env, out, at + width_at(widths, a));
            lower(first, second)
        }
        Shape::Operator(code, b) => codes(t, widths, r, code, b, env, out, at),
        Shape::Let(a, _, c, d) => {
            let mut inner = *env;
            let bound = exp_kinds(t, widths, c, env, &mut inner, a as usize);
            let rest = exp_kinds(t, widths, d, &inner, out, at);
            lower(bound, rest)
        }
        Shape::If(a, b, c) => ifs(t, widths, r, a, b, c, env, out, at),
        Shape::For(a, b, c, d) => fors(t, widths, r, a as usize, b as usize, c, d, env, out, at),
        // no such row is handed in
        Shape::Iter(_) => Ok(()),
    }
}

// Row r, the operator of a code on row b.
#[cycle(arms_body_kinds_codes_exp_kinds_fors_ifs)]
fn codes(
    t: &[u32],
    widths: &[u8],
    r: usize,
    code: u32,
    b: usize,
    env: &[u8; 32],
    out: &mut [u8],
    at: usize,
) -> Result<(), usize>
    requires { ExpRow t.now widths.now r × (length env.now ≡ 32) × (at + W widths.now r ≤ length out.old) × (shape_at t.now r ≡ Shape.Operator code b) }
    ensures { Told t.now r (kinds_in env.now) at out.old out.new result }
{
    let mut operands = [0; 2];
    let fault = exp_kinds(t, widths, b, env, &mut operands, 0);
    let n = width_at(widths, b);
    let ok = wanted_kinds(code, &operands, n);
    put_kind(out, at, given_kind(code, &operands, n));
    lower(own(r, ok), fault)
}

// Row r, an if with the test's row a and the arms' rows b and c.
#[cycle(arms_body_kinds_codes_exp_kinds_fors_ifs)]
fn ifs(
    t: &[u32],
    widths: &[u8],
    r: usize,
    a: usize,
    b: usize,
    c: usize,
    env: &[u8; 32],
    out: &mut [u8],
    at: usize,
) -> Result<(), usize>
    requires { ExpRow t.now widths.now r × (length env.now ≡ 32) × (at + W widths.now r ≤ length out.old) × (shape_at t.now r ≡ Shape.If a b c) }
    ensures { Told t.now r (kinds_in env.now) at out.old out.new result }
{
    let mut test = [0; 1];
    let tested = exp_kinds(t, widths, a, env, &mut test, 0);
    let first = exp_kinds(t, widths, b, env, out, at);
    let mut other = [0; 16];
    let second = exp_kinds(t, widths, c, env, &mut other, 0);
    let alike = same_kinds(out, at, width_at(widths, b), &other, width_at(widths, c));
    let ok = all_kinds(TRUTH, &test, 1) && alike;
    lower(own(r, ok), lower(tested, lower(first, second)))
}

// Row r, a for with the identifiers a to a+b-1, started from row c, with the body row d.
#[cycle(arms_body_kinds_codes_exp_kinds_fors_ifs)]
fn fors(
    t: &[u32],
    widths: &[u8],
    r: usize,
    a: usize,
    b: usize,
    c: usize,
    d: usize,
    env: &[u8; 32],
    out: &mut [u8],
    at: usize,
) -> Result<(), usize>
    requires { ExpRow t.now widths.now r × (length env.now ≡ 32) × (at + W widths.now r ≤ length out.old) × (shape_at t.now r ≡ Shape.For a b c d) }
    ensures { Told t.now r (kinds_in env.now) at out.old out.new result }
{
    let mut inner = *env;
    let started = exp_kinds(t, widths, c, env, &mut inner, a);
    let mut again = [0; 16];
    let mut back = [0; 16];
    let round = body_kinds(t, widths, d, &inner, &mut again, &mut back);
    let ok = same_kinds(&inner, a, b, &again, round.again);
    copy(out, at, &back, round.back);
    let below = round.fault;
    lower(own(r, ok), lower(started, below))
}

// Row r as a body: the kinds of its iter's values go to the first bytes of `again`, of those returned to the first of `back`.
#[cycle(arms_body_kinds_codes_exp_kinds_fors_ifs)]
fn body_kinds(
    t: &[u32],
    widths: &[u8],
    r: usize,
    env: &[u8; 32],
    again: &mut [u8],
    back: &mut [u8],
) -> BodyKinds
    requires { BodyRow t.now widths.now r × (length env.now ≡ 32) × (length again.old ≡ 16) × (length back.old ≡ 16) }
    ensures { ToldB t.now r (kinds_in env.now) again.new back.new result × (length again.new ≡ 16) × (length back.new ≡ 16) }
{
    match way_at(t, r) {
        Way::Iter(a) => BodyKinds {
            fault: exp_kinds(t, widths, a, env, again, 0),
            again: width_at(widths, a),
            back: 0,
        },
        Way::Let(a, _, c, d) => {
            let mut inner = *env;
            let bound = exp_kinds(t, widths, c, env, &mut inner, a as usize);
            let rest = body_kinds(t, widths, d, &inner, again, back);
            let below = rest.fault;
            BodyKinds {
                fault: lower(bound, below),
                again: rest.again,
                back: rest.back,
            }
        }
        Way::If(a, b, c) => arms(t, widths, r, a, b, c, env, again, back),
        Way::End => BodyKinds {
            fault: exp_kinds(t, widths, r, env, back, 0),
            again: 0,
            back: width_at(widths, r),
        },
    }
}

// Row r, a body's if with the test's row a and the arms' rows b and c.
#[cycle(arms_body_kinds_codes_exp_kinds_fors_ifs)]
fn arms(
    t: &[u32],
    widths: &[u8],
    r: usize,
    a: usize,
    b: usize,
    c: usize,
    env: &[u8; 32],
    again: &mut [u8],
    back: &mut [u8],
) -> BodyKinds
    requires { BodyRow t.now widths.now r × (length env.now ≡ 32) × (length again.old ≡ 16) × (length back.old ≡ 16) × (shape_at t.now r ≡ Shape.If a b c) }
    ensures { ToldB t.now r (kinds_in env.now) again.new back.new result × (length again.new ≡ 16) × (length back.new ≡ 16) }
{
    let mut test = [0; 1];
    let tested = exp_kinds(t, widths, a, env, &mut test, 0);
    let first = body_kinds(t, widths, b, env, again, back);
    let mut again2 = [0; 16];
    let mut back2 = [0; 16];
    let second = body_kinds(t, widths, c, env, &mut again2, &mut back2);
    let rounds = agree(again, first.again, &again2, second.again);
    let ends = agree(back, first.back, &back2, second.back);
    let ok = all_kinds(TRUTH, &test, 1) && rounds && ends;
    let fault1 = first.fault;
    let fault2 = second.fault;
    BodyKinds {
        fault: lower(own(r, ok), lower(tested, lower(fault1, fault2))),
        again: hold_first(again, first.again, &again2, second.again),
        back: hold_first(back, first.back, &back2, second.back),
    }
}

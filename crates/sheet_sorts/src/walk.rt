// The lowest row at fault (20), gone through as the tree of the formula has it, since the kinds of a row's identifiers come from the rows that name
// it. A pair, a let or an operator of one of the sorts has a value that is not of kind W only where a row below it has, and that row is lower: the
// values of identifiers and constants alone are looked at.
ghost use Rattle.std.specs.Prelude.{◌≡◌, true, ◌+◌, ◌≤◌, length};
ghost use Rattle.names.specs.Names.{mask};
ghost use Rattle.formula.specs.Tree.{exp_of};
ghost use Rattle.formula.specs.Free.{free_e, inputs_of};
ghost use Rattle.formula.specs.Kinds.{bind_kinds, kinds_e};
ghost use Rattle.formula.specs.Faults.{line_well};
ghost use Rattle.meaning.specs.Rows.{ExpRow};
ghost use Rattle.eval_words.specs.Needs.{W};
ghost use Rattle.sheet_kinds.specs.Bytes.{kinds_in};
ghost use Rattle.sheet_movement.specs.Sorts.{sorts_kept};
ghost use Rattle.sheet_sorts.specs.Walk.{Placed, Answers};

use crate::constants::{WHOLE_ROW, code_sort};
use formula::Shape;
use sheet_fields::shape::shape_at;
use sheet_kinds::bytes::{WHOLE, same_kind};
use sheet_kinds::checks::{lower, own};
use sheet_kinds::line::tell_kinds;
use sheet_kinds::walk::exp_kinds;

// The lowest row at fault among row r and those below it, where the identifiers have these kinds.
fn other_sort(t: &[u32], widths: &[u8], r: usize, env: &[u8; 32]) -> Result<(), usize>
    requires { Placed t.now widths.now r × (length env.now ≡ 32) }
    ensures { Answers t.now widths.now r (kinds_in env.now) result }
{
    match shape_at(t, r) {
        Shape::Identifier(a) => own(r, same_kind(WHOLE, env[a as usize])),
        Shape::Constant(kind, _) => own(r, kind == WHOLE_ROW),
        Shape::Pair(a, b) => {
            let first = other_sort(t, widths, a, env);
            let second = other_sort(t, widths, b, env);
            lower(first, second)
        }
        Shape::Operator(code, b) => {
            let operands = other_sort(t, widths, b, env);
            lower(own(r, code_sort(t, code, b)), operands)
        }
        Shape::Let(a, _, c, d) => {
            let value = other_sort(t, widths, c, env);
            let rest = other_sort(t, widths, d, &bound(t, widths, a, c, env));
            lower(value, rest)
        }
        Shape::If(a, b, c) => {
            let test = other_sort(t, widths, a, env);
            let first = other_sort(t, widths, b, env);
            let second = other_sort(t, widths, c, env);
            lower(Err(r), lower(test, lower(first, second)))
        }
        Shape::For(a, _, c, d) => {
            let start = other_sort(t, widths, c, env);
            let round = other_sort(t, widths, d, &bound(t, widths, a, c, env));
            lower(Err(r), lower(start, round))
        }
        Shape::Iter(a) => lower(Err(r), other_sort(t, widths, a, env)),
    }
}

// The kinds of the identifiers in row d of a let or a for: those from a on have the kinds of row c's values.
fn bound(t: &[u32], widths: &[u8], a: u32, c: usize, env: &[u8; 32]) -> [u8; 32]
    requires { ExpRow t.now widths.now c × (length env.now ≡ 32) × (a + W widths.now c ≤ 32) }
    ensures { kinds_in result ≡ bind_kinds a (W widths.now c) (kinds_e (exp_of t.now c) (kinds_in env.now)) (kinds_in env.now) }
{
    let mut inner = *env;
    let _ = exp_kinds(t, widths, c, env, &mut inner, a as usize);
    inner
}

// Row n as the formula, whose free names are the mask `free`: the lowest row at fault under the kinds that a line tells its inputs.
pub fn test_sorts(t: &[u32], widths: &[u8], n: usize, free: u64, line: &[u8]) -> Result<(), usize>
    requires { ExpRow t.now widths.now n × (free ≡ mask (free_e (exp_of t.now n))) × (line_well (length (inputs_of (exp_of t.now n))) line.now ≡ true) }
    ensures { result ≡ sorts_kept t.now n line.now }
{
    let mut env = [0; 32];
    tell_kinds(&mut env, free, line);
    other_sort(t, widths, n, &env)
}

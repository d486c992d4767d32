// The evaluation of an accepted sheet's tables on a set (meaning's specs/Evaluate): 12 for a set that is none, 36 where more
// rounds are needed than lent, else the result set with the rounds used.
ghost use Rattle.std.specs.Prelude.{◌≡◌, map, ℕ, ◌+◌, ◌*◌, ◌-◌, ◌≤◌, ◌<◌, length, Ok};
ghost use Rattle.names.specs.Names.{mask};
ghost use Rattle.formula.specs.Tree.{exp_of};
ghost use Rattle.formula.specs.Free.{free_e, inputs_of};
ghost use Rattle.meaning.specs.Rows.{ExpRow};
ghost use Rattle.eval_words.specs.Words.{held_of};
ghost use Rattle.meaning.specs.Evaluate.{cell, refused, evaluated};
ghost use Rattle.eval_sheet.specs.Inputs.{Holds, word_or};

use eval_cycle::cycle::expr;
use eval_words::inputs::next;
use eval_words::words::held;
use formula::{Refusal, Refused};
use meaning::{Cell, Evaluation};
use sheet_fields::shape::width_at;

// A refusal: width 0, every place err, no rounds.
pub fn refuse(r: Refusal, row: usize) -> Evaluation
    ensures { result ≡ refused r row }
{
    let c = Cell { v: value::err() };
    let cells = [c; 16];
    Evaluation {
        cells,
        width: 0,
        rounds: 0,
        verdict: Err(Refused { refusal: r, row }),
    }
}

// Value i of a set of n values, as a word; 0 where there is none.
fn word_or(set: &[u8], n: usize, i: usize) -> u64
    requires { (length set.now ≡ 5 * n) × (n ≤ 64) }
    ensures { result ≡ word_or set.now n i }
{
    if i < n {
        value::bytes::load(set, 5 * i)
    } else {
        0
    }
}

// The set's values at the identifiers of the mask, rising.
fn hold(env: &mut [u64], m: u64, set: &[u8], n: usize)
    requires { (length env.old ≡ 32) × (length set.now ≡ 5 * n) × (n ≤ 64) }
    ensures { Holds set.now n m env.new 32 }
{
    let mut i = 0;
    for k in 0..32 {
        env[k] = word_or(set, n, i);
        i = next(m, k, i);
    }
}

// The result set of the words, w of them used, after `used` rounds.
fn conclude(out: &[u64; 16], w: usize, used: u32) -> Evaluation
    requires { length out.now ≡ 16 }
    ensures { (result.cells ≡ map (λ z. cell (held_of z)) out.now) × (result.width ≡ w) × (result.rounds ≡ used) × (result.verdict ≡ Ok tt) }
{
    Evaluation {
        cells: out.map(|w| Cell { v: held(w) }),
        width: w,
        rounds: used,
        verdict: Ok(()),
    }
}

// Row n as the formula, whose free names are the mask `free` and whose inputs have these kinds, on a set.
pub fn evaluate_row(
    t: &[u32],
    widths: &[u8],
    n: usize,
    free: u64,
    kinds: &[u8],
    set: &[u8],
    rounds: u32,
) -> Evaluation
    requires { ExpRow t.now widths.now n × (free ≡ mask (free_e (exp_of t.now n))) × (length kinds.now ≡ length (inputs_of (exp_of t.now n))) }
    ensures { result ≡ evaluated (exp_of t.now n) kinds.now set.now rounds }
{
    if !value_sets::is_set(set, kinds) {
        return refuse(Refusal::Set, 0);
    }
    let mut env = [0; 32];
    hold(&mut env, free, set, kinds.len());
    let mut out = [0; 16];
    match expr(t, widths, n, &env, &mut out, 0, rounds) {
        Some(left) => conclude(&out, width_at(widths, n), rounds - left),
        None => refuse(Refusal::Unfinished, 0),
    }
}

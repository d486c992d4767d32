// Values as words in lent arrays (specs/Words): each function that writes says what its array holds afterwards, as a binding of the
// values it wrote over what the array held before.
ghost use Rattle.std.specs.Prelude.{◌≡◌, ℕ, ◌+◌, ◌≤◌, ◌<◌, length, replicate};
ghost use Rattle.std.proofs.Math.Seq.{paste};
ghost use Rattle.value.specs.Bytes.{InRange};
ghost use Rattle.value.specs.Operators.{apply};
ghost use Rattle.value.specs.Senses.{err, sense};
ghost use Rattle.formula.specs.Constants.{constant_value, constant_most};
ghost use Rattle.meaning.specs.Meaning.{bind};
ghost use Rattle.eval_words.specs.Words.{held_of, env_of};

use value::bytes::{ERR, FALSE, TRUE};
use value::{Sense, Value};

// The value of a word.
pub fn held(w: u64) -> Value
    ensures { result ≡ held_of w }
{
    match value::bytes::from_word(w) {
        Some(v) => v,
        None => value::err(),
    }
}

// A word of the value.
fn word(v: Value) -> u64
    requires { InRange v }
    ensures { held_of result ≡ v }
{
    value::bytes::to_word(v)
}

// A word of the operator of a code on the values of two words. The operators on numbers are called apart: they are what loops count with.
pub fn operated(code: u32, a: u64, b: u64) -> u64
    requires { code < 256 }
    ensures { held_of result ≡ apply code (held_of a) (held_of b) }
{
    let c = code as u8;
    match c {
        1..=7 => word(value::apply_numbers(c, held(a), held(b))),
        _ => word(value::apply_code(c, held(a), held(b))),
    }
}

// A word of a constant.
pub fn constant_word(kind: u32, a: u32) -> u64
    requires { a ≤ constant_most kind }
    ensures { held_of result ≡ constant_value kind a }
{
    word(formula::constant(kind, a))
}

// Which arm of an if the word of its test chooses: the first on true, the second on false.
pub fn chosen(w: u64) -> Sense
    ensures { result ≡ sense (held_of w) }
{
    match w {
        TRUE => Sense::True,
        FALSE => Sense::False,
        _ => Sense::Neither,
    }
}

// The first n words of `from`, put into `to` from `at` on.
pub fn copy(to: &mut [u64], at: usize, from: &[u64], n: usize)
    requires { (at + n ≤ length to.old) × (n ≤ length from.now) }
    ensures { (to.new ≡ paste to.old at from.now n) × (length to.new ≡ length to.old) }
{
    to[at..at + n].copy_from_slice(&from[..n]);
}

// Err n times.
pub fn put_errs(out: &mut [u64], at: usize, n: usize)
    requires { at + n ≤ length out.old }
    ensures { (env_of out.new ≡ bind at n (replicate n err) (env_of out.old)) × (length out.new ≡ length out.old) }
{
    out[at..at + n].fill(ERR);
}

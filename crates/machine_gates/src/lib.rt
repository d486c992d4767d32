#![tactic(auto)]
// What an operator asks of its tokens (document 01, "The graph", "Rules, control first"): what a
// control is, and what an operator computes. A token is a word below 2^40, value::bytes::NONE where
// none waits. The table of rules is network's specs/Rules, and
// specs/Tables has that specs/Gates, which the code follows, is what that table says. A word in
// memory that is no value comes here as no token. Assumes nothing.
ghost use Rattle.std.specs.Prelude.{◌≡◌};
ghost use Rattle.value.specs.Bytes.{value_of, decoded, word_or};
ghost use Rattle.machine_gates.specs.Decide.{is_absent, is_true, is_false, is_neither, counts_false};
ghost use Rattle.machine_gates.specs.Gates.{applied};
ghost use Rattle.machine_gates.specs.Words.{Tells};

use value::bytes::{FALSE, NONE, TRUE};

// Whether no token is there.
pub fn is_absent(token: u64) -> bool
    ensures { Tells is_absent token result }
{
    token == NONE
}

pub fn is_true(token: u64) -> bool
    ensures { Tells is_true token result }
{
    token == TRUE
}

pub fn is_false(token: u64) -> bool
    ensures { Tells is_false token result }
{
    token == FALSE
}

// Whether a token is there and is no truth.
pub fn is_neither(token: u64) -> bool
    ensures { Tells is_neither token result }
{
    !is_absent(token) && !is_true(token) && !is_false(token)
}

// Whether a token is there and, as an iter?, counts as false: any but true.
pub fn counts_false(token: u64) -> bool
    ensures { Tells counts_false token result }
{
    !is_absent(token) && !is_true(token)
}

// What the operator of a code gives; one that takes a single operand does not look at the second.
pub fn applied_to(code: u8, a: u64, b: u64) -> u64
    ensures { result ≡ word_or (applied code (decoded (value_of a)) (decoded (value_of b))) }
{
    let Some(x) = value::bytes::from_word(a) else {
        return NONE;
    };
    let Some(y) = value::bytes::from_word(b) else {
        return NONE;
    };
    value::bytes::to_word(value::apply_code(code, x, y))
}

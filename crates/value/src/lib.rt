#![tactic(auto)]
// Values and their operators: document 01, "Values and operators", and document 02, Jobs 2, 5, 6 and 9. The meaning of each code is
// specs/Operators; the byte form of a value is the module bytes.
pub mod bytes; // bytes.rt: a value as a tag byte and four bytes

ghost use Rattle.std.specs.Prelude.{◌≡◌, ℕ, ◌+◌, ◌*◌, ◌≤◌, ◌<◌, pos, negsuc, ◌+ℤ◌, ◌-ℤ◌, ◌*ℤ◌};
ghost use Rattle.value.specs.Operators.{fit_of, add_of, subtract_of, multiply_of, divide_of, remainder_of, less_of, equal_of, and_of, or_of, is_real, real_of, divide_real, beside_err, reason_or, hand_on, hand_on_one, negate_of, negate_real, NoWhole, number, apply};
ghost use Rattle.value.specs.Senses.{err};
ghost use Rattle.value.specs.Constants.{thousandths};

// "An err now has a reason: Z zero divisor, V answer out of range, E all else."
#[derive(Clone, Copy)]
pub enum Reason {
    ZeroDivisor,
    OutOfRange,
    Other,
}

// "A value is a whole number .., a truth, or err." "A value gains a fourth case that carries an f32": a finite number.
#[derive(Clone, Copy)]
pub enum Value {
    Whole(i32),
    Truth(bool),
    Err(Reason),
    Real(f32),
}

// The kind that a value is told beforehand to have; an err suits every kind.
#[derive(Clone, Copy)]
pub enum ValueKind {
    Whole,
    Truth,
    Real,
}

// What a value is as a control or a test.
#[derive(Clone, Copy)]
pub enum Sense {
    True,
    False,
    Neither,
}

// The plain err, the only one that anything but an operator makes of values in range.
pub fn err() -> Value
    ensures { result ≡ err }
{
    Value::Err(Reason::Other)
}

// The whole number z, or the err of an answer outside the range.
fn fit(z: i64) -> Value
    ensures { result ≡ fit_of z }
{
    match i32::try_from(z) {
        Ok(w) => Value::Whole(w),
        Err(_) => Value::Err(Reason::OutOfRange),
    }
}

fn add(a: i32, b: i32) -> Value
    ensures { result ≡ add_of a b }
{
    fit(i64::from(a) + i64::from(b))
}

fn subtract(a: i32, b: i32) -> Value
    ensures { result ≡ subtract_of a b }
{
    fit(i64::from(a) - i64::from(b))
}

fn multiply(a: i32, b: i32) -> Value
    ensures { result ≡ multiply_of a b }
{
    fit(i64::from(a) * i64::from(b))
}

// In 64 bits, since least number by -1 leaves 32.
fn divide(a: i32, b: i32) -> Value
    ensures { result ≡ divide_of a b }
{
    if b == 0 {
        return Value::Err(Reason::ZeroDivisor);
    }
    fit(i64::from(a) / i64::from(b))
}

fn remainder(a: i32, b: i32) -> Value
    ensures { result ≡ remainder_of a b }
{
    if b == 0 {
        return Value::Err(Reason::ZeroDivisor);
    }
    fit(i64::from(a) % i64::from(b))
}

fn less(a: i32, b: i32) -> Value
    ensures { result ≡ less_of a b }
{
    Value::Truth(a < b)
}

fn equal(a: i32, b: i32) -> Value
    ensures { result ≡ equal_of a b }
{
    Value::Truth(a == b)
}

fn negate(a: i32) -> Value
    ensures { result ≡ negate_of a }
{
    fit(-i64::from(a))
}

#[tactic(auto, unfolding(crate::specs::Operators::and_of))]
fn and(a: bool, b: bool) -> Value
    ensures { result ≡ and_of a b }
{
    Value::Truth(a && b)
}

#[tactic(auto, unfolding(crate::specs::Operators::or_of))]
fn or(a: bool, b: bool) -> Value
    ensures { result ≡ or_of a b }
{
    Value::Truth(a || b)
}

// Codes 1 to 7 of two whole numbers. A code stays a number, as sheet and memory have it: an enum would be no plainer, since the meaning of
// each code, 0 and those past 11 among them, is defined by the number.
#[tactic(auto, unfolding(crate::specs::Operators::apply))]
fn apply_wholes(code: u8, a: i32, b: i32) -> Value
    requires { (1 ≤ code) × (code ≤ 7) }
    ensures { result ≡ apply code (Value.Whole a) (Value.Whole b) }
{
    match code {
        1 => add(a, b),
        2 => subtract(a, b),
        3 => multiply(a, b),
        4 => divide(a, b),
        5 => remainder(a, b),
        6 => less(a, b),
        _ => equal(a, b),
    }
}

// The float x, or the err of an answer that is no finite number.
#[tactic(auto, using(crate::proofs::Floats::finite_real), unfolding(crate::specs::Operators::real_of))]
fn fit_real(x: f32) -> Value
    ensures { result ≡ real_of x }
{
    if x.is_finite() {
        Value::Real(x)
    } else {
        Value::Err(Reason::OutOfRange)
    }
}

#[tactic(auto, unfolding(crate::specs::Operators::divide_real))]
fn divide_reals(a: f32, b: f32) -> Value
    ensures { result ≡ divide_real a b }
{
    if b == 0.0f32 {
        return Value::Err(Reason::ZeroDivisor);
    }
    fit_real(a / b)
}

// Codes 1 to 7 of two floats; a remainder of floats is a wrong kind.
#[tactic(auto, unfolding(crate::specs::Operators::apply, crate::specs::Operators::add_real, crate::specs::Operators::subtract_real, crate::specs::Operators::multiply_real, crate::specs::Operators::less_real, crate::specs::Operators::equal_real))]
fn apply_reals(code: u8, a: f32, b: f32) -> Value
    requires { (1 ≤ code) × (code ≤ 7) }
    ensures { result ≡ apply code (Value.Real a) (Value.Real b) }
{
    match code {
        1 => fit_real(a + b),
        2 => fit_real(a - b),
        3 => fit_real(a * b),
        4 => divide_reals(a, b),
        5 => err(),
        6 => Value::Truth(a < b),
        _ => Value::Truth(a == b),
    }
}

// a / 1000, rounded once: the quotient of two floats that are exact.
pub fn thousandths(a: u32) -> Value
    requires { a ≤ 999999 }
    ensures { result ≡ thousandths a }
{
    fit_real((a as f32) / 1000.0f32)
}

// Codes 8 and 9 of two truths.
#[tactic(auto, unfolding(crate::specs::Operators::apply))]
fn apply_truths(code: u8, a: bool, b: bool) -> Value
    requires { (8 ≤ code) × (code ≤ 9) }
    ensures { result ≡ apply code (Value.Truth a) (Value.Truth b) }
{
    match code {
        8 => and(a, b),
        _ => or(a, b),
    }
}

// The reason of an err operand, or the one given where it is no err.
fn reason_or(v: Value, given: Reason) -> Reason
    ensures { result ≡ reason_or v given }
{
    match v {
        Value::Err(r) => r,
        _ => given,
    }
}

// Two operands that an operator cannot take: the leftmost err is handed on, and without one a wrong kind gives E.
#[tactic(auto, unfolding(crate::specs::Operators::hand_on))]
fn hand_on(a: Value, b: Value) -> Value
    ensures { result ≡ hand_on a b }
{
    Value::Err(reason_or(a, reason_or(b, Reason::Other)))
}

// An operand that its operator cannot take: handed on if it is an err, else E.
#[tactic(auto, unfolding(crate::specs::Operators::hand_on_one))]
fn hand_on_one(a: Value) -> Value
    ensures { result ≡ hand_on_one a }
{
    Value::Err(reason_or(a, Reason::Other))
}

// Codes 1 to 7.
pub fn apply_numbers(code: u8, a: Value, b: Value) -> Value
    requires { (1 ≤ code) × (code ≤ 7) }
    ensures { result ≡ apply code a b }
{
    match (a, b) {
        (Value::Whole(x), Value::Whole(y)) => apply_wholes(code, x, y),
        (Value::Real(x), Value::Real(y)) => apply_reals(code, x, y),
        _ => hand_on(a, b),
    }
}

// A truth beside an err, where the truth d decides.
#[tactic(auto, unfolding(crate::specs::Operators::beside_err))]
fn beside_err(d: bool, a: bool, reason: Reason) -> Value
    ensures { result ≡ beside_err d a reason }
{
    if a == d {
        Value::Truth(d)
    } else {
        Value::Err(reason)
    }
}

// Codes 8 and 9 of a truth and an err, whichever side the err stands: false decides an and, true an or.
#[tactic(auto, unfolding(crate::specs::Operators::apply))]
fn apply_beside_err(code: u8, a: bool, reason: Reason) -> Value
    requires { (8 ≤ code) × (code ≤ 9) }
    ensures { (result ≡ apply code (Value.Truth a) (Value.Err reason)) × (result ≡ apply code (Value.Err reason) (Value.Truth a)) }
{
    match code {
        8 => beside_err(false, a, reason),
        _ => beside_err(true, a, reason),
    }
}

// Codes 8 and 9.
fn apply_logical(code: u8, a: Value, b: Value) -> Value
    requires { (8 ≤ code) × (code ≤ 9) }
    ensures { result ≡ apply code a b }
{
    match (a, b) {
        (Value::Truth(x), Value::Truth(y)) => apply_truths(code, x, y),
        (Value::Truth(x), Value::Err(r)) => apply_beside_err(code, x, r),
        (Value::Err(r), Value::Truth(y)) => apply_beside_err(code, y, r),
        _ => hand_on(a, b),
    }
}

// Code 11 of what is no whole number; of a float "negate turning the sign".
fn negate_other(a: Value) -> Value
    requires { NoWhole a }
    ensures { result ≡ number negate_of negate_real a }
{
    let Value::Real(x) = a else {
        return hand_on_one(a);
    };
    fit_real(-x)
}

// The operator of a code on its operands; codes 10 and 11 do not look at the second.
pub fn apply_code(code: u8, a: Value, b: Value) -> Value
    ensures { result ≡ apply code a b }
{
    match code {
        1..=7 => apply_numbers(code, a, b),
        8..=9 => apply_logical(code, a, b),
        10 => {
            let Value::Truth(x) = a else {
                return hand_on_one(a);
            };
            Value::Truth(!x)
        }
        11 => {
            let Value::Whole(x) = a else {
                return negate_other(a);
            };
            negate(x)
        }
        _ => err(),
    }
}

// Kinds as bytes in lent arrays (specs/Bytes): what an operator wants of its operands' and gives, and how kinds are compared and
// copied.
ghost use Rattle.std.specs.Prelude.{◌≡◌, ◌&&◌, [], ◌∷◌, ◌+◌, ◌≤◌, ◌<◌, length};
ghost use Rattle.value.specs.Kinds.{same_kind, all_of, wanted, given};
ghost use Rattle.formula.specs.Kinds.{kind_of_constant, either_kinds, same_kinds, agree_kinds};
ghost use Rattle.sheet_kinds.specs.Bytes.{kind_of_byte, kinds_in, stretch, Written};

// A kind's byte is the tag of its values.
pub const WHOLE: u8 = 1;

pub const TRUTH: u8 = 2;

pub const REAL: u8 = 4;

// The row kinds of a truth and of a float.
const TRUTH_ROW: u32 = 3;

const FLOAT_ROW: u32 = 10;

// The remainder takes no floats; codes 6 to 10 give a truth, 8 to 10 want truths.
const REMAINDER: u32 = 5;

const LESS: u32 = 6;

const AND: u32 = 8;

const NOT: u32 = 10;

// The kind of a constant's row.
#[tactic(auto, unfolding(formula::specs::Kinds::kind_of_constant))]
pub fn constant_kind(kind: u32) -> u8
    ensures { kind_of_byte result ≡ kind_of_constant kind }
{
    match kind {
        TRUTH_ROW => TRUTH,
        FLOAT_ROW => REAL,
        _ => WHOLE,
    }
}

#[tactic(auto, unfolding(value::specs::Kinds::same_kind))]
pub fn same_kind(a: u8, b: u8) -> bool
    ensures { result ≡ same_kind (kind_of_byte a) (kind_of_byte b) }
{
    (a == TRUTH) == (b == TRUTH) && (a == REAL) == (b == REAL)
}

// Whether the n kinds of `a` from `at` on are the first m of `b`.
pub fn same_kinds(a: &[u8], at: usize, n: usize, b: &[u8], m: usize) -> bool
    requires { (at + n ≤ length a.now) × (m ≤ length b.now) }
    ensures { result ≡ same_kinds (stretch (kinds_in a.now) at n) (stretch (kinds_in b.now) 0 m) }
{
    if n != m {
        return false;
    }
    for i in 0..n {
        if !same_kind(a[at + i], b[i]) {
            return false;
        }
    }
    true
}

// Whether the first n kinds are all k.
pub fn all_kinds(k: u8, l: &[u8], n: usize) -> bool
    requires { n ≤ length l.now }
    ensures { result ≡ all_of (kind_of_byte k) (stretch (kinds_in l.now) 0 n) }
{
    for i in 0..n {
        if !same_kind(k, l[i]) {
            return false;
        }
    }
    true
}

// Whether the operator of a code wants operands of the first n kinds.
#[tactic(auto, unfolding(value::specs::Kinds::wanted))]
pub fn wanted_kinds(code: u32, l: &[u8], n: usize) -> bool
    requires { n ≤ length l.now }
    ensures { result ≡ wanted code (stretch (kinds_in l.now) 0 n) }
{
    if matches!(code, AND..=NOT) {
        all_kinds(TRUTH, l, n)
    } else {
        all_kinds(WHOLE, l, n) || code != REMAINDER && all_kinds(REAL, l, n)
    }
}

// The kind that it gives on them.
#[tactic(auto, unfolding(value::specs::Kinds::given))]
pub fn given_kind(code: u32, l: &[u8], n: usize) -> u8
    requires { n ≤ length l.now }
    ensures { kind_of_byte result ≡ given code (stretch (kinds_in l.now) 0 n) }
{
    match code {
        LESS..=NOT => TRUTH,
        REMAINDER => WHOLE,
        _ if all_kinds(REAL, l, n) => REAL,
        _ => WHOLE,
    }
}

// Whether body arms with n and m kinds agree in what both have.
#[tactic(auto, unfolding(formula::specs::Kinds::agree_kinds))]
pub fn agree(a: &[u8], n: usize, b: &[u8], m: usize) -> bool
    requires { (n ≤ length a.now) × (m ≤ length b.now) }
    ensures { result ≡ agree_kinds (stretch (kinds_in a.now) 0 n) (stretch (kinds_in b.now) 0 m) }
{
    n == 0 || m == 0 || same_kinds(a, 0, n, b, m)
}

pub fn put_kind(out: &mut [u8], at: usize, k: u8)
    requires { at < length out.old }
    ensures { Written at (kind_of_byte k ∷ []) out.old out.new }
{
    out[at] = k;
}

// The first n kinds of `from`, put into `to` from `at` on.
pub fn copy(to: &mut [u8], at: usize, from: &[u8], n: usize)
    requires { (at + n ≤ length to.old) × (n ≤ length from.now) }
    ensures { Written at (stretch (kinds_in from.now) 0 n) to.old to.new }
{
    to[at..at + n].copy_from_slice(&from[..n]);
}

// The n kinds of the first arm hold, where there are some; else the second's m are put in their place. The answer is how many.
pub fn hold_first(first: &mut [u8], n: usize, second: &[u8], m: usize) -> usize
    requires { (n ≤ 16) × (m ≤ 16) × (length first.old ≡ 16) × (length second.now ≡ 16) }
    ensures { (stretch (kinds_in first.new) 0 result ≡ either_kinds (stretch (kinds_in first.old) 0 n) (stretch (kinds_in second.now) 0 m)) × (result ≤ 16) × (length first.new ≡ 16) }
{
    if n != 0 {
        return n;
    }
    copy(first, 0, second, m);
    m
}

// Tolerances and numbers as bytes: four bytes each, lowest first (sheet_movement's specs/Moves).
ghost use Rattle.std.specs.Prelude.{◌≡◌, [], ◌∷◌, ◌+◌, ◌*◌, ◌≤◌, ◌<◌, length, get_or, take};
ghost use Rattle.std.proofs.lemmas.List.Edits.{sets};
ghost use Rattle.sheet_movement.specs.Moves.{number_at, tolerances_well, number_bytes};
ghost use Rattle.sheet_drift.specs.Numbers.{InOrder};

use eval_words::inputs::next;
use sheet_fields::shape::IDENTIFIERS;

// The bytes of a number.
pub const NUMBER_BYTES: usize = 4;

// The greatest number.
pub const MOST: u64 = 2147483647;

// A byte, 0 where there is none.
fn byte_at(s: &[u8], at: usize) -> u8
    ensures { result ≡ get_or s.now at 0 }
{
    s.get(at).copied().unwrap_or(0)
}

// Number i of some bytes.
#[tactic(auto, unfolding(sheet_movement::specs::Moves::number_at))]
fn number_at(s: &[u8], i: usize) -> u32
    requires { i ≤ 64 }
    ensures { result ≡ number_at s.now (4 * i) }
{
    let at = NUMBER_BYTES * i;
    u32::from_le_bytes([
        byte_at(s, at),
        byte_at(s, at + 1),
        byte_at(s, at + 2),
        byte_at(s, at + 3),
    ])
}

// Whether there is a tolerance in range for each input, and no more.
pub fn tolerances_well(s: &[u8], inputs: usize) -> bool
    requires { inputs ≤ 64 }
    ensures { result ≡ tolerances_well inputs s.now }
{
    if s.len() != NUMBER_BYTES * inputs {
        return false;
    }
    for i in 0..inputs {
        if MOST < u64::from(number_at(s, i)) {
            return false;
        }
    }
    true
}

// An environment in which the identifiers of the mask, rising, have the tolerances in their order; those outside it are never asked for.
pub fn in_order(free: u64, s: &[u8]) -> [u32; IDENTIFIERS]
    ensures { InOrder s.now free result 32 }
{
    let mut env = [0; IDENTIFIERS];
    let mut i = 0;
    for k in 0..IDENTIFIERS {
        env[k] = number_at(s, i);
        i = next(free, k, i);
    }
    env
}

#[tactic(auto, unfolding(sheet_movement::specs::Moves::number_bytes))]
fn put_number(out: &mut [u8], at: usize, d: u32)
    requires { at + 4 ≤ length out.old }
    ensures { out.new ≡ sets out.old at (number_bytes (d ∷ [])) }
{
    out[at..at + NUMBER_BYTES].copy_from_slice(&d.to_le_bytes());
}

// The first n numbers, from the start of `out` on.
pub fn write_numbers(numbers: &[u32], n: usize, out: &mut [u8])
    requires { (n ≤ length numbers.now) × (4 * n ≤ length out.old) }
    ensures { out.new ≡ sets out.old 0 (number_bytes (take n numbers.now)) }
{
    for i in 0..n {
        put_number(out, NUMBER_BYTES * i, numbers[i]);
    }
}

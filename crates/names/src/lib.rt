#![tactic(auto)]
// Sets of names as masks: document 01, "Forms to follow" ("a u64 mask per row"). Each contract says
// what the function does to the number; proofs/Masks says what that is for the mask of a set. A
// union is `a | b` and a common part is `a & b`, so they need no function. Assumes of a place that it is one of the 33.
ghost use Rattle.std.specs.Prelude.{◌≡◌, ℕ, ◌+◌, ◌-◌, ◌*◌, ◌/◌, ◌%◌, ◌^◌, ◌≤◌, ◌<◌, eqb};
ghost use Rattle.std.specs.Int.Bits.{bit_and};
ghost use Rattle.std.specs.Int.Count.{ones, count_trailing_zeros};
ghost use Rattle.std.specs.Iterator.{YieldsFirst, item_count};
ghost use Rattle.names.specs.Names.{members_in};

// The trigger's place, behind the 32 identifiers, and the mask of it alone.
pub const TRIGGER: u32 = 32;

pub const TRIGGER_MASK: u64 = 4294967296;

// The mask of one place.
pub fn single(i: u32) -> u64
    requires { i < 33 }
    ensures { result ≡ 2 ^ i }
{
    1u64 << i
}

// The mask of the places a to a + b - 1.
pub fn range_mask(a: u32, b: u32) -> u64
    requires { a + b ≤ 33 }
    ensures { result ≡ 2 ^ a * (2 ^ b - 1) }
{
    ((1u64 << b) - 1) << a
}

// Whether place i is in.
pub fn has(m: u64, i: u32) -> bool
    requires { i < 33 }
    ensures { result ≡ eqb (m / 2 ^ i % 2) 1 }
{
    (m >> i) % 2 == 1
}

// The places of a that are not in b.
pub fn minus(a: u64, b: u64) -> u64
    ensures { result ≡ bit_and a ((2 ^ 64 - 1) - b) }
{
    a & !b
}

// How many places are in.
pub fn count(m: u64) -> u32
    ensures { (result ≡ ones m) × (result ≤ 64) }
{
    u64::count_ones(m)
}

// The lowest place that is in, or 64.
pub fn lowest(m: u64) -> u32
    ensures { (result ≡ count_trailing_zeros 64 m) × (result ≤ 64) }
{
    u64::trailing_zeros(m)
}

// The mask without its lowest place; none stays none.
pub fn rest(m: u64) -> u64
    ensures { result ≡ bit_and m (m - 1) }
{
    if m == 0 {
        return 0;
    }
    m & (m - 1)
}

// The places of a mask, the lowest first.
#[derive(Drop)]
pub struct Rising(u64);

pub fn members(m: u64) -> Rising
    ensures { result.0 ≡ m }
{
    Rising(m)
}

impl Iterator for Rising {
    type Item = usize;

    ghost next_gives = { YieldsFirst (λ s. members_in s.0) };

    ghost remaining = { item_count (λ s. members_in s.0) };

    fn next(&mut self) -> Option<usize> {
        if self.0 == 0 {
            return None;
        }
        let place = lowest(self.0) as usize;
        self.0 = rest(self.0);
        Some(place)
    }
}

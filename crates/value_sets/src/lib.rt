#![tactic(auto)]
// A set of values in the byte form (document 01, 12: "a set with another number of values than inputs, a bad value field"; document 02,
// Job 6: "Sets with another kind are refused with 12"): the one test that push and direct evaluation make. The definitions are specs/Sets. Assumes nothing of the bytes.
ghost use Rattle.std.specs.Prelude.{◌≡◌, ℕ, ◌<◌, length};
ghost use Rattle.value_sets.specs.Sets.{set_ok};

// Whether a set has a value in the byte form for each letter of a kind, of that kind or an err, and nothing else.
pub fn is_set(set: &[u8], kinds: &[u8]) -> bool
    requires { length kinds.now < 256 }
    ensures { result ≡ set_ok kinds.now set.now }
{
    if set.len() != 5 * kinds.len() {
        return false;
    }
    for (i, kind) in kinds.iter().enumerate() {
        if !value::bytes::is_of_kind(*kind, value::bytes::load(set, 5 * i)) {
            return false;
        }
    }
    true
}

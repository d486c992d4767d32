// Set lines (text/specs/SetLines; document 01, "Program and readings" and refusal 12; document 02, Job 6).
ghost use Rattle.std.specs.Prelude.{◌≡◌, Bool, true, ◌++◌, ◌+◌, ◌*◌, ◌≤◌, ◌<◌, length, drop};
ghost use Rattle.text.specs.SetLines.{line_at, is_set_line, field_bytes, sets_of, count_of};

use crate::values::word_in;
use text::{SET_BYTES, VALUE_BYTES, VALUE_FIELD};

// Whether a line of a value of each kind, or an err, with its line feed starts at `at`; its values are written to the front of `out`, five bytes each.
pub fn read_set(s: &[u8], at: usize, kinds: &[u8], out: &mut [u8]) -> bool
    requires { (length kinds.now ≤ 32) × (at ≤ length s.now) × (5 * length kinds.now ≤ length out.old) }
    ensures { (result ≡ is_set_line kinds.now (line_at kinds.now s.now at))
        × (result ≡ true → out.new ≡ field_bytes (length kinds.now) (line_at kinds.now s.now at)
        ++ drop (5 * length kinds.now) out.old) }
{
    let k = kinds.len();
    if s.len() - at < VALUE_FIELD * k + 1 || s[at + VALUE_FIELD * k] != b'\n' {
        return false;
    }
    for (j, &kind) in kinds.iter().enumerate() {
        let word = word_in(s, at + VALUE_FIELD * j);
        if !value::bytes::is_of_kind(kind, word) {
            return false;
        }
        value::bytes::store(out, VALUE_BYTES * j, word);
    }
    true
}

// The number of sets of a file for inputs of these kinds, or the lowest line at fault.
pub fn count_sets(s: &[u8], kinds: &[u8]) -> Result<usize, usize>
    requires { length kinds.now ≤ 32 }
    ensures { result ≡ count_of (sets_of kinds.now s.now) }
{
    let mut scratch = [0u8; SET_BYTES];
    let mut at = 0;
    let mut n = 0;
    // two numbers step together, one of them by a line's length: a range with a step would leave its count to be reckoned
    while at < s.len() {
        if !read_set(s, at, kinds, &mut scratch) {
            return Err(n + 1);
        }
        at += VALUE_FIELD * kinds.len() + 1;
        n += 1;
    }
    Ok(n)
}

// The sets of a log's list, "lent like a tray" (document 02, Job 3), and refusal 12. The definition is specs/Checked: `all_sets` of `set_list`.
ghost use Rattle.std.specs.Prelude.{◌≡◌, ◌<◌, length};
ghost use Rattle.machine_log.specs.Checked.{set_list, all_sets};

// The bytes of a value.
pub const VALUE_BYTES: usize = 5;

// Whether each of the given number of sets is wholly lent and has values of these kinds, or errs. Sets of no bytes are all good, and no
// loop goes over them.
pub fn are_sets(sets: &[u8], number: u32, kinds: &[u8]) -> bool
    requires { length kinds.now < 256 }
    ensures { result ≡ all_sets kinds.now (set_list kinds.now sets.now number) }
{
    if kinds.len() == 0 {
        return true;
    }
    let size = VALUE_BYTES * kinds.len();
    for count in 0..number {
        let at = size * count as usize;
        if sets.len() - at < size {
            return false;
        }
        let end = at + size;
        if !value_sets::is_set(&sets[at..end], kinds) {
            return false;
        }
    }
    true
}

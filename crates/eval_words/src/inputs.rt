// A formula's inputs by the mask of its free names (specs/Inputs): "The inputs are the formula's free identifiers, rising."
ghost use Rattle.std.specs.Prelude.{◌≡◌, ◌+◌, ◌≤◌, ◌<◌};
ghost use Rattle.names.specs.Names.{bit};
ghost use Rattle.eval_words.specs.Inputs.{inputs_in, set_in};

// The number of inputs.
pub fn inputs_in(free: u64) -> usize
    ensures { (result ≡ inputs_in free) × (result ≤ 64) }
{
    names::count(names::minus(free, names::TRIGGER_MASK)) as usize
}

// One more than i where name k is in the mask.
pub fn next(m: u64, k: usize, i: usize) -> usize
    requires { (k < 33) × (i ≤ 64) }
    ensures { (result ≡ i + bit (set_in m k)) × (result ≤ i + 1) }
{
    i + usize::from(names::has(m, k as u32))
}

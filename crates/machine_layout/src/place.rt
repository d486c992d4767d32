// Where the links of a machine lie in memory, all their stretches behind each other.
ghost use Rattle.std.specs.Prelude.{◌≡◌, ◌≤◌, length};
ghost use Rattle.machine_layout.specs.Layout.{least_size, most_size, links_at, size_of, capacity_of};

// The links' stretches begin at the byte `base`, and each is `size` bytes long, as the stretch of a
// link with one place to sixteen is.
#[derive(Clone, Copy)]
pub struct Stretches {
    pub base: usize,
    pub size: usize,
    ghost in_range: { (least_size ≤ size) × (size ≤ most_size) },
}

impl Stretches {
    // Those of a machine whose links have its stored capacity.
    pub fn of(mem: &[u8]) -> Stretches
        ensures { (result.base ≡ links_at) × (result.size ≡ size_of (capacity_of mem.now)) }
    {
        Stretches {
            base: crate::LINKS_AT,
            size: crate::stretch_size(crate::capacity(mem)),
        }
    }
}

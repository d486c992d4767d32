// Lists of links in arrays of 33: one behind another, and a part of one.
ghost use Rattle.std.specs.Prelude.{◌≡◌, ◌++◌, ℕ, ◌+◌, ◌≤◌, ◌<◌, length, take, drop};

// The first k links of `a`, then the first j of `b`.
pub fn join(a: [u16; 33], k: usize, b: [u16; 33], j: usize) -> [u16; 33]
    requires { k + j ≤ 33 }
    ensures { take (k + j) result ≡ take k a ++ take j b }
{
    let mut r = a;
    r[k..k + j].copy_from_slice(&b[..j]);
    r
}

// The k links of `a` from place `from` on.
pub fn part(a: [u16; 33], from: usize, k: usize) -> [u16; 33]
    requires { from + k ≤ 33 }
    ensures { take k result ≡ take k (drop from a) }
{
    let mut r = [0u16; 33];
    r[..k].copy_from_slice(&a[from..from + k]);
    r
}

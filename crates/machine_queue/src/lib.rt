#![tactic(auto)]
// The queue of a link (document 01, "A link's waiting tokens fill one stretch of token memory"): a
// count, then tokens of five bytes, the oldest first, in a part of memory lent as a slice. "Freed
// places are used again": taking the oldest token moves the others down. The definitions are
// specs/Stretch, and hold for all contents: a count past the stretch's end is neither taken from
// nor added to.
ghost use Rattle.std.specs.Prelude.{◌≡◌, ℕ, ◌+◌, ◌-◌, ◌*◌, ◌≤◌, ◌<◌, length, take, drop};
ghost use Rattle.machine_queue.specs.Stretch.{head_of, room_in, appended, removed, waiting as waitingIn};

// How many tokens wait.
pub fn waiting(q: &[u8]) -> usize
    requires { 1 ≤ length q.now }
    ensures { (result ≡ waitingIn q.now) × (result < 256) }
{
    usize::from(q[0])
}

// The oldest token's word, or 0 where none waits.
pub fn head(q: &[u8]) -> u64
    requires { 6 ≤ length q.now }
    ensures { (result ≡ head_of q.now) × (result < 1099511627776) }
{
    if q[0] == 0 {
        0
    } else {
        value::bytes::load(q, 1)
    }
}

// Whether a place is free.
pub fn room(q: &[u8]) -> bool
    requires { 6 ≤ length q.now }
    ensures { result ≡ room_in q.now }
{
    5 * usize::from(q[0]) + 6 <= q.len()
}

pub fn append(q: &mut [u8], word: u64)
    requires { (6 ≤ length q.old) × (length q.old ≤ 81) }
    ensures { q.new ≡ appended q.old word }
{
    let n = usize::from(q[0]);
    let at = 5 * n + 1;
    if at + 5 <= q.len() {
        value::bytes::store(q, at, word);
        q[0] = (n + 1) as u8;
    }
}

// Takes the oldest token away: the others move down by five bytes.
pub fn remove_first(q: &mut [u8])
    requires { 6 ≤ length q.old }
    ensures { q.new ≡ removed q.old }
{
    let n = usize::from(q[0]);
    if n == 0 {
        return;
    }
    let end = 5 * n + 1;
    if q.len() < end {
        return;
    }
    q.copy_within(6..end, 1);
    q[0] = (n - 1) as u8;
}

#![tactic(auto)]
// Runs of the machine (document 01, "Running"). The definition is specs/Run: the least-numbered able
// operator fires, again and again. `run` makes it without looking at every operator after each
// firing: one that was found not able is passed over until a firing may have made it able
// (specs/Marks). Assumes that the memory is as long as its links need and that they begin behind the
// registers, and nothing of its contents.
ghost use Rattle.std.specs.Prelude.{◌≡◌, false, ℕ, ◌+◌, ◌-◌, ◌*◌, ◌/◌, ◌≤◌, ◌<◌, length, get_or};
ghost use Rattle.machine_layout.specs.Layout.{most_operators, most_links, links_at, need_from};
ghost use Rattle.machine_queue.specs.Stretch.{waiting};
ghost use Rattle.machine_firing.specs.LinkLaws.{link_part_from};
ghost use Rattle.machine_marks.specs.Held.{held, Stands, Lowest, Woke};
ghost use Rattle.machine_marks.specs.Users.{Filled};
ghost use Rattle.machine_runs.specs.Run.{Ran, ran, runs_from, still_from};
ghost use Rattle.machine_runs.specs.Marks.{Calm, facing, Hit, Hits, Rests, Woken};

use machine_layout::{FIRST_INPUT, FIRST_OUTPUT, PORTS, Stretches, TOKEN_BYTES};
use machine_marks::{FEW_LINKS, FEW_USERS, MORE_LINKS, MORE_USERS, Marks, USERS};

// The bytes of a stretch's count and two tokens.
const TWO_FREE: usize = 1 + 2 * TOKEN_BYTES;

// Scans from the first operator after each firing.
pub fn run_plain(mem: &mut [u8], links: Stretches, n: usize, budget: u32) -> u32
    requires { (links_at ≤ links.base) × (need_from links.base links.size ≤ length mem.old) × (n ≤ most_operators) }
    ensures { ran mem.new result ≡ runs_from links.base links.size n budget mem.old 0 }
{
    let mut count: u32 = 0;
    let mut i: usize = 0;
    // Counts firings, of which an operator that is not able adds none: no `for`.
    while count < budget {
        if i == n {
            return count;
        }
        if machine_operators::fire_at(mem, links, i) {
            count += 1;
            i = 0;
        } else {
            i += 1;
        }
    }
    count
}

// How many tokens wait on link l.
fn waiting_on(mem: &[u8], links: Stretches, l: usize) -> usize
    requires { (need_from links.base links.size ≤ length mem.now) × (l < most_links) }
    ensures { (result ≡ waiting (link_part_from mem.now links.base links.size l)) × (result < 256) }
{
    let a = machine_layout::link_from(links.base, links.size, l);
    let e = a + links.size;
    machine_queue::waiting(&mem[a..e])
}

// Whether a firing may have made the user of link l on a side able: its putter, where fewer than two
// places are free now; its taker, where one token waits now.
fn due(mem: &[u8], links: Stretches, l: usize, side: usize) -> bool
    requires { need_from links.base links.size ≤ length mem.now }
    ensures { result ≡ false → l < most_links → Calm mem.now links.base links.size l side }
{
    if machine_layout::LINKS <= l {
        return false;
    }
    let count = waiting_on(mem, links, l);
    if side == machine_marks::PUTTER {
        return links.size < TOKEN_BYTES * count + TWO_FREE;
    }
    count == 1
}

// Marks the user of link l on a side, where that is due.
fn wake_user(
    mem: &[u8],
    links: Stretches,
    users: &[u16],
    l: usize,
    side: usize,
    awake: &mut [u64],
    m: Marks,
) -> Marks
    requires { (need_from links.base links.size ≤ length mem.now) × (l < 65536) × (side < 2) × (Stands awake.old m) }
    ensures { (Woke awake.old m awake.new result) × (Hit users.now mem.now links.base links.size l side (held awake.new result)) }
{
    if due(mem, links, l, side) {
        let u = machine_marks::user_of(users, l, side);
        return machine_marks::wake(awake, m, u);
    }
    m
}

// The side on which another operator uses the link of port k: an input's putter, an output's taker.
fn facing_side(k: usize) -> usize
    ensures { (result ≡ facing k) × (result < 2) }
{
    if k < FIRST_OUTPUT {
        return machine_marks::PUTTER;
    }
    machine_marks::TAKER
}

// Marks the other users of the links of operator i, where that is due. One call of `wake_user` in a
// loop keeps the marks out of memory; two such loops cost a call each.
fn wake_users(
    mem: &[u8],
    links: Stretches,
    users: &[u16],
    i: usize,
    awake: &mut [u64],
    m: Marks,
) -> Marks
    requires { (need_from links.base links.size ≤ length mem.now) × (i < most_operators) × (Stands awake.old m) }
    ensures { (Woke awake.old m awake.new result) × (Hits users.now mem.now links.base links.size i 6 (held awake.new result)) }
{
    let mut more = m;
    for k in 0..PORTS {
        let l = machine_layout::port_of(mem, i, k);
        let side = facing_side(k);
        more = wake_user(mem, links, users, l, side, awake, more);
    }
    more
}

// The marks without that of operator i, which has fired, where nothing waits on its first input: no
// kind is able then.
fn rest(mem: &[u8], links: Stretches, i: usize, m: Marks) -> Marks
    requires { (need_from links.base links.size ≤ length mem.now) × (i < most_operators) × (i / 64 ≡ m.block) }
    ensures { Rests mem.now links.base links.size i m result }
{
    let l = machine_layout::port_of(mem, i, FIRST_INPUT);
    if machine_layout::LINKS <= l {
        return m;
    }
    if waiting_on(mem, links, l) == 0 {
        return machine_marks::without(m, i);
    }
    m
}

// The marks after a firing of operator i: who gives to its inputs and who takes from its outputs may
// be able now, it may not.
pub fn wake(
    mem: &[u8],
    links: Stretches,
    users: &[u16],
    i: usize,
    awake: &mut [u64],
    m: Marks,
) -> Marks
    requires { (need_from links.base links.size ≤ length mem.now) × (i < most_operators) × (Stands awake.old m) × (m.low ≡ m.block) × (Lowest m i) }
    ensures { Woken users.now mem.now links.base links.size i awake.old m awake.new result }
{
    let own = rest(mem, links, i, m);
    let all = wake_users(mem, links, users, i, awake, own);
    machine_marks::backward(awake, all)
}

// The run, with a mark for each operator that may be able, over a table of the links' users.
fn run_marked(mem: &mut [u8], links: Stretches, n: usize, budget: u32, users: &[u16]) -> u32
    requires { (links_at ≤ links.base) × (need_from links.base links.size ≤ length mem.old) × (n ≤ most_operators) × (Filled users.now mem.old (6 * n)) }
    ensures { ran mem.new result ≡ runs_from links.base links.size n budget mem.old 0 }
{
    let mut awake = [machine_marks::ALL_MARKS; machine_marks::MARK_WORDS];
    let mut m = Marks {
        here: machine_marks::ALL_MARKS,
        block: 0,
        low: 0,
    };
    let mut fired: u32 = 0;
    // Counts firings, of which an operator that is not able adds none: no `for`.
    while fired < budget {
        m = machine_marks::forward(&mut awake, m);
        let i = machine_marks::first_of(m);
        if n <= i {
            return fired;
        }
        if machine_operators::fire_at(mem, links, i) {
            fired += 1;
            m = wake(mem, links, users, i, &mut awake, m);
        } else {
            m = machine_marks::without(m, i);
        }
    }
    fired
}

// The run over a lent table, all its places free; the plain one where the links do not fit it.
fn run_over(mem: &mut [u8], links: Stretches, n: usize, budget: u32, users: &mut [u16]) -> u32
    requires { (links_at ≤ links.base) × (need_from links.base links.size ≤ length mem.old) × (n ≤ most_operators) }
    ensures { ran mem.new result ≡ runs_from links.base links.size n budget mem.old 0 }
{
    if machine_marks::fill_users(mem, n, users) {
        return run_marked(mem, links, n, budget, users);
    }
    run_plain(mem, links, n, budget)
}

// The run over a table of its own with so many places.
fn run_in<const PLACES: usize>(mem: &mut [u8], links: Stretches, n: usize, budget: u32) -> u32
    requires { (links_at ≤ links.base) × (need_from links.base links.size ≤ length mem.old) × (n ≤ most_operators) × (PLACES ≤ 2 * most_links) }
    ensures { ran mem.new result ≡ runs_from links.base links.size n budget mem.old 0 }
{
    let mut users = [machine_marks::NO_USER; PLACES];
    run_over(mem, links, n, budget, &mut users)
}

// The run. Its table is as long as the stored number of links asks, in three steps: a blank one costs time.
pub fn run(mem: &mut [u8], links: Stretches, n: usize, budget: u32) -> u32
    requires { (links_at ≤ links.base) × (need_from links.base links.size ≤ length mem.old) × (n ≤ most_operators) }
    ensures { ran mem.new result ≡ runs_from links.base links.size n budget mem.old 0 }
{
    let named = machine_layout::links(mem);
    if named <= FEW_LINKS {
        return run_in::<FEW_USERS>(mem, links, n, budget);
    }
    if named <= MORE_LINKS {
        return run_in::<MORE_USERS>(mem, links, n, budget);
    }
    run_in::<USERS>(mem, links, n, budget)
}

// Whether nothing can fire (refusal 36 is its opposite, after the lent firings).
pub fn idle(mem: &mut [u8], links: Stretches, n: usize) -> bool
    requires { (links_at ≤ links.base) × (need_from links.base links.size ≤ length mem.old) × (n ≤ most_operators) }
    ensures { (result ≡ still_from mem.old links.base links.size n) × (mem.new ≡ mem.old) }
{
    for i in 0..n {
        if machine_operators::able_at(mem, links, i) {
            return false;
        }
    }
    true
}

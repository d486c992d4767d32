#![tactic(auto)]
// Runs of the machine with tags (document 02, Job 12). The definition is machine_tags/specs/TagRun: the
// least-numbered able operator fires under its lowest able tag, again and again. An operator i under a
// tag t is the pair 16 i + t, so that the least able pair fires. `run` makes it without looking at every
// pair after each firing: one that was found not able is passed over until a firing under its tag may
// have made it able (specs/TagMarks). Assumes that the memory has its planes, and of its contents that
// the operators are valid and none of a loop's.
ghost use Rattle.std.specs.Prelude.{◌≡◌, true, ℕ, ◌+◌, ◌*◌, ◌/◌, ◌%◌, ◌≤◌, ◌<◌, length};
ghost use Rattle.machine_layout.specs.Layout.{most_operators, most_links};
ghost use Rattle.machine_marks.specs.Users.{Filled};
ghost use Rattle.machine_planes.specs.Planes.{most_tags, plane_at, tagged_need};
ghost use Rattle.machine_runs.specs.Run.{ran};
ghost use Rattle.machine_tags.specs.TagRun.{able_under, fired_under, tag_runs, tag_still};
ghost use Rattle.machine_tags.specs.TagValid.{plain_kind};
ghost use Rattle.machine_valid.specs.Below.{all_below};
ghost use Rattle.machine_valid.specs.Valid.{operator_ok};
ghost use Rattle.machine_tag_marks.specs.FirstMarks.{FirstMark};
ghost use Rattle.machine_tag_runs.specs.PlainFirings.{PlainBelow};
ghost use Rattle.machine_tag_runs.specs.TagMarks.{words_of, Marked, LeastPair, PairStep};

use machine_marks::{FEW_LINKS, FEW_USERS, MORE_LINKS, MORE_USERS, USERS};
use machine_tag_valid::{TAGS, plane, plane_at};

// The words of marks of all tags, and a word with none.
const TAG_WORDS: usize = 256;

const NO_MARKS: u64 = 0;

// Fires the pair v if it can, and tells whether it did.
fn fire_pair(mem: &mut [u8], v: usize) -> bool
    requires { (tagged_need ≤ length mem.old) × (v < 16 * most_operators) }
    ensures { (result ≡ able_under mem.old (v / 16) (v % 16)) × (mem.new ≡ fired_under mem.old (v / 16) (v % 16)) }
{
    machine_operators::fire_at(mem, plane(v % TAGS), v / TAGS)
}

// Scans from the first pair after each firing.
fn run_plain(mem: &mut [u8], n: usize, budget: u32) -> u32
    requires { (tagged_need ≤ length mem.old) × (n ≤ most_operators) }
    ensures { ran mem.new result ≡ tag_runs n budget mem.old 0 }
{
    let pairs = TAGS * n;
    let mut count: u32 = 0;
    let mut v: usize = 0;
    // Counts firings, of which a pair that is not able adds none: no `for`.
    while count < budget {
        if pairs <= v {
            return count;
        }
        if fire_pair(mem, v) {
            count += 1;
            v = 0;
        } else {
            v += 1;
        }
    }
    count
}

// Marks the pairs of every tag that may be able, and notes each tag's first.
fn mark_planes(mem: &[u8], n: usize, awake: &mut [u64], firsts: &mut [usize])
    requires { (tagged_need ≤ length mem.now) × (n ≤ most_operators) × (PlainBelow mem.now n) × (length awake.old ≡ 256) × (length firsts.old ≡ 16) }
    ensures { (length awake.new ≡ 256) × (length firsts.new ≡ 16) × ((t : ℕ) → t < most_tags → Marked mem.now n awake.new firsts.new t) }
{
    for t in 0..TAGS {
        let base = plane_at(t);
        let a = machine_marks::MARK_WORDS * t;
        let e = a + machine_marks::MARK_WORDS;
        let next = machine_tag_marks::mark_plane(mem, base, n, &mut awake[a..e]);
        firsts[t] = TAGS * next + t;
    }
}

// A step of the pair v, the first of its tag with a mark; tells whether it fired.
fn step_pair(
    mem: &mut [u8],
    users: &[u16],
    v: usize,
    awake: &mut [u64],
    firsts: &mut [usize],
) -> bool
    requires { (tagged_need ≤ length mem.old) × (v < 16 * most_operators) × (length awake.old ≡ 256) × (length firsts.old ≡ 16) × (FirstMark (words_of awake.old (v % 16)) (v / 16)) }
    ensures { PairStep users.now mem.old v awake.old firsts.old mem.new awake.new firsts.new result }
{
    let t = v % TAGS;
    let plane = plane_at(t);
    let a = machine_marks::MARK_WORDS * t;
    let e = a + machine_marks::MARK_WORDS;
    let s = machine_tag_marks::step_plane(mem, plane, users, v / TAGS, &mut awake[a..e]);
    firsts[t] = TAGS * s.next + t;
    s.fired
}

// The least of the tags' first pairs.
fn least_pair(firsts: &[usize]) -> usize
    requires { length firsts.now ≡ 16 }
    ensures { LeastPair firsts.now result }
{
    let mut v = firsts[0];
    for t in 1..TAGS {
        if firsts[t] < v {
            v = firsts[t];
        }
    }
    v
}

// The run, with a mark for each pair that may be able, over a table of the links' users.
fn run_marked(mem: &mut [u8], n: usize, budget: u32, users: &[u16]) -> u32
    requires { (tagged_need ≤ length mem.old) × (n ≤ most_operators) × (all_below n (operator_ok mem.old) ≡ true) × (all_below n (plain_kind mem.old) ≡ true) × (Filled users.now mem.old (6 * n)) }
    ensures { ran mem.new result ≡ tag_runs n budget mem.old 0 }
{
    let mut awake = [NO_MARKS; TAG_WORDS];
    let mut firsts = [0usize; TAGS];
    mark_planes(mem, n, &mut awake, &mut firsts);
    let mut fired: u32 = 0;
    // Counts firings, of which a pair that is not able adds none: no `for`.
    while fired < budget {
        let v = least_pair(&firsts);
        if n <= v / TAGS {
            return fired;
        }
        if step_pair(mem, users, v, &mut awake, &mut firsts) {
            fired += 1;
        }
    }
    fired
}

// The run over a lent table, all its places free; the plain one where the links do not fit it.
fn run_over(mem: &mut [u8], n: usize, budget: u32, users: &mut [u16]) -> u32
    requires { (tagged_need ≤ length mem.old) × (n ≤ most_operators) × (all_below n (operator_ok mem.old) ≡ true) × (all_below n (plain_kind mem.old) ≡ true) }
    ensures { ran mem.new result ≡ tag_runs n budget mem.old 0 }
{
    if machine_marks::fill_users(mem, n, users) {
        return run_marked(mem, n, budget, users);
    }
    run_plain(mem, n, budget)
}

// The run over a table of its own with so many places.
fn run_in<const PLACES: usize>(mem: &mut [u8], n: usize, budget: u32) -> u32
    requires { (tagged_need ≤ length mem.old) × (n ≤ most_operators) × (all_below n (operator_ok mem.old) ≡ true) × (all_below n (plain_kind mem.old) ≡ true) × (PLACES ≤ 2 * most_links) }
    ensures { ran mem.new result ≡ tag_runs n budget mem.old 0 }
{
    let mut users = [machine_marks::NO_USER; PLACES];
    run_over(mem, n, budget, &mut users)
}

// The run. Its table is as long as the stored number of links asks, in three steps: a blank one costs time.
pub fn run(mem: &mut [u8], n: usize, budget: u32) -> u32
    requires { (tagged_need ≤ length mem.old) × (n ≤ most_operators) × (all_below n (operator_ok mem.old) ≡ true) × (all_below n (plain_kind mem.old) ≡ true) }
    ensures { ran mem.new result ≡ tag_runs n budget mem.old 0 }
{
    let links = machine_layout::links(mem);
    if links <= FEW_LINKS {
        return run_in::<FEW_USERS>(mem, n, budget);
    }
    if links <= MORE_LINKS {
        return run_in::<MORE_USERS>(mem, n, budget);
    }
    run_in::<USERS>(mem, n, budget)
}

// Whether nothing can fire (refusal 36 is its opposite, after the lent firings).
pub fn idle(mem: &mut [u8], n: usize) -> bool
    requires { (tagged_need ≤ length mem.old) × (n ≤ most_operators) }
    ensures { (result ≡ tag_still mem.old n) × (mem.new ≡ mem.old) }
{
    let pairs = TAGS * n;
    for v in 0..pairs {
        if machine_operators::able_at(mem, plane(v % TAGS), v / TAGS) {
            return false;
        }
    }
    true
}

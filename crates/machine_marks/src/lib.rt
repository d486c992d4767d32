#![tactic(auto)]
// What a run without rescans (machine_runs) keeps beside the memory: a mark for each operator that
// may be able, in words of 64 (specs/Words, specs/Held), and for each link the operator that takes
// from it and the one that gives to it (specs/Users). Assumes only that the memory is long enough.
ghost use Rattle.std.specs.Prelude.{◌≡◌, ◌≢◌, true, ℕ, ◌+◌, ◌*◌, ◌/◌, ◌≤◌, ◌<◌, length, get_or};
ghost use Rattle.machine_layout.specs.Layout.{most_operators, registers_at};
ghost use Rattle.machine_marks.specs.Words.{mark_words, mark};
ghost use Rattle.machine_marks.specs.Held.{held, left, Blank, Bare, Stands, Moved, Lowest, Cleared, Woke};
ghost use Rattle.machine_marks.specs.Users.{Noted, Filled};

// The words of marks, and a word with all of them.
pub const MARK_WORDS: usize = 16;

pub const ALL_MARKS: u64 = 18446744073709551615;

// The operators of a word.
pub const BLOCK: usize = 64;

// Two places a link, for its taker and its putter, and the number of no operator.
pub const TAKER: usize = 0;

pub const PUTTER: usize = 1;

const SIDES: usize = 2;

const SIDE_PORTS: usize = 3;

// The places of the tables of links' users for few links, for more and for all that there can be.
pub const FEW_LINKS: usize = 64;

pub const FEW_USERS: usize = SIDES * FEW_LINKS;

pub const MORE_LINKS: usize = 512;

pub const MORE_USERS: usize = SIDES * MORE_LINKS;

pub const USERS: usize = SIDES * machine_layout::LINKS;

pub const NO_USER: u16 = 65535;

// The marks of a block are held in a word, `here`; the others stand in the table, none below `low`.
#[derive(Clone, Copy)]
pub struct Marks {
    pub here: u64,
    pub block: usize,
    pub low: usize,
}

// The first block from a place on with a mark, or MARK_WORDS: a number past all is no harder to test
// than an Option, and its loop no plainer by `position`, which counts from the place on.
fn next_block(awake: &[u64], from: usize) -> usize
    requires { (mark_words ≤ length awake.now) × (from ≤ mark_words) }
    ensures { (from ≤ result) × (result ≤ mark_words) × (Blank awake.now from result) × (result < mark_words → get_or awake.now result 0 ≢ 0) }
{
    for b in from..MARK_WORDS {
        if awake[b] != 0 {
            return b;
        }
    }
    MARK_WORDS
}

// The held marks where there are any, else those of the next block that has some; 0 where none has.
pub fn forward(awake: &mut [u64], m: Marks) -> Marks
    requires { (Stands awake.old m) × (m.low ≡ m.block) }
    ensures { (Moved awake.old m awake.new result) × (left result ≤ left m) × (result.here ≡ 0 → Bare (held awake.old m)) }
{
    if m.here != 0 {
        return m;
    }
    let block = m.block;
    awake[block] = 0;
    let next = next_block(awake, block + 1);
    if next < MARK_WORDS {
        return Marks {
            here: awake[next],
            block: next,
            low: next,
        };
    }
    m
}

// The first operator with a mark among those of the block, or the number past all where none is held:
// an Option is no plainer, since a run ends at every number past its operators.
pub fn first_of(m: Marks) -> usize
    requires { m.block < mark_words }
    ensures { (result < most_operators → Lowest m result) × (most_operators ≤ result → m.here ≡ 0) }
{
    if m.here == 0 {
        return machine_layout::OPERATORS;
    }
    BLOCK * m.block + u64::trailing_zeros(m.here) as usize
}

// The marks without that of operator u of the block.
pub fn without(m: Marks, u: usize) -> Marks
    requires { u / 64 ≡ m.block }
    ensures { Cleared m u result }
{
    Marks {
        here: m.here & !(1u64 << (u % BLOCK)),
        ..m
    }
}

// Marks operator u, in the held word where it is of the block; notes the least block with a mark.
pub fn wake(awake: &mut [u64], m: Marks, u: usize) -> Marks
    requires { Stands awake.old m }
    ensures { (Woke awake.old m awake.new result) × (u < most_operators → mark (held awake.new result) u ≡ 1) }
{
    if machine_layout::OPERATORS <= u {
        return m;
    }
    let at = u / BLOCK;
    let bit = 1u64 << (u % BLOCK);
    if at == m.block {
        return Marks {
            here: m.here | bit,
            ..m
        };
    }
    awake[at] |= bit;
    if at < m.low {
        return Marks { low: at, ..m };
    }
    m
}

// Goes back to the least block with a mark.
pub fn backward(awake: &mut [u64], m: Marks) -> Marks
    requires { Stands awake.old m }
    ensures { Moved awake.old m awake.new result }
{
    let low = m.low;
    let block = m.block;
    if low < block {
        awake[block] = m.here;
        return Marks {
            here: awake[low],
            block: low,
            low,
        };
    }
    m
}

// Notes operator j as link l's user on a side; false where it has one, or no place in the table.
fn note(users: &mut [u16], l: usize, side: usize, j: usize) -> bool
    requires { (l < 65536) × (side < 2) × (j < most_operators) }
    ensures { Noted users.old users.new l side j result }
{
    let at = SIDES * l + side;
    if users.len() <= at {
        return machine_layout::LINKS <= l;
    }
    if users[at] == NO_USER {
        users[at] = j as u16;
        return true;
    }
    false
}

// Notes the three ports of operator j on a side.
fn note_side(mem: &[u8], j: usize, side: usize, users: &mut [u16]) -> bool
    requires { (registers_at ≤ length mem.now) × (j < most_operators) × (side < 2) }
    ensures { (length users.new ≡ length users.old) × (result ≡ true → Filled users.old mem.now (6 * j + 3 * side) → Filled users.new mem.now (6 * j + 3 * side + 3)) }
{
    let first = SIDE_PORTS * side;
    for k in 0..SIDE_PORTS {
        let l = machine_layout::port_of(mem, j, first + k);
        if !note(users, l, side, j) {
            return false;
        }
    }
    true
}

// Notes the taker and the putter of every link that the n operators name; false where a link has
// two on a side, or no place in the table.
pub fn fill_users(mem: &[u8], n: usize, users: &mut [u16]) -> bool
    requires { (registers_at ≤ length mem.now) × (n ≤ most_operators) }
    ensures { (length users.new ≡ length users.old) × (result ≡ true → Filled users.new mem.now (6 * n)) }
{
    for j in 0..n {
        if !note_side(mem, j, TAKER, users) {
            return false;
        }
        if !note_side(mem, j, PUTTER, users) {
            return false;
        }
    }
    true
}

// The user of link l on a side, or a number past every operator: an Option is no plainer, since
// `wake` passes over such a number, which a table of altered memory may hold as well.
pub fn user_of(users: &[u16], l: usize, side: usize) -> usize
    requires { (l < 65536) × (side < 2) }
    ensures { (result < 65536) × (2 * l + side < length users.now → result ≡ get_or users.now (2 * l + side) 0) }
{
    let at = SIDES * l + side;
    if at < users.len() {
        return usize::from(users[at]);
    }
    usize::from(NO_USER)
}

#![tactic(auto)]
// What a firing does to the machine's memory (document 01, "The graph" and "Running"): tokens looked at,
// taken and given, as words. "a firing is lent those stretches only, in the middle of the whole":
// each link's part of memory goes to a queue function. With `dry` nothing is moved: it is only told
// whether it could be.
// Every equation holds for all contents: a link number from machine_layout::LINKS on is no link.
ghost use Rattle.std.specs.Prelude.{◌≡◌, ◌&&◌, not, ℕ, ◌+◌, ◌*◌, ◌≤◌, ◌<◌, length, take, drop};
ghost use Rattle.value.specs.Bytes.{word_or, stored};
ghost use Rattle.machine_layout.specs.Layout.{most_operators, links_at, need_from, port_of, register_at};
ghost use Rattle.machine_gates.specs.Decide.{is_absent};
ghost use Rattle.machine_firing.specs.Links.{head_from, token_from, room_from, removed_from, appended_from};
ghost use Rattle.machine_firing.specs.Fire.{register_of};
ghost use Rattle.machine_firing.specs.Moves.{Done, taken_two, given_one, given_two, next_register, input};

use machine_gates::is_absent;
use machine_layout::{FIRST_OUTPUT, SECOND_INPUT, Stretches, port_of};
use value::bytes::TRUE;

// The number of no link, machine_layout::NO_LINK, among those of links.
pub const NOWHERE: usize = 65535;

// The word of the first token that waits on link l, or 0.
pub fn head_of(mem: &[u8], links: Stretches, l: usize) -> u64
    requires { need_from links.base links.size ≤ length mem.now }
    ensures { (result ≡ head_from mem.now links.base links.size l) × (result < 1099511627776) }
{
    if l < machine_layout::LINKS {
        let a = machine_layout::link_from(links.base, links.size, l);
        let e = a + links.size;
        return machine_queue::head(&mem[a..e]);
    }
    0
}

pub fn room_of(mem: &[u8], links: Stretches, l: usize) -> bool
    requires { need_from links.base links.size ≤ length mem.now }
    ensures { result ≡ room_from mem.now links.base links.size l }
{
    if l < machine_layout::LINKS {
        let a = machine_layout::link_from(links.base, links.size, l);
        let e = a + links.size;
        return machine_queue::room(&mem[a..e]);
    }
    true
}

pub fn remove_from(mem: &mut [u8], links: Stretches, l: usize)
    requires { need_from links.base links.size ≤ length mem.old }
    ensures { mem.new ≡ removed_from mem.old links.base links.size l }
{
    if l < machine_layout::LINKS {
        let a = machine_layout::link_from(links.base, links.size, l);
        let e = a + links.size;
        machine_queue::remove_first(&mut mem[a..e]);
    }
}

pub fn append_to(mem: &mut [u8], links: Stretches, l: usize, word: u64)
    requires { need_from links.base links.size ≤ length mem.old }
    ensures { mem.new ≡ appended_from mem.old links.base links.size l word }
{
    if l < machine_layout::LINKS {
        let a = machine_layout::link_from(links.base, links.size, l);
        let e = a + links.size;
        machine_queue::append(&mut mem[a..e], word);
    }
}

// The first token on a link; a word that is no value is no token.
pub fn token_of(mem: &[u8], links: Stretches, l: usize) -> u64
    requires { need_from links.base links.size ≤ length mem.now }
    ensures { result ≡ word_or (token_from mem.now links.base links.size l) }
{
    value::bytes::token_word(head_of(mem, links, l))
}

// What operator i remembers.
pub fn register_of(mem: &[u8], i: usize) -> u64
    requires { (links_at ≤ length mem.now) × (i < most_operators) }
    ensures { result ≡ word_or (register_of mem.now i) }
{
    value::bytes::token_word(value::bytes::load(mem, machine_layout::register_at(i)))
}

pub fn set_register(mem: &mut [u8], i: usize, word: u64)
    requires { (links_at ≤ length mem.old) × (i < most_operators) }
    ensures { mem.new ≡ stored mem.old (register_at i) word }
{
    let at = machine_layout::register_at(i);
    value::bytes::store(mem, at, word);
}

// "each link it emits on has a free place": takes from two links (NOWHERE: from none) and gives a
// token on the first output.
pub fn give_one(
    mem: &mut [u8],
    links: Stretches,
    i: usize,
    in1: usize,
    in2: usize,
    word: u64,
    dry: bool,
) -> bool
    requires { (links_at ≤ links.base) × (need_from links.base links.size ≤ length mem.old) × (i < most_operators) }
    ensures { Done mem.old mem.new dry result (room_from mem.old links.base links.size (port_of mem.old i 3)) (given_one mem.old links.base links.size in1 in2 (port_of mem.old i 3) word) }
{
    let out = port_of(mem, i, FIRST_OUTPUT);
    if !room_of(mem, links, out) {
        return false;
    }
    if dry {
        return true;
    }
    remove_from(mem, links, in1);
    remove_from(mem, links, in2);
    append_to(mem, links, out, word);
    true
}

// The same with a second token on another output.
pub fn give_two(
    mem: &mut [u8],
    links: Stretches,
    i: usize,
    in1: usize,
    in2: usize,
    word: u64,
    other: usize,
    token: u64,
    dry: bool,
) -> bool
    requires { (links_at ≤ links.base) × (need_from links.base links.size ≤ length mem.old) × (i < most_operators) × (other < 6) }
    ensures { Done mem.old mem.new dry result (room_from mem.old links.base links.size (port_of mem.old i 3) && room_from mem.old links.base links.size (port_of mem.old i other)) (given_two mem.old links.base links.size in1 in2 (port_of mem.old i 3) word (port_of mem.old i other) token) }
{
    let out1 = port_of(mem, i, FIRST_OUTPUT);
    if !room_of(mem, links, out1) {
        return false;
    }
    let out2 = port_of(mem, i, other);
    if !room_of(mem, links, out2) {
        return false;
    }
    if dry {
        return true;
    }
    remove_from(mem, links, in1);
    remove_from(mem, links, in2);
    append_to(mem, links, out1, word);
    append_to(mem, links, out2, token);
    true
}

// Passes the token that waits on an input, and takes from `control`.
pub fn pass_data(
    mem: &mut [u8],
    links: Stretches,
    i: usize,
    control: usize,
    port: usize,
    dry: bool,
) -> bool
    requires { (links_at ≤ links.base) × (need_from links.base links.size ≤ length mem.old) × (i < most_operators) × (port < 6) }
    ensures { Done mem.old mem.new dry result (not (is_absent (input mem.old links.base links.size i port)) && room_from mem.old links.base links.size (port_of mem.old i 3)) (given_one mem.old links.base links.size control (port_of mem.old i port) (port_of mem.old i 3) (word_or (input mem.old links.base links.size i port))) }
{
    let l = port_of(mem, i, port);
    let token = token_of(mem, links, l);
    if is_absent(token) {
        return false;
    }
    give_one(mem, links, i, control, l, token, dry)
}

// Takes the token that waits on the second input, gives nothing, and takes from `control`.
pub fn drop_data(mem: &mut [u8], links: Stretches, i: usize, control: usize, dry: bool) -> bool
    requires { (links_at ≤ links.base) × (need_from links.base links.size ≤ length mem.old) × (i < most_operators) }
    ensures { Done mem.old mem.new dry result (not (is_absent (input mem.old links.base links.size i 1))) (taken_two mem.old links.base links.size control (port_of mem.old i 1)) }
{
    let l = port_of(mem, i, SECOND_INPUT);
    if is_absent(token_of(mem, links, l)) {
        return false;
    }
    if dry {
        return true;
    }
    remove_from(mem, links, control);
    remove_from(mem, links, l);
    true
}

// FS "passes and remembers" a token.
pub fn remember(
    mem: &mut [u8],
    links: Stretches,
    i: usize,
    in1: usize,
    in2: usize,
    word: u64,
    dry: bool,
) -> bool
    requires { (links_at ≤ links.base) × (need_from links.base links.size ≤ length mem.old) × (i < most_operators) }
    ensures { Done mem.old mem.new dry result (room_from mem.old links.base links.size (port_of mem.old i 3)) (stored (given_one mem.old links.base links.size in1 in2 (port_of mem.old i 3) word) (register_at i) word) }
{
    if !give_one(mem, links, i, in1, in2, word, dry) {
        return false;
    }
    if dry {
        return true;
    }
    set_register(mem, i, word);
    true
}

pub fn remember_data(mem: &mut [u8], links: Stretches, i: usize, control: usize, dry: bool) -> bool
    requires { (links_at ≤ links.base) × (need_from links.base links.size ≤ length mem.old) × (i < most_operators) }
    ensures { Done mem.old mem.new dry result (not (is_absent (input mem.old links.base links.size i 1)) && room_from mem.old links.base links.size (port_of mem.old i 3)) (stored (given_one mem.old links.base links.size control (port_of mem.old i 1) (port_of mem.old i 3) (word_or (input mem.old links.base links.size i 1))) (register_at i) (word_or (input mem.old links.base links.size i 1))) }
{
    let l = port_of(mem, i, SECOND_INPUT);
    let token = token_of(mem, links, l);
    if is_absent(token) {
        return false;
    }
    remember(mem, links, i, control, l, token, dry)
}

// The register that those kinds leave: FM's tells that it has fired, the others' stays.
pub fn next_register(mem: &[u8], i: usize, kind: u8) -> u64
    requires { (links_at ≤ length mem.now) × (i < most_operators) }
    ensures { result ≡ word_or (next_register kind (register_of mem.now i)) }
{
    if kind == machine_layout::FM {
        return TRUE;
    }
    register_of(mem, i)
}

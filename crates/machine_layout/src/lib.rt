#![tactic(auto)]
// The machine's memory (document 01, "Running"; docs/ gives the offsets): functions that read and
// write its figures. The layout itself is specs/Layout, the bytes of an operator specs/Record. All
// figures of more than a byte lie lowest byte first. Assumes only that the memory is long enough.
ghost use Rattle.std.specs.Prelude.{◌≡◌, ℕ, ◌+◌, ◌*◌, ◌≤◌, ◌<◌, length};
ghost use Rattle.machine_layout.specs.Layout.{most_operators, most_links, most_capacity, most_inputs, most_results, records_at, registers_at, links_at, number16, stored16, name_at, capacity_byte, operators_of, links_of, inputs_of, results_of, untaken_of, trigger_of, port_of, input_link, result_link, operator_at, register_at, link_from, need_from, need, addresses, size_of, capacity_of};
ghost use Rattle.machine_layout.specs.Record.{recorded, placed};

mod place;

pub use place::Stretches;

// The most operators and links of a machine (specs/Layout), the most places of a link, inputs,
// results and sets untaken.
pub const OPERATORS: usize = 1024;

pub const LINKS: usize = 3105;

pub const CAPACITY: usize = 16;

pub const INPUTS: usize = 32;

pub const RESULTS: usize = 16;

pub const UNTAKEN: usize = 16;

// Where the header's figures stand: the capacity, the counts of operators, links, inputs and
// results, the sets untaken, the trigger's link, the input links, the result links and the letters of
// the inputs' kinds.
pub const CAPACITY_AT: usize = 0;

pub const OPERATOR_COUNT_AT: usize = 1;

pub const LINK_COUNT_AT: usize = 3;

pub const INPUT_COUNT_AT: usize = 5;

pub const RESULT_COUNT_AT: usize = 6;

pub const UNTAKEN_AT: usize = 7;

pub const TRIGGER_AT: usize = 8;

pub const INPUT_LINKS_AT: usize = 10;

pub const RESULT_LINKS_AT: usize = 74;

pub const INPUT_KINDS_AT: usize = 106;

// Where the operators' records, their registers and the links' stretches begin.
pub const RECORDS_AT: usize = 256;

pub const REGISTERS_AT: usize = 16640;

pub const LINKS_AT: usize = 21760;

// The bytes of a token, a value's word, in a link's stretch and in sets of values; and of the stretch
// of a link with one place.
pub const TOKEN_BYTES: usize = 5;

pub const SLOT_BYTES: usize = TOKEN_BYTES + 1;

// Where an operator's ports begin in its record.
pub const PORTS_AT: usize = 2;

// The ports in their order there, inputs, then outputs, and how many there are.
pub const FIRST_INPUT: usize = 0;

pub const SECOND_INPUT: usize = 1;

pub const THIRD_INPUT: usize = 2;

pub const FIRST_OUTPUT: usize = 3;

pub const SECOND_OUTPUT: usize = 4;

pub const THIRD_OUTPUT: usize = 5;

pub const PORTS: usize = 6;

// The number that a port without a link, or a machine without a trigger, has for one.
pub const NO_LINK: u16 = 65535;

// The bytes of the kinds behind the eleven operators (specs/Kinds).
pub const CONSTANT: u8 = 12;

pub const COPY: u8 = 13;

pub const T: u8 = 14;

pub const F: u8 = 15;

pub const M: u8 = 16;

pub const E: u8 = 17;

pub const IC: u8 = 18;

pub const FM: u8 = 19;

pub const FS: u8 = 20;

// An operator as it stands in memory: its kind's byte, its links and its register's
// word (0 before the first firing; a constant's value).
#[derive(Clone, Copy)]
pub struct Operator {
    pub kind: u8,
    pub in1: u16,
    pub in2: u16,
    pub in3: u16,
    pub out1: u16,
    pub out2: u16,
    pub out3: u16,
    pub register: u64,
}

// The figure of two bytes at `at`.
pub fn number_at(mem: &[u8], at: usize) -> usize
    requires { at + 2 ≤ length mem.now }
    ensures { (result ≡ number16 mem.now at) × (result < 65536) }
{
    usize::from(mem[at]) + 256 * usize::from(mem[at + 1])
}

pub fn store_number(mem: &mut [u8], at: usize, x: u16)
    requires { at + 2 ≤ length mem.old }
    ensures { mem.new ≡ stored16 mem.old at x }
{
    let [low, high] = x.to_le_bytes();
    mem[at] = low;
    mem[at + 1] = high;
}

pub fn operator_at(i: usize) -> usize
    requires { i < most_operators }
    ensures { result ≡ operator_at i }
{
    RECORDS_AT + 16 * i
}

pub fn register_at(i: usize) -> usize
    requires { i < most_operators }
    ensures { result ≡ register_at i }
{
    REGISTERS_AT + TOKEN_BYTES * i
}

// Where the stretch of link l begins, of the links from `base` on; `size` is the length of a stretch.
pub fn link_from(base: usize, size: usize, l: usize) -> usize
    requires { (need_from base size < addresses) × (l < most_links) }
    ensures { (result ≡ link_from base size l) × (result + size ≤ need_from base size) }
{
    base + l * size
}

// Link number p of those that stand in a row from `at` on.
pub fn name_at(mem: &[u8], at: usize, p: usize) -> usize
    requires { (at + 2 * p + 2 ≤ length mem.now) × (at < 65536) × (p < 64) }
    ensures { (result ≡ name_at mem.now at p) × (result < 65536) }
{
    number_at(mem, at + 2 * p)
}

// The link of port k of operator i: 0 to 2 an input, 3 to 5 an output.
pub fn port_of(mem: &[u8], i: usize, k: usize) -> usize
    requires { (registers_at ≤ length mem.now) × (i < most_operators) × (k < 6) }
    ensures { (result ≡ port_of mem.now i k) × (result < 65536) }
{
    name_at(mem, operator_at(i) + PORTS_AT, k)
}

// The header's figures. The capacity as it is stored, in range or not:
pub fn capacity_stored(mem: &[u8]) -> usize
    requires { records_at ≤ length mem.now }
    ensures { (result ≡ capacity_byte mem.now) × (result < 256) }
{
    usize::from(mem[CAPACITY_AT])
}

pub fn operators(mem: &[u8]) -> usize
    requires { records_at ≤ length mem.now }
    ensures { (result ≡ operators_of mem.now) × (result < 65536) }
{
    number_at(mem, OPERATOR_COUNT_AT)
}

pub fn links(mem: &[u8]) -> usize
    requires { records_at ≤ length mem.now }
    ensures { (result ≡ links_of mem.now) × (result < 65536) }
{
    number_at(mem, LINK_COUNT_AT)
}

pub fn inputs(mem: &[u8]) -> usize
    requires { records_at ≤ length mem.now }
    ensures { (result ≡ inputs_of mem.now) × (result < 256) }
{
    usize::from(mem[INPUT_COUNT_AT])
}

pub fn results(mem: &[u8]) -> usize
    requires { records_at ≤ length mem.now }
    ensures { (result ≡ results_of mem.now) × (result < 256) }
{
    usize::from(mem[RESULT_COUNT_AT])
}

pub fn untaken(mem: &[u8]) -> usize
    requires { records_at ≤ length mem.now }
    ensures { (result ≡ untaken_of mem.now) × (result < 256) }
{
    usize::from(mem[UNTAKEN_AT])
}

pub fn trigger(mem: &[u8]) -> usize
    requires { records_at ≤ length mem.now }
    ensures { (result ≡ trigger_of mem.now) × (result < 65536) }
{
    number_at(mem, TRIGGER_AT)
}

pub fn input_link(mem: &[u8], j: usize) -> usize
    requires { (records_at ≤ length mem.now) × (j < most_inputs) }
    ensures { (result ≡ input_link mem.now j) × (result < 65536) }
{
    name_at(mem, INPUT_LINKS_AT, j)
}

pub fn result_link(mem: &[u8], j: usize) -> usize
    requires { (records_at ≤ length mem.now) × (j < most_results) }
    ensures { (result ≡ result_link mem.now j) × (result < 65536) }
{
    name_at(mem, RESULT_LINKS_AT, j)
}

// The stored capacity, 1 where it is outside 1..16 or not there at all.
pub fn capacity(mem: &[u8]) -> usize
    ensures { (result ≡ capacity_of mem.now) × (1 ≤ result) × (result ≤ most_capacity) }
{
    if mem.len() == 0 {
        return 1;
    }
    let c = usize::from(mem[CAPACITY_AT]);
    // Two tests, no range's `contains`: it is no plainer, since the proof has to open the built range.
    if c < 1 {
        return 1;
    }
    if CAPACITY < c {
        return 1;
    }
    c
}

// The length of a stretch: a count and the places of a link.
pub fn stretch_size(capacity: usize) -> usize
    requires { capacity ≤ most_capacity }
    ensures { result ≡ size_of capacity }
{
    TOKEN_BYTES * capacity + 1
}

// The bytes that a machine needs at a capacity (refusal 11).
pub fn machine_need(capacity: usize) -> usize
    requires { capacity ≤ most_capacity }
    ensures { result ≡ need (size_of capacity) }
{
    LINKS_AT + LINKS * stretch_size(capacity)
}

// Writes a record: kind and links, the free bytes 0.
fn store_links(mem: &mut [u8], at: usize, o: Operator)
    requires { (at + 16 ≤ length mem.old) × (at < 65536) }
    ensures { mem.new ≡ recorded mem.old at o }
{
    store_number(mem, at, o.kind as u16);
    store_number(mem, at + 2, o.in1);
    store_number(mem, at + 4, o.in2);
    store_number(mem, at + 6, o.in3);
    store_number(mem, at + 8, o.out1);
    store_number(mem, at + 10, o.out2);
    store_number(mem, at + 12, o.out3);
    store_number(mem, at + 14, 0);
}

// Writes operator i: its record and its register.
pub fn store_operator(mem: &mut [u8], i: usize, o: Operator)
    requires { (i < most_operators) × (links_at ≤ length mem.old) }
    ensures { mem.new ≡ placed mem.old i o }
{
    let at = operator_at(i);
    store_links(mem, at, o);
    let register = register_at(i);
    value::bytes::store(mem, register, o.register);
}

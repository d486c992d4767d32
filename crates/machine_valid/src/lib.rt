#![tactic(auto)]
// Refusal 31 (document 01, "Said by how the machine stands"): whether every stored figure, kind and
// token is in its range and no link is named twice by one operator, the inputs or the results. The
// definition is specs/Valid; only the part that the graph uses is looked at. Assumes that the memory
// is as long as its stored capacity needs.
ghost use Rattle.std.specs.Prelude.{◌≡◌, ℕ, ◌+◌, ◌*◌, ◌≤◌, ◌<◌, [], ◌∷◌, length};
ghost use Rattle.machine_layout.specs.Layout.{most_operators, most_links, most_inputs, most_results, records_at, links_at, result_links_at, least_size, most_size, need, need_from, size_of, capacity_of, links_of, no_link, name_at};
ghost use Rattle.machine_valid.specs.Below.{all_below};
ghost use Rattle.machine_valid.specs.Valid.{unlike, fresh_at, result_ok, input_ok, letter_ok, register_ok, operator_ok, stretch_ok, link_ok_from, counts_ok, figures_ok, valid};
ghost use Rattle.machine_valid.specs.Ports.{apart, nones, shaped, well_ported};

use machine_firing::NOWHERE;
use machine_layout::{
    FIRST_INPUT, FIRST_OUTPUT, SECOND_INPUT, SECOND_OUTPUT, Stretches, THIRD_INPUT, THIRD_OUTPUT,
    TOKEN_BYTES, name_at,
};

// The four bytes of two names that are none.
const TWO_NONES: usize = 4294967295;

#[tactic(auto, unfolding(crate::specs::Valid::unlike))]
fn is_unlike(x: usize, y: usize) -> bool
    ensures { result ≡ unlike x y }
{
    x != y || x == NOWHERE
}

// Whether name p of a row is like none before it.
fn is_fresh(mem: &[u8], at: usize, p: usize) -> bool
    requires { (at + 2 * p + 2 ≤ length mem.now) × (at < 65000) × (p < 64) }
    ensures { result ≡ fresh_at mem.now at p }
{
    let x = name_at(mem, at, p);
    (0..p).all(|q| is_unlike(x, name_at(mem, at, q)))
}

#[tactic(auto, unfolding(crate::specs::Valid::result_ok))]
fn result_ok(mem: &[u8], p: usize) -> bool
    requires { (records_at ≤ length mem.now) × (p < most_results) }
    ensures { result ≡ result_ok mem.now result_links_at p }
{
    machine_layout::result_link(mem, p) < machine_layout::links(mem)
        && is_fresh(mem, machine_layout::RESULT_LINKS_AT, p)
}

pub fn results_ok(mem: &[u8], k: usize) -> bool
    requires { (records_at ≤ length mem.now) × (k ≤ most_results) }
    ensures { result ≡ all_below k (result_ok mem.now result_links_at) }
{
    (0..k).all(|p| result_ok(mem, p))
}

// Name 0 is the trigger's, which may be none.
#[tactic(auto, unfolding(crate::specs::Valid::input_ok))]
fn input_ok(mem: &[u8], p: usize) -> bool
    requires { (records_at ≤ length mem.now) × (p ≤ most_inputs) }
    ensures { result ≡ input_ok mem.now p }
{
    (p == 0 || name_at(mem, machine_layout::TRIGGER_AT, p) < machine_layout::links(mem))
        && is_fresh(mem, machine_layout::TRIGGER_AT, p)
}

pub fn inputs_ok(mem: &[u8], k: usize) -> bool
    requires { (records_at ≤ length mem.now) × (k ≤ most_inputs + 1) }
    ensures { result ≡ all_below k (input_ok mem.now) }
{
    (0..k).all(|p| input_ok(mem, p))
}

// Whether the stored kind of input j is the letter of one.
#[tactic(auto, unfolding(crate::specs::Valid::letter_ok))]
fn letter_ok(mem: &[u8], j: usize) -> bool
    requires { (records_at ≤ length mem.now) × (j < most_inputs) }
    ensures { result ≡ letter_ok mem.now j }
{
    value::bytes::is_letter(mem[machine_layout::INPUT_KINDS_AT + j])
}

pub fn letters_ok(mem: &[u8], k: usize) -> bool
    requires { (records_at ≤ length mem.now) × (k ≤ most_inputs) }
    ensures { result ≡ all_below k (letter_ok mem.now) }
{
    (0..k).all(|j| letter_ok(mem, j))
}

// Whether names p and p + 1 of a row are none, as one figure of four bytes.
fn both_none(mem: &[u8], at: usize, p: usize) -> bool
    requires { (at + 2 * p + 4 ≤ length mem.now) × (at < 65000) × (p < 6) }
    ensures { result ≡ nones (name_at mem.now at (p + 1) ∷ name_at mem.now at p ∷ []) }
{
    let low = name_at(mem, at, p);
    let high = name_at(mem, at, p + 1);
    low + 65536 * high == TWO_NONES
}

// Whether names are those of links, no two the same. How many is a parameter, so that no loop is left when it is compiled.
fn are_apart<const N: usize>(links: usize, names: &[usize; N]) -> bool
    ensures { result ≡ apart links names.now }
{
    let names = &names[..];
    for (i, x) in names.iter().enumerate() {
        if links <= *x || names[i + 1..].iter().any(|y| x == y) {
            return false;
        }
    }
    true
}

// A function for each shape of ports: one over lists of ports with and without a link was tried, and is slower by a quarter or more.
#[tactic(auto, unfolding(crate::specs::Ports::nones))]
fn two_to_one(mem: &[u8], links: usize, at: usize) -> bool
    requires { (at + 12 ≤ length mem.now) × (at < 65000) }
    ensures { result ≡ shaped links (name_at mem.now at 3 ∷ name_at mem.now at 1 ∷ name_at mem.now at 0 ∷ []) (name_at mem.now at 5 ∷ name_at mem.now at 4 ∷ name_at mem.now at 2 ∷ []) }
{
    both_none(mem, at, SECOND_OUTPUT)
        && name_at(mem, at, THIRD_INPUT) == NOWHERE
        && are_apart(
            links,
            &[
                name_at(mem, at, FIRST_OUTPUT),
                name_at(mem, at, SECOND_INPUT),
                name_at(mem, at, FIRST_INPUT),
            ],
        )
}

#[tactic(auto, unfolding(crate::specs::Ports::nones))]
fn one_to_one(mem: &[u8], links: usize, at: usize) -> bool
    requires { (at + 12 ≤ length mem.now) × (at < 65000) }
    ensures { result ≡ shaped links (name_at mem.now at 3 ∷ name_at mem.now at 0 ∷ []) (name_at mem.now at 5 ∷ name_at mem.now at 4 ∷ name_at mem.now at 2 ∷ name_at mem.now at 1 ∷ []) }
{
    both_none(mem, at, SECOND_OUTPUT)
        && both_none(mem, at, SECOND_INPUT)
        && are_apart(
            links,
            &[
                name_at(mem, at, FIRST_OUTPUT),
                name_at(mem, at, FIRST_INPUT),
            ],
        )
}

#[tactic(auto, unfolding(crate::specs::Ports::nones))]
fn one_to_two(mem: &[u8], links: usize, at: usize) -> bool
    requires { (at + 12 ≤ length mem.now) × (at < 65000) }
    ensures { result ≡ shaped links (name_at mem.now at 4 ∷ name_at mem.now at 3 ∷ name_at mem.now at 0 ∷ []) (name_at mem.now at 5 ∷ name_at mem.now at 2 ∷ name_at mem.now at 1 ∷ []) }
{
    name_at(mem, at, THIRD_OUTPUT) == NOWHERE
        && both_none(mem, at, SECOND_INPUT)
        && are_apart(
            links,
            &[
                name_at(mem, at, SECOND_OUTPUT),
                name_at(mem, at, FIRST_OUTPUT),
                name_at(mem, at, FIRST_INPUT),
            ],
        )
}

#[tactic(auto, unfolding(crate::specs::Ports::nones))]
fn three_to_one(mem: &[u8], links: usize, at: usize) -> bool
    requires { (at + 12 ≤ length mem.now) × (at < 65000) }
    ensures { result ≡ shaped links (name_at mem.now at 3 ∷ name_at mem.now at 2 ∷ name_at mem.now at 1 ∷ name_at mem.now at 0 ∷ []) (name_at mem.now at 5 ∷ name_at mem.now at 4 ∷ []) }
{
    both_none(mem, at, SECOND_OUTPUT)
        && are_apart(
            links,
            &[
                name_at(mem, at, FIRST_OUTPUT),
                name_at(mem, at, THIRD_INPUT),
                name_at(mem, at, SECOND_INPUT),
                name_at(mem, at, FIRST_INPUT),
            ],
        )
}

// IC. "An output with no user": the second.
fn three_to_three(mem: &[u8], links: usize, at: usize) -> bool
    requires { (at + 12 ≤ length mem.now) × (at < 65000) }
    ensures { result ≡ well_ported 18 links (name_at mem.now at) }
{
    let in1 = name_at(mem, at, FIRST_INPUT);
    let in2 = name_at(mem, at, SECOND_INPUT);
    let in3 = name_at(mem, at, THIRD_INPUT);
    let out1 = name_at(mem, at, FIRST_OUTPUT);
    let out2 = name_at(mem, at, SECOND_OUTPUT);
    let out3 = name_at(mem, at, THIRD_OUTPUT);
    if out2 == NOWHERE {
        are_apart(links, &[out3, out1, in3, in2, in1])
    } else {
        are_apart(links, &[out3, out2, out1, in3, in2, in1])
    }
}

// Whether a kind's ports name links, no two the same, and the others none; there are no kinds but these.
fn ports_ok(kind: u8, mem: &[u8], links: usize, at: usize) -> bool
    requires { (at + 12 ≤ length mem.now) × (at < 65000) }
    ensures { result ≡ well_ported kind links (name_at mem.now at) }
{
    match kind {
        1..=9 | machine_layout::T | machine_layout::F | machine_layout::E | machine_layout::FS =>
            two_to_one(mem, links, at),
        10..=machine_layout::CONSTANT => one_to_one(mem, links, at),
        machine_layout::COPY => one_to_two(mem, links, at),
        machine_layout::M | machine_layout::FM => three_to_one(mem, links, at),
        machine_layout::IC => three_to_three(mem, links, at),
        _ => false,
    }
}

#[tactic(auto, unfolding(crate::specs::Valid::register_ok))]
fn register_ok(kind: u8, word: u64) -> bool
    ensures { result ≡ register_ok kind word }
{
    if kind == machine_layout::CONSTANT {
        value::bytes::in_constant_range(word)
    } else {
        word == 0 || (machine_layout::FM <= kind && value::bytes::is_value(word))
    }
}

fn operator_ok(mem: &[u8], links: usize, i: usize) -> bool
    requires { (links_at ≤ length mem.now) × (i < most_operators) × (links ≡ links_of mem.now) × (links ≤ no_link) }
    ensures { result ≡ operator_ok mem.now i }
{
    let at = machine_layout::operator_at(i);
    let kind = mem[at];
    ports_ok(kind, mem, links, at + machine_layout::PORTS_AT)
        && register_ok(
            kind,
            value::bytes::load(mem, machine_layout::register_at(i)),
        )
}

pub fn operators_ok(mem: &[u8], n: usize) -> bool
    requires { (links_at ≤ length mem.now) × (n ≤ most_operators) }
    ensures { result ≡ all_below n (operator_ok mem.now) }
{
    let links = machine_layout::links(mem);
    (0..n).all(|i| operator_ok(mem, links, i))
}

// A function of its own when compiled: in the walk over links its loop took the registers that this needs for links without a token.
#[inline(never)]
fn tokens_ok(q: &[u8]) -> bool
    requires { (least_size ≤ length q.now) × (length q.now ≤ most_size) }
    ensures { result ≡ stretch_ok q.now }
{
    let end = TOKEN_BYTES * machine_queue::waiting(q) + 1;
    if q.len() < end {
        return false;
    }
    let mut tokens = q[1..end].chunks_exact(TOKEN_BYTES);
    tokens.all(|token| value::bytes::is_value(value::bytes::load(token, 0)))
}

// Most links have no token, and then nothing else is looked at.
fn stretch_ok(q: &[u8]) -> bool
    requires { (least_size ≤ length q.now) × (length q.now ≤ most_size) }
    ensures { result ≡ stretch_ok q.now }
{
    machine_queue::waiting(q) == 0 || tokens_ok(q)
}

fn link_ok(mem: &[u8], links: Stretches, l: usize) -> bool
    requires { (need_from links.base links.size ≤ length mem.now) × (l < most_links) }
    ensures { result ≡ link_ok_from mem.now links.base links.size l }
{
    let a = machine_layout::link_from(links.base, links.size, l);
    let e = a + links.size;
    stretch_ok(&mem[a..e])
}

// Never inlined: in the walk over the planes of a machine with tags the counter stood in memory, and the test took twice as long.
#[inline(never)]
pub fn links_ok(mem: &[u8], links: Stretches, k: usize) -> bool
    requires { (need_from links.base links.size ≤ length mem.now) × (k ≤ most_links) }
    ensures { result ≡ all_below k (link_ok_from mem.now links.base links.size) }
{
    (0..k).all(|l| link_ok(mem, links, l))
}

// The header's figures but for the capacity and the sets untaken.
#[tactic(auto, unfolding(crate::specs::Valid::counts_ok))]
pub fn counts_ok(mem: &[u8]) -> bool
    requires { records_at ≤ length mem.now }
    ensures { result ≡ counts_ok mem.now }
{
    let links = machine_layout::links(mem);
    let trigger = machine_layout::trigger(mem);
    machine_layout::operators(mem) <= machine_layout::OPERATORS
        && links <= machine_layout::LINKS
        && machine_layout::inputs(mem) <= machine_layout::INPUTS
        && (1..=machine_layout::RESULTS).contains(&machine_layout::results(mem))
        && (trigger < links || trigger == NOWHERE)
}

#[tactic(auto, unfolding(crate::specs::Valid::figures_ok))]
fn figures_ok(mem: &[u8]) -> bool
    requires { records_at ≤ length mem.now }
    ensures { result ≡ figures_ok mem.now }
{
    (1..=machine_layout::CAPACITY).contains(&machine_layout::capacity_stored(mem))
        && machine_layout::untaken(mem) <= machine_layout::UNTAKEN
        && counts_ok(mem)
}

// The parts are public, links over where they lie, for a machine that has the same graph in its memory.
#[tactic(auto, using(crate::specs::Figures::size_is), unfolding(crate::specs::Valid::valid))]
pub fn is_valid(mem: &[u8]) -> bool
    requires { need (size_of (capacity_of mem.now)) ≤ length mem.now }
    ensures { result ≡ valid mem.now }
{
    let places = Stretches::of(mem);
    let inputs = machine_layout::inputs(mem);
    figures_ok(mem)
        && operators_ok(mem, machine_layout::operators(mem))
        && links_ok(mem, places, machine_layout::links(mem))
        && inputs_ok(mem, inputs + 1)
        && letters_ok(mem, inputs)
        && results_ok(mem, machine_layout::results(mem))
}

#![tactic(auto)]
// Push, fire, run and take over byte memory (document 01, "Running" and the refusals), the firmware's
// calls of these names. The definitions are specs/Calls; each contract is an equation on the answer
// and on every lent byte, and asks nothing of the caller. Values lie in five bytes each (value's
// specs/Bytes). What a push and a take do to links takes the place where these lie.
ghost use Rattle.std.specs.Prelude.{MatchResult, ◌≡◌, ℕ, ◌+◌, ◌*◌, ◌≤◌, ◌<◌, length};
ghost use Rattle.machine_layout.specs.Layout.{most_inputs, most_results, records_at, links_at, need, need_from, inputs_of, stored_kinds};
ghost use Rattle.formula.specs.Refusals.{number_of};
ghost use Rattle.value_sets.specs.Sets.{set_ok};
ghost use Rattle.machine_valid.specs.Below.{all_below};
ghost use Rattle.machine_calls.specs.Calls.{outcome, handed, answers, refusal, standing, rooms_ok, entered_from, result_ready_from, result_word_from, result_bytes, written_from, emptied_from, pushed, fired, ran, taken};

use formula::Refusal;
use machine_layout::{RESULTS, Stretches, TOKEN_BYTES};

// A call's answer: document 01's number of a refusal, 0 where accepted; the firings of a run, the
// width of a taken result set or the sets of a tray that went in (machine_tray), else 0.
#[repr(C)]
#[derive(Clone, Copy)]
pub struct Answer {
    pub refusal: u32,
    pub count: u32,
}

// The bytes of a result set.
pub const RESULT_BYTES: usize = TOKEN_BYTES * RESULTS;

pub fn reply(refusal: u32, count: u32) -> Answer
    ensures { result ≡ answers refusal count }
{
    Answer { refusal, count }
}

pub fn refused(r: Refusal) -> Answer
    ensures { result ≡ refusal r }
{
    reply(u32::from(r), 0)
}

// Whether the memory stands well, else refusal 11 or 31.
pub fn standing(mem: &[u8]) -> Result<(), Refusal>
    ensures { MatchResult result (λ _. standing mem.now ≡ 0) (λ r. (number_of r ≡ standing mem.now) × (0 < number_of r)) }
{
    let capacity = machine_layout::capacity(mem);
    if mem.len() < machine_layout::machine_need(capacity) {
        return Err(Refusal::Memory);
    }
    if !machine_valid::is_valid(mem) {
        return Err(Refusal::Altered);
    }
    Ok(())
}

// Whether a set has a value of its stored kind, or an err, for each input.
pub fn is_set(mem: &[u8], set: &[u8]) -> bool
    requires { (records_at ≤ length mem.now) × (inputs_of mem.now ≤ most_inputs) }
    ensures { result ≡ set_ok (stored_kinds mem.now) set.now }
{
    let at = machine_layout::INPUT_KINDS_AT;
    let end = at + machine_layout::inputs(mem);
    value_sets::is_set(set, &mem[at..end])
}

// Whether the trigger's link and the k input links have room.
fn have_room(mem: &[u8], links: Stretches, k: usize) -> bool
    requires { (links.base ≡ links_at) × (need links.size ≤ length mem.now) × (k ≤ most_inputs) }
    ensures { result ≡ rooms_ok mem.now links.size k }
{
    if !machine_firing::room_of(mem, links, machine_layout::trigger(mem)) {
        return false;
    }
    for j in 0..k {
        if !machine_firing::room_of(mem, links, machine_layout::input_link(mem, j)) {
            return false;
        }
    }
    true
}

// Gives the k values of a set to the input links.
pub fn enter(mem: &mut [u8], links: Stretches, k: usize, set: &[u8])
    requires { (links_at ≤ links.base) × (need_from links.base links.size ≤ length mem.old) × (k ≤ most_inputs) × (5 * k ≤ length set.now) }
    ensures { mem.new ≡ entered_from k mem.old links.base links.size set.now }
{
    for j in 0..k {
        let l = machine_layout::input_link(mem, j);
        let word = value::bytes::load(set, TOKEN_BYTES * j);
        machine_firing::append_to(mem, links, l, word);
    }
}

// Pushes one set.
pub fn push(mem: &mut [u8], set: &[u8]) -> Answer
    ensures { outcome result mem.new ≡ pushed mem.old set.now }
{
    if let Err(r) = standing(mem) {
        return refused(r);
    }
    if !is_set(mem, set) {
        return refused(Refusal::Set);
    }
    let untaken = machine_layout::untaken(mem);
    if machine_layout::UNTAKEN <= untaken {
        return refused(Refusal::Untaken);
    }
    let inputs = machine_layout::inputs(mem);
    let links = Stretches::of(mem);
    if !have_room(mem, links, inputs) {
        return refused(Refusal::Full);
    }
    let trigger = machine_layout::trigger(mem);
    enter(mem, links, inputs, set);
    let token = value::bytes::to_word(value::Value::Truth(true));
    machine_firing::append_to(mem, links, trigger, token);
    mem[machine_layout::UNTAKEN_AT] = (untaken + 1) as u8;
    reply(0, 0)
}

// Fires one operator, by its number from 0 on.
pub fn fire(mem: &mut [u8], operator: u32) -> Answer
    ensures { outcome result mem.new ≡ fired mem.old operator }
{
    if let Err(r) = standing(mem) {
        return refused(r);
    }
    let i = operator as usize;
    if machine_layout::operators(mem) <= i {
        return refused(Refusal::NotAble);
    }
    let links = Stretches::of(mem);
    if machine_operators::fire_at(mem, links, i) {
        return reply(0, 0);
    }
    refused(Refusal::NotAble)
}

// Runs for at most the lent firings. Fewer were made only where nothing could fire, which needs no
// look at the operators.
pub fn run(mem: &mut [u8], firings: u32) -> Answer
    ensures { outcome result mem.new ≡ ran mem.old firings }
{
    if let Err(r) = standing(mem) {
        return refused(r);
    }
    let n = machine_layout::operators(mem);
    let links = Stretches::of(mem);
    let count = machine_runs::run(mem, links, n, firings);
    if count < firings {
        return reply(0, count);
    }
    if machine_runs::idle(mem, links, n) {
        return reply(0, count);
    }
    reply(u32::from(Refusal::Unfinished), count)
}

// Whether a token waits on each of the k result links.
pub fn are_ready(mem: &[u8], links: Stretches, k: usize) -> bool
    requires { (links_at ≤ links.base) × (need_from links.base links.size ≤ length mem.now) × (k ≤ most_results) }
    ensures { result ≡ all_below k (result_ready_from mem.now links.base links.size) }
{
    for j in 0..k {
        if machine_firing::head_of(mem, links, machine_layout::result_link(mem, j)) == 0 {
            return false;
        }
    }
    true
}

// Value j of the result set: err past the width.
fn result_word(mem: &[u8], links: Stretches, k: usize, j: usize) -> u64
    requires { (links_at ≤ links.base) × (need_from links.base links.size ≤ length mem.now) × (k ≤ most_results) }
    ensures { result ≡ result_word_from mem.now links.base links.size k j }
{
    if j < k {
        return machine_firing::head_of(mem, links, machine_layout::result_link(mem, j));
    }
    value::bytes::ERR
}

pub fn write_results(mem: &[u8], links: Stretches, k: usize, out: &mut [u8])
    requires { (links_at ≤ links.base) × (need_from links.base links.size ≤ length mem.now) × (k ≤ most_results) × (result_bytes ≤ length out.old) }
    ensures { out.new ≡ written_from most_results mem.now links.base links.size k out.old }
{
    for j in 0..RESULTS {
        let word = result_word(mem, links, k, j);
        value::bytes::store(out, TOKEN_BYTES * j, word);
    }
}

pub fn empty_results(mem: &mut [u8], links: Stretches, k: usize)
    requires { (links_at ≤ links.base) × (need_from links.base links.size ≤ length mem.old) × (k ≤ most_results) }
    ensures { mem.new ≡ emptied_from k mem.old links.base links.size }
{
    for j in 0..k {
        let l = machine_layout::result_link(mem, j);
        machine_firing::remove_from(mem, links, l);
    }
}

// Takes one result set: sixteen values of five bytes each into `out`.
pub fn take(mem: &mut [u8], out: &mut [u8]) -> Answer
    ensures { handed result mem.new out.new ≡ taken mem.old out.old }
{
    if out.len() < RESULT_BYTES {
        return refused(Refusal::Memory);
    }
    if let Err(r) = standing(mem) {
        return refused(r);
    }
    let untaken = machine_layout::untaken(mem);
    if untaken < 1 {
        return refused(Refusal::NoResult);
    }
    let results = machine_layout::results(mem);
    let links = Stretches::of(mem);
    if !are_ready(mem, links, results) {
        return refused(Refusal::NoResult);
    }
    write_results(mem, links, results, out);
    empty_results(mem, links, results);
    mem[machine_layout::UNTAKEN_AT] = (untaken - 1) as u8;
    reply(0, results as u32)
}

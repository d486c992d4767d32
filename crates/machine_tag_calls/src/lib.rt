#![tactic(auto)]
// Push, fire, run and take of the machine with tags (document 02, Job 12) over byte memory. The
// definitions are machine_tags' specs/TagCalls; each contract is an equation on the answer and on
// every lent byte, and asks nothing of the caller. The links of a tag begin at its plane and have one
// place each, so that what goes onto them and off them is done by the first machine's functions.
ghost use Rattle.std.specs.Prelude.{MatchOption, MatchResult, ◌≡◌, ℕ, ◌≤◌, ◌<◌, length};
ghost use Rattle.formula.specs.Refusals.{number_of};
ghost use Rattle.machine_layout.specs.Layout.{most_links, links_of};
ghost use Rattle.machine_valid.specs.Below.{all_below};
ghost use Rattle.machine_calls.specs.Calls.{outcome, handed};
ghost use Rattle.machine_planes.specs.Planes.{most_tags, tagged_need};
ghost use Rattle.machine_tags.specs.TagCalls.{tag_standing, empty_link, free_tag, lowest_free, tag_pushed, tag_fired, tag_ran, tag_taken};

use formula::Refusal;
use machine_calls::{Answer, refused, reply};
use machine_tag_valid::{SLOT_BYTES, TAGS, TAGS_AT};

// Whether the memory stands well, else refusal 11 or 31.
fn standing(mem: &[u8]) -> Result<(), Refusal>
    ensures { MatchResult result (λ _. tag_standing mem.now ≡ 0) (λ r. (number_of r ≡ tag_standing mem.now) × (0 < number_of r)) }
{
    if mem.len() < machine_tag_valid::TAGGED_NEED {
        return Err(Refusal::Memory);
    }
    if !machine_tag_valid::is_valid(mem) {
        return Err(Refusal::Altered);
    }
    Ok(())
}

// Whether no token of tag t is left on the first k links. The first byte of a link is the count of
// its tokens.
fn are_empty(mem: &[u8], t: usize, k: usize) -> bool
    requires { (tagged_need ≤ length mem.now) × (t < most_tags) × (k ≤ most_links) }
    ensures { result ≡ all_below k (empty_link mem.now t) }
{
    let base = machine_tag_valid::plane_at(t);
    for l in 0..k {
        if mem[machine_layout::link_from(base, SLOT_BYTES, l)] != 0 {
            return false;
        }
    }
    true
}

// Whether tag t has no set untaken and no token left.
fn is_free(mem: &[u8], t: usize) -> bool
    requires { (tagged_need ≤ length mem.now) × (t < most_tags) × (links_of mem.now ≤ most_links) }
    ensures { result ≡ free_tag mem.now t }
{
    if machine_tag_valid::untaken_under(mem, t) != 0 {
        return false;
    }
    are_empty(mem, t, machine_layout::links(mem))
}

// The lowest free tag.
fn lowest_free(mem: &[u8]) -> Option<usize>
    requires { (tagged_need ≤ length mem.now) × (links_of mem.now ≤ most_links) }
    ensures { MatchOption result (lowest_free mem.now ≡ most_tags) (λ t. (t ≡ lowest_free mem.now) × (t < most_tags)) }
{
    for t in 0..TAGS {
        if is_free(mem, t) {
            return Some(t);
        }
    }
    None
}

// Pushes one set under the lowest free tag, which is the answer's count.
pub fn push(mem: &mut [u8], set: &[u8]) -> Answer
    ensures { outcome result mem.new ≡ tag_pushed mem.old set.now }
{
    if let Err(r) = standing(mem) {
        return refused(r);
    }
    if !machine_calls::is_set(mem, set) {
        return refused(Refusal::Set);
    }
    let Some(t) = lowest_free(mem) else {
        return refused(Refusal::NoTag);
    };
    let links = machine_tag_valid::plane(t);
    let trigger = machine_layout::trigger(mem);
    machine_calls::enter(mem, links, machine_layout::inputs(mem), set);
    let token = value::bytes::to_word(value::Value::Truth(true));
    machine_firing::append_to(mem, links, trigger, token);
    mem[TAGS_AT + t] = 1;
    reply(0, t as u32)
}

// Fires one operator under a tag, both by their numbers from 0 on.
pub fn fire(mem: &mut [u8], operator: u32, tag: u32) -> Answer
    ensures { outcome result mem.new ≡ tag_fired mem.old operator tag }
{
    if let Err(r) = standing(mem) {
        return refused(r);
    }
    let i = operator as usize;
    if machine_layout::operators(mem) <= i {
        return refused(Refusal::NotAble);
    }
    let t = tag as usize;
    if TAGS <= t {
        return refused(Refusal::NotAble);
    }
    let links = machine_tag_valid::plane(t);
    if machine_operators::fire_at(mem, links, i) {
        return reply(0, 0);
    }
    refused(Refusal::NotAble)
}

// Runs for at most the lent firings. Fewer were made only where nothing could fire, which needs no
// look at the operators.
pub fn run(mem: &mut [u8], firings: u32) -> Answer
    ensures { outcome result mem.new ≡ tag_ran mem.old firings }
{
    if let Err(r) = standing(mem) {
        return refused(r);
    }
    let n = machine_layout::operators(mem);
    let count = machine_tag_runs::run(mem, n, firings);
    if count < firings {
        return reply(0, count);
    }
    if machine_tag_runs::idle(mem, n) {
        return reply(0, count);
    }
    reply(u32::from(Refusal::Unfinished), count)
}

// Takes the result set of a tag: sixteen values of five bytes each into `out`.
pub fn take(mem: &mut [u8], tag: u32, out: &mut [u8]) -> Answer
    ensures { handed result mem.new out.new ≡ tag_taken mem.old tag out.old }
{
    if out.len() < machine_calls::RESULT_BYTES {
        return refused(Refusal::Memory);
    }
    if let Err(r) = standing(mem) {
        return refused(r);
    }
    let t = tag as usize;
    if TAGS <= t {
        return refused(Refusal::NoTagResult);
    }
    if machine_tag_valid::untaken_under(mem, t) != 1 {
        return refused(Refusal::NoTagResult);
    }
    let results = machine_layout::results(mem);
    let links = machine_tag_valid::plane(t);
    if !machine_calls::are_ready(mem, links, results) {
        return refused(Refusal::NoTagResult);
    }
    machine_calls::write_results(mem, links, results, out);
    machine_calls::empty_results(mem, links, results);
    mem[TAGS_AT + t] = 0;
    reply(0, results as u32)
}

#![tactic(auto)]
// Refusal 31 of the machine with tags (document 02, Job 12): whether every stored figure, kind and
// token is in its range. The definition is machine_tags' specs/TagValid. What both machines have in
// their memory is looked at by the parts of machine_valid. Also where the planes and the tags' bytes
// lie. Assumes that the memory is as long as this machine needs.
ghost use Rattle.std.specs.Prelude.{◌≡◌, ◌&&◌, ℕ, ◌+◌, ◌≤◌, ◌<◌, length};
ghost use Rattle.machine_layout.specs.Layout.{most_operators, most_links, most_inputs, most_results, records_at, links_at, least_size, result_links_at, inputs_of, results_of, links_of};
ghost use Rattle.machine_valid.specs.Below.{all_below};
ghost use Rattle.machine_valid.specs.Valid.{input_ok, letter_ok, result_ok};
ghost use Rattle.machine_planes.specs.Planes.{most_tags, plane_at, untaken_under, tagged_need};
ghost use Rattle.machine_tags.specs.TagValid.{tag_figures_ok, plain_kind, untaken_under_ok, plane_ok, tag_valid};

pub use machine_layout::SLOT_BYTES;
use machine_layout::{LINKS, LINKS_AT, Stretches};

pub const TAGS: usize = 16;

// What stands in the place of the first machine's capacity.
pub const TAG_MARK: usize = 17;

// The bytes of a plane, where the tags' bytes begin, and the bytes of the whole memory.
pub const PLANE_BYTES: usize = LINKS * SLOT_BYTES;

pub const TAGS_AT: usize = LINKS_AT + TAGS * PLANE_BYTES;

pub const TAGGED_NEED: usize = TAGS_AT + TAGS;

// Where the links of tag t begin.
pub fn plane_at(t: usize) -> usize
    requires { t < most_tags }
    ensures { result ≡ plane_at t }
{
    LINKS_AT + t * PLANE_BYTES
}

// The links of tag t, each with one place.
pub fn plane(t: usize) -> Stretches
    requires { t < most_tags }
    ensures { (result.base ≡ plane_at t) × (result.size ≡ least_size) }
{
    Stretches {
        base: plane_at(t),
        size: SLOT_BYTES,
    }
}

// 1 where a set is pushed under tag t and its result not taken.
pub fn untaken_under(mem: &[u8], t: usize) -> u8
    requires { (tagged_need ≤ length mem.now) × (t < most_tags) }
    ensures { result ≡ untaken_under mem.now t }
{
    mem[TAGS_AT + t]
}

fn figures_ok(mem: &[u8]) -> bool
    requires { records_at ≤ length mem.now }
    ensures { result ≡ tag_figures_ok mem.now }
{
    if machine_layout::capacity_stored(mem) != TAG_MARK {
        return false;
    }
    if machine_layout::untaken(mem) != 0 {
        return false;
    }
    machine_valid::counts_ok(mem)
}

// Whether none of n operators is of a loop's kind.
fn kinds_ok(mem: &[u8], n: usize) -> bool
    requires { (links_at ≤ length mem.now) × (n ≤ most_operators) }
    ensures { result ≡ all_below n (plain_kind mem.now) }
{
    for i in 0..n {
        if mem[machine_layout::operator_at(i)] > machine_layout::M {
            return false;
        }
    }
    true
}

fn tags_ok(mem: &[u8]) -> bool
    requires { tagged_need ≤ length mem.now }
    ensures { result ≡ all_below most_tags (untaken_under_ok mem.now) }
{
    for t in 0..TAGS {
        if untaken_under(mem, t) > 1 {
            return false;
        }
    }
    true
}

// Whether the k links of each plane hold a value or nothing.
fn planes_ok(mem: &[u8], k: usize) -> bool
    requires { (tagged_need ≤ length mem.now) × (k ≡ links_of mem.now) × (k ≤ most_links) }
    ensures { result ≡ all_below most_tags (plane_ok mem.now) }
{
    for t in 0..TAGS {
        if !machine_valid::links_ok(mem, plane(t), k) {
            return false;
        }
    }
    true
}

// The links of trigger, inputs and results, and the inputs' kinds.
fn names_ok(mem: &[u8]) -> bool
    requires { (records_at ≤ length mem.now) × (inputs_of mem.now ≤ most_inputs) × (results_of mem.now ≤ most_results) }
    ensures { result ≡ (all_below (inputs_of mem.now + 1) (input_ok mem.now) && (all_below (inputs_of mem.now) (letter_ok mem.now) && all_below (results_of mem.now) (result_ok mem.now result_links_at))) }
{
    let inputs = machine_layout::inputs(mem);
    if !machine_valid::inputs_ok(mem, inputs + 1) {
        return false;
    }
    if !machine_valid::letters_ok(mem, inputs) {
        return false;
    }
    machine_valid::results_ok(mem, machine_layout::results(mem))
}

pub fn is_valid(mem: &[u8]) -> bool
    requires { tagged_need ≤ length mem.now }
    ensures { result ≡ tag_valid mem.now }
{
    if !figures_ok(mem) {
        return false;
    }
    let operators = machine_layout::operators(mem);
    if !machine_valid::operators_ok(mem, operators) {
        return false;
    }
    if !kinds_ok(mem, operators) {
        return false;
    }
    if !tags_ok(mem) {
        return false;
    }
    if !planes_ok(mem, machine_layout::links(mem)) {
        return false;
    }
    names_ok(mem)
}

#![tactic(auto)]
// Starting a machine for a formula sheet in lent memory: the sheet read, its graph made, the header
// written and every link emptied (document 01, "Running": "Start takes a link capacity of 1 to 16";
// refusals 11, 14, then those of the sheet and its kinds line, document 02, Job 6). The definitions are
// specs/Start; the contracts are equations on the answer and on every lent byte, and `start`, which the
// firmware's entry point calls, asks nothing of its caller.
ghost use Rattle.std.specs.Prelude.{◌≡◌, ℕ, ◌+◌, ◌*◌, ◌≤◌, ◌<◌, length};
ghost use Rattle.formula.specs.Tests.{verdict_of};
ghost use Rattle.formula.specs.Tree.{formula_of};
ghost use Rattle.formula.specs.Faults.{letters_of};
ghost use Rattle.machine_layout.specs.Layout.{need, need_from, size_of, capacity_in};
ghost use Rattle.machine_start.specs.Start.{begun, refusal, figured, named, lettered, cleared_from, by_verdict, started};
ghost use Rattle.machine_start.specs.Completed.{Modest, completed};

use formula::{Refusal, Refused};
use machine_layout::{INPUT_KINDS_AT, LINKS_AT};
use maker::{Making, make};
use sheet_fields::layout::MOST_ROWS;
use sheet_fields::shape::MOST_FIELDS;
use sheet_read::read::fill_tables;

// The most places of a link.
pub const MOST_CAPACITY: u32 = machine_layout::CAPACITY as u32;

// Start's answer: document 01's number of a refusal, 0 where accepted; its row; the figures of the
// graph, 0 on a refusal.
#[repr(C)]
#[derive(Clone, Copy)]
pub struct StartAnswer {
    pub refusal: u32,
    pub row: u32,
    pub operators: u32,
    pub inputs: u32,
    pub results: u32,
}

pub fn refused(r: Refusal, row: u32) -> StartAnswer
    ensures { result ≡ refusal r row }
{
    StartAnswer {
        refusal: u32::from(r),
        row,
        operators: 0,
        inputs: 0,
        results: 0,
    }
}

// The capacity by which the need is reckoned: 1 where the one asked is outside 1..16.
#[tactic(auto, unfolding(machine_layout::specs::Layout::capacity_in))]
pub fn capacity_asked(capacity: u32) -> usize
    ensures { (result ≡ capacity_in capacity) × (1 ≤ result) × (result ≤ 16) }
{
    if (1..=MOST_CAPACITY).contains(&capacity) {
        capacity as usize
    } else {
        1
    }
}

// Writes the header's figures: no set is untaken.
fn store_figures(
    mem: &mut [u8],
    capacity: u8,
    operators: u16,
    links: u16,
    inputs: u8,
    results: u8,
    trigger: u16,
)
    requires { 10 ≤ length mem.old }
    ensures { mem.new ≡ figured mem.old capacity operators links inputs results trigger }
{
    mem[0] = capacity;
    machine_layout::store_number(mem, 1, operators);
    machine_layout::store_number(mem, 3, links);
    mem[5] = inputs;
    mem[6] = results;
    mem[7] = 0;
    machine_layout::store_number(mem, 8, trigger);
}

// Writes link numbers from a place of the header on.
fn store_names(mem: &mut [u8], at: usize, links: &[u16])
    requires { (length links.now ≤ 32) × (at < 256) × (at + 2 * length links.now ≤ length mem.old) }
    ensures { mem.new ≡ named (length links.now) mem.old at links.now }
{
    for (j, link) in links.iter().enumerate() {
        machine_layout::store_number(mem, at + 2 * j, *link);
    }
}

// Writes the letters of the inputs' kinds.
fn store_kinds(mem: &mut [u8], kinds: &[u8])
    requires { (length kinds.now ≤ 32) × (138 ≤ length mem.old) }
    ensures { mem.new ≡ lettered mem.old kinds.now }
{
    mem[INPUT_KINDS_AT..INPUT_KINDS_AT + kinds.len()].copy_from_slice(kinds);
}

// Empties the first k of the links from `base` on.
pub fn empty_links(mem: &mut [u8], base: usize, size: usize, k: usize)
    requires { (1 ≤ size) × (size ≤ 81) × (need_from base size ≤ length mem.old) × (k ≤ 3105) }
    ensures { mem.new ≡ cleared_from k base size mem.old }
{
    for l in 0..k {
        let at = machine_layout::link_from(base, size, l);
        mem[at] = 0;
    }
}

// Writes the header of what was made, with its inputs' kinds, and empties its links.
fn complete(mem: &mut [u8], capacity: usize, made: Making, kinds: &[u8])
    requires { (capacity ≤ 16) × (need (size_of capacity) ≤ length mem.old) × (Modest made) × (length kinds.now ≤ 32) }
    ensures { mem.new ≡ completed mem.old capacity made kinds.now }
{
    let links = made.links;
    let inputs = made.inputs;
    let results = made.results;
    let input_links = made.input_links;
    let result_links = made.result_links;
    store_figures(
        mem,
        capacity as u8,
        made.operators as u16,
        links,
        inputs as u8,
        results as u8,
        made.trigger,
    );
    store_names(mem, 10, &input_links[..inputs]);
    store_names(mem, 74, &result_links[..results]);
    store_kinds(mem, kinds);
    empty_links(mem, LINKS_AT, 5 * capacity + 1, links as usize);
}

// The tests of a sheet with its kinds line, and the machine of an accepted one.
fn build(sheet: &[u8], line: &[u8], capacity: usize, mem: &mut [u8]) -> StartAnswer
    requires { (capacity ≤ 16) × (need (size_of capacity) ≤ length mem.old) }
    ensures { begun result mem.new ≡ by_verdict (verdict_of sheet.now line.now) (formula_of sheet.now)
        (letters_of (formula_of sheet.now) line.now) capacity mem.old }
{
    let mut fields = [0u32; MOST_FIELDS];
    let mut returned = [0u8; MOST_ROWS];
    let mut masks = [0u64; MOST_ROWS];
    let tested = fill_tables(sheet, line, &mut fields, &mut returned, &mut masks);
    match tested {
        Err(Refused { refusal, row }) => refused(refusal, row as u32),
        Ok(_) => {
            let rows = sheet.len() / 31;
            let end = 5 * rows;
            let made = make(&fields[..end], rows, &masks[..rows], &returned[..rows], mem);
            let operators = made.operators;
            let inputs = made.inputs;
            let results = made.results;
            complete(mem, capacity, made, &line[..inputs]);
            StartAnswer {
                refusal: 0,
                row: 0,
                operators: operators as u32,
                inputs: inputs as u32,
                results: results as u32,
            }
        }
    }
}

// Starts a machine for a sheet with its kinds line in the lent memory.
#[tactic(auto, unfolding(crate::specs::Start::started))]
pub fn start(sheet: &[u8], line: &[u8], capacity: u32, mem: &mut [u8]) -> StartAnswer
    ensures { begun result mem.new ≡ started sheet.now line.now capacity mem.old }
{
    if mem.len() < machine_layout::machine_need(capacity_asked(capacity)) {
        return refused(Refusal::Memory, 0);
    }
    if !(1..=MOST_CAPACITY).contains(&capacity) {
        return refused(Refusal::Capacity, 0);
    }
    build(sheet, line, capacity as usize, mem)
}

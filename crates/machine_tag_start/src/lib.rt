#![tactic(auto)]
// Starting the machine with tags for a formula sheet without for in lent memory (document 02, Job 12):
// a machine started at capacity 1 with its mark, and the links of every tag empty. The definition is
// specs/TagStart; `start`, which the firmware's entry point calls, asks nothing of its caller.
ghost use Rattle.std.specs.Prelude.{◌≡◌, ◌+◌, ◌≤◌, ◌<◌, length, set};
ghost use Rattle.formula.specs.Tests.{verdict_of};
ghost use Rattle.machine_layout.specs.Layout.{capacity_at, most_links, links_of};
ghost use Rattle.machine_start.specs.Start.{begun};
ghost use Rattle.machine_planes.specs.Planes.{most_tags, plane_at, tagged_need};
ghost use Rattle.machine_tags.specs.TagValid.{tag_mark};
ghost use Rattle.machine_tag_start.specs.TagStart.{has_for, emptied_tags, loop_answer, tag_started};

use formula::{Refusal, Refused};
use machine_layout::CAPACITY_AT;
use machine_start::{StartAnswer, empty_links, refused};
use machine_tag_valid::{SLOT_BYTES, TAG_MARK, TAGGED_NEED, TAGS, TAGS_AT, plane_at};
use sheet_fields::field::field_in;
use sheet_fields::layout::ROW_BYTES;
use sheet_read::read::read;

// The kind of a for.
const FOR: u32 = 8;

// Whether some row of the sheet is a for.
fn has_for(sheet: &[u8]) -> bool
    ensures { result ≡ has_for sheet.now }
{
    for i in 0..sheet.len() / ROW_BYTES {
        if field_in(sheet, ROW_BYTES * i).unwrap_or(0) == FOR {
            return true;
        }
    }
    false
}

// What a sheet with a for gets: what reading says of it, else 19.
fn refuse_loop(sheet: &[u8], line: &[u8]) -> StartAnswer
    ensures { result ≡ loop_answer (verdict_of sheet.now line.now) }
{
    match read(sheet, line) {
        Ok(_) => refused(Refusal::Loop, 0),
        Err(Refused { refusal, row }) => refused(refusal, row as u32),
    }
}

// Empties this many links of every tag, and has no set of any tag untaken.
fn empty_tags(mem: &mut [u8], links: usize)
    requires { (tagged_need ≤ length mem.old) × (links ≤ most_links) }
    ensures { mem.new ≡ emptied_tags most_tags links mem.old }
{
    for t in 0..TAGS {
        empty_links(mem, plane_at(t), SLOT_BYTES, links);
        mem[TAGS_AT + t] = 0;
    }
}

// Makes a machine just started at capacity 1 one with tags.
fn set_tags(mem: &mut [u8])
    requires { (tagged_need ≤ length mem.old) × (links_of mem.old ≤ most_links) }
    ensures { mem.new ≡ emptied_tags most_tags (links_of mem.old) (set mem.old capacity_at tag_mark) }
{
    let links = machine_layout::links(mem);
    mem[CAPACITY_AT] = TAG_MARK as u8;
    empty_tags(mem, links);
}

// Starts the machine with tags for a sheet with its kinds line in the lent memory.
pub fn start(sheet: &[u8], line: &[u8], mem: &mut [u8]) -> StartAnswer
    ensures { begun result mem.new ≡ tag_started sheet.now line.now mem.old }
{
    if mem.len() < TAGGED_NEED {
        return refused(Refusal::Memory, 0);
    }
    if has_for(sheet) {
        return refuse_loop(sheet, line);
    }
    let answer = machine_start::start(sheet, line, 1, mem);
    if answer.refusal != 0 {
        return answer;
    }
    set_tags(mem);
    answer
}

// A log's lines (document 02, Job 3): "two six-character fields a line and a line feed: 1 and a set number, 2 and an operator number, or
// 3 and 0, for push, fire, take", and refusal 15. The definitions are specs/Lines. Any bytes of any length may be handed in.
ghost use Rattle.std.specs.Prelude.{◌≡◌, ◌*◌, ◌≤◌, length};
ghost use Rattle.machine_log.specs.Lines.{line_bytes, line_by, by_fields, line_at, listed, log_check};

use sheet_fields::field::field_in;

// A line by the call that it names.
#[derive(Clone, Copy)]
pub enum Line {
    // 1: the number of a set, from 1 on
    Push(u32),
    // 2: the number of an operator, from 0 on
    Fire(u32),
    // 3
    Take,
    Malformed,
}

// A line's bytes: two fields of six, the line feed.
pub const LINE_BYTES: usize = 13;

const SECOND_AT: usize = 6;

const LINE_FEED_AT: usize = 12;

const LINE_FEED: u8 = b'\n';

pub const MOST_LINES: usize = 4096;

const PUSH: u32 = 1;

const FIRE: u32 = 2;

const TAKE: u32 = 3;

// The line of two numbers.
#[tactic(auto, unfolding(crate::specs::Lines::line_by))]
fn line_by(what: u32, number: u32) -> Line
    ensures { result ≡ line_by what number }
{
    match (what, number) {
        (PUSH, n) => Line::Push(n),
        (FIRE, operator) => Line::Fire(operator),
        (TAKE, 0) => Line::Take,
        _ => Line::Malformed,
    }
}

// The line of two fields.
#[tactic(auto, unfolding(crate::specs::Lines::by_fields))]
fn by_fields(first: Option<u32>, second: Option<u32>) -> Line
    ensures { result ≡ by_fields first second }
{
    match (first, second) {
        (Some(what), Some(number)) => line_by(what, number),
        _ => Line::Malformed,
    }
}

// Line j, counted from 0.
pub fn line_at(log: &[u8], j: usize) -> Line
    requires { line_bytes * j ≤ length log.now }
    ensures { result ≡ line_at log.now j }
{
    let at = LINE_BYTES * j;
    if log.len() - at < LINE_BYTES || log[at + LINE_FEED_AT] != LINE_FEED {
        return Line::Malformed;
    }
    by_fields(field_in(log, at), field_in(log, at + SECOND_AT))
}

// Whether a line is one, and names a set of the list if it is a push.
#[tactic(auto, unfolding(crate::specs::Lines::listed))]
fn is_listed(number: u32, line: Line) -> bool
    ensures { result ≡ listed number line }
{
    match line {
        Line::Push(n) => (1..=number).contains(&n),
        Line::Fire(_) | Line::Take => true,
        Line::Malformed => false,
    }
}

// 15: the lowest line that is malformed, names a set that is not in the list, or is one too many.
pub fn bad_line(log: &[u8], number: u32) -> Result<(), usize>
    ensures { result ≡ log_check number log.now }
{
    for j in 0..log.len().div_ceil(LINE_BYTES) {
        if MOST_LINES <= j || !is_listed(number, line_at(log, j)) {
            return Err(j + 1);
        }
    }
    Ok(())
}

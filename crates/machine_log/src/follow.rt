// A log followed on a machine (document 02, Job 3): each line is the call of machine_calls that it names, up to the first that is
// refused. The definition is specs/Follow.
ghost use Rattle.std.specs.Prelude.{◌≡◌, []};
ghost use Rattle.machine_log.specs.Lines.{lines_of};
ghost use Rattle.machine_log.specs.Follow.{followed};
ghost use Rattle.machine_log.specs.SetLaws.{set_at};
ghost use Rattle.machine_log.specs.Steps.{Lent, hands_out, Stepped};
ghost use Rattle.machine_log.specs.FollowLaws.{Followable, Follows};

use crate::lines::{LINE_BYTES, Line, line_at};
use formula::Refusal;
use machine_calls::RESULT_BYTES;

// How far a log was followed: the line that was refused, 0 where none was, and the results handed out.
// No Option: the answer in C, whose row the line is, has 0 for none too.
#[derive(Clone, Copy)]
pub struct Progress {
    pub line: u32,
    pub count: u32,
}

// Makes the call that a line names, and gives its refusal by its number, as the calls' answers in C do. A take writes to the start of `room`.
fn step(line: Line, sets: &[u8], size: usize, mem: &mut [u8], room: &mut [u8]) -> u32
    requires { Lent size sets.now mem.old room.old line }
    ensures { Stepped (set_at size sets.now) line mem.old room.old result mem.new room.new }
{
    match line {
        Line::Push(n) => {
            let end = size * n as usize;
            let at = end - size;
            machine_calls::push(mem, &sets[at..end]).refusal
        }
        Line::Fire(operator) => machine_calls::fire(mem, operator).refusal,
        Line::Take => machine_calls::take(mem, room).refusal,
        Line::Malformed => u32::from(Refusal::LogLine),
    }
}

// The results that a line's accepted call hands out.
fn results_of(line: Line) -> u32
    ensures { result ≡ hands_out line }
{
    match line {
        Line::Take => 1,
        Line::Push(_) | Line::Fire(_) | Line::Malformed => 0,
    }
}

// Follows a log whose sets are of `size` bytes, up to the first line that is refused.
pub fn follow(log: &[u8], sets: &[u8], size: usize, mem: &mut [u8], out: &mut [u8]) -> Progress
    requires { Followable size sets.now log.now mem.old out.old }
    ensures { Follows (followed (set_at size sets.now) (lines_of log.now) 1 mem.old []) out.old result mem.new out.new }
{
    let mut count = 0;
    for j in 0..log.len().div_ceil(LINE_BYTES) {
        let line = line_at(log, j);
        let at = RESULT_BYTES * count as usize;
        if step(line, sets, size, mem, &mut out[at..]) != 0 {
            return Progress {
                line: (j + 1) as u32,
                count,
            };
        }
        count += results_of(line);
    }
    Progress { line: 0, count }
}

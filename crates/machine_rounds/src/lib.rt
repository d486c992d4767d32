#![tactic(auto)]
// A run by rounds over byte memory (document 02, Job 7): operators rising, each that is able at its
// turn firing once. The definitions are specs/Rounds; the contract of the call is an equation on the
// answer and on every lent byte, and asks nothing of the caller.
ghost use Rattle.std.specs.Prelude.{◌≡◌, ◌≤◌, length};
ghost use Rattle.machine_layout.specs.Layout.{most_operators, links_at, need};
ghost use Rattle.machine_rounds.specs.Rounds.{swept, round, rounded, rounds_from, answers, outcome, ran_rounds};

use formula::Refusal;
use machine_layout::Stretches;

// The call's answer: the number of a refusal, 0 where accepted; the rounds in which something fired,
// and their firings, which can be more than a number of 32 bits holds.
#[repr(C)]
#[derive(Clone, Copy)]
pub struct RoundsAnswer {
    pub refusal: u32,
    pub rounds: u32,
    pub firings: u64,
}

// The rounds made and their firings.
#[derive(Clone, Copy)]
struct Made {
    rounds: u32,
    firings: u64,
}

// One round of n operators: how many fired.
fn one_round(mem: &mut [u8], links: Stretches, n: usize) -> u32
    requires { (links.base ≡ links_at) × (need links.size ≤ length mem.old) × (n ≤ most_operators) }
    ensures { (swept mem.new result ≡ round links.size n mem.old) × (result ≤ n) }
{
    let mut fired: u32 = 0;
    for i in 0..n {
        if machine_operators::fire_at(mem, links, i) {
            fired += 1;
        }
    }
    fired
}

// At most the lent rounds. One in which nothing fires is the last and does not count.
fn make_rounds(mem: &mut [u8], links: Stretches, n: usize, lent: u32) -> Made
    requires { (links.base ≡ links_at) × (need links.size ≤ length mem.old) × (n ≤ most_operators) }
    ensures { rounded mem.new result.rounds result.firings ≡ rounds_from links.size n lent mem.old 0 0 }
{
    let mut firings: u64 = 0;
    for rounds in 0..lent {
        let fired = one_round(mem, links, n);
        if fired == 0 {
            return Made { rounds, firings };
        }
        firings += u64::from(fired);
    }
    Made {
        rounds: lent,
        firings,
    }
}

fn reply(refusal: u32, made: Made) -> RoundsAnswer
    ensures { result ≡ answers refusal made.rounds made.firings }
{
    RoundsAnswer {
        refusal,
        rounds: made.rounds,
        firings: made.firings,
    }
}

// Runs for at most the lent rounds. Fewer were made only where nothing could fire, which needs no
// look at the operators.
pub fn run_rounds(mem: &mut [u8], lent: u32) -> RoundsAnswer
    ensures { outcome result mem.new ≡ ran_rounds mem.old lent }
{
    if let Err(r) = machine_calls::standing(mem) {
        return reply(
            u32::from(r),
            Made {
                rounds: 0,
                firings: 0,
            },
        );
    }
    let n = machine_layout::operators(mem);
    let links = Stretches::of(mem);
    let made = make_rounds(mem, links, n, lent);
    if made.rounds < lent {
        return reply(0, made);
    }
    if machine_runs::idle(mem, links, n) {
        return reply(0, made);
    }
    reply(u32::from(Refusal::Unfinished), made)
}

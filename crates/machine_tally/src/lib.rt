#![tactic(auto)]
// The firmware's calls with a record that tells firings, takes and refused pushes (document 02, Job 10:
// "which the firmware lends and which each call updates in place"). The definitions are specs/Tallied;
// each contract is the call's own equation on the answer and on every lent byte, and one on the record,
// and asks nothing of the caller. The firmware's entry points only hand on what they are lent.
ghost use Rattle.std.specs.Prelude.{◌≡◌};
ghost use Rattle.machine_calls.specs.Calls.{outcome, handed, pushed, fired, ran, taken};
ghost use Rattle.machine_rounds.specs.Rounds.{outcome as roundsOutcome, ran_rounds};
ghost use Rattle.machine_tray.specs.Tray.{trayed};
ghost use Rattle.machine_start.specs.Start.{begun, started};
ghost use Rattle.machine_tally.specs.Tallied.{more_firings, one_take, one_refused, after_start, after_push, after_tray, after_fire, after_run, after_rounds, after_take};

use machine_calls::Answer;
use machine_rounds::RoundsAnswer;
use machine_start::StartAnswer;

// The record: no number passes the most that it can hold.
#[repr(C)]
#[derive(Clone, Copy, Default)]
pub struct Tally {
    pub firings: u32,
    pub takes: u32,
    pub refused: u32,
}

impl Tally {
    #[tactic(auto, unfolding(crate::specs::Tallied::more_firings, crate::specs::Tallied::capped))]
    fn add_firings(&mut self, n: u64)
        ensures { self.new ≡ more_firings self.old n }
    {
        let n = u32::try_from(n).unwrap_or(u32::MAX);
        self.firings = self.firings.saturating_add(n);
    }

    #[tactic(auto, unfolding(crate::specs::Tallied::one_take, crate::specs::Tallied::capped))]
    fn add_take(&mut self)
        ensures { self.new ≡ one_take self.old }
    {
        self.takes = self.takes.saturating_add(1);
    }

    #[tactic(auto, unfolding(crate::specs::Tallied::one_refused, crate::specs::Tallied::capped))]
    fn add_refused(&mut self)
        ensures { self.new ≡ one_refused self.old }
    {
        self.refused = self.refused.saturating_add(1);
    }
}

#[tactic(auto, unfolding(crate::specs::Tallied::after_start))]
pub fn start_tallied(
    sheet: &[u8],
    kinds: &[u8],
    capacity: u32,
    mem: &mut [u8],
    tally: &mut Tally,
) -> StartAnswer
    ensures { (begun result mem.new ≡ started sheet.now kinds.now capacity mem.old) × (tally.new ≡ after_start tally.old result) }
{
    let answer = machine_start::start(sheet, kinds, capacity, mem);
    if answer.refusal == 0 {
        *tally = Tally::default();
    }
    answer
}

#[tactic(auto, unfolding(crate::specs::Tallied::after_push))]
pub fn push_tallied(mem: &mut [u8], set: &[u8], tally: &mut Tally) -> Answer
    ensures { (outcome result mem.new ≡ pushed mem.old set.now) × (tally.new ≡ after_push tally.old result) }
{
    let answer = machine_calls::push(mem, set);
    if answer.refusal != 0 {
        tally.add_refused();
    }
    answer
}

#[tactic(auto, unfolding(crate::specs::Tallied::after_tray))]
pub fn push_tray_tallied(mem: &mut [u8], sets: &[u8], number: u32, tally: &mut Tally) -> Answer
    ensures { (outcome result mem.new ≡ trayed mem.old sets.now number) × (tally.new ≡ after_tray tally.old result) }
{
    let answer = machine_tray::push_tray(mem, sets, number);
    if answer.refusal != 0 {
        tally.add_refused();
    }
    answer
}

#[tactic(auto, unfolding(crate::specs::Tallied::after_fire))]
pub fn fire_tallied(mem: &mut [u8], operator: u32, tally: &mut Tally) -> Answer
    ensures { (outcome result mem.new ≡ fired mem.old operator) × (tally.new ≡ after_fire tally.old result) }
{
    let answer = machine_calls::fire(mem, operator);
    if answer.refusal == 0 {
        tally.add_firings(1);
    }
    answer
}

#[tactic(auto, unfolding(crate::specs::Tallied::after_run))]
pub fn run_tallied(mem: &mut [u8], firings: u32, tally: &mut Tally) -> Answer
    ensures { (outcome result mem.new ≡ ran mem.old firings) × (tally.new ≡ after_run tally.old result) }
{
    let answer = machine_calls::run(mem, firings);
    tally.add_firings(u64::from(answer.count));
    answer
}

#[tactic(auto, unfolding(crate::specs::Tallied::after_rounds))]
pub fn run_rounds_tallied(mem: &mut [u8], lent: u32, tally: &mut Tally) -> RoundsAnswer
    ensures { (roundsOutcome result mem.new ≡ ran_rounds mem.old lent) × (tally.new ≡ after_rounds tally.old result) }
{
    let answer = machine_rounds::run_rounds(mem, lent);
    tally.add_firings(answer.firings);
    answer
}

#[tactic(auto, unfolding(crate::specs::Tallied::after_take))]
pub fn take_tallied(mem: &mut [u8], out: &mut [u8], tally: &mut Tally) -> Answer
    ensures { (handed result mem.new out.new ≡ taken mem.old out.old) × (tally.new ≡ after_take tally.old result) }
{
    let answer = machine_calls::take(mem, out);
    if answer.refusal == 0 {
        tally.add_take();
    }
    answer
}

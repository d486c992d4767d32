#![tactic(auto)]
// Every call of the firmware and of formula editors in one archive, over byte slices and numbers (document 01, "calls push, run and take with
// numbers and byte memory"). No call asks anything of its caller; each contract is an equation on the answer and on every lent byte.
// A call on a machine is also lent the record of firings, takes and refused pushes (document 02, Job 10: "one small record, which the
// firmware lends and which each call updates in place"): machine_tally makes the call and updates it. Its contract has a second equation, on
// the record. The machine with tags (document 02, Job 12) has no such record.
// include/bench.h says the same in C.
ghost use Rattle.std.specs.Prelude.{◌≡◌};
ghost use Rattle.formula.specs.Tests.{reading_of};
ghost use Rattle.sheet_read.specs.Reading.{answer_of};
ghost use Rattle.sheet_tidy.specs.Tidying.{handed as tidyHanded, tidied_into};
ghost use Rattle.sheet_drift.specs.Drifting.{handed as driftHanded, drifted_into};
ghost use Rattle.sheet_next.specs.Next.{handed as nextHanded, next_into};
ghost use Rattle.eval_sheet.specs.Handed.{handed as evaluationHanded, handed_out};
ghost use Rattle.machine_start.specs.Start.{begun, started};
ghost use Rattle.machine_calls.specs.Calls.{outcome, handed, pushed, fired, ran, taken};
ghost use Rattle.machine_rounds.specs.Rounds.{outcome as roundsOutcome, ran_rounds};
ghost use Rattle.machine_tray.specs.Tray.{trayed};
ghost use Rattle.machine_log.specs.Checked.{checks, checked};
ghost use Rattle.machine_tags.specs.TagCalls.{tag_pushed, tag_fired, tag_ran, tag_taken};
ghost use Rattle.machine_tag_start.specs.TagStart.{tag_started};
ghost use Rattle.machine_tally.specs.Tallied.{after_start, after_push, after_tray, after_fire, after_run, after_rounds, after_take};

use eval_sheet::EvaluateAnswer;
use machine_calls::Answer;
use machine_log::LogAnswer;
use machine_rounds::RoundsAnswer;
use machine_start::StartAnswer;
use machine_tally::Tally;
use sheet_drift::DriftAnswer;
use sheet_next::NextAnswer;
use sheet_read::read::ReadAnswer;
use sheet_tidy::TidyAnswer;

#[unsafe(no_mangle)]
pub extern "C" fn bench_read(sheet: &[u8], kinds: &[u8]) -> ReadAnswer
    ensures { result ≡ answer_of (reading_of sheet.now kinds.now) }
{
    sheet_read::read::bench_read(sheet, kinds)
}

#[unsafe(no_mangle)]
pub extern "C" fn bench_tidy(sheet: &[u8], out: &mut [u8]) -> TidyAnswer
    ensures { tidyHanded result out.new ≡ tidied_into sheet.now out.old }
{
    sheet_tidy::tidy(sheet, out)
}

#[unsafe(no_mangle)]
pub extern "C" fn bench_drift(
    sheet: &[u8],
    kinds: &[u8],
    tolerances: &[u8],
    out: &mut [u8],
) -> DriftAnswer
    ensures { driftHanded result out.new ≡ drifted_into sheet.now kinds.now tolerances.now out.old }
{
    sheet_drift::drift(sheet, kinds, tolerances, out)
}

#[unsafe(no_mangle)]
pub extern "C" fn bench_next(sheet: &[u8], out: &mut [u8]) -> NextAnswer
    ensures { nextHanded result out.new ≡ next_into sheet.now out.old }
{
    sheet_next::next_sheet(sheet, out)
}

#[unsafe(no_mangle)]
pub extern "C" fn bench_evaluate(
    sheet: &[u8],
    kinds: &[u8],
    set: &[u8],
    rounds: u32,
    out: &mut [u8],
) -> EvaluateAnswer
    ensures { evaluationHanded result out.new ≡ handed_out sheet.now kinds.now set.now rounds out.old }
{
    eval_sheet::evaluate_into(sheet, kinds, set, rounds, out)
}

#[unsafe(no_mangle)]
pub extern "C" fn bench_start(
    sheet: &[u8],
    kinds: &[u8],
    capacity: u32,
    mem: &mut [u8],
    tally: &mut Tally,
) -> StartAnswer
    ensures { (begun result mem.new ≡ started sheet.now kinds.now capacity mem.old) × (tally.new ≡ after_start tally.old result) }
{
    machine_tally::start_tallied(sheet, kinds, capacity, mem, tally)
}

#[unsafe(no_mangle)]
pub extern "C" fn bench_push(mem: &mut [u8], set: &[u8], tally: &mut Tally) -> Answer
    ensures { (outcome result mem.new ≡ pushed mem.old set.now) × (tally.new ≡ after_push tally.old result) }
{
    machine_tally::push_tallied(mem, set, tally)
}

#[unsafe(no_mangle)]
pub extern "C" fn bench_push_tray(
    mem: &mut [u8],
    sets: &[u8],
    number: u32,
    tally: &mut Tally,
) -> Answer
    ensures { (outcome result mem.new ≡ trayed mem.old sets.now number) × (tally.new ≡ after_tray tally.old result) }
{
    machine_tally::push_tray_tallied(mem, sets, number, tally)
}

#[unsafe(no_mangle)]
pub extern "C" fn bench_fire(mem: &mut [u8], operator: u32, tally: &mut Tally) -> Answer
    ensures { (outcome result mem.new ≡ fired mem.old operator) × (tally.new ≡ after_fire tally.old result) }
{
    machine_tally::fire_tallied(mem, operator, tally)
}

#[unsafe(no_mangle)]
pub extern "C" fn bench_run(mem: &mut [u8], firings: u32, tally: &mut Tally) -> Answer
    ensures { (outcome result mem.new ≡ ran mem.old firings) × (tally.new ≡ after_run tally.old result) }
{
    machine_tally::run_tallied(mem, firings, tally)
}

#[unsafe(no_mangle)]
pub extern "C" fn bench_run_rounds(mem: &mut [u8], rounds: u32, tally: &mut Tally) -> RoundsAnswer
    ensures { (roundsOutcome result mem.new ≡ ran_rounds mem.old rounds) × (tally.new ≡ after_rounds tally.old result) }
{
    machine_tally::run_rounds_tallied(mem, rounds, tally)
}

#[unsafe(no_mangle)]
pub extern "C" fn bench_take(mem: &mut [u8], out: &mut [u8], tally: &mut Tally) -> Answer
    ensures { (handed result mem.new out.new ≡ taken mem.old out.old) × (tally.new ≡ after_take tally.old result) }
{
    machine_tally::take_tallied(mem, out, tally)
}

#[unsafe(no_mangle)]
pub extern "C" fn bench_check_log(
    sheet: &[u8],
    kinds: &[u8],
    capacity: u32,
    sets: &[u8],
    number: u32,
    log: &[u8],
    mem: &mut [u8],
    out: &mut [u8],
) -> LogAnswer
    ensures { checks result mem.new out.new ≡ checked sheet.now kinds.now capacity sets.now number log.now mem.old out.old }
{
    machine_log::check_log(sheet, kinds, capacity, sets, number, log, mem, out)
}

#[unsafe(no_mangle)]
pub extern "C" fn bench_tagged_start(sheet: &[u8], kinds: &[u8], mem: &mut [u8]) -> StartAnswer
    ensures { begun result mem.new ≡ tag_started sheet.now kinds.now mem.old }
{
    machine_tag_start::start(sheet, kinds, mem)
}

#[unsafe(no_mangle)]
pub extern "C" fn bench_tagged_push(mem: &mut [u8], set: &[u8]) -> Answer
    ensures { outcome result mem.new ≡ tag_pushed mem.old set.now }
{
    machine_tag_calls::push(mem, set)
}

#[unsafe(no_mangle)]
pub extern "C" fn bench_tagged_fire(mem: &mut [u8], operator: u32, tag: u32) -> Answer
    ensures { outcome result mem.new ≡ tag_fired mem.old operator tag }
{
    machine_tag_calls::fire(mem, operator, tag)
}

#[unsafe(no_mangle)]
pub extern "C" fn bench_tagged_run(mem: &mut [u8], firings: u32) -> Answer
    ensures { outcome result mem.new ≡ tag_ran mem.old firings }
{
    machine_tag_calls::run(mem, firings)
}

#[unsafe(no_mangle)]
pub extern "C" fn bench_tagged_take(mem: &mut [u8], tag: u32, out: &mut [u8]) -> Answer
    ensures { handed result mem.new out.new ≡ tag_taken mem.old tag out.old }
{
    machine_tag_calls::take(mem, tag, out)
}

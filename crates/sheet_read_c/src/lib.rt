#![tactic(auto)]
// The sheet reader alone for C, for formula editors that want no machine: the archive has this one call, the same as the firmware's.
ghost use Rattle.std.specs.Prelude.{◌≡◌};
ghost use Rattle.formula.specs.Tests.{reading_of};
ghost use Rattle.sheet_read.specs.Reading.{answer_of};

use sheet_read::read::ReadAnswer;

#[unsafe(no_mangle)]
pub extern "C" fn bench_read(sheet: &[u8], kinds: &[u8]) -> ReadAnswer
    ensures { result ≡ answer_of (reading_of sheet.now kinds.now) }
{
    sheet_read::read::bench_read(sheet, kinds)
}

// The calls of a tally, which carries a sheet over the traces of a day: it is begun, the records of each trace are added, and its sheet is written. They require
// nothing: every input has its outcome. Here is what lacks room, refusal 7, which writes no byte.
#![tactic(auto)]

pub mod adding;
pub mod soundness;
pub mod summing;

ghost use Rattle.std.specs.Prelude.{◌≡◌};
ghost use Rattle.passes.specs.tallies.Tallying.{tally_leaves, beginning, adding, summing};

use answer::refusals::NO_ROOM;
use ledger::follow::{zero, zero_row};
use ledger::totals::TOTAL;

// How many bytes a tally has, and the sheet of one: 65 rows of ten numbers of eight bytes.
const LENGTH: usize = 5200;

// A tally that has counted nothing.
#[unsafe(no_mangle)]
pub extern "C" fn pch_pic_tally_begin(tally: &mut [u8], answer: &mut [u8]) -> u8
    ensures { tally_leaves result tally.new answer.new ≡ beginning tally.old answer.old }
{
    if answer.len() < 16 {
        return NO_ROOM;
    }
    if tally.len() < LENGTH {
        return NO_ROOM;
    }
    zero(tally, true);
    zero_row(tally, true, TOTAL);
    answer::tell(answer, Ok(None))
}

// The records of a trace are counted, as the day goes on from the image, which stays as it is.
#[unsafe(no_mangle)]
pub extern "C" fn pch_pic_tally_add(
    trace: &[u8],
    image: &[u8],
    tally: &mut [u8],
    answer: &mut [u8],
) -> u8
    ensures { tally_leaves result tally.new answer.new
        ≡ adding trace.now image.now tally.old answer.old }
{
    if answer.len() < 16 {
        return NO_ROOM;
    }
    if tally.len() < LENGTH {
        return NO_ROOM;
    }
    let told = adding::add(trace, image, tally);
    answer::tell(answer, told)
}

// The sheet of all records that were counted: a row for each input, and the total. The tally stays as it is.
#[unsafe(no_mangle)]
pub extern "C" fn pch_pic_tally_sheet(tally: &[u8], sheet: &mut [u8], answer: &mut [u8]) -> u8
    ensures { tally_leaves result sheet.new answer.new ≡ summing tally.now sheet.old answer.old }
{
    if answer.len() < 16 {
        return NO_ROOM;
    }
    if tally.len() < LENGTH {
        return NO_ROOM;
    }
    if sheet.len() < LENGTH {
        return NO_ROOM;
    }
    let told = summing::sum(tally, sheet);
    answer::tell(answer, told)
}

// The call that writes the sheet of a lent trace. It requires nothing: every input has its outcome. Here is what lacks room, refusal 7, which writes no byte;
// the crates below test the trace and make the sheet.
#![tactic(auto)]

pub mod sheet;

ghost use Rattle.std.specs.Prelude.{◌≡◌};
ghost use Rattle.sheets.specs.Sheeting.{sheet_leaves, sheeting};

use crate::sheet::make;
use answer::refusals::NO_ROOM;

// How many bytes a sheet has: 65 rows of ten numbers of four bytes.
const LENGTH: usize = 2600;

// The sheet of a trace: a row for each input, and the total.
#[unsafe(no_mangle)]
pub extern "C" fn pch_pic_sheet(trace: &[u8], sheet: &mut [u8], answer: &mut [u8]) -> u8
    ensures { sheet_leaves result sheet.new answer.new ≡ sheeting trace.now sheet.old answer.old }
{
    if answer.len() < 16 {
        return NO_ROOM;
    }
    if sheet.len() < LENGTH {
        return NO_ROOM;
    }
    let told = make(trace, sheet);
    answer::tell(answer, told)
}

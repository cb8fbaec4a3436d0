// The sheet of a tally: its rows with the waits that are not over as open ones, and the total.
ghost use Rattle.std.specs.Prelude.{◌≡◌, ◌≤◌, length};
ghost use Rattle.passes.specs.tallies.Tally.{tally_length};
ghost use Rattle.pch_pic_tally.specs.adding.Ended.{ends_as, summed};

use crate::soundness;
use answer::Told;
use ledger::follow::{copy_rows, zero_row};
use ledger::totals::{TOTAL, join_all};

// A tally that is refused leaves the sheet as it was.
pub fn sum(tally: &[u8], sheet: &mut [u8]) -> Told
    requires { (tally_length ≤ length tally.now) × (tally_length ≤ length sheet.old) }
    ensures { ends_as result sheet.new ≡ summed tally.now sheet.old }
{
    soundness::test(tally)?;
    copy_rows(tally, sheet);
    zero_row(sheet, true, TOTAL);
    join_all(sheet, true);
    Ok(None)
}

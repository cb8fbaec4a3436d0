// The sheet of a trace, made in one pass from reset: zeros, then record by record, then the end of the day. It stands in the bytes lent for it.
ghost use Rattle.std.specs.Prelude.{◌≡◌, ◌≤◌, length};
ghost use Rattle.sheets.specs.Sheet.{sheet_length};
ghost use Rattle.pch_pic_sheet.specs.sheet.Made.{told, made_of};

use answer::Told;
use ledger::follow::{follow, zero, zero_row};
use ledger::totals::{TOTAL, join_all};
use ledger::watch::Watched;

// A trace that is refused leaves the sheet as it was.
pub fn make(trace: &[u8], sheet: &mut [u8]) -> Told
    requires { sheet_length ≤ length sheet.old }
    ensures { told result sheet.new ≡ made_of trace.now sheet.old }
{
    let records = trace::test(trace)?;
    zero(sheet, false);
    let begun = Watched {
        mask: u64::MAX,
        irr: 0,
        isr: 0,
        waiting: 0,
    };
    follow(trace, records.first, records.count, sheet, false, begun, 0);
    zero_row(sheet, false, TOTAL);
    join_all(sheet, false);
    Ok(Some(records.count as u64))
}

// One record of a trace as a pass takes it: the call that it is, with base 0 and size 65,536. A refused call does nothing.
ghost use Rattle.std.specs.Prelude.{◌<◌};
ghost use Rattle.calls.specs.Calls.{asked_by};
ghost use Rattle.calls.specs.Calls as asked;
ghost use Rattle.sheets.specs.Day.{as_item, item_of};
ghost use Rattle.passes.specs.tallies.Grid.{record_limit, Roomy};
ghost use Rattle.passes.specs.tallies.Following.{FollowsItem};
ghost use Rattle.trace.specs.record_bytes.Shown.{record_view};
ghost use Rattle.ledger.specs.watch.Kept.{lines_of};

use crate::watch::Watched;
use crate::{watch, watch_write};
use device::window;
use trace::record_bytes::{LOWER, POLL, RAISE, READ, Record, WRITE};

const INPUTS: u64 = 64;

const SIZE: u64 = 0x1_0000;

// ---- a write

fn write(
    sheet: &mut [u8],
    wide: bool,
    w: Watched,
    k: u64,
    address: u64,
    width: u64,
    value: u64,
) -> Watched
    requires { Roomy wide sheet.old × (k < record_limit wide) }
    ensures { FollowsItem wide (lines_of w) w.waiting (lines_of result) result.waiting sheet.old sheet.new k
        (as_item (asked_by (asked.write 0 65536 address width value))) }
{
    if window::width_of(width).is_none() {
        return w;
    }
    let Some(offset) = window::locate(0, SIZE, address, width) else {
        return w;
    };
    watch_write::write(sheet, wide, w, k, offset, value, width)
}

// ---- a record

// A call on no input changes nothing, and a read nothing that is kept; after a drain of all nothing waits.
pub fn step(sheet: &mut [u8], wide: bool, w: Watched, k: u64, r: Record) -> Watched
    requires { Roomy wide sheet.old × (k < record_limit wide) }
    ensures { FollowsItem wide (lines_of w) w.waiting (lines_of result) result.waiting sheet.old sheet.new k (item_of (record_view r)) }
{
    let byte = r.byte as u64;
    match r.kind {
        RAISE if byte < INPUTS => watch::raise(sheet, wide, w, byte as usize, k),
        LOWER if byte < INPUTS => watch::lower(sheet, wide, w, byte as usize, k),
        POLL if byte < INPUTS => watch::poll(sheet, wide, w, byte as usize, k),
        RAISE | LOWER | POLL | READ => w,
        WRITE => write(sheet, wide, w, k, r.offset as u64, byte, r.value),
        _ => Watched { waiting: 0, ..w },
    }
}

// Which records of a trace are good, by value.
ghost use Rattle.std.specs.Prelude.{◌≡◌};
ghost use Rattle.traces.specs.Trace.{is_good};
ghost use Rattle.trace.specs.record_bytes.Shown.{record_view};

use crate::record_bytes::{DRAIN, RAISE, READ, Record, WRITE};

// A kind is 1 to 6, and what it does not use is zero, as the zero bytes are. What is not zero is looked for first: it says which kinds are left, in half the
// instructions of all tests in a row.
pub fn is_good(r: Record) -> bool
    ensures { result ≡ is_good (record_view r) }
{
    let kind = r.kind;
    if r.zeros != 0 {
        return false;
    }
    if r.value != 0 {
        return kind == WRITE;
    }
    if r.offset != 0 {
        return (kind == READ) | (kind == WRITE);
    }
    let known = (RAISE <= kind) & (kind <= DRAIN);
    if r.byte != 0 {
        return known & (kind != DRAIN);
    }
    known
}

// A view over a lent trace: it holds the trace's bytes and a place, and shows the record there as a part of them.
// Its methods are thin: what is to be worked out stands in `record_bytes`, over plain parameters. Callers reach a record by `record_at`, whose parameters are plain too.
ghost use Rattle.std.specs.Prelude.{◌≡◌, ◌+◌, ◌≤◌, length};
ghost use Rattle.traces.specs.Trace.{record_length, record_of, record_at};
ghost use Rattle.trace.specs.record_bytes.Shown.{record_view};
ghost use Rattle.trace.specs.record_view.Showing.{Inside, part_shown, Shows};

use crate::record_bytes::{LENGTH, Record, fields, part_at};

#[derive(Clone, Copy)]
pub struct View<'a> {
    trace: &'a [u8],
    place: usize,
}

impl<'a> View<'a> {
    // The view of a place.
    pub fn view_at(trace: &'a [u8], place: usize) -> View<'a>
        requires { place + record_length ≤ length trace.now }
        ensures { Shows result trace.now place }
    {
        View { trace, place }
    }

    // The record that it shows, as a part of the trace.
    pub fn shown(self) -> &'a [u8]
        requires { Inside self }
        ensures { result.now ≡ part_shown self.entry }
    {
        part_at(self.trace, self.place)
    }

    // That record by value.
    pub fn record_of(self) -> Record
        requires { Inside self }
        ensures { record_view result ≡ record_of (part_shown self.entry) }
    {
        fields(self.shown())
    }

    // The view of the place behind that record.
    pub fn next(self) -> View<'a>
        requires { Inside self }
        ensures { Shows result self.entry.trace.now (self.entry.place + record_length) }
    {
        View {
            place: self.place + LENGTH,
            ..self
        }
    }
}

// The record at a place, by way of a view of it.
pub fn record_at(trace: &[u8], place: usize) -> Record
    requires { place + record_length ≤ length trace.now }
    ensures { record_view result ≡ record_at place trace.now }
{
    View::view_at(trace, place).record_of()
}

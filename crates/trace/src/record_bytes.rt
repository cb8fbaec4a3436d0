// A record of a lent trace as a part of it, and its fields: the work behind a view, over plain parameters.
ghost use Rattle.std.specs.Prelude.{◌≡◌, ◌+◌, ◌≤◌, length};
ghost use Rattle.basics.specs.Numbers.{part};
ghost use Rattle.traces.specs.Trace.{record_length, record_of};
ghost use Rattle.trace.specs.record_bytes.Shown.{record_view};

use bits::bytes::number;

// How many bytes a record has.
pub const LENGTH: usize = 16;

// The kinds of records. They are numbers, since a record may have any byte there: it is good or not by what `is_good` says.
pub const RAISE: u8 = 1;

pub const LOWER: u8 = 2;

pub const POLL: u8 = 3;

pub const READ: u8 = 4;

pub const WRITE: u8 = 5;

// A drain of all.
pub const DRAIN: u8 = 6;

// A record by value: kind, input or width, offset, the four zero bytes as a number, value.
#[derive(Clone, Copy)]
pub struct Record {
    pub kind: u8,
    pub byte: u8,
    pub offset: u16,
    pub zeros: u32,
    pub value: u64,
}

// The bytes of the record at a place, as a part of the trace.
pub fn part_at<'a>(trace: &'a [u8], place: usize) -> &'a [u8]
    requires { place + record_length ≤ length trace.now }
    ensures { result.now ≡ part place record_length trace.now }
{
    let end = place + LENGTH;
    &trace[place..end]
}

// The fields of a record that is shown.
pub fn fields(shown: &[u8]) -> Record
    requires { length shown.now ≡ record_length }
    ensures { record_view result ≡ record_of shown.now }
{
    Record {
        kind: shown[0],
        byte: shown[1],
        offset: number(&shown[2..4]) as u16,
        zeros: number(&shown[4..8]) as u32,
        value: number(&shown[8..16]),
    }
}

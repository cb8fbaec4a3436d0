// What a call left, held against its record.
ghost use Rattle.std.specs.Prelude.{◌≡◌, true, OnOk};
ghost use Rattle.replay.specs.records.Records.{kind_of, event_sum, checksum_of, recorded_answer, AsNoted, Decodes};

use bits::bytes::{number, put_word, word_at};
use std::fmt;

// The exported calls.
#[derive(Clone, Copy, PartialEq, Eq)]
pub enum Call {
    Reset,
    Read,
    Write,
    Level,
    Poll,
    Drain,
}

// What a record is: a call, an image for the buffer, the whole buffer to compare, or a byte of it to damage.
#[derive(Clone, Copy, PartialEq, Eq)]
pub enum Kind {
    Call(Call),
    Image,
    Whole,
    Byte,
}

impl TryFrom<u8> for Kind {
    type Error = Mismatch;

    ghost try_from_gives = { Decodes };

    fn try_from(code: u8) -> Result<Self, Mismatch> {
        match code {
            1 => Ok(Kind::Call(Call::Reset)),
            2 => Ok(Kind::Call(Call::Read)),
            3 => Ok(Kind::Call(Call::Write)),
            4 => Ok(Kind::Call(Call::Level)),
            5 => Ok(Kind::Call(Call::Poll)),
            6 => Ok(Kind::Call(Call::Drain)),
            7 => Ok(Kind::Image),
            8 => Ok(Kind::Whole),
            9 => Ok(Kind::Byte),
            _ => Err(Mismatch::Kind),
        }
    }
}

// What a record and what a call left differ in, or why the two cannot be compared.
#[derive(Clone, Copy, PartialEq, Eq)]
pub enum Mismatch {
    Lent,
    Number,
    Answer,
    Image,
    Events,
    Whole,
    Cut,
    Kind,
}

impl fmt::Display for Mismatch {
    fn fmt<W: fmt::Write>(&self, f: &mut fmt::Formatter<W>) -> fmt::Result {
        f.write_str(match self {
            Mismatch::Lent => "it lends more than there is",
            Mismatch::Number => "another number is handed back",
            Mismatch::Answer => "the answer area is another",
            Mismatch::Image => "the image's checksum is another",
            Mismatch::Events => "the event buffer's checksum is another",
            Mismatch::Whole => "the image is another",
            Mismatch::Cut => "the file ends in it",
            Mismatch::Kind => "it is of no known kind",
        })
    }
}

// A record that agrees, or that only changes the image buffer.
#[derive(Clone, Copy, PartialEq, Eq)]
pub enum Held {
    Agrees,
    Nothing,
}

pub fn checksum(b: &[u8]) -> u64
    ensures { result ≡ checksum_of 0 b.now }
{
    let mut sum: u64 = 0;
    for byte in b {
        sum = (257 * sum + u64::from(*byte) + 1) % 4_294_967_291;
    }
    sum
}

// The answer area as it was recorded.
fn recorded_answer(noted: &[u8; 64]) -> [u8; 32]
    ensures { result ≡ recorded_answer noted.now }
{
    let mut answer = [0xeeu8; 32];
    if noted[1] == 7 {
        return answer;
    }
    put_word(
        &mut answer,
        0,
        u64::from(noted[1]) + 256 * u64::from(noted[2]),
    );
    put_word(&mut answer, 8, word_at(noted, 8));
    answer
}

// Only a drain has events to compare. By its byte: every other one passes here, of whatever kind.
fn events_agree(noted: &[u8; 64], events: &[u8]) -> bool
    ensures { result ≡ true → kind_of noted.now ≡ 6 → checksum_of 0 events.now ≡ event_sum noted.now }
{
    if noted[0] != 6 {
        return true;
    }
    checksum(events) == number(&noted[56..60])
}

pub fn compare(
    noted: &[u8; 64],
    handed: u8,
    image: &[u8],
    answer: &[u8],
    events: &[u8],
) -> Result<(), Mismatch>
    ensures { OnOk result (AsNoted noted.now handed image.now answer.now events.now) }
{
    if handed != noted[1] {
        return Err(Mismatch::Number);
    }
    let wanted = recorded_answer(noted);
    if answer != wanted.as_slice() {
        return Err(Mismatch::Answer);
    }
    if checksum(image) != number(&noted[4..8]) {
        return Err(Mismatch::Image);
    }
    if !events_agree(noted, events) {
        return Err(Mismatch::Events);
    }
    Ok(())
}

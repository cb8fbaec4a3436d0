// A record of a call: the call is made on what the record lends, and what it left is held against the record.
ghost use Rattle.std.specs.Prelude.{◌≡◌, ◌≤◌, OnOk};
ghost use Rattle.replay.specs.records.Records.{call_code, kind_of, lent_image, lent_answer, lent_events};
ghost use Rattle.replay.specs.replay_call.Recorded.{Makes, Recorded};

use crate::records;
use crate::records::{Call, Kind, Mismatch};
use bits::bytes::{number, word_at};

fn lent_image(noted: &[u8; 64]) -> usize
    ensures { result ≡ lent_image noted.now }
{
    number(&noted[60..62]) as usize
}

fn lent_answer(noted: &[u8; 64]) -> usize
    ensures { result ≡ lent_answer noted.now }
{
    usize::from(noted[3])
}

fn lent_events(noted: &[u8; 64], call: Call) -> usize
    requires { call_code call ≡ kind_of noted.now }
    ensures { result ≡ lent_events (kind_of noted.now) noted.now }
{
    if call != Call::Drain {
        return 0;
    }
    word_at(noted, 24) as usize
}

// What a call handed back, and the whole event buffer behind it.
#[derive(Clone, Copy)]
struct Made {
    number: u8,
    events: [u8; 64],
}

// The call of a record. Only a drain is lent an event buffer, k bytes of it.
fn make(noted: &[u8; 64], call: Call, image: &mut [u8], answer: &mut [u8], k: usize) -> Made
    requires { (call_code call ≡ kind_of noted.now) × (k ≡ lent_events (kind_of noted.now) noted.now) × (k ≤ 64) }
    ensures { Makes result noted.now k image.old answer.old image.new answer.new }
{
    let mut events = [0xddu8; 64];
    let first = word_at(noted, 16);
    let second = word_at(noted, 24);
    let address = word_at(noted, 32);
    let width = word_at(noted, 40);
    let value = word_at(noted, 48);
    let number = match call {
        Call::Reset => pch_pic::pch_pic_reset(image, answer),
        Call::Read => pch_pic::pch_pic_read(image, first, second, address, width, answer),
        Call::Write => pch_pic::pch_pic_write(image, first, second, address, width, value, answer),
        Call::Level => pch_pic::pch_pic_level(image, first, second, answer),
        Call::Poll => pch_pic::pch_pic_poll(image, first, answer),
        Call::Drain => { pch_pic::pch_pic_drain(image, &mut events[..k], first as usize, answer) }
    };
    Made { number, events }
}

// A record that agrees is what 01's rules give on the image, in every byte that it tells of.
pub fn replay_call(noted: &[u8; 64], image: &mut [u8; 300]) -> Result<(), Mismatch>
    ensures { OnOk result (Recorded noted.now image.old image.new) }
{
    let Ok(Kind::Call(call)) = Kind::try_from(noted[0]) else {
        return Err(Mismatch::Kind);
    };
    let n = lent_image(noted);
    let m = lent_answer(noted);
    let k = lent_events(noted, call);
    if 300 < n {
        return Err(Mismatch::Lent);
    }
    if 32 < m {
        return Err(Mismatch::Lent);
    }
    if 64 < k {
        return Err(Mismatch::Lent);
    }
    let mut answer = [0xeeu8; 32];
    let left = make(noted, call, &mut image[..n], &mut answer[..m], k);
    let events = left.events;
    records::compare(noted, left.number, image, &answer, &events)
}

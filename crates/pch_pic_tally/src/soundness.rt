// From which bytes can be counted on: no number of 2^63 or more, and no wait that began behind all records. So no number that an add makes passes 2^64.
// Two passes settle that a tally is whole. Only in one that is not the first wrong number is searched for.
ghost use Rattle.std.specs.Prelude.{◌≡◌, ◌≤◌, length};
ghost use Rattle.passes.specs.tallies.Tally.{tally_length, of_open_wait, tally_test};
ghost use Rattle.answer.specs.declared.refusals.Refusal.TheVariants as refusal;
ghost use Rattle.pch_pic_tally.specs.soundness.Found.{sound_view, wrong_number, NoneAbove, NoneLater};

use answer::refusals::Refusal;
use bits::bytes::word_at;

// The numbers of a tally, those of its inputs, how many inputs there are, and the place of the number of records.
const NUMBERS: usize = 650;

const OF_INPUTS: usize = 640;

const INPUTS: usize = 64;

const COUNTED: usize = 5120;

// No number is so great.
const LIMIT: u64 = 0x8000_0000_0000_0000;

// Where the first wrong number stands.
#[derive(Clone, Copy)]
pub struct WrongAt(pub u64);

impl From<WrongAt> for Refusal {
    ghost from_gives = { λ wrong r. r ≡ refusal.WrongTally wrong.0 };

    fn from(wrong: WrongAt) -> Refusal {
        Refusal::WrongTally(wrong.0)
    }
}

fn of_open_wait(k: usize) -> bool
    ensures { result ≡ of_open_wait k }
{
    (k % 10 == 9) & (k < OF_INPUTS)
}

fn is_wrong(x: u64, k: usize, counted: u64) -> bool
    ensures { result ≡ wrong_number x k counted }
{
    (LIMIT <= x) | (of_open_wait(k) & (counted < x))
}

// The bits that any number has: no number is greater.
fn all_bits(tally: &[u8]) -> u64
    requires { tally_length ≤ length tally.now }
    ensures { NoneAbove tally.now result }
{
    let mut found = 0;
    for k in 0..NUMBERS {
        found |= word_at(tally, 8 * k);
    }
    found
}

// The latest record at which a wait began.
fn latest(tally: &[u8]) -> u64
    requires { tally_length ≤ length tally.now }
    ensures { NoneLater tally.now result }
{
    let mut most = 0u64;
    for n in 0..INPUTS {
        // the word first: the other way round each takes an instruction more
        most = word_at(tally, 80 * n + 72).max(most);
    }
    most
}

// The first wrong number.
fn search(tally: &[u8]) -> Result<(), WrongAt>
    requires { tally_length ≤ length tally.now }
    ensures { sound_view result ≡ tally_test tally.now }
{
    let counted = word_at(tally, COUNTED);
    for k in 0..NUMBERS {
        let at = 8 * k;
        if is_wrong(word_at(tally, at), k, counted) {
            return Err(WrongAt(at as u64));
        }
    }
    Ok(())
}

pub fn test(tally: &[u8]) -> Result<(), WrongAt>
    requires { tally_length ≤ length tally.now }
    ensures { sound_view result ≡ tally_test tally.now }
{
    let bits = all_bits(&*tally);
    let last = latest(&*tally);
    let counted = word_at(tally, COUNTED);
    if (bits < LIMIT) & (last <= counted) {
        return Ok(());
    }
    search(tally)
}

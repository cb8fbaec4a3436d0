// The answer area: the refusal, whether a value is present, and the value.
#![tactic(auto)]

pub mod accepted;
pub mod refusals;

ghost use Rattle.std.specs.Prelude.{◌≡◌, ◌≤◌, length};
ghost use Rattle.calls.specs.Calls.{answer_length, answered};
ghost use Rattle.calls.specs.Reasons.{told_in};
ghost use Rattle.answer.specs.Given.{value_view, told_number, told_value, refusal_number, refusal_value};

use crate::refusals::{NO_ROOM, Refusal};
use bits::bytes::{put_word, put_zeros};

// How a call ends: done, with what it gives, if it gives something; or refused.
pub type Told = Result<Option<u64>, Refusal>;

// Sixteen bytes are written; those past them stay. The first eight become zeros before two of them are set: of bytes that are stored in order the compiler
// puts the last six together by themselves, and a call takes two instructions more.
pub fn put_answer(answer: &mut [u8], number: u8, value: Option<u64>)
    requires { answer_length ≤ length answer.old }
    ensures { answer.new ≡ answered number (value_view value) answer.old }
{
    put_zeros(&mut answer[0..8]);
    answer[0] = number;
    answer[1] = u8::from(value.is_some());
    put_word(answer, 8, value.unwrap_or(0));
}

// What a call tells goes into the answer area, and its number is handed back. Four ways, two of them in `refuse`, so that each has its own stores, of constants where it can:
// with one store for all of them a call takes up to seven instructions more.
pub fn tell(answer: &mut [u8], told: Told) -> u8
    requires { answer_length ≤ length answer.old }
    ensures { (result ≡ told_number told) × (answer.new ≡ answered (told_number told) (told_value told) answer.old) }
{
    match told {
        Ok(None) => {
            put_answer(answer, 0, None);
            0
        }
        Ok(Some(v)) => {
            put_answer(answer, 0, Some(v));
            0
        }
        Err(refusal) => refuse(answer, refusal),
    }
}

fn refuse(answer: &mut [u8], refusal: Refusal) -> u8
    requires { answer_length ≤ length answer.old }
    ensures { (result ≡ refusal_number refusal) × (answer.new ≡ answered (refusal_number refusal) (refusal_value refusal) answer.old) }
{
    let number = refusal.number();
    match refusal.value() {
        None => put_answer(answer, number, None),
        Some(v) => put_answer(answer, number, Some(v)),
    }
    number
}

// The same of a call that may find at its end that there is no room: 7 is handed back alone, and the area stays as it was.
pub fn tell_late(answer: &mut [u8], told: Told) -> u8
    requires { answer_length ≤ length answer.old }
    ensures { (result ≡ told_number told) × (answer.new ≡ told_in (told_number told) (told_value told) answer.old) }
{
    if let Err(Refusal::NoRoom) = told {
        return NO_ROOM;
    }
    tell(answer, told)
}

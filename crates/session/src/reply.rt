// Answers, written to the front of a lent buffer; every other byte stays. Each function hands back how many bytes it wrote.
ghost use Rattle.std.specs.Prelude.{◌≡◌, cond, [], ◌∷◌, ◌+◌, ◌*◌, ◌<◌, ◌≤◌, eqb, length};
ghost use Rattle.sessions.specs.Session.{space, plus, minus, equals, question, letter_d, letter_e, letter_k, letter_o, letter_p, letter_r, letter_s, digit, digits, vector_said};
ghost use Rattle.device.specs.state.View.{answer_value};
ghost use Rattle.session.specs.reply.Says.{Says, pair_said, pairs_said};

use crate::hex;

// A line of no form that is known.
pub fn put_unknown(out: &mut [u8]) -> usize
    requires { 1 ≤ length out.old }
    ensures { Says result out.old out.new (question ∷ []) }
{
    out[0] = b'?';
    1
}

pub fn put_refusal(out: &mut [u8], number: u8) -> usize
    requires { (2 ≤ length out.old) × (number < 10) }
    ensures { Says result out.old out.new (letter_e ∷ digit number ∷ []) }
{
    out[0] = b'e';
    out[1] = b'0' + number;
    2
}

pub fn put_vector(out: &mut [u8], answer: Option<u8>) -> usize
    requires { 4 ≤ length out.old }
    ensures { Says result out.old out.new (vector_said (answer_value answer)) }
{
    let Some(vector) = answer else {
        out[0] = b'-';
        return 1;
    };
    out[0] = b'v';
    out[1] = b' ';
    hex::put_digits(&mut out[2..4], 2, u64::from(vector));
    4
}

pub fn put_value(out: &mut [u8], value: u64) -> usize
    requires { 18 ≤ length out.old }
    ensures { Says result out.old out.new (equals ∷ space ∷ digits 16 value) }
{
    out[0] = b'=';
    out[1] = b' ';
    hex::put_digits(&mut out[2..18], 16, value);
    18
}

pub fn put_ok(out: &mut [u8]) -> usize
    requires { 2 ≤ length out.old }
    ensures { Says result out.old out.new (letter_o ∷ letter_k ∷ []) }
{
    out[0] = b'o';
    out[1] = b'k';
    2
}

pub fn put_drops(out: &mut [u8], drops: u32) -> usize
    requires { 14 ≤ length out.old }
    ensures { Says result out.old out.new (letter_d ∷ letter_r ∷ letter_o ∷ letter_p ∷ letter_s ∷ space ∷ digits 8 drops) }
{
    out[0] = b'd';
    out[1] = b'r';
    out[2] = b'o';
    out[3] = b'p';
    out[4] = b's';
    out[5] = b' ';
    hex::put_digits(&mut out[6..14], 8, u64::from(drops));
    14
}

fn sign(asserted: u8) -> u8
    ensures { result ≡ cond (eqb asserted 0) minus plus }
{
    if asserted == 0 { b'-' } else { b'+' }
}

// One event, as four bytes; asserted is the flag of its pair.
fn put_event(out: &mut [u8], vector: u8, asserted: u8)
    requires { 4 ≤ length out.old }
    ensures { Says 4 out.old out.new (pair_said vector asserted) }
{
    out[0] = b' ';
    out[1] = sign(asserted);
    hex::put_digits(&mut out[2..4], 2, u64::from(vector));
}

// Events one after another, from their pairs.
fn put_events(out: &mut [u8], pairs: &[u8], count: usize)
    requires { (2 * count ≤ length pairs.now) × (4 * count ≤ length out.old) }
    ensures { Says (4 * count) out.old out.new (pairs_said count pairs.now) }
{
    for i in 0..count {
        put_event(&mut out[4 * i..4 * i + 4], pairs[2 * i], pairs[2 * i + 1]);
    }
}

// What a drain prints.
pub fn put_drained(out: &mut [u8], pairs: &[u8], count: usize) -> usize
    requires { (2 * count ≤ length pairs.now) × (1 + 4 * count ≤ length out.old) }
    ensures { Says result out.old out.new (letter_d ∷ pairs_said count pairs.now) }
{
    out[0] = b'd';
    let end = 1 + 4 * count;
    put_events(&mut out[1..end], pairs, count);
    end
}

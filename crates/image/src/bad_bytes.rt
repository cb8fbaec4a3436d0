// The first byte of a ring's pairs or numbers that breaks a rule, searched for from the front. Words of zeros are passed
// over. Only the bytes of an image that is not accepted come here.
ghost use Rattle.std.specs.Prelude.{◌≡◌, ◌*◌, ◌≤◌, length};
ghost use Rattle.rules.specs.Ring.{capacity};
ghost use Rattle.images.specs.Form as rules-form;
ghost use Rattle.images.specs.Image.{flag_rule, unused_rule};
ghost use Rattle.image.specs.bad_bytes.First.{First, ZerosTo};

use crate::form::{FLAG, PAIR};
use bits::bytes::word_at;

// Where the last word of the pairs or numbers begins.
const LAST_WORD: usize = 24;

// The first flag of a waiting pair that is neither 0 nor 1, or the length: no Option, since `First` has the length for none.
pub fn bad_flag(count: usize, pairs: &[u8]) -> usize
    requires { (length pairs.now ≡ 2 * capacity) × (count ≤ capacity) }
    ensures { First (flag_rule count).bad pairs.now result }
{
    for i in 0..count {
        let flag = PAIR * i + FLAG;
        if pairs[flag] > 1 {
            return flag;
        }
    }
    pairs.len()
}

// Where words of zeros from a byte on end. A while and no for: where it stops is the answer, past the last word too.
fn zeros_end(pairs: &[u8], from: usize) -> usize
    requires { (length pairs.now ≡ 2 * capacity) × (from ≤ 2 * capacity) }
    ensures { ZerosTo pairs.now from result }
{
    let mut i = from;
    while i <= LAST_WORD {
        if word_at(pairs, i) != 0 {
            return i;
        }
        i += 8;
    }
    i
}

// The first byte behind the waiting pairs, or numbers, that is not zero, or the length, as `First` has it.
pub fn used_byte(count: usize, pairs: &[u8]) -> usize
    requires { (length pairs.now ≡ 2 * capacity) × (count ≤ capacity) }
    ensures { First (unused_rule rules-form.pairs count).bad pairs.now result }
{
    let start = zeros_end(&*pairs, PAIR * count);
    for i in start..pairs.len() {
        if pairs[i] != 0 {
            return i;
        }
    }
    pairs.len()
}

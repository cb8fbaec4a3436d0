// The quick test of an image: differences of words, and words that have to be zero, are gathered in one number, which is compared once. Where it is called with a form that is
// a constant, every place and every number of the contents is one too.
ghost use Rattle.std.specs.Prelude.{◌≡◌, length, ◌==◌};
ghost use Rattle.images.specs.Form.{form_length};
ghost use Rattle.image.specs.Shown.{form_view};
ghost use Rattle.image.specs.head.Good.{head_good};
ghost use Rattle.images.specs.Image.{count_in};
ghost use Rattle.image.specs.quick.Quiet.{QuietBodies, Quiet, Kept};

use crate::bodies::spare_of;
use crate::form::{FLAG, Form, NUMBERS_LENGTH, PAIRS_LENGTH, contents_of, places_of};
use crate::unused::{all_bits, behind};
use bits::bytes::word_at;

// The bits of four flags above their lowest.
const FLAGS: u64 = 0xfe00_fe00_fe00_fe00;

// 0 exactly where a is b.
fn apart(a: u64, b: u64) -> u64
    ensures { (result == 0) ≡ (a == b) }
{
    a.wrapping_sub(b)
}

// 0 exactly where the contents are those of the form.
pub fn contents_apart(image: &[u8], form: Form) -> u64
    requires { length image.now ≡ form_length (form_view form) }
    ensures { (result == 0) ≡ head_good (form_view form) image.now }
{
    let c = contents_of(form);
    apart(word_at(image, 0), c.first)
        | apart(word_at(image, 8), c.second)
        | apart(word_at(image, 14), c.third)
        | apart(word_at(image, c.last_at), c.last)
}

// 0 only where the copy of IRR is IRR, nothing waits, and every pair and every number is zero.
fn bodies_odd(image: &[u8], form: Form) -> u64
    requires { length image.now ≡ form_length (form_view form) }
    ensures { QuietBodies (form_view form) image.now result }
{
    let p = places_of(form);
    let place = p.count;
    let at = p.pairs;
    let end = at + PAIRS_LENGTH;
    let spare = spare_of(form);
    let last = spare + NUMBERS_LENGTH;
    apart(word_at(image, p.last_intirr), word_at(image, p.intirr))
        | u64::from(image[place])
        | all_bits(&image[at..end])
        | all_bits(&image[spare..last])
}

// 0 only of an image that is accepted, and in which nothing waits. Any other number tells nothing.
pub fn odd(image: &[u8], form: Form) -> u64
    requires { length image.now ≡ form_length (form_view form) }
    ensures { Quiet (form_view form) image.now result }
{
    contents_apart(image, form) | bodies_odd(image, form)
}

// 0 only where the rules of the bodies are kept, and never where more than three wait; any other number tells nothing. The flags of all pairs are looked at, since unused ones are zero.
pub fn few_odd(image: &[u8], form: Form) -> u64
    requires { length image.now ≡ form_length (form_view form) }
    ensures { Kept (form_view form) image.now result }
{
    let p = places_of(form);
    let waiting = p.count;
    let pairs = p.pairs;
    let end = pairs + PAIRS_LENGTH;
    let spare = spare_of(form);
    let last = spare + NUMBERS_LENGTH;
    let count = image[waiting] as usize;
    let copy = word_at(image, p.last_intirr);
    apart(copy, word_at(image, p.intirr))
        | ((count / 4) as u64)
        | (all_bits(&image[pairs..end]) & FLAGS)
        | behind(count % 4, &image[pairs..end])
        | behind(count % 4, &image[spare..last])
}

// Where one waits, 0 only if the rules of the bodies are kept. Its flag is looked at alone.
pub fn single_odd(image: &[u8], form: Form) -> u64
    requires { (length image.now ≡ form_length (form_view form)) × (count_in (form_view form) image.now ≡ 1) }
    ensures { Kept (form_view form) image.now result }
{
    let p = places_of(form);
    let pairs = p.pairs;
    let end = pairs + PAIRS_LENGTH;
    let spare = spare_of(form);
    let last = spare + NUMBERS_LENGTH;
    let copy = word_at(image, p.last_intirr);
    apart(copy, word_at(image, p.intirr))
        | u64::from(image[pairs + FLAG] / 2)
        | behind(1, &image[pairs..end])
        | behind(1, &image[spare..last])
}

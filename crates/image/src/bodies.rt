// Whether an image with a form's length and contents may be loaded: the rules of its bodies. Bytes are compared as numbers, eight at a time. Of the ring's pairs
// and numbers the bits are gathered that any has: they settle the commonest ring, and all flags at once. What is wrong in a body, and where, is searched for
// only in an image that is not accepted.
ghost use Rattle.std.specs.Prelude.{◌≡◌, length};
ghost use Rattle.images.specs.Form.{form_length};
ghost use Rattle.image.specs.Shown.{form_view};
ghost use Rattle.image.specs.bodies.Good.{spare_at, bodies_good};

use crate::form::{CAPACITY, Form, NUMBERS_LENGTH, PAIRS_LENGTH, places_of};
use crate::unused;
use bits::bytes::word_at;

// Where the numbers stand; in a form without numbers, the pairs.
pub fn spare_of(form: Form) -> usize
    ensures { result ≡ spare_at (form_view form) }
{
    let p = places_of(form);
    match form {
        Form::One => p.pairs,
        Form::Two => p.pairs,
        Form::Numbered => p.numbers,
    }
}

// The rules of the bodies. A form without a copy of IRR has IRR's own place there, and one without numbers the pairs' place.
pub fn test_bodies(image: &[u8], form: Form) -> bool
    requires { length image.now ≡ form_length (form_view form) }
    ensures { result ≡ bodies_good (form_view form) image.now }
{
    let p = places_of(form);
    if word_at(image, p.last_intirr) != word_at(image, p.intirr) {
        return false;
    }
    let place = p.count;
    let count = image[place] as usize;
    if count > CAPACITY {
        return false;
    }
    let at = p.pairs;
    let end = at + PAIRS_LENGTH;
    let spare = spare_of(form);
    let last = spare + NUMBERS_LENGTH;
    let found = unused::all_bits(&image[at..end]);
    // every pair and every number is zero: the commonest ring
    if found | unused::all_bits(&image[spare..last]) == 0 {
        return true;
    }
    // a flag is over 1, of a waiting pair or of an unused one
    if found & 0xfe00_fe00_fe00_fe00 != 0 {
        return false;
    }
    unused::unused_zero(count, &image[at..end], &image[spare..last])
}

// The same, of an image in which something waits as a rule: that every pair is zero is not looked for first, and with sixteen that wait none is unused.
pub fn test_waiting(image: &[u8], form: Form) -> bool
    requires { length image.now ≡ form_length (form_view form) }
    ensures { result ≡ bodies_good (form_view form) image.now }
{
    let p = places_of(form);
    let copy = word_at(image, p.last_intirr);
    if copy != word_at(image, p.intirr) {
        return false;
    }
    let place = p.count;
    let count = image[place] as usize;
    if 16 < count {
        return false;
    }
    let at = p.pairs;
    let end = at + PAIRS_LENGTH;
    if unused::all_bits(&image[at..end]) & 0xfe00_fe00_fe00_fe00 != 0 {
        return false;
    }
    if count == 16 {
        return true;
    }
    let spare = spare_of(form);
    let last = spare + NUMBERS_LENGTH;
    unused::unused_zero(count, &image[at..end], &image[spare..last])
}

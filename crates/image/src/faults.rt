// What is wrong with an image that is not accepted, and where: the first rule that is broken, in the rules' order, and the first byte that breaks it. An accepted
// image never comes here.
ghost use Rattle.std.specs.Prelude.{◌≡◌, ◌+◌, ◌*◌, ◌≤◌, length};
ghost use Rattle.basics.specs.Numbers.{part};
ghost use Rattle.rules.specs.Ring.{capacity};
ghost use Rattle.images.specs.Form.{form_length};
ghost use Rattle.images.specs.Form as rules-form;
ghost use Rattle.images.specs.Image.{unused_rule, finding, rules, first_fault, body_test};
ghost use Rattle.image.specs.Shown.{form_view};
ghost use Rattle.image.specs.faults.Found.{checked_view, pair_fault};

use crate::bad_bytes::{bad_flag, used_byte};
use crate::form::{CAPACITY, Form, NUMBERS_LENGTH, PAIRS_LENGTH, places_of};
use bits::bytes::word_at;

// The copy of IRR differs, too many wait, a waiting pair's flag is neither 0 nor 1, an unused pair or number is not zero.
#[derive(Clone, Copy)]
pub enum Fault {
    Copy,
    Count,
    Flag,
    Unused,
}

// The rule that is broken, and the place of the first byte that breaks it.
#[derive(Clone, Copy)]
pub struct Broken {
    pub rule: Fault,
    pub place: usize,
}

// The rules of the pairs, which stand from `at` on.
fn pair_fault(image: &[u8], at: usize, count: usize) -> Result<(), Broken>
    requires { (at + 2 * capacity ≤ length image.now) × (count ≤ capacity) }
    ensures { checked_view result ≡ body_test (pair_fault at count (part at (2 * capacity) image.now)) }
{
    let end = at + PAIRS_LENGTH;
    let flag = bad_flag(count, &image[at..end]);
    let byte = used_byte(count, &image[at..end]);
    if flag < PAIRS_LENGTH {
        return Err(Broken {
            rule: Fault::Flag,
            place: at + flag,
        });
    }
    if byte < PAIRS_LENGTH {
        return Err(Broken {
            rule: Fault::Unused,
            place: at + byte,
        });
    }
    Ok(())
}

// The rule of the numbers, in the form that has them.
fn number_fault(image: &[u8], form: Form, count: usize) -> Result<(), Broken>
    requires { (length image.now ≡ form_length (form_view form)) × (count ≤ capacity) }
    ensures { checked_view result ≡ body_test (finding (form_view form) image.now (unused_rule rules-form.numbers count)) }
{
    let Form::Numbered = form else {
        return Ok(());
    };
    let p = places_of(form);
    let at = p.numbers;
    let end = at + NUMBERS_LENGTH;
    let byte = used_byte(count, &image[at..end]);
    if byte < NUMBERS_LENGTH {
        return Err(Broken {
            rule: Fault::Unused,
            place: at + byte,
        });
    }
    Ok(())
}

// A form without a copy of IRR has IRR's own place there.
pub fn first_fault(image: &[u8], form: Form) -> Result<(), Broken>
    requires { length image.now ≡ form_length (form_view form) }
    ensures { checked_view result ≡ body_test (first_fault (form_view form) image.now (rules (form_view form) image.now)) }
{
    let p = places_of(form);
    let copy = p.last_intirr;
    if word_at(image, copy) != word_at(image, p.intirr) {
        return Err(Broken {
            rule: Fault::Copy,
            place: copy,
        });
    }
    let place = p.count;
    let count = image[place] as usize;
    if count > CAPACITY {
        return Err(Broken {
            rule: Fault::Count,
            place,
        });
    }
    pair_fault(&*image, p.pairs, count)?;
    number_fault(&*image, form, count)
}

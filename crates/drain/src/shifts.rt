// What a drain leaves in an image, in place: of events and of numbers those past the first move to the front, and zeros follow them.
ghost use Rattle.std.specs.Prelude.{◌≡◌, ◌≤◌, length};
ghost use Rattle.rules.specs.Ring.{capacity};
ghost use Rattle.images.specs.Form.{form_length};
ghost use Rattle.image.specs.Shown.{form_view};
ghost use Rattle.drain.specs.shifts.Shifted.{NumbersLeave, Shifts};

use crate::move_up::leave;
use image::form;
use image::form::{Form, places_of};

// The numbers of the first n go as their events do.
fn leave_numbers(image: &mut [u8], form: Form, n: usize, len: usize)
    requires { (length image.old ≡ form_length (form_view form)) × (n ≤ len) × (len ≤ capacity) }
    ensures { NumbersLeave (form_view form) image.old image.new len n }
{
    let Form::Numbered = form else {
        return;
    };
    let p = places_of(form);
    let at = p.numbers;
    let end = at + form::NUMBERS_LENGTH;
    leave(&mut image[at..end], n, len);
}

// Of `len` waiting events the first n no longer wait.
pub fn shift(image: &mut [u8], form: Form, n: usize, len: usize)
    requires { (length image.old ≡ form_length (form_view form)) × (n ≤ len) × (len ≤ capacity) }
    ensures { Shifts image.old image.new len n }
{
    let p = places_of(form);
    let at = p.pairs;
    let end = at + form::PAIRS_LENGTH;
    leave(&mut image[at..end], n, len);
    leave_numbers(image, form, n, len);
    let count = p.count;
    image[count] = (len - n) as u8;
}

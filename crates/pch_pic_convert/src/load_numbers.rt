// The numbers of events with which an image loads: those of its fifth body, or, without one, those from 0 on.
ghost use Rattle.std.specs.Prelude.{◌≡◌, ◌≤◌, length};
ghost use Rattle.rules.specs.Ring.{capacity};
ghost use Rattle.images.specs.Form.{form_length};
ghost use Rattle.rules.specs.Numbering.{from_zero};
ghost use Rattle.images.specs.Image.{count_in, number_body};
ghost use Rattle.image.specs.Shown.{form_view};
ghost use Rattle.pch_pic_convert.specs.load_numbers.Numbers.{LoadsNumbers};

use bits::bytes::copy;
use image::form;
use image::form::{Form, places_of};

// The numbers of an image that has none: the waiting events have those from 0 on, and the next is how many wait. Stored one by one: a copy of so many bytes would be
// a call of memcpy.
fn counted(count: usize) -> [u8; 34]
    requires { count ≤ capacity }
    ensures { result ≡ number_body (from_zero count) }
{
    let mut body = [0u8; 34];
    body[0] = count as u8;
    for i in 0..count {
        body[form::NEXT_LENGTH + form::NUMBER * i] = i as u8;
    }
    body
}

// The body of the numbers with which an image loads.
pub fn load_numbers(image: &[u8], form: Form) -> [u8; 34]
    requires { (length image.now ≡ form_length (form_view form)) × (count_in (form_view form) image.now ≤ capacity) }
    ensures { LoadsNumbers (form_view form) image.now result }
{
    let p = places_of(form);
    let Form::Numbered = form else {
        let place = p.count;
        return counted(image[place] as usize);
    };
    let at = p.next;
    let end = at + form::NUMBER_BODY_LENGTH;
    let mut body = [0u8; 34];
    copy(&mut body, &image[at..end]);
    body
}

// The numbers of events, in an image that has them. In any other the waiting events are numbered from 0 in each call, and the next number is how many wait.
ghost use Rattle.std.specs.Prelude.{◌≡◌, length};
ghost use Rattle.images.specs.Form.{form_length};
ghost use Rattle.image.specs.Shown.{form_view};
ghost use Rattle.fields.specs.inplace.Held.{Taken, NumberOffered};

use crate::number_bytes::take_next;
use bits::bytes::put_bytes;
use image::form;
use image::form::{Form, places_of};

// The number of an event that is returned.
pub fn take(image: &mut [u8], form: Form) -> u16
    requires { length image.old ≡ form_length (form_view form) }
    ensures { Taken image.old image.new result }
{
    let p = places_of(form);
    let Form::Numbered = form else {
        let place = p.count;
        return image[place] as u16;
    };
    take_next(image, p.next)
}

// The number of an event that is about to be offered to the ring: it waits there, if the event will be kept.
pub fn take_offered(image: &mut [u8], form: Form)
    requires { length image.old ≡ form_length (form_view form) }
    ensures { NumberOffered image.old image.new }
{
    let Form::Numbered = form else {
        return;
    };
    let p = places_of(form);
    let taken = take_next(image, p.next);
    let place = p.count;
    let len = image[place] as usize;
    if len < form::CAPACITY {
        put_bytes(
            image,
            p.numbers + form::NUMBER * len,
            form::NUMBER,
            taken as u64,
        );
    }
}

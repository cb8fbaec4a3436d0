// The events that a drain copies out of an image, each pair with its number: which of its bytes they are.
ghost use Rattle.std.specs.Prelude.{◌≡◌, ◌*◌, ◌≤◌, length};
ghost use Rattle.rules.specs.Ring.{capacity};
ghost use Rattle.images.specs.Form.{form_length};
ghost use Rattle.image.specs.Shown.{form_view};
ghost use Rattle.drain.specs.events_out.Out.{CopiesOut};

use crate::weave::put_events;
use fields::number_bytes::from_zero;
use image::form;
use image::form::{Form, places_of};

// The first n events, with the numbers that the image has or those from 0 on.
pub fn copy_out(image: &[u8], form: Form, out: &mut [u8], n: usize)
    requires { (length image.now ≡ form_length (form_view form)) × (n ≤ capacity) × (length out.old ≡ 4 * n) }
    ensures { CopiesOut image.now out.new n }
{
    let p = places_of(form);
    let taken = form::PAIR * n;
    let at = p.pairs;
    let end = at + taken;
    let Form::Numbered = form else {
        let first = from_zero();
        put_events(out, &image[at..end], &first[0..taken], n);
        return;
    };
    let first = p.numbers;
    let last = first + taken;
    put_events(out, &image[at..end], &image[first..last], n);
}

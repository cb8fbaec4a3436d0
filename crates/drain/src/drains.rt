// A drain in place: the oldest events are copied out, and no longer wait.
ghost use Rattle.std.specs.Prelude.{◌≡◌, ◌≤◌, length};
ghost use Rattle.rules.specs.Ring.{capacity};
ghost use Rattle.rules.specs.Numbering.{drained_length};
ghost use Rattle.images.specs.Form.{form_length};
ghost use Rattle.images.specs.Image.{count_in};
ghost use Rattle.image.specs.Shown.{form_view};
ghost use Rattle.drain.specs.drains.Drained.{Drains};

use crate::events_out::copy_out;
use crate::shifts::shift;
use image::form;
use image::form::{Form, places_of};

// As many events go as wait or as fit, whichever is fewer.
pub fn drain(image: &mut [u8], form: Form, out: &mut [u8]) -> usize
    requires { (length image.old ≡ form_length (form_view form)) × (count_in (form_view form) image.old ≤ capacity) }
    ensures { Drains image.old image.new out.old out.new result }
{
    let p = places_of(form);
    let count = p.count;
    let len = image[count] as usize;
    let n = len.min(out.len() / form::EVENT);
    let room = form::EVENT * n;
    copy_out(image, form, &mut out[0..room], n);
    shift(image, form, n, len);
    n
}

// The only one that waits, where it fits. Constants for both numbers: no loop is left of what is copied, and nothing moves up.
pub fn one(image: &mut [u8], form: Form, out: &mut [u8])
    requires { (length image.old ≡ form_length (form_view form)) × (count_in (form_view form) image.old ≡ 1) × (drained_length ≤ length out.old) }
    ensures { Drains image.old image.new out.old out.new 1 }
{
    copy_out(image, form, &mut out[0..4], 1);
    shift(image, form, 1, 1);
}

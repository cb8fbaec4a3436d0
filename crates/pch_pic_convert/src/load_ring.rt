// The ring of a state from the bytes of an image. What is asked of an image is its length, and of its ring the count.
ghost use Rattle.std.specs.Prelude.{◌≡◌, ◌+◌, ◌≤◌, length};
ghost use Rattle.basics.specs.Numbers.{number_of, part};
ghost use Rattle.rules.specs.Ring.{capacity};
ghost use Rattle.images.specs.Form.{form_length};
ghost use Rattle.images.specs.Image.{count_in, decode_as};
ghost use Rattle.device.specs.state.View.{IsRing};
ghost use Rattle.image.specs.Shown.{form_view};

use bits::bytes::number;
use device::state::Ring;
use image::form;
use image::form::{Form, places_of};
use stored::pairs::ring_of;

// The number that four bytes from a place on spell, as `number_at` of `fields` does with two: one function over the width would be longer than both.
fn drops_at(image: &[u8], at: usize) -> u32
    requires { at + 4 ≤ length image.now }
    ensures { result ≡ number_of (part at 4 image.now) }
{
    let end = at + form::DROPS_LENGTH;
    number(&image[at..end]) as u32
}

pub fn load_ring(image: &[u8], form: Form) -> Ring
    requires { (length image.now ≡ form_length (form_view form)) × (count_in (form_view form) image.now ≤ capacity) }
    ensures { IsRing result (decode_as (form_view form) image.now).ring }
{
    let p = places_of(form);
    let place = p.count;
    let len = image[place] as usize;
    let drops = drops_at(image, p.drops);
    let at = p.pairs;
    let end = at + form::PAIRS_LENGTH;
    ring_of(&image[at..end], len, drops)
}

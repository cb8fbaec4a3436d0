// The route and vector bytes of a state from the bytes of an image. What is asked of an image is its length.
ghost use Rattle.std.specs.Prelude.{◌≡◌, length};
ghost use Rattle.images.specs.Form.{form_length};
ghost use Rattle.images.specs.Image.{decode_as};
ghost use Rattle.image.specs.Shown.{form_view};

use bits::bytes::copy;
use image::form::{Form, places_of};

// The 64 entries that a part of the image holds, a byte for each input.
fn fill_entries(part: &[u8]) -> [u8; 64]
    requires { length part.now ≡ 64 }
    ensures { result ≡ part.now }
{
    let mut out = [0u8; 64];
    copy(&mut out, part);
    out
}

pub fn load_routes(image: &[u8], form: Form) -> [u8; 64]
    requires { length image.now ≡ form_length (form_view form) }
    ensures { result ≡ (decode_as (form_view form) image.now).core.stored.routes }
{
    let p = places_of(form);
    let at = p.routes;
    let end = at + 64;
    fill_entries(&image[at..end])
}

// The vector body, a part that starts at byte 158 or, in form 2, 150 or, with numbers, 155, is handed on to the leaf that fills 64 entries. An arm for each
// form, so that the place is a constant: with the place of a field, in one function for routes and vectors, a conversion takes ten instructions more.
pub fn load_vectors(image: &[u8], form: Form) -> [u8; 64]
    requires { length image.now ≡ form_length (form_view form) }
    ensures { result ≡ (decode_as (form_view form) image.now).core.vectors }
{
    match form {
        Form::One => fill_entries(&image[158..222]),
        Form::Two => fill_entries(&image[150..214]),
        Form::Numbered => fill_entries(&image[155..219]),
    }
}

// Route and vector bytes of an image, one for each input: a single one, and several from an input on as a number, the low one first.
ghost use Rattle.std.specs.Prelude.{◌≡◌, ◌+◌, ◌<◌, ◌≤◌, length, slice_index};
ghost use Rattle.basics.specs.Numbers.{number_of, part};
ghost use Rattle.rules.specs.Core.{with_routes};
ghost use Rattle.images.specs.Form.{form_length};
ghost use Rattle.images.specs.Image.{bytes_length};
ghost use Rattle.image.specs.Shown.{form_view};
ghost use Rattle.bits.specs.bytes.Put.{with_bytes};
ghost use Rattle.fields.specs.inplace.Held.{Reads, Becomes, with_vectors, with_stored};

use bits::bytes::{number, put_bytes};
use image::form::{Form, places_of};

pub fn route(image: &[u8], form: Form, input: usize) -> u8
    requires { (length image.now ≡ form_length (form_view form)) × (input < 64) }
    ensures { Reads image.now result (λ d. slice_index d.core.stored.routes input) }
{
    let p = places_of(form);
    let at = p.routes;
    image[at + input]
}

pub fn vector(image: &[u8], form: Form, input: usize) -> u8
    requires { (length image.now ≡ form_length (form_view form)) × (input < 64) }
    ensures { Reads image.now result (λ d. slice_index d.core.vectors input) }
{
    let p = places_of(form);
    let at = p.vectors;
    image[at + input]
}

pub fn routes(image: &[u8], form: Form, input: usize, n: usize) -> u64
    requires { (length image.now ≡ form_length (form_view form)) × (input + n ≤ bytes_length) × (n ≤ 8) }
    ensures { Reads image.now result (λ d. number_of (part input n d.core.stored.routes)) }
{
    let p = places_of(form);
    let at = p.routes + input;
    let end = at + n;
    number(&image[at..end])
}

pub fn vectors(image: &[u8], form: Form, input: usize, n: usize) -> u64
    requires { (length image.now ≡ form_length (form_view form)) × (input + n ≤ bytes_length) × (n ≤ 8) }
    ensures { Reads image.now result (λ d. number_of (part input n d.core.vectors)) }
{
    let p = places_of(form);
    let at = p.vectors + input;
    let end = at + n;
    number(&image[at..end])
}

pub fn put_routes(image: &mut [u8], form: Form, input: usize, n: usize, x: u64)
    requires { (length image.old ≡ form_length (form_view form)) × (input + n ≤ bytes_length) }
    ensures { Becomes image.old image.new
        (λ d. with_stored d (with_routes d.core.stored (with_bytes input n x d.core.stored.routes))) }
{
    let p = places_of(form);
    put_bytes(image, p.routes + input, n, x);
}

pub fn put_vectors(image: &mut [u8], form: Form, input: usize, n: usize, x: u64)
    requires { (length image.old ≡ form_length (form_view form)) × (input + n ≤ bytes_length) }
    ensures { Becomes image.old image.new (λ d. with_vectors d (with_bytes input n x d.core.vectors)) }
{
    let p = places_of(form);
    put_bytes(image, p.vectors + input, n, x);
}

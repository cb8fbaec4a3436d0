// What a reset saves, part by part, each by value: route bytes and the ring's body. A part that is lent could be the image's own, and would be copied byte by byte.
ghost use Rattle.std.specs.Prelude.{◌≡◌, length};
ghost use Rattle.images.specs.Form.{form_length};
ghost use Rattle.image.specs.Shown.{form_view};
ghost use Rattle.stored.specs.saves.Shown.{SavesRoutes, SavesRingBody};

use bits::bytes::copy;
use image::form;
use image::form::{Form, places_of};

pub fn save_routes(image: &mut [u8], form: Form, routes: [u8; 64])
    requires { length image.old ≡ form_length (form_view form) }
    ensures { SavesRoutes (form_view form) routes image.old image.new }
{
    let p = places_of(form);
    let at = p.routes;
    let end = at + 64;
    copy(&mut image[at..end], &routes);
}

// The count, the drops and the pairs, as their body has them.
pub fn save_ring(image: &mut [u8], form: Form, body: [u8; 37])
    requires { length image.old ≡ form_length (form_view form) }
    ensures { SavesRingBody (form_view form) body image.old image.new }
{
    let p = places_of(form);
    let at = p.count;
    let end = at + form::RING_LENGTH;
    copy(&mut image[at..end], &body);
}

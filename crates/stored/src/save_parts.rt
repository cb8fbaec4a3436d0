// What is saved part by part: route and vector bytes, the ring, the numbers.
ghost use Rattle.std.specs.Prelude.{◌≡◌, length};
ghost use Rattle.images.specs.Form.{form_length};
ghost use Rattle.device.specs.state.View.{WellRing};
ghost use Rattle.image.specs.Shown.{form_view};
ghost use Rattle.stored.specs.saves.Shown.{SavesTables, SavesRing, SavesNumbers};

use crate::pairs::put_pairs;
use bits::bytes::{copy, put_bytes};
use device::state::{Ring, Tables};
use image::form;
use image::form::{Form, places_of};

pub fn save_tables(image: &mut [u8], form: Form, tables: Tables)
    requires { length image.old ≡ form_length (form_view form) }
    ensures { SavesTables (form_view form) tables image.old image.new }
{
    let p = places_of(form);
    let routes = p.routes;
    let routes_end = routes + 64;
    copy(&mut image[routes..routes_end], &tables.route_entry);
    let vectors = p.vectors;
    let vectors_end = vectors + 64;
    copy(&mut image[vectors..vectors_end], &tables.htmsi_vector);
}

pub fn save_ring(image: &mut [u8], form: Form, ring: Ring)
    requires { (length image.old ≡ form_length (form_view form)) × WellRing ring }
    ensures { SavesRing (form_view form) ring image.old image.new }
{
    let p = places_of(form);
    put_bytes(image, p.count, 1, ring.output_len as u64);
    put_bytes(image, p.drops, form::DROPS_LENGTH, ring.output_drops as u64);
    let at = p.pairs;
    let end = at + form::PAIRS_LENGTH;
    put_pairs(&mut image[at..end], ring);
}

// The numbers, as their body has them, in the form that has it. By value: a body that is lent could be the image's own, and would be copied byte by byte.
pub fn save_numbers(image: &mut [u8], form: Form, body: [u8; 34])
    requires { length image.old ≡ form_length (form_view form) }
    ensures { SavesNumbers (form_view form) body image.old image.new }
{
    let Form::Numbered = form else {
        return;
    };
    let p = places_of(form);
    let at = p.next;
    let end = at + form::NUMBER_BODY_LENGTH;
    copy(&mut image[at..end], &body);
}

// A whole state from the bytes of an image: each part from its fields. What is asked of an image is its length, and of its ring the count.
ghost use Rattle.std.specs.Prelude.{◌≡◌, ◌≤◌, length};
ghost use Rattle.rules.specs.Ring.{capacity};
ghost use Rattle.images.specs.Form.{form_length};
ghost use Rattle.images.specs.Image.{count_in, decode_as};
ghost use Rattle.device.specs.state.View.{Is};
ghost use Rattle.image.specs.Shown.{form_view};

use crate::load_ring::load_ring;
use crate::load_tables::{load_routes, load_vectors};
use crate::load_words::{load_lines, load_stored};
use device::state::{PchPicState, Tables};
use image::form::Form;

pub fn load(image: &[u8], form: Form) -> PchPicState
    requires { (length image.now ≡ form_length (form_view form)) × (count_in (form_view form) image.now ≤ capacity) }
    ensures { Is result (decode_as (form_view form) image.now) }
{
    let lines = load_lines(image, form);
    let stored = load_stored(image, form);
    let route_entry = load_routes(image, form);
    let htmsi_vector = load_vectors(image, form);
    let ring = load_ring(image, form);
    PchPicState {
        lines,
        stored,
        tables: Tables {
            route_entry,
            htmsi_vector,
        },
        ring,
    }
}

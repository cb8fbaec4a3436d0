// A whole state into the bytes of an image: each part into its fields, and no other byte.
ghost use Rattle.std.specs.Prelude.{◌≡◌, length};
ghost use Rattle.images.specs.Form.{form_length};
ghost use Rattle.device.specs.state.View.{Well, view};
ghost use Rattle.image.specs.Shown.{form_view};
ghost use Rattle.stored.specs.saves.Shown.{SavedAs};

use crate::{save_parts, save_words};
use device::state::PchPicState;
use image::form::Form;

// The state, and beside it the body of the numbers.
pub fn save(image: &mut [u8], form: Form, state: PchPicState, numbers: &[u8; 34])
    requires { (length image.old ≡ form_length (form_view form)) × Well state }
    ensures { SavedAs (form_view form) (view state) numbers.now image.new }
{
    save_words::put_contents(image, form);
    save_words::save_lines(image, form, state.lines);
    save_words::save_stored(image, form, state.stored);
    save_parts::save_tables(image, form, state.tables);
    save_parts::save_ring(image, form, state.ring);
    save_parts::save_numbers(image, form, *numbers);
}

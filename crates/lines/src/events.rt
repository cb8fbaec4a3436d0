// The events that a register write makes, offered to the ring.
ghost use Rattle.std.specs.Prelude.{◌≡◌, ◌≤◌, length};
ghost use Rattle.basics.specs.Inputs.{on, inputs};
ghost use Rattle.images.specs.Form.{form_length};
ghost use Rattle.image.specs.Shown.{form_view};
ghost use Rattle.device.specs.state.View.{answer_value};
ghost use Rattle.fields.specs.inplace.Held.{Offers};
ghost use Rattle.lines.specs.events.Offered.{assert_of, deasserts};

use fields::entries::vector;
use fields::ring::offer;
use image::form::Form;

// The assert of the input that entered, if one did.
pub fn offer_entered(image: &mut [u8], form: Form, entered: Option<u8>) -> u32
    requires { length image.old ≡ form_length (form_view form) }
    ensures { (result ≤ 1) × Offers image.old image.new result (λ d. assert_of (answer_value entered)) }
{
    match entered {
        None => 0,
        Some(v) => offer(image, form, v, true),
    }
}

// A deassert for each input of a set, lowest first, all added up: for a ring that has just dropped one.
fn offer_rest(image: &mut [u8], form: Form, set: u64) -> u32
    requires { length image.old ≡ form_length (form_view form) }
    ensures { (result ≤ length (inputs (on set))) × Offers image.old image.new result (λ d. deasserts d.core set) }
{
    let mut left = set;
    let mut dropped = 0;
    while left != 0 {
        let irq = left.trailing_zeros() as usize;
        let vector = vector(image, form, irq);
        dropped += offer(image, form, vector, false);
        left &= left - 1;
    }
    dropped
}

// A deassert for each input of a set, lowest first. Nothing is added up until one is dropped, since those before it were kept.
pub fn offer_each(image: &mut [u8], form: Form, set: u64) -> u32
    requires { length image.old ≡ form_length (form_view form) }
    ensures { (result ≤ 64) × Offers image.old image.new result (λ d. deasserts d.core set) }
{
    let mut left = set;
    while left != 0 {
        let irq = left.trailing_zeros() as usize;
        let vector = vector(image, form, irq);
        let dropped = offer(image, form, vector, false);
        left &= left - 1;
        if dropped != 0 {
            return dropped + offer_rest(image, form, left);
        }
    }
    0
}

// Who waits, on the image alone: what is told is handed back, and the image stays. It is tested here, 4, 5, 8 to 11.
ghost use Rattle.std.specs.Prelude.{◌≡◌, [], length};
ghost use Rattle.images.specs.Form.{form_length};
ghost use Rattle.calls.specs.Waiting.{waiting_in, waiting_ending};
ghost use Rattle.image.specs.Shown.{form_view};
ghost use Rattle.fields.specs.inplace.Held.{Reads};
ghost use Rattle.answer.specs.Given.{ends};

use answer::Told;
use answer::accepted::accepted;
use device::decide;
use fields::words;
use image::form::Form;

// Of all 64 inputs those that a poll would bring into service.
pub fn set_of(image: &[u8], form: Form) -> u64
    requires { length image.now ≡ form_length (form_view form) }
    ensures { Reads image.now result (λ d. waiting_in d.core.lines) }
{
    let irr = words::irr(image, form);
    let mask = words::mask(image, form);
    let isr = words::isr(image, form);
    decide::pending(0xffff_ffff_ffff_ffff, irr, mask, isr)
}

pub fn waiting(image: &[u8]) -> Told
    ensures { ends result image.now [] ≡ waiting_ending image.now }
{
    let form = accepted(image)?;
    Ok(Some(set_of(image, form)))
}

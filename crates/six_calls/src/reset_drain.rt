// The calls on the device as a whole, on the image and a drain's buffer: what they tell is handed back.
ghost use Rattle.std.specs.Prelude.{◌≡◌, true, [], ◌≤◌, length};
ghost use Rattle.rules.specs.Numbering.{drained_length};
ghost use Rattle.images.specs.Form.{form_length};
ghost use Rattle.calls.specs.Calls.{ending};
ghost use Rattle.calls.specs.Calls as asked;
ghost use Rattle.image.specs.Shown.{form_view};
ghost use Rattle.answer.specs.Given.{ends};
ghost use Rattle.six_calls.specs.reset_drain.Waits.{Waits};

use answer::Told;
use answer::accepted::accepted;
use answer::refusals::Refusal;
use drain::drains;
use image::by_form;
use image::form::{EVENT, Form, form_of, places_of};
use image::quick::{contents_apart, single_odd};
use stored::save_reset;

// Any bytes will do that have the length of a form; the reset device is saved in that form.
pub fn reset(image: &mut [u8]) -> Told
    ensures { ends result image.new [] ≡ ending asked.reset image.old }
{
    let length = image.len();
    let Some(form) = form_of(length) else {
        return Err(Refusal::WrongLength);
    };
    save_reset::save_reset(image, form);
    Ok(None)
}

// The events go to the front of the buffer. The image is tested in full.
fn drain_tested(image: &mut [u8], events: &mut [u8]) -> Told
    ensures { ends result image.new events.new ≡ ending (asked.drain events.old 0) image.old }
{
    let form = accepted(image)?;
    let count = drains::drain(image, form, events);
    Ok(Some(count as u64))
}

// True only where the image is accepted, one waits in it, and there is room for it: the commonest drain. False tells nothing.
pub fn one_fits(image: &[u8], form: Form, room: usize) -> bool
    requires { length image.now ≡ form_length (form_view form) }
    ensures { Waits 1 (form_view form) image.now result × (result ≡ true → drained_length ≤ room) }
{
    let p = places_of(form);
    let count = p.count;
    if image[count] != 1 {
        return false;
    }
    let odd = contents_apart(image, form) | single_odd(image, form);
    (odd == 0) & (EVENT <= room)
}

// A drain. The only one that waits goes out at once, in an arm for each form.
pub fn drain(image: &mut [u8], events: &mut [u8]) -> Told
    ensures { ends result image.new events.new ≡ ending (asked.drain events.old 0) image.old }
{
    if let Some(form) = form_of(image.len()) {
        by_form!(
            form,
            {
                if one_fits(image, form, events.len()) {
                    drains::one(image, form, events);
                    return Ok(Some(1));
                }
            }
        );
    }
    drain_tested(image, events)
}

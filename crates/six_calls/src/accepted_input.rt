// The calls on an input of an image that is accepted: 3, and then the move. What they tell is handed back.
// A level and a poll stand beside one another: of a closure that made the move nothing would be known of the image that it changed.
ghost use Rattle.std.specs.Prelude.{◌≡◌, [], length};
ghost use Rattle.images.specs.Form.{form_length};
ghost use Rattle.calls.specs.Calls.{ending};
ghost use Rattle.calls.specs.Calls as asked;
ghost use Rattle.image.specs.Shown.{form_view};
ghost use Rattle.device.specs.state.View.{answer_value};
ghost use Rattle.fields.specs.inplace.Passed.{Passed};
ghost use Rattle.answer.specs.Given.{value_view, ends};
ghost use Rattle.six_calls.specs.accepted_input.Returned.{TakesNumber};

use answer::Told;
use answer::refusals::Refusal;
use fields::event_numbers;
use image::form::Form;
use lines::service;

// The vector that a call on an input returns, with its number, as a value.
fn numbered(image: &mut [u8], form: Form, answer: Option<u8>) -> Option<u64>
    requires { length image.old ≡ form_length (form_view form) }
    ensures { TakesNumber image.old image.new (answer_value answer) (value_view result) }
{
    match answer {
        Some(vector) => {
            let number = event_numbers::take(image, form);
            Some(vector as u64 + 0x1_0000 * (number as u64))
        }
        None => None,
    }
}

pub fn level(image: &mut [u8], form: Form, input: u64, level: u64) -> Told
    requires { Passed (form_view form) image.old }
    ensures { ends result image.new [] ≡ ending (asked.level input level) image.old }
{
    if 64 <= input {
        return Err(Refusal::NoInput);
    }
    let returned = service::set_level(image, form, input as usize, level != 0);
    Ok(numbered(image, form, returned))
}

pub fn poll(image: &mut [u8], form: Form, input: u64) -> Told
    requires { Passed (form_view form) image.old }
    ensures { ends result image.new [] ≡ ending (asked.poll input) image.old }
{
    if 64 <= input {
        return Err(Refusal::NoInput);
    }
    let returned = service::poll(image, form, input as usize);
    Ok(numbered(image, form, returned))
}

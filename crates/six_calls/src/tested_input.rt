// The calls on an input, on the image alone: what they tell is handed back. The image is tested here, 4, 5, 8 to 11; what comes after is `accepted_input`. The quick test comes first, in
// an arm for each form.
// A level and a poll stand beside one another: of a closure that made the move nothing would be known of the image that it changed.
ghost use Rattle.std.specs.Prelude.{◌≡◌, []};
ghost use Rattle.calls.specs.Calls.{ending};
ghost use Rattle.calls.specs.Calls as asked;
ghost use Rattle.answer.specs.Given.{ends};

use crate::accepted_input;
use answer::Told;
use answer::accepted::accepted;
use image::by_form;
use image::form::form_of;
use image::quick::odd;

fn level_tested(image: &mut [u8], input: u64, level: u64) -> Told
    ensures { ends result image.new [] ≡ ending (asked.level input level) image.old }
{
    let form = accepted(image)?;
    accepted_input::level(image, form, input, level)
}

fn poll_tested(image: &mut [u8], input: u64) -> Told
    ensures { ends result image.new [] ≡ ending (asked.poll input) image.old }
{
    let form = accepted(image)?;
    accepted_input::poll(image, form, input)
}

pub fn level(image: &mut [u8], input: u64, level: u64) -> Told
    ensures { ends result image.new [] ≡ ending (asked.level input level) image.old }
{
    if let Some(form) = form_of(image.len()) {
        by_form!(
            form,
            {
                if odd(image, form) == 0 {
                    return accepted_input::level(image, form, input, level);
                }
            }
        );
    }
    level_tested(image, input, level)
}

pub fn poll(image: &mut [u8], input: u64) -> Told
    ensures { ends result image.new [] ≡ ending (asked.poll input) image.old }
{
    if let Some(form) = form_of(image.len()) {
        by_form!(
            form,
            {
                if odd(image, form) == 0 {
                    return accepted_input::poll(image, form, input);
                }
            }
        );
    }
    poll_tested(image, input)
}

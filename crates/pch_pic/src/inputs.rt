// The calls on an input, and who waits, behind what a front tests first. What they tell goes into the answer area.
// A level and a poll stand beside one another: of a closure that made the move nothing would be known of the image that it changed.
ghost use Rattle.std.specs.Prelude.{◌≡◌, [], ◌≤◌, length, Ok};
ghost use Rattle.calls.specs.Calls.{answer_length, leaves, outcome};
ghost use Rattle.calls.specs.Calls as asked;
ghost use Rattle.calls.specs.Waiting.{waiting};
ghost use Rattle.image.specs.Shown.{form_view};
ghost use Rattle.image.specs.head.Good.{Headed};
ghost use Rattle.fields.specs.inplace.Passed.{Passed};

use answer::accepted::bodies_accepted;
use answer::tell;
use image::by_form;
use image::form::Form;
use image::quick::few_odd;
use six_calls::{accepted_input, who_waits};

// The image is accepted.
pub fn level_on(image: &mut [u8], form: Form, input: u64, level: u64, answer: &mut [u8]) -> u8
    requires { Passed (form_view form) image.old × (answer_length ≤ length answer.old) }
    ensures { leaves result image.new answer.new [] ≡ outcome (asked.level input level) image.old answer.old }
{
    let told = accepted_input::level(image, form, input, level);
    tell(answer, told)
}

// The contents are those of the form, and the bodies are still to be tested.
fn level_tested(image: &mut [u8], form: Form, input: u64, level: u64, answer: &mut [u8]) -> u8
    requires { Headed (Ok form) image.old × (answer_length ≤ length answer.old) }
    ensures { leaves result image.new answer.new [] ≡ outcome (asked.level input level) image.old answer.old }
{
    if let Err(refusal) = bodies_accepted(image, form) {
        return tell(answer, Err(refusal));
    }
    level_on(image, form, input, level, answer)
}

pub fn poll_on(image: &mut [u8], form: Form, input: u64, answer: &mut [u8]) -> u8
    requires { Passed (form_view form) image.old × (answer_length ≤ length answer.old) }
    ensures { leaves result image.new answer.new [] ≡ outcome (asked.poll input) image.old answer.old }
{
    let told = accepted_input::poll(image, form, input);
    tell(answer, told)
}

fn poll_tested(image: &mut [u8], form: Form, input: u64, answer: &mut [u8]) -> u8
    requires { Headed (Ok form) image.old × (answer_length ≤ length answer.old) }
    ensures { leaves result image.new answer.new [] ≡ outcome (asked.poll input) image.old answer.old }
{
    if let Err(refusal) = bodies_accepted(image, form) {
        return tell(answer, Err(refusal));
    }
    poll_on(image, form, input, answer)
}

pub fn level_waiting(image: &mut [u8], form: Form, input: u64, level: u64, answer: &mut [u8]) -> u8
    requires { Headed (Ok form) image.old × (answer_length ≤ length answer.old) }
    ensures { leaves result image.new answer.new [] ≡ outcome (asked.level input level) image.old answer.old }
{
    by_form!(
        form,
        {
            if few_odd(image, form) == 0 {
                return level_on(image, form, input, level, answer);
            }
            level_tested(image, form, input, level, answer)
        }
    )
}

pub fn poll_waiting(image: &mut [u8], form: Form, input: u64, answer: &mut [u8]) -> u8
    requires { Headed (Ok form) image.old × (answer_length ≤ length answer.old) }
    ensures { leaves result image.new answer.new [] ≡ outcome (asked.poll input) image.old answer.old }
{
    by_form!(
        form,
        {
            if few_odd(image, form) == 0 {
                return poll_on(image, form, input, answer);
            }
            poll_tested(image, form, input, answer)
        }
    )
}

// Who waits, of an image that is accepted.
pub fn waiting_on(image: &[u8], form: Form, answer: &mut [u8]) -> u8
    requires { Passed (form_view form) image.now × (answer_length ≤ length answer.old) }
    ensures { leaves result image.now answer.new [] ≡ waiting image.now answer.old }
{
    let set = who_waits::set_of(&*image, form);
    tell(answer, Ok(Some(set)))
}

// Of any other one: it is tested the whole way.
pub fn waiting_tested(image: &[u8], answer: &mut [u8]) -> u8
    requires { answer_length ≤ length answer.old }
    ensures { leaves result image.now answer.new [] ≡ waiting image.now answer.old }
{
    let told = who_waits::waiting(&*image);
    tell(answer, told)
}

// An image moved to the form of a target's length, by way of the whole state: what is told is handed back. The order of the tests is 4 of the image, 4 of the
// target, then 5 and 8 to 11.
ghost use Rattle.std.specs.Prelude.{◌≡◌, [], length};
ghost use Rattle.images.specs.Form.{form_of, known};
ghost use Rattle.image.specs.Shown.{form_view};
ghost use Rattle.fields.specs.inplace.Passed.{Passed};
ghost use Rattle.calls.specs.Convert.{convert_ending};
ghost use Rattle.answer.specs.Given.{ends};

use crate::{load_numbers, load_state};
use answer::Told;
use answer::accepted::accepted;
use answer::refusals::Refusal;
use image::form::{Form, form_of};
use stored::save_state;

// Of an accepted image, and of a target that has the length of its form. It stands apart from the tests: in one function with them the text as Rust takes up to a third more time.
fn convert_tested(image: &[u8], own: Form, target: &mut [u8], form: Form) -> Told
    requires { Passed (form_view own) image.now × (form_of (length target.old) ≡ known (form_view form)) }
    ensures { ends result target.new [] ≡ convert_ending image.now target.old }
{
    let numbers = load_numbers::load_numbers(image, own);
    save_state::save(target, form, load_state::load(image, own), &numbers);
    Ok(None)
}

// The target is written only where all tests have passed; any bytes of its length will do.
pub fn convert(image: &[u8], target: &mut [u8]) -> Told
    ensures { ends result target.new [] ≡ convert_ending image.now target.old }
{
    let Some(_) = form_of(image.len()) else {
        return Err(Refusal::WrongLength);
    };
    let Some(form) = form_of(target.len()) else {
        return Err(Refusal::WrongLength);
    };
    let own = accepted(image)?;
    convert_tested(image, own, target, form)
}

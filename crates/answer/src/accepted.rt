// Whether an image is accepted, as the long way of a call tests it: 4 and 5 by its length and its contents, and then 8 to 11 by its bodies.
ghost use Rattle.image.specs.head.Good.{Headed};
ghost use Rattle.answer.specs.Given.{Accepts, AcceptsBodies};
ghost use Rattle.std.specs.Prelude.{Ok};

use crate::refusals::Refusal;
use image::bodies::{test_bodies, test_waiting};
use image::faults::first_fault;
use image::form::Form;
use image::head::test_head;

// The form of an accepted image. What is wrong in a body is searched for only in one that is not.
#[inline(always)]
pub fn accepted(image: &[u8]) -> Result<Form, Refusal>
    ensures { Accepts result image.now }
{
    let form = test_head(image)?;
    if !test_bodies(image, form) {
        first_fault(image, form)?;
    }
    Ok(form)
}

// The bodies alone, of an image whose contents are those of its form, and in which something waits as a rule.
#[inline(always)]
pub fn bodies_accepted(image: &[u8], form: Form) -> Result<(), Refusal>
    requires { Headed (Ok form) image.now }
    ensures { AcceptsBodies result form image.now }
{
    if !test_waiting(image, form) {
        first_fault(image, form)?;
    }
    Ok(())
}

// Which form an image is of: its length tells the form, and its contents, at the front, are those of that form. Bytes are compared as numbers, eight at a
// time.
ghost use Rattle.std.specs.Prelude.{◌≡◌, length};
ghost use Rattle.images.specs.Form.{form_length, form_of, known};
ghost use Rattle.image.specs.Shown.{form_view};
ghost use Rattle.image.specs.head.Good.{Headed, head_good};

use crate::by_form;
use crate::form::{Form, contents_of, form_of};
use bits::bytes::word_at;

// Why bytes are no image of a form.
#[derive(Clone, Copy, PartialEq, Eq)]
pub enum HeadFault {
    WrongLength,
    WrongContents,
}

fn contents_good(image: &[u8], form: Form) -> bool
    requires { length image.now ≡ form_length (form_view form) }
    ensures { result ≡ head_good (form_view form) image.now }
{
    let c = contents_of(form);
    if word_at(image, 0) != c.first {
        return false;
    }
    if word_at(image, 8) != c.second {
        return false;
    }
    if word_at(image, 14) != c.third {
        return false;
    }
    word_at(image, c.last_at) == c.last
}

fn headed(image: &[u8], form: Form) -> Result<Form, HeadFault>
    requires { form_of (length image.now) ≡ known (form_view form) }
    ensures { Headed result image.now }
{
    if contents_good(image, form) {
        return Ok(form);
    }
    Err(HeadFault::WrongContents)
}

// An arm for each form, so that each compares with constants.
pub fn test_head(image: &[u8]) -> Result<Form, HeadFault>
    ensures { Headed result image.now }
{
    let Some(form) = form_of(image.len()) else {
        return Err(HeadFault::WrongLength);
    };
    by_form!(form, headed(image, form))
}

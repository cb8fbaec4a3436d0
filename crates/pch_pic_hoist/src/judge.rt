// What 15 is given for, on an image that is accepted (02, C-22): an aligned Dword that is written and is not for a hoist guest, and a start-up that cannot end.
ghost use Rattle.std.specs.Prelude.{◌≡◌, ◌+◌, ◌%◌, ◌≤◌, length};
ghost use Rattle.rules.specs.Access.{dword};
ghost use Rattle.rules.specs.Device.{write};
ghost use Rattle.images.specs.Form.{form_length};
ghost use Rattle.image.specs.Shown.{form_view};
ghost use Rattle.fields.specs.inplace.Held.{Reads};
ghost use Rattle.hoists.specs.Profile.{changes_served, forbidden};
ghost use Rattle.hoists.specs.HoistCalls.{cannot_end};

use crate::profile::{changes_served, in_vectors, is_isr};
use access::cells::read_dword;
use fields::words;
use image::form::Form;

// A vector write in start-up, by the four bytes that it would replace.
fn forbidden_in_vectors(image: &[u8], form: Form, offset: usize, value: u64) -> bool
    requires { (length image.now ≡ form_length (form_view form)) × (0x200 ≤ offset) × (offset + 4 ≤ 0x240) }
    ensures { Reads image.now result (λ d. changes_served d (write dword offset value)) }
{
    let isr = words::isr(image, form);
    let old = read_dword(image, form, offset);
    changes_served(isr, offset - 0x200, old, bits::half(value, false))
}

// 15: to ISR, after start-up to the vectors, or where it would change a byte in service.
pub fn forbidden(image: &[u8], form: Form, running: bool, offset: usize, value: u64) -> bool
    requires { (length image.now ≡ form_length (form_view form)) × (offset % 4 ≡ 0) }
    ensures { Reads image.now result (λ d. forbidden running d offset value) }
{
    if is_isr(offset) {
        return true;
    }
    if !in_vectors(offset) {
        return false;
    }
    if running {
        return true;
    }
    forbidden_in_vectors(image, form, offset, value)
}

// Start-up can end once, and while no input is in service, masked or not.
pub fn cannot_end(image: &[u8], form: Form, running: bool) -> bool
    requires { length image.now ≡ form_length (form_view form) }
    ensures { Reads image.now result (λ d. cannot_end running d) }
{
    running || words::isr(image, form) != 0
}

// Reads and writes through the window of an image that is accepted: 2 before 1, and then the access itself. What they tell is handed back.
// The four widths stand behind the tests in one function: so far from its start the compiler leaves them calls, and each pays for its own work alone.
ghost use Rattle.std.specs.Prelude.{◌≡◌, []};
ghost use Rattle.calls.specs.Calls.{ending};
ghost use Rattle.calls.specs.Calls as asked;
ghost use Rattle.image.specs.Shown.{form_view};
ghost use Rattle.fields.specs.inplace.Passed.{Passed};
ghost use Rattle.answer.specs.Given.{ends};

use access::cells::{read_dword, write_dword};
use access::narrow::{read_byte, read_word, write_byte, write_word};
use access::wide::{read_qword, write_qword};
use answer::Told;
use answer::refusals::Refusal;
use device::map::Width;
use device::window;
use image::form::Form;

pub fn read(image: &[u8], form: Form, base: u64, size: u64, address: u64, width: u64) -> Told
    requires { Passed (form_view form) image.now }
    ensures { ends result image.now [] ≡ ending (asked.read base size address width) image.now }
{
    let Some(known) = window::width_of(width) else {
        return Err(Refusal::NoWidth);
    };
    let Some(offset) = window::locate(base, size, address, width) else {
        return Err(Refusal::Outside(address));
    };
    match known {
        Width::Byte => Ok(Some(read_byte(image, form, offset) as u64)),
        Width::Word => Ok(Some(read_word(image, form, offset))),
        Width::Dword => Ok(Some(read_dword(image, form, offset) as u64)),
        Width::Qword => Ok(Some(read_qword(image, form, offset))),
    }
}

// The value that is told is how many events were dropped.
pub fn write(
    image: &mut [u8],
    form: Form,
    base: u64,
    size: u64,
    address: u64,
    width: u64,
    value: u64,
) -> Told
    requires { Passed (form_view form) image.old }
    ensures { ends result image.new [] ≡ ending (asked.write base size address width value) image.old }
{
    let Some(known) = window::width_of(width) else {
        return Err(Refusal::NoWidth);
    };
    let Some(offset) = window::locate(base, size, address, width) else {
        return Err(Refusal::Outside(address));
    };
    let low = bits::half(value, false);
    match known {
        Width::Byte => Ok(Some(write_byte(image, form, offset, bits::byte_of(low, 0)) as u64)),
        Width::Word => Ok(Some(write_word(image, form, offset, low) as u64)),
        Width::Dword => Ok(Some(write_dword(image, form, offset, low) as u64)),
        Width::Qword => Ok(Some(write_qword(image, form, offset, value) as u64)),
    }
}

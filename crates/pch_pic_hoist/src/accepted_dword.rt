// Reads and writes of a hoist guest through the window of an image that is accepted: 2 before 1, then 14 before 15, and then the Dword itself.
ghost use Rattle.std.specs.Prelude.{◌≡◌, false, []};
ghost use Rattle.calls.specs.Calls as asked;
ghost use Rattle.image.specs.Shown.{form_view};
ghost use Rattle.fields.specs.inplace.Passed.{Passed};
ghost use Rattle.answer.specs.Given.{ends};
ghost use Rattle.hoists.specs.HoistCalls.{hoist_ending};

use crate::judge::forbidden;
use crate::profile::is_aligned_dword;
use access::cells::{read_dword, write_dword};
use answer::Told;
use answer::refusals::Refusal;
use device::window;
use image::form::Form;

pub fn read(image: &[u8], form: Form, base: u64, size: u64, address: u64, width: u64) -> Told
    requires { Passed (form_view form) image.now }
    ensures { ends result image.now [] ≡ hoist_ending false (asked.read base size address width) image.now }
{
    let Some(known) = window::width_of(width) else {
        return Err(Refusal::NoWidth);
    };
    let Some(offset) = window::locate(base, size, address, width) else {
        return Err(Refusal::Outside(address));
    };
    if !is_aligned_dword(known, offset) {
        return Err(Refusal::Unaligned);
    }
    Ok(Some(read_dword(image, form, offset) as u64))
}

// The value that is told is how many events were dropped.
pub fn write(
    image: &mut [u8],
    form: Form,
    running: bool,
    base: u64,
    size: u64,
    address: u64,
    width: u64,
    value: u64,
) -> Told
    requires { Passed (form_view form) image.old }
    ensures { ends result image.new [] ≡ hoist_ending running (asked.write base size address width value) image.old }
{
    let Some(known) = window::width_of(width) else {
        return Err(Refusal::NoWidth);
    };
    let Some(offset) = window::locate(base, size, address, width) else {
        return Err(Refusal::Outside(address));
    };
    if !is_aligned_dword(known, offset) {
        return Err(Refusal::Unaligned);
    }
    if forbidden(image, form, running, offset, value) {
        return Err(Refusal::Unfit);
    }
    let lost = write_dword(image, form, offset, bits::half(value, false));
    Ok(Some(lost as u64))
}

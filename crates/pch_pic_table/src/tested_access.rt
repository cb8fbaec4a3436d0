// Reads and writes through the window that are decoded by the table, on the image alone: what they tell is handed back. The tests are those of accesses.
// A read and a write stand beside one another: of a closure that made the access nothing would be known of the image that it changed.
ghost use Rattle.std.specs.Prelude.{◌≡◌, []};
ghost use Rattle.calls.specs.Calls.{ending};
ghost use Rattle.calls.specs.Calls as asked;
ghost use Rattle.answer.specs.Given.{ends};

use crate::table_widths;
use answer::Told;
use answer::accepted::accepted;
use answer::refusals::Refusal;
use device::window;
use table::table_rows;

pub fn read(image: &[u8], base: u64, size: u64, address: u64, width: u64) -> Told
    ensures { ends result image.now [] ≡ ending (asked.read base size address width) image.now }
{
    let form = accepted(image)?;
    let Some(known) = window::width_of(width) else {
        return Err(Refusal::NoWidth);
    };
    let Some(offset) = window::locate(base, size, address, width) else {
        return Err(Refusal::Outside(address));
    };
    let table = table_rows::lent();
    let value = table_widths::read_access(image, form, table, known, offset);
    Ok(Some(value))
}

pub fn write(image: &mut [u8], base: u64, size: u64, address: u64, width: u64, value: u64) -> Told
    ensures { ends result image.new [] ≡ ending (asked.write base size address width value) image.old }
{
    let form = accepted(image)?;
    let Some(known) = window::width_of(width) else {
        return Err(Refusal::NoWidth);
    };
    let Some(offset) = window::locate(base, size, address, width) else {
        return Err(Refusal::Outside(address));
    };
    let table = table_rows::lent();
    let dropped = table_widths::write_access(image, form, table, known, offset, value);
    Ok(Some(dropped as u64))
}

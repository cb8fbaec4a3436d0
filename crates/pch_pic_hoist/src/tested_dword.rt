// The hoist profile's reads and writes, and the end of start-up, on the image alone: what they tell is handed back. The image is tested here, 4, 5, 8 to 11; what
// comes after is `accepted_dword`.
// A read and a write stand beside one another: of a closure that made the access nothing would be known of the image that it changed.
ghost use Rattle.std.specs.Prelude.{◌≡◌, false, []};
ghost use Rattle.calls.specs.Calls as asked;
ghost use Rattle.answer.specs.Given.{ends};
ghost use Rattle.hoists.specs.HoistCalls.{hoist_ending, end_ending};

use crate::accepted_dword;
use crate::judge::cannot_end;
use answer::Told;
use answer::accepted::accepted;
use answer::refusals::Refusal;

pub fn read(image: &[u8], base: u64, size: u64, address: u64, width: u64) -> Told
    ensures { ends result image.now [] ≡ hoist_ending false (asked.read base size address width) image.now }
{
    let form = accepted(image)?;
    accepted_dword::read(image, form, base, size, address, width)
}

// The value that is told is how many events were dropped.
pub fn write(
    image: &mut [u8],
    running: bool,
    base: u64,
    size: u64,
    address: u64,
    width: u64,
    value: u64,
) -> Told
    ensures { ends result image.new [] ≡ hoist_ending running (asked.write base size address width value) image.old }
{
    let form = accepted(image)?;
    accepted_dword::write(image, form, running, base, size, address, width, value)
}

// The image is read alone; the phase is stored where the answer area is known.
pub fn end_startup(image: &[u8], running: bool) -> Told
    ensures { ends result image.now [] ≡ end_ending running image.now }
{
    let form = accepted(image)?;
    if cannot_end(image, form, running) {
        return Err(Refusal::Unfit);
    }
    Ok(None)
}

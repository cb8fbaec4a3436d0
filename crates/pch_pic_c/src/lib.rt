// The calls of `pch_pic` for C. A crate is a library for other crates or for C: this is the one for C, and says word for word what that one says.
#![tactic(auto)]

ghost use Rattle.std.specs.Prelude.{◌≡◌, []};
ghost use Rattle.calls.specs.Calls.{leaves, outcome};
ghost use Rattle.calls.specs.Calls as asked;
ghost use Rattle.calls.specs.Waiting.{waiting};

#[unsafe(no_mangle)]
pub extern "C" fn pch_pic_reset(image: &mut [u8], answer: &mut [u8]) -> u8
    ensures { leaves result image.new answer.new [] ≡ outcome asked.reset image.old answer.old }
{
    pch_pic::pch_pic_reset(image, answer)
}

#[unsafe(no_mangle)]
pub extern "C" fn pch_pic_read(
    image: &[u8],
    base: u64,
    size: u64,
    address: u64,
    width: u64,
    answer: &mut [u8],
) -> u8
    ensures { leaves result image.now answer.new []
        ≡ outcome (asked.read base size address width) image.now answer.old }
{
    pch_pic::pch_pic_read(&*image, base, size, address, width, answer)
}

#[unsafe(no_mangle)]
pub extern "C" fn pch_pic_write(
    image: &mut [u8],
    base: u64,
    size: u64,
    address: u64,
    width: u64,
    value: u64,
    answer: &mut [u8],
) -> u8
    ensures { leaves result image.new answer.new []
        ≡ outcome (asked.write base size address width value) image.old answer.old }
{
    pch_pic::pch_pic_write(image, base, size, address, width, value, answer)
}

#[unsafe(no_mangle)]
pub extern "C" fn pch_pic_level(image: &mut [u8], input: u64, level: u64, answer: &mut [u8]) -> u8
    ensures { leaves result image.new answer.new [] ≡ outcome (asked.level input level) image.old answer.old }
{
    pch_pic::pch_pic_level(image, input, level, answer)
}

#[unsafe(no_mangle)]
pub extern "C" fn pch_pic_poll(image: &mut [u8], input: u64, answer: &mut [u8]) -> u8
    ensures { leaves result image.new answer.new [] ≡ outcome (asked.poll input) image.old answer.old }
{
    pch_pic::pch_pic_poll(image, input, answer)
}

#[unsafe(no_mangle)]
pub extern "C" fn pch_pic_drain(
    image: &mut [u8],
    events: &mut [u8],
    place: usize,
    answer: &mut [u8],
) -> u8
    ensures { leaves result image.new answer.new events.new
        ≡ outcome (asked.drain events.old place) image.old answer.old }
{
    pch_pic::pch_pic_drain(image, events, place, answer)
}

#[unsafe(no_mangle)]
pub extern "C" fn pch_pic_waiting(image: &[u8], answer: &mut [u8]) -> u8
    ensures { leaves result image.now answer.new [] ≡ waiting image.now answer.old }
{
    pch_pic::pch_pic_waiting(&*image, answer)
}

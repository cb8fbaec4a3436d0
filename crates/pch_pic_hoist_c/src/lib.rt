// The calls of `pch_pic_hoist` for C. A crate is a library for other crates or for C: this is the one for C, and says word for word what that one says.
#![tactic(auto)]

ghost use Rattle.std.specs.Prelude.{◌≡◌, []};
ghost use Rattle.calls.specs.Calls.{leaves};
ghost use Rattle.hoists.specs.HoistCalls.{hoist_read, hoist_write, phase_leaves, hoist_reset, end_startup};

#[unsafe(no_mangle)]
pub extern "C" fn pch_pic_hoist_reset(image: &mut [u8], phase: &mut [u8], answer: &mut [u8]) -> u8
    ensures { phase_leaves result image.new phase.new answer.new
        ≡ hoist_reset image.old phase.old answer.old }
{
    pch_pic_hoist::pch_pic_hoist_reset(image, phase, answer)
}

#[unsafe(no_mangle)]
pub extern "C" fn pch_pic_hoist_read(
    image: &[u8],
    base: u64,
    size: u64,
    address: u64,
    width: u64,
    answer: &mut [u8],
) -> u8
    ensures { leaves result image.now answer.new []
        ≡ hoist_read base size address width image.now answer.old }
{
    pch_pic_hoist::pch_pic_hoist_read(&*image, base, size, address, width, answer)
}

#[unsafe(no_mangle)]
pub extern "C" fn pch_pic_hoist_write(
    image: &mut [u8],
    phase: &[u8],
    base: u64,
    size: u64,
    address: u64,
    width: u64,
    value: u64,
    answer: &mut [u8],
) -> u8
    ensures { leaves result image.new answer.new []
        ≡ hoist_write base size address width value image.old phase.now answer.old }
{
    pch_pic_hoist::pch_pic_hoist_write(image, &*phase, base, size, address, width, value, answer)
}

#[unsafe(no_mangle)]
pub extern "C" fn pch_pic_hoist_end_startup(image: &[u8], phase: &mut [u8], answer: &mut [u8]) -> u8
    ensures { phase_leaves result image.now phase.new answer.new
        ≡ end_startup image.now phase.old answer.old }
{
    pch_pic_hoist::pch_pic_hoist_end_startup(&*image, phase, answer)
}

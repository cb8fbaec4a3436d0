// The calls of `pch_pic_table` for C. A crate is a library for other crates or for C: this is the one for C, and says word for word what that one says.
#![tactic(auto)]

ghost use Rattle.std.specs.Prelude.{◌≡◌, []};
ghost use Rattle.calls.specs.Calls.{leaves, outcome};
ghost use Rattle.calls.specs.Calls as asked;

#[unsafe(no_mangle)]
pub extern "C" fn pch_pic_table_read(
    image: &[u8],
    base: u64,
    size: u64,
    address: u64,
    width: u64,
    answer: &mut [u8],
) -> u8
    ensures { leaves result image.now answer.new []
        ≡ outcome (asked.read base size address width) image.now answer.old }
{
    pch_pic_table::pch_pic_table_read(&*image, base, size, address, width, answer)
}

#[unsafe(no_mangle)]
pub extern "C" fn pch_pic_table_write(
    image: &mut [u8],
    base: u64,
    size: u64,
    address: u64,
    width: u64,
    value: u64,
    answer: &mut [u8],
) -> u8
    ensures { leaves result image.new answer.new []
        ≡ outcome (asked.write base size address width value) image.old answer.old }
{
    pch_pic_table::pch_pic_table_write(image, base, size, address, width, value, answer)
}

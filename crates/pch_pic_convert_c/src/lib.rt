// The calls of `pch_pic_convert` for C. A crate is a library for other crates or for C: this is the one for C, and says word for word what that one says.
#![tactic(auto)]

ghost use Rattle.std.specs.Prelude.{◌≡◌, []};
ghost use Rattle.calls.specs.Calls.{leaves};
ghost use Rattle.calls.specs.Convert.{conversion};

#[unsafe(no_mangle)]
pub extern "C" fn pch_pic_convert(image: &[u8], target: &mut [u8], answer: &mut [u8]) -> u8
    ensures { leaves result target.new answer.new [] ≡ conversion image.now target.old answer.old }
{
    pch_pic_convert::pch_pic_convert(&*image, target, answer)
}

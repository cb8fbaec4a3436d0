// The calls of `pch_pic_salvage` for C. A crate is a library for other crates or for C: this is the one for C, and says word for word what that one says.
#![tactic(auto)]

ghost use Rattle.std.specs.Prelude.{◌≡◌};
ghost use Rattle.traces.specs.salvages.Salvaging.{salvage_leaves, salvaging};

#[unsafe(no_mangle)]
pub extern "C" fn pch_pic_salvage(
    trace: &[u8],
    kept: &mut [u8],
    list: &mut [u8],
    answer: &mut [u8],
) -> u8
    ensures { salvage_leaves result kept.new list.new answer.new
        ≡ salvaging trace.now kept.old list.old answer.old }
{
    pch_pic_salvage::pch_pic_salvage(&*trace, kept, list, answer)
}

// The calls of `pch_pic_tally` for C. A crate is a library for other crates or for C: this is the one for C, and says word for word what that one says.
#![tactic(auto)]

ghost use Rattle.std.specs.Prelude.{◌≡◌};
ghost use Rattle.passes.specs.tallies.Tallying.{tally_leaves, beginning, adding, summing};

#[unsafe(no_mangle)]
pub extern "C" fn pch_pic_tally_begin(tally: &mut [u8], answer: &mut [u8]) -> u8
    ensures { tally_leaves result tally.new answer.new ≡ beginning tally.old answer.old }
{
    pch_pic_tally::pch_pic_tally_begin(tally, answer)
}

#[unsafe(no_mangle)]
pub extern "C" fn pch_pic_tally_add(
    trace: &[u8],
    image: &[u8],
    tally: &mut [u8],
    answer: &mut [u8],
) -> u8
    ensures { tally_leaves result tally.new answer.new
        ≡ adding trace.now image.now tally.old answer.old }
{
    pch_pic_tally::pch_pic_tally_add(&*trace, &*image, tally, answer)
}

#[unsafe(no_mangle)]
pub extern "C" fn pch_pic_tally_sheet(tally: &[u8], sheet: &mut [u8], answer: &mut [u8]) -> u8
    ensures { tally_leaves result sheet.new answer.new ≡ summing tally.now sheet.old answer.old }
{
    pch_pic_tally::pch_pic_tally_sheet(&*tally, sheet, answer)
}

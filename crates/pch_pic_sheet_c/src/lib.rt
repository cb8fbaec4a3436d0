// The calls of `pch_pic_sheet` for C. A crate is a library for other crates or for C: this is the one for C, and says word for word what that one says.
#![tactic(auto)]

ghost use Rattle.std.specs.Prelude.{◌≡◌};
ghost use Rattle.sheets.specs.Sheeting.{sheet_leaves, sheeting};

#[unsafe(no_mangle)]
pub extern "C" fn pch_pic_sheet(trace: &[u8], sheet: &mut [u8], answer: &mut [u8]) -> u8
    ensures { sheet_leaves result sheet.new answer.new ≡ sheeting trace.now sheet.old answer.old }
{
    pch_pic_sheet::pch_pic_sheet(&*trace, sheet, answer)
}

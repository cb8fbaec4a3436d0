// The call of `difference` for C. A crate is a library for other crates or for C: this is the one for C, and says word for word what that one says.
#![tactic(auto)]

ghost use Rattle.std.specs.Prelude.{◌≡◌};
ghost use Rattle.difference.specs.Difference.{difference_of};

#[unsafe(no_mangle)]
pub extern "C" fn pch_pic_difference(later: u16, earlier: u16) -> i16
    ensures { result ≡ difference_of later earlier }
{
    difference::pch_pic_difference(later, earlier)
}

// The difference of the numbers of two events, for whoever puts returned and drained events in order (02, C-19). It requires nothing.
#![tactic(auto)]

ghost use Rattle.std.specs.Prelude.{◌≡◌};
ghost use Rattle.difference.specs.Difference.{difference_of};

// How far later stands ahead of earlier, from -32,768 to 32,767; negative where it stands behind. Since 0 comes after 65,535, the subtract is the one that
// wraps; and it wraps numbers without a sign alone, so the sign is given here: from 32,768 on, what is left of the way round is the way back.
// By hand, and not by a cast: each of its lines has an edit that makes it wrong.
#[unsafe(no_mangle)]
pub extern "C" fn pch_pic_difference(later: u16, earlier: u16) -> i16
    ensures { result ≡ difference_of later earlier }
{
    let ahead = std::num::wrapping_sub_u16(later, earlier);
    if ahead < 32768 {
        ahead as i16
    } else {
        (ahead as i32 - 65536) as i16
    }
}

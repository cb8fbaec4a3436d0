// Which accesses are the device's: the width, and the address within the window.
ghost use Rattle.std.specs.Prelude.{◌≡◌, ◌+◌, ◌-◌, ◌^◌, min};
ghost use Rattle.calls.specs.Calls.{width_test, address_test};
ghost use Rattle.device.specs.window.Tests.{known_view, located_view, Ends};

use crate::map::Width;

// A width that is known, or None.
pub fn width_of(width: u64) -> Option<Width>
    ensures { known_view result ≡ width_test width }
{
    match width {
        1 => Some(Width::Byte),
        2 => Some(Width::Word),
        4 => Some(Width::Dword),
        8 => Some(Width::Qword),
        _ => None,
    }
}

// How many bytes the window has: its size, or what there is from its base up to 2^64 - 1.
fn bytes_in(base: u64, size: u64) -> u64
    ensures { base + result ≡ min (base + size) (2 ^ 64 - 1) }
{
    size.min(u64::MAX - base)
}

// An access inside the window as an offset; None of one outside. All its bytes must be inside; so no offset within it passes 2^64 - 1. An address below the base wraps to an offset past every window's end.
pub fn locate(base: u64, size: u64, address: u64, width: u64) -> Option<usize>
    ensures { (located_view address result ≡ address_test base size address width) × Ends result width }
{
    let bytes = bytes_in(base, size);
    if width <= bytes {
        let offset = address.wrapping_sub(base);
        if offset <= bytes - width {
            return Some(offset as usize);
        }
    }
    None
}

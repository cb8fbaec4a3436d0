// The hoist profile's tests by value: which accesses are aligned Dwords, which offsets are ISR's or the vectors', and whether a Dword would change a vector byte
// whose input is in service.
ghost use Rattle.std.specs.Prelude.{◌≡◌, ◌+◌, ◌<◌, ◌≤◌};
ghost use Rattle.rules.specs.Map.{in_vectors};
ghost use Rattle.histories.specs.Premises.{is_isr};
ghost use Rattle.device.specs.map.Views.{width_view};
ghost use Rattle.hoists.specs.Profile.{aligned_dword};
ghost use Rattle.hoists.specs.Four.{changes_byte, changes_four};

use device::map::Width;
use device::state::PchPicState;

// ---- an access

// A Dword at an offset that 4 divides.
pub fn is_aligned_dword(width: Width, offset: usize) -> bool
    ensures { result ≡ aligned_dword (width_view width) offset }
{
    matches!(width, Width::Dword) && offset % 4 == 0
}

// ---- a write

pub fn is_isr(offset: usize) -> bool
    ensures { result ≡ is_isr offset }
{
    (offset == PchPicState::INT_ISR_LO) | (offset == PchPicState::INT_ISR_HI)
}

pub fn in_vectors(offset: usize) -> bool
    ensures { result ≡ in_vectors offset }
{
    (PchPicState::HTMSI_VEC_BASE <= offset) & (offset < PchPicState::HTMSI_VEC_BASE + 64)
}

// Byte k of a Dword of vector bytes, the first of which is the input's: its own input is in service, and it would change.
#[tactic(auto, unfolding(basics::specs::Inputs::on))]
fn changes_byte(isr: u64, input: usize, old: u32, new: u32, k: usize) -> bool
    requires { (k < 4) × (input + k < 64) }
    ensures { result ≡ changes_byte isr input old new k }
{
    let n = input + k;
    ((isr >> n) % 2 == 1) & (bits::byte_of(new, k) != bits::byte_of(old, k))
}

// One of the four does.
#[tactic(auto, unfolding(hoists::specs::Four::changes_four))]
pub fn changes_served(isr: u64, input: usize, old: u32, new: u32) -> bool
    requires { input + 4 ≤ 64 }
    ensures { result ≡ changes_four isr input old new }
{
    let a = changes_byte(isr, input, old, new, 0);
    let b = changes_byte(isr, input, old, new, 1);
    let c = changes_byte(isr, input, old, new, 2);
    let d = changes_byte(isr, input, old, new, 3);
    a | (b | (c | d))
}

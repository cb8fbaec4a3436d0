// A register as it reads, and a route or vector byte, after loongarch_pch_pic.rs of axdevice 0.8.5: what its read_dword and read_byte do where they have found the
// register.
ghost use Rattle.std.specs.Prelude.{◌≡◌};
ghost use Rattle.rules.specs.Core.{plain};
ghost use Rattle.rules.specs.Access.{entry, value_of};
ghost use Rattle.device.specs.state.View.{view};
ghost use Rattle.device.specs.map.Views.{plain_view, register_view};

use device::map::{Plain, Register};
use device::state::PchPicState;

// A route or vector byte, and 0 at any other offset.
#[tactic(auto, unfolding(rules::specs::Access::entry))]
pub fn read_entry(state: PchPicState, index: usize) -> u8
    ensures { result ≡ entry (view state).core index }
{
    match index {
        PchPicState::ROUTE_ENTRY_BASE..=PchPicState::ROUTE_ENTRY_LAST => {
            state.tables.route_entry[index - PchPicState::ROUTE_ENTRY_BASE]
        }
        PchPicState::HTMSI_VEC_BASE..=PchPicState::HTMSI_VEC_LAST => {
            state.tables.htmsi_vector[index - PchPicState::HTMSI_VEC_BASE]
        }
        _ => 0,
    }
}

// A register as it reads: CLEAR as 0, ISR without the masked bits.
#[tactic(auto, unfolding(rules::specs::Access::value_of))]
pub fn value_of(state: PchPicState, register: Register) -> u64
    ensures { result ≡ value_of (view state).core (register_view register) }
{
    let lines = state.lines;
    match register {
        Register::Id => PchPicState::INT_ID,
        Register::Mask => lines.int_mask,
        Register::Clear => 0,
        Register::Irr => lines.intirr,
        Register::Isr => lines.intisr & !lines.int_mask,
        Register::Plain(register) => plain_of(state, register),
    }
}

// A stored register.
pub fn plain_of(state: PchPicState, register: Plain) -> u64
    ensures { result ≡ plain (view state).core.stored (plain_view register) }
{
    let stored = state.stored;
    match register {
        Plain::HtmsiEn => stored.htmsi_en,
        Plain::Edge => stored.intedge,
        Plain::Pol => stored.int_polarity,
        Plain::Auto0 => stored.auto_ctrl0,
        Plain::Auto1 => stored.auto_ctrl1,
    }
}

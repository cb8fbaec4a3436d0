// A half of a register written, and a route or vector byte, after loongarch_pch_pic.rs of axdevice 0.8.5: what its write_dword and write_byte do where they have
// found the register. The state goes in and comes back, with how many events were dropped.
ghost use Rattle.std.specs.Prelude.{[], ◌∷◌};
ghost use Rattle.basics.specs.Inputs.{as_half};
ghost use Rattle.rules.specs.Core.{move, clear, set_mask, set_isr, store, set_plain};
ghost use Rattle.rules.specs.Access.{register_acts, entry_acts};
ghost use Rattle.rules.specs.Device.{acted};
ghost use Rattle.device.specs.state.View.{view, Well, Is};
ghost use Rattle.device.specs.map.Views.{plain_view, register_view};
ghost use Rattle.port.specs.write_cell.Writes.{Writes};

use crate::{mask_and_clear, read_cell};
use device::map::{Plain, Register};
use device::state::PchPicState;

// The state after a write, and how many of its events were dropped.
#[derive(Clone, Copy)]
pub struct Written {
    pub state: PchPicState,
    pub dropped: u32,
}

// A route or vector byte; at any other offset nothing.
#[tactic(auto, using(crate::proofs::write_cell::Acted::entry_written), unfolding(rules::specs::Access::entry_acts))]
pub fn write_entry(state: PchPicState, index: usize, val: u8) -> PchPicState
    requires { Well state }
    ensures { Is result (acted (view state) (entry_acts index val)) }
{
    let mut out = state;
    match index {
        PchPicState::ROUTE_ENTRY_BASE..=PchPicState::ROUTE_ENTRY_LAST => {
            out.tables.route_entry[index - PchPicState::ROUTE_ENTRY_BASE] = val;
        }
        PchPicState::HTMSI_VEC_BASE..=PchPicState::HTMSI_VEC_LAST => {
            out.tables.htmsi_vector[index - PchPicState::HTMSI_VEC_BASE] = val;
        }
        _ => {}
    }
    out
}

// A register's half; ID and IRR ignore it.
#[tactic(auto, using(crate::proofs::write_cell::Acted::half_written))]
pub fn write_half(state: PchPicState, register: Register, val: u32, high: bool) -> Written
    requires { Well state }
    ensures { Writes result (view state) (register_acts (register_view register) high val) }
{
    match register {
        Register::Id => Written { state, dropped: 0 },
        Register::Mask => write_mask(state, val, high),
        Register::Clear => write_clear(state, val, high),
        Register::Irr => Written { state, dropped: 0 },
        Register::Isr => Written {
            state: write_isr(state, val, high),
            dropped: 0,
        },
        Register::Plain(register) => Written {
            state: write_plain(state, register, val, high),
            dropped: 0,
        },
    }
}

// MASK: the engine moves the lines and offers their events to the ring.
fn write_mask(state: PchPicState, val: u32, high: bool) -> Written
    requires { Well state }
    ensures { Writes result (view state) (move (set_mask high val) ∷ []) }
{
    let vectors = &state.tables.htmsi_vector;
    let moved = mask_and_clear::update_int_mask(state.lines, state.ring, vectors, val, high);
    Written {
        state: PchPicState {
            lines: moved.lines,
            ring: moved.ring,
            ..state
        },
        dropped: moved.dropped,
    }
}

// CLEAR: the bits stand in their half.
fn write_clear(state: PchPicState, val: u32, high: bool) -> Written
    requires { Well state }
    ensures { Writes result (view state) (move (clear (as_half high val)) ∷ []) }
{
    let mask = bits::in_half(val, high);
    let vectors = &state.tables.htmsi_vector;
    let moved = mask_and_clear::clear_irq(state.lines, state.ring, vectors, mask);
    Written {
        state: PchPicState {
            lines: moved.lines,
            ring: moved.ring,
            ..state
        },
        dropped: moved.dropped,
    }
}

// ISR: the stored half is replaced, and no event is made.
#[tactic(auto, using(laws::proofs::laws::Writes::acted_isr))]
fn write_isr(state: PchPicState, val: u32, high: bool) -> PchPicState
    requires { Well state }
    ensures { Is result (acted (view state) (set_isr high val ∷ [])) }
{
    let mut out = state;
    out.lines.intisr = bits::replace_u32(out.lines.intisr, val, high);
    out
}

// The other registers are stored.
#[tactic(auto, using(laws::proofs::laws::Writes::acted_store))]
fn write_plain(state: PchPicState, register: Plain, val: u32, high: bool) -> PchPicState
    requires { Well state }
    ensures { Is result (acted (view state) (store (set_plain (plain_view register) high val) ∷ [])) }
{
    let mut out = state;
    let new = bits::replace_u32(read_cell::plain_of(state, register), val, high);
    match register {
        Plain::HtmsiEn => out.stored.htmsi_en = new,
        Plain::Edge => out.stored.intedge = new,
        Plain::Pol => out.stored.int_polarity = new,
        Plain::Auto0 => out.stored.auto_ctrl0 = new,
        Plain::Auto1 => out.stored.auto_ctrl1 = new,
    }
    out
}

// The map by the low half alone, since every high half stands 4 above its low one: ten arms and not twenty, for the calls in place.
ghost use Rattle.std.specs.Prelude.{◌≡◌, ◌-◌, ◌*◌, ◌/◌, ◌%◌, ◌==◌};
ghost use Rattle.rules.specs.Map.{cell_at};
ghost use Rattle.device.specs.map.Views.{cell_view};

use crate::map::{Cell, Plain, Register};
use crate::state::PchPicState;

// The offset of the low half, of a register whose half stands at an offset.
fn low_offset(offset: usize) -> usize
    ensures { result ≡ offset - 4 * (offset / 4 % 2) }
{
    offset - 4 * (offset / 4 % 2)
}

fn is_high(offset: usize) -> bool
    ensures { result ≡ (offset / 4 % 2 == 1) }
{
    offset / 4 % 2 == 1
}

// What stands at an offset, as decode says it.
#[tactic(auto, unfolding(rules::specs::Map::cell_at))]
pub fn decode_low(offset: usize) -> Cell
    ensures { cell_view result ≡ cell_at offset }
{
    let high = is_high(offset);
    match low_offset(offset) {
        PchPicState::INT_ID_LO => Cell::Half(Register::Id, high),
        PchPicState::INT_MASK_LO => Cell::Half(Register::Mask, high),
        PchPicState::HTMSI_EN_LO => Cell::Half(Register::Plain(Plain::HtmsiEn), high),
        PchPicState::INT_EDGE_LO => Cell::Half(Register::Plain(Plain::Edge), high),
        PchPicState::INT_CLEAR_LO => Cell::Half(Register::Clear, high),
        PchPicState::AUTO_CTRL0_LO => Cell::Half(Register::Plain(Plain::Auto0), high),
        PchPicState::AUTO_CTRL1_LO => Cell::Half(Register::Plain(Plain::Auto1), high),
        PchPicState::INT_IRR_LO => Cell::Half(Register::Irr, high),
        PchPicState::INT_ISR_LO => Cell::Half(Register::Isr, high),
        PchPicState::POL_LO => Cell::Half(Register::Plain(Plain::Pol), high),
        PchPicState::ROUTE_ENTRY_BASE..=PchPicState::ROUTE_ENTRY_LAST
        | PchPicState::HTMSI_VEC_BASE..=PchPicState::HTMSI_VEC_LAST => Cell::Bytes,
        _ => Cell::Nothing,
    }
}

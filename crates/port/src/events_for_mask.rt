// An event for each input of a mask, offered to the ring, after queue_events_for_mask in loongarch_pch_pic.rs of axdevice 0.8.5; and how many the ring dropped.
ghost use Rattle.std.specs.Prelude.{◌≡◌, cond};
ghost use Rattle.device.specs.state.View.{WellRing, ring_view};
ghost use Rattle.port.specs.events_for_mask.Offers.{Offers, events_of};

use crate::push;
use device::state::{PchPicOutputEvent, PchPicState, Ring};

// The ring after events were offered to it, and how many of them it dropped.
#[derive(Clone, Copy)]
pub struct Queued {
    pub ring: Ring,
    pub dropped: u32,
}

// How many events a push dropped: one, unless it was kept.
pub fn lost(kept: bool) -> u32
    ensures { result ≡ cond kept 0 1 }
{
    u32::from(!kept)
}

// An event for each input in mask is offered to the ring, lowest first.
pub fn queue_events_for_mask(
    ring: Ring,
    vectors: &[u8; PchPicState::IRQ_COUNT],
    mask: u64,
    asserted: bool,
) -> Queued
    requires { WellRing ring }
    ensures { Offers result.ring result.dropped (ring_view ring) (events_of vectors.now mask asserted) }
{
    let mut out = ring;
    let mut dropped = 0;
    let mut left = mask;
    while left != 0 {
        let irq = left.trailing_zeros() as usize;
        let vector = vectors[irq];
        let pushed = push::push_output_event(out, PchPicOutputEvent { vector, asserted });
        out = pushed.ring;
        dropped += lost(pushed.kept);
        left &= !(1u64 << irq);
    }
    Queued { ring: out, dropped }
}

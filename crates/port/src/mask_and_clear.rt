// What writes to MASK and CLEAR do to the lines and the ring, after loongarch_pch_pic.rs of axdevice 0.8.5: the same functions and names, in its order. Mask
// expressions that the calls in place need too stand in module decide of crate device. A function takes the parts of the state that it reads or changes, and hands back those that it
// changes; the vector bytes are lent.
ghost use Rattle.basics.specs.Inputs.{with_half};
ghost use Rattle.rules.specs.Lines.{cleared, masked};
ghost use Rattle.device.specs.state.View.{WellRing, lines_view, ring_view};
ghost use Rattle.port.specs.mask_and_clear.Moves.{Moves};

use crate::events_for_mask::{lost, queue_events_for_mask};
use crate::{irq_level, push};
use device::decide;
use device::state::{Lines, PchPicOutputEvent, PchPicState, Ring};

// The lines and the ring after a register write that moves them, and how many of its events were dropped.
#[derive(Clone, Copy)]
pub struct Moved {
    pub lines: Lines,
    pub ring: Ring,
    pub dropped: u32,
}

// CLEAR: latches and service lose the inputs in mask, and each that was in service is deasserted.
pub fn clear_irq(
    lines: Lines,
    ring: Ring,
    vectors: &[u8; PchPicState::IRQ_COUNT],
    mask: u64,
) -> Moved
    requires { WellRing ring }
    ensures { Moves result (ring_view ring) (cleared vectors.now (lines_view lines) mask) }
{
    let mut out = lines;
    let active = decide::served(mask, out.intisr);
    out.intirr &= !mask;
    out.intisr &= !mask;
    let queued = queue_events_for_mask(ring, vectors, active, false);
    Moved {
        lines: out,
        ring: queued.ring,
        dropped: queued.dropped,
    }
}

// MASK: a half is replaced; the lowest newly unmasked input that waits is asserted, and then the newly masked ones are deasserted.
pub fn update_int_mask(
    lines: Lines,
    ring: Ring,
    vectors: &[u8; PchPicState::IRQ_COUNT],
    val: u32,
    high: bool,
) -> Moved
    requires { WellRing ring }
    ensures { Moves result (ring_view ring) (masked vectors.now (lines_view lines) (with_half high lines.int_mask val)) }
{
    let mut out = lines;
    let mut queue = ring;
    let mut dropped = 0;
    let old = out.int_mask;
    out.int_mask = bits::replace_u32(old, val, high);
    let newly_unmasked = decide::newly_unmasked(old, val, high);
    if newly_unmasked != 0 {
        let routed = irq_level::update_irq(out, vectors, newly_unmasked, true);
        out = routed.lines;
        if let Some(vector) = routed.answer {
            let pushed = push::push_output_event(
                queue,
                PchPicOutputEvent {
                    vector,
                    asserted: true,
                },
            );
            queue = pushed.ring;
            dropped = lost(pushed.kept);
        }
    }
    let newly_masked = decide::newly_masked(old, val, high);
    if newly_masked != 0 {
        // Masking takes an input out of service though its line may stay high; its latch is kept, so that a later unmask can assert it again.
        let active = decide::served(newly_masked, out.intisr);
        out.intisr &= !active;
        let queued = queue_events_for_mask(queue, vectors, active, false);
        queue = queued.ring;
        dropped += queued.dropped;
    }
    Moved {
        lines: out,
        ring: queue,
        dropped,
    }
}

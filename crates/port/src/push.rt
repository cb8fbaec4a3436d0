// An output event pushed to the ring, after push_output_event in loongarch_pch_pic.rs of axdevice 0.8.5. The ring goes in and comes back.
ghost use Rattle.device.specs.state.View.{event_of, ring_view, WellRing};
ghost use Rattle.port.specs.push.Pushes.{Pushes};

use device::state::{PchPicOutputEvent, PchPicState, Ring};

// The ring after a push, and whether the event was kept: a flag beside it, since the Rust's function answers whether, and `Pushes` says so.
#[derive(Clone, Copy)]
pub struct Pushed {
    pub ring: Ring,
    pub kept: bool,
}

// The newest event waits last; where 16 wait it is dropped, and counted as far as the count goes.
pub fn push_output_event(ring: Ring, event: PchPicOutputEvent) -> Pushed
    requires { WellRing ring }
    ensures { Pushes result (ring_view ring) (event_of event) }
{
    let mut out = ring;
    if out.output_len == PchPicState::OUTPUT_QUEUE_CAPACITY {
        out.output_drops = out.output_drops.saturating_add(1);
        return Pushed {
            ring: out,
            kept: false,
        };
    }
    let index = (out.output_head + out.output_len) % PchPicState::OUTPUT_QUEUE_CAPACITY;
    out.output_vectors[index] = event.vector;
    out.output_asserted[index] = event.asserted;
    out.output_len += 1;
    Pushed {
        ring: out,
        kept: true,
    }
}

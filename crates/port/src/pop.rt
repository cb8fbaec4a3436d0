// The oldest output event taken out of the ring, after pop_output_event in loongarch_pch_pic.rs of axdevice 0.8.5. The ring goes in and comes back.
ghost use Rattle.device.specs.state.View.{ring_view, WellRing};
ghost use Rattle.port.specs.pop.Pops.{Pops};

use device::state::{PchPicOutputEvent, PchPicState, Ring};

// The ring after a pop, and what it took out.
#[derive(Clone, Copy)]
pub struct Popped {
    pub ring: Ring,
    pub event: Option<PchPicOutputEvent>,
}

// The oldest event comes out.
pub fn pop_output_event(ring: Ring) -> Popped
    requires { WellRing ring }
    ensures { Pops result (ring_view ring) }
{
    let mut out = ring;
    if out.output_len == 0 {
        return Popped {
            ring: out,
            event: None,
        };
    }
    let head = out.output_head;
    let vector = out.output_vectors[head];
    let asserted = out.output_asserted[head];
    out.output_head = (head + 1) % PchPicState::OUTPUT_QUEUE_CAPACITY;
    out.output_len -= 1;
    Popped {
        ring: out,
        event: Some(PchPicOutputEvent { vector, asserted }),
    }
}

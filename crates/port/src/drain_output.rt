// The drain of the events that wait, after drain_output_events in loongarch_pch_pic.rs of axdevice 0.8.5, into a lent buffer. The ring goes in and comes back.
ghost use Rattle.std.specs.Prelude.{◌≡◌, ◌+◌, ◌*◌, ◌<◌, length};
ghost use Rattle.device.specs.state.View.{WellRing, ring_view};
ghost use Rattle.port.specs.drain_output.Drains.{Drains, pair_put};

use crate::pop;
use device::state::{PchPicOutputEvent, Ring};

// What a drain leaves: the ring, and how many events it wrote.
#[derive(Clone, Copy)]
pub struct Drained {
    pub ring: Ring,
    pub count: usize,
}

// An event as a pair of bytes at its place; nothing where there is none.
fn put_event(buf: &mut [u8], i: usize, event: Option<PchPicOutputEvent>)
    requires { 2 * i + 1 < length buf.old }
    ensures { buf.new ≡ pair_put buf.old i event }
{
    if let Some(e) = event {
        buf[2 * i] = e.vector;
        buf[2 * i + 1] = u8::from(e.asserted);
    }
}

// As many events as wait or as fit, oldest first, are written to the lent buffer from its front on; every other byte stays.
pub fn drain_output_events(ring: Ring, buf: &mut [u8]) -> Drained
    requires { WellRing ring }
    ensures { Drains result (ring_view ring) buf.old buf.new }
{
    let mut out = ring;
    let count = out.output_len.min(buf.len() / 2);
    for i in 0..count {
        let popped = pop::pop_output_event(out);
        out = popped.ring;
        put_event(buf, i, popped.event);
    }
    Drained { ring: out, count }
}

// What moves an input line, after loongarch_pch_pic.rs of axdevice 0.8.5: the same functions and names, in its order. Mask expressions that the calls in place need
// too stand in module decide of crate device, and the writes that move many lines in module mask_and_clear. A function takes the lines and hands them back; the vector bytes are lent.
ghost use Rattle.std.specs.Prelude.{◌<◌};
ghost use Rattle.rules.specs.Lines.{polled, levelled};
ghost use Rattle.device.specs.state.View.{lines_view};
ghost use Rattle.port.specs.irq_level.Moves.{Answers, updated};

use device::decide;
use device::state::{Lines, PchPicState};

#[derive(Clone, Copy)]
pub struct Routed {
    pub lines: Lines,
    pub answer: Option<u8>,
}

// Raise (level true) or lower input irq.
pub fn set_irq_level(
    lines: Lines,
    vectors: &[u8; PchPicState::IRQ_COUNT],
    irq: usize,
    level: bool,
) -> Routed
    requires { irq < 64 }
    ensures { Answers result (levelled vectors.now (lines_view lines) irq level) }
{
    let mut out = lines;
    let mask = 1u64 << irq;
    if level {
        out.intirr |= mask;
    } else {
        out.intirr &= !mask;
    }
    update_irq(out, vectors, mask, level)
}

// The vector of an input that is latched already.
pub fn pending_vector(lines: Lines, vectors: &[u8; PchPicState::IRQ_COUNT], irq: usize) -> Routed
    requires { irq < 64 }
    ensures { Answers result (polled vectors.now (lines_view lines) irq) }
{
    update_irq(lines, vectors, 1u64 << irq, true)
}

// Of the inputs in mask the lowest that can goes into service (level true), or leaves it.
pub fn update_irq(
    lines: Lines,
    vectors: &[u8; PchPicState::IRQ_COUNT],
    mask: u64,
    level: bool,
) -> Routed
    ensures { Answers result (updated vectors.now (lines_view lines) mask level) }
{
    let mut out = lines;
    if level {
        let pending = decide::pending(mask, out.intirr, out.int_mask, out.intisr);
        if pending != 0 {
            let irq = pending.trailing_zeros() as usize;
            out.intisr |= 1u64 << irq;
            return Routed {
                lines: out,
                answer: Some(vectors[irq]),
            };
        }
    } else {
        let inactive = mask & out.intisr & !out.intirr;
        if inactive != 0 {
            let irq = inactive.trailing_zeros() as usize;
            out.intisr &= !(1u64 << irq);
            return Routed {
                lines: out,
                answer: Some(vectors[irq]),
            };
        }
    }
    Routed {
        lines: out,
        answer: None,
    }
}

// Writes to MASK and CLEAR, in place on an image: what enters service and what leaves it, and the events of that, offered to the ring.
ghost use Rattle.std.specs.Prelude.{◌≡◌, true, [], ◌∷◌, ◌≤◌, length};
ghost use Rattle.basics.specs.Inputs.{on};
ghost use Rattle.rules.specs.Lines as lines;
ghost use Rattle.rules.specs.Core as core;
ghost use Rattle.rules.specs.Device.{lost};
ghost use Rattle.rules.specs.Numbering.{takes_all};
ghost use Rattle.images.specs.Form.{form_length};
ghost use Rattle.image.specs.Shown.{form_view};
ghost use Rattle.fields.specs.inplace.Held.{MovesIn, Reads, Writes};

use crate::enter_leave::enter;
use crate::events::{offer_each, offer_entered};
use device::decide;
use fields::words;
use image::form::Form;

// All of a set that are in service leave it, and their deasserts are offered; the answer is how many were lost. Who calls has looked whether any of them is in
// service, so that a write by which none leaves makes no call.
fn leave(image: &mut [u8], form: Form, set: u64, isr: u64) -> u32
    requires { (length image.old ≡ form_length (form_view form)) × Reads image.old isr (λ d. d.core.lines.isr) }
    ensures { (result ≤ 64) × MovesIn image.old image.new result takes_all lost (λ vs. lines.leave vs true (on set)) }
{
    words::put_isr(image, form, isr & !set);
    offer_each(image, form, decide::served(set, isr))
}

// MASK: a half is replaced; the lowest newly unmasked input that waits enters, and then the newly masked ones leave. Both are found over the whole register: the
// other half stays.
pub fn write_mask(image: &mut [u8], form: Form, val: u32, high: bool) -> u32
    requires { length image.old ≡ form_length (form_view form) }
    ensures { (result ≤ 65) × Writes image.old image.new result (λ c. core.move (core.set_mask high val) ∷ []) }
{
    let old = words::mask(image, form);
    let new = bits::replace_u32(old, val, high);
    words::put_mask(image, form, new);
    let entered = enter(image, form, old & !new);
    let first = offer_entered(image, form, entered);
    let isr = words::isr(image, form);
    let gone = new & !old;
    if decide::served(gone, isr) == 0 {
        return first;
    }
    first + leave(image, form, gone, isr)
}

// CLEAR: latches and service lose the bits.
pub fn write_clear(image: &mut [u8], form: Form, bits: u64) -> u32
    requires { length image.old ≡ form_length (form_view form) }
    ensures { (result ≤ 65) × Writes image.old image.new result (λ c. core.move (core.clear bits) ∷ []) }
{
    let irr = words::irr(image, form);
    words::put_irr(image, form, irr & !bits);
    let isr = words::isr(image, form);
    if decide::served(bits, isr) == 0 {
        return 0;
    }
    leave(image, form, bits, isr)
}

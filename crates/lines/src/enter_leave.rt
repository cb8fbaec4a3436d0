// An input goes into service or leaves it, in place on an image, as the rules say it. Of a set the lowest that waits enters. Module `decide` of crate `device` says which they are.
ghost use Rattle.std.specs.Prelude.{◌≡◌, false, ◌<◌, length};
ghost use Rattle.basics.specs.Inputs.{on, only};
ghost use Rattle.rules.specs.Lines as lines;
ghost use Rattle.images.specs.Form.{form_length};
ghost use Rattle.image.specs.Shown.{form_view};
ghost use Rattle.device.specs.state.View.{answer_value};
ghost use Rattle.fields.specs.inplace.Held.{MovesIn, given, untaken};

use device::decide;
use fields::entries::vector;
use fields::words;
use image::form::Form;

// The lowest of a set that waits goes into service; the answer is its vector.
pub fn enter(image: &mut [u8], form: Form, set: u64) -> Option<u8>
    requires { length image.old ≡ form_length (form_view form) }
    ensures { MovesIn image.old image.new (answer_value result) untaken given (λ vs. lines.enter vs false (on set)) }
{
    let isr = words::isr(image, form);
    let waiting = decide::pending(set, words::irr(image, form), words::mask(image, form), isr);
    if waiting == 0 {
        return None;
    }
    let irq = waiting.trailing_zeros() as usize;
    words::put_isr(image, form, isr | 1u64 << irq);
    Some(vector(image, form, irq))
}

// An input that is in service leaves it; the answer is its vector.
pub fn leave_one(image: &mut [u8], form: Form, irq: usize) -> Option<u8>
    requires { (length image.old ≡ form_length (form_view form)) × (irq < 64) }
    ensures { MovesIn image.old image.new (answer_value result) untaken given (λ vs. lines.leave vs false (only irq)) }
{
    let isr = words::isr(image, form);
    let bit = 1u64 << irq;
    if decide::served(bit, isr) == 0 {
        return None;
    }
    words::put_isr(image, form, isr & !bit);
    Some(vector(image, form, irq))
}

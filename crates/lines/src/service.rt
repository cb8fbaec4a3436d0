// The calls on an input, in place on an image: its latch is stored, and then it goes into service or leaves it.
ghost use Rattle.std.specs.Prelude.{◌≡◌, ◌<◌, length};
ghost use Rattle.rules.specs.Core as core;
ghost use Rattle.images.specs.Form.{form_length};
ghost use Rattle.image.specs.Shown.{form_view};
ghost use Rattle.device.specs.state.View.{answer_value};
ghost use Rattle.fields.specs.inplace.Held.{Returns};
ghost use Rattle.lines.specs.service.Offered.{level_move};

use crate::enter_leave::{enter, leave_one};
use fields::words;
use image::form::Form;

pub fn poll(image: &mut [u8], form: Form, irq: usize) -> Option<u8>
    requires { (length image.old ≡ form_length (form_view form)) × (irq < 64) }
    ensures { Returns image.old image.new (answer_value result) (core.poll irq) }
{
    enter(image, form, 1u64 << irq)
}

// It is latched, and then polled.
fn raise(image: &mut [u8], form: Form, irq: usize) -> Option<u8>
    requires { (length image.old ≡ form_length (form_view form)) × (irq < 64) }
    ensures { Returns image.old image.new (answer_value result) (core.raise irq) }
{
    let irr = words::irr(image, form);
    let bit = 1u64 << irq;
    words::put_irr(image, form, irr | bit);
    enter(image, form, bit)
}

// Its latch goes off, and it leaves service, masked or not.
fn lower(image: &mut [u8], form: Form, irq: usize) -> Option<u8>
    requires { (length image.old ≡ form_length (form_view form)) × (irq < 64) }
    ensures { Returns image.old image.new (answer_value result) (core.lower irq) }
{
    let irr = words::irr(image, form);
    words::put_irr(image, form, irr & !(1u64 << irq));
    leave_one(image, form, irq)
}

pub fn set_level(image: &mut [u8], form: Form, irq: usize, level: bool) -> Option<u8>
    requires { (length image.old ≡ form_length (form_view form)) × (irq < 64) }
    ensures { Returns image.old image.new (answer_value result) (level_move irq level) }
{
    if level {
        return raise(image, form, irq);
    }
    lower(image, form, irq)
}

// The registers as they read and as a half of one is written, in place on an image.
ghost use Rattle.std.specs.Prelude.{◌≡◌, [], ◌∷◌, ◌≤◌, length};
ghost use Rattle.rules.specs.Core.{set_isr, store, set_plain};
ghost use Rattle.rules.specs.Access.{value_of, register_acts};
ghost use Rattle.images.specs.Form.{form_length};
ghost use Rattle.image.specs.Shown.{form_view};
ghost use Rattle.device.specs.map.Views.{plain_view, register_view};
ghost use Rattle.fields.specs.inplace.Held.{Reads, Writes};

use crate::masking::{write_clear, write_mask};
use device::map::{Plain, Register};
use device::state::PchPicState;
use fields::words;
use image::form::Form;

// A register as it reads: CLEAR as 0, ISR without the masked bits.
pub fn value_of(image: &[u8], form: Form, register: Register) -> u64
    requires { length image.now ≡ form_length (form_view form) }
    ensures { Reads image.now result (λ d. value_of d.core (register_view register)) }
{
    match register {
        Register::Id => PchPicState::INT_ID,
        Register::Mask => words::mask(image, form),
        Register::Clear => 0,
        Register::Irr => words::irr(image, form),
        Register::Isr => words::isr(image, form) & !words::mask(image, form),
        Register::Plain(plain) => words::plain(image, form, plain),
    }
}

// It replaces the stored half and makes no event.
fn write_isr(image: &mut [u8], form: Form, val: u32, high: bool)
    requires { length image.old ≡ form_length (form_view form) }
    ensures { Writes image.old image.new 0 (λ c. set_isr high val ∷ []) }
{
    let old = words::isr(image, form);
    words::put_isr(image, form, bits::replace_u32(old, val, high));
}

fn write_plain(image: &mut [u8], form: Form, plain: Plain, val: u32, high: bool)
    requires { length image.old ≡ form_length (form_view form) }
    ensures { Writes image.old image.new 0 (λ c. store (set_plain (plain_view plain) high val) ∷ []) }
{
    let old = words::plain(image, form, plain);
    words::put_plain(image, form, plain, bits::replace_u32(old, val, high));
}

// ID and IRR ignore it.
pub fn write_half(image: &mut [u8], form: Form, register: Register, val: u32, high: bool) -> u32
    requires { length image.old ≡ form_length (form_view form) }
    ensures { (result ≤ 65) × Writes image.old image.new result (λ c. register_acts (register_view register) high val) }
{
    match register {
        Register::Id => 0,
        Register::Mask => write_mask(image, form, val, high),
        Register::Clear => write_clear(image, form, bits::in_half(val, high)),
        Register::Irr => 0,
        Register::Isr => {
            write_isr(image, form, val, high);
            0
        }
        Register::Plain(plain) => {
            write_plain(image, form, plain, val, high);
            0
        }
    }
}

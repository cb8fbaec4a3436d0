// The device after reset as an image. Each form has an arm of its own, so that all places are constants there and the compiler stores sixteen bytes at a time.
ghost use Rattle.std.specs.Prelude.{◌≡◌, ◌≤◌, length};
ghost use Rattle.rules.specs.Device.{up_from, reset};
ghost use Rattle.rules.specs.Numbering.{from_zero};
ghost use Rattle.images.specs.Form.{form_length};
ghost use Rattle.images.specs.Image.{encode_as};
ghost use Rattle.image.specs.Shown.{form_view};
ghost use Rattle.stored.specs.saves.Shown.{SavesOthers};

use crate::reset_parts::{save_ring, save_routes};
use crate::save_parts::save_numbers;
use crate::save_words::{put_contents, save_lines, save_stored};
use device::state::{Lines, Stored};
use image::form::Form;

// Byte n becomes n.
fn put_order(dst: &mut [u8])
    requires { length dst.old ≤ 256 }
    ensures { dst.new ≡ up_from 0 (length dst.old) }
{
    for n in 0..dst.len() {
        dst[n] = n as u8;
    }
}

// All fields but the vectors.
fn save_others(image: &mut [u8], form: Form)
    requires { length image.old ≡ form_length (form_view form) }
    ensures { SavesOthers (form_view form) image.old image.new }
{
    save_lines(
        image,
        form,
        Lines {
            int_mask: 0xffff_ffff_ffff_ffff,
            intirr: 0,
            intisr: 0,
        },
    );
    save_stored(
        image,
        form,
        Stored {
            htmsi_en: 0,
            intedge: 0,
            int_polarity: 0,
            auto_ctrl0: 0,
            auto_ctrl1: 0,
        },
    );
    save_routes(image, form, [1u8; 64]);
    save_ring(image, form, [0u8; 37]);
    save_numbers(image, form, [0u8; 34]);
}

// The vector body is the part that starts at byte 158 or, in form 2, 150 or, with numbers, 155.
pub fn save_reset(image: &mut [u8], form: Form)
    requires { length image.old ≡ form_length (form_view form) }
    ensures { image.new ≡ encode_as (form_view form) reset (from_zero 0) }
{
    match form {
        Form::One => {
            put_contents(image, Form::One);
            put_order(&mut image[158..222]);
            save_others(image, Form::One);
        }
        Form::Two => {
            put_contents(image, Form::Two);
            put_order(&mut image[150..214]);
            save_others(image, Form::Two);
        }
        Form::Numbered => {
            put_contents(image, Form::Numbered);
            put_order(&mut image[155..219]);
            save_others(image, Form::Numbered);
        }
    }
}

// Bytes by the table, in place on an image.
ghost use Rattle.std.specs.Prelude.{◌≡◌, ◌≤◌, length};
ghost use Rattle.rules.specs.Access.{read_byte, byte_acts};
ghost use Rattle.images.specs.Form.{form_length};
ghost use Rattle.image.specs.Shown.{form_view};
ghost use Rattle.fields.specs.inplace.Held.{Reads, Writes};
ghost use Rattle.table.specs.Meaning.{Agrees};

use fields::entries::{put_routes, put_vectors, route, vector};
use image::form::Form;
use lines::halves::{value_of, write_half};
use table::{Place, look};

#[tactic(auto, using(crate::proofs::table_bytes::Parts::below, crate::proofs::table_bytes::Parts::byte_meant))]
pub fn read_byte(image: &[u8], form: Form, table: &[[u8; 32]; 32], offset: usize) -> u8
    requires { (length image.now ≡ form_length (form_view form)) × Agrees table.now }
    ensures { Reads image.now result (λ d. read_byte d.core offset) }
{
    match look(table, offset) {
        Place::Part {
            register,
            high,
            byte,
            silent,
        } => {
            if silent {
                return 0;
            }
            bits::byte_of(bits::half(value_of(image, form, register), high), byte)
        }
        Place::Route(input) => route(image, form, input),
        Place::Vector(input) => vector(image, form, input),
        Place::Nothing => 0,
    }
}

#[tactic(auto, using(crate::proofs::table_bytes::Parts::below))]
pub fn write_byte(
    image: &mut [u8],
    form: Form,
    table: &[[u8; 32]; 32],
    offset: usize,
    val: u8,
) -> u32
    requires { (length image.old ≡ form_length (form_view form)) × Agrees table.now }
    ensures { (result ≤ 65) × Writes image.old image.new result (λ c. byte_acts c offset val) }
{
    match look(table, offset) {
        Place::Part {
            register,
            high,
            byte,
            silent,
        } => {
            if silent {
                return 0;
            }
            let old = bits::half(value_of(image, form, register), high);
            write_half(image, form, register, bits::with_byte(old, byte, val), high)
        }
        Place::Route(input) => {
            put_routes(image, form, input, 1, val as u64);
            0
        }
        Place::Vector(input) => {
            put_vectors(image, form, input, 1, val as u64);
            0
        }
        Place::Nothing => 0,
    }
}

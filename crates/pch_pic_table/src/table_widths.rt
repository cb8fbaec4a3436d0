// The four widths by the table, in place on an image.
ghost use Rattle.std.specs.Prelude.{◌≡◌, ◌+◌, ◌-◌, ◌^◌, ◌≤◌, length};
ghost use Rattle.rules.specs.Access.{word, qword, read_at, write_acts};
ghost use Rattle.images.specs.Form.{form_length};
ghost use Rattle.image.specs.Shown.{form_view};
ghost use Rattle.device.specs.map.Views.{width_view, bytes_in};
ghost use Rattle.fields.specs.inplace.Held.{Reads, Writes};
ghost use Rattle.table.specs.Meaning.{Agrees};

use crate::table_bytes::{read_byte, write_byte};
use crate::table_dwords::{read_dword, write_dword};
use device::map::Width;
use image::form::Form;

#[tactic(auto, unfolding(rules::specs::Access::read_at))]
fn read_word(image: &[u8], form: Form, table: &[[u8; 32]; 32], offset: usize) -> u64
    requires { (length image.now ≡ form_length (form_view form)) × Agrees table.now × (offset + 2 ≤ 2 ^ 64 - 1) }
    ensures { Reads image.now result (λ d. read_at d.core word offset) }
{
    let low = read_byte(image, form, table, offset) as u64;
    let high = read_byte(image, form, table, offset + 1) as u64;
    low + 256 * high
}

fn read_qword(image: &[u8], form: Form, table: &[[u8; 32]; 32], offset: usize) -> u64
    requires { (length image.now ≡ form_length (form_view form)) × Agrees table.now × (offset + 8 ≤ 2 ^ 64 - 1) }
    ensures { Reads image.now result (λ d. read_at d.core qword offset) }
{
    let low = read_dword(image, form, table, offset) as u64;
    low | ((read_dword(image, form, table, offset + 4) as u64) << 32)
}

// What an access reads. It lies wholly inside the window, which ends at 2^64 - 1 at most.
#[tactic(auto, unfolding(rules::specs::Access::read_at))]
pub fn read_access(
    image: &[u8],
    form: Form,
    table: &[[u8; 32]; 32],
    width: Width,
    offset: usize,
) -> u64
    requires { (length image.now ≡ form_length (form_view form)) × Agrees table.now × (offset + bytes_in (width_view width) ≤ 2 ^ 64 - 1) }
    ensures { Reads image.now result (λ d. read_at d.core (width_view width) offset) }
{
    match width {
        Width::Byte => read_byte(image, form, table, offset) as u64,
        Width::Word => read_word(image, form, table, offset),
        Width::Dword => read_dword(image, form, table, offset) as u64,
        Width::Qword => read_qword(image, form, table, offset),
    }
}

// The second Byte meets what the first left.
fn write_word(image: &mut [u8], form: Form, table: &[[u8; 32]; 32], offset: usize, low: u32) -> u32
    requires { (length image.old ≡ form_length (form_view form)) × Agrees table.now × (offset + 2 ≤ 2 ^ 64 - 1) }
    ensures { (result ≤ 130) × Writes image.old image.new result (λ c. write_acts c word offset low) }
{
    let first = write_byte(image, form, table, offset, bits::byte_of(low, 0));
    first + write_byte(image, form, table, offset + 1, bits::byte_of(low, 1))
}

fn write_qword(
    image: &mut [u8],
    form: Form,
    table: &[[u8; 32]; 32],
    offset: usize,
    value: u64,
) -> u32
    requires { (length image.old ≡ form_length (form_view form)) × Agrees table.now × (offset + 8 ≤ 2 ^ 64 - 1) }
    ensures { (result ≤ 130) × Writes image.old image.new result (λ c. write_acts c qword offset value) }
{
    let first = write_dword(image, form, table, offset, bits::half(value, false));
    first + write_dword(image, form, table, offset + 4, bits::half(value, true))
}

// An access writes; the answer is how many events were dropped.
pub fn write_access(
    image: &mut [u8],
    form: Form,
    table: &[[u8; 32]; 32],
    width: Width,
    offset: usize,
    value: u64,
) -> u32
    requires { (length image.old ≡ form_length (form_view form)) × Agrees table.now × (offset + bytes_in (width_view width) ≤ 2 ^ 64 - 1) }
    ensures { (result ≤ 130) × Writes image.old image.new result (λ c. write_acts c (width_view width) offset value) }
{
    let low = bits::half(value, false);
    match width {
        Width::Byte => write_byte(image, form, table, offset, bits::byte_of(low, 0)),
        Width::Word => write_word(image, form, table, offset, low),
        Width::Dword => write_dword(image, form, table, offset, low),
        Width::Qword => write_qword(image, form, table, offset, value),
    }
}

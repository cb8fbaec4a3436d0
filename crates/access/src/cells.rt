// What stands at an offset, read and written in place: route and vector bytes, and a Dword of them or of a register.
ghost use Rattle.std.specs.Prelude.{◌≡◌, ◌≤◌, length};
ghost use Rattle.basics.specs.Numbers.{number_of};
ghost use Rattle.rules.specs.Map.{bytes, cell_at};
ghost use Rattle.rules.specs.Access.{entry, read_cell, read_dword, entry_acts, cell_acts, dword_acts};
ghost use Rattle.images.specs.Form.{form_length};
ghost use Rattle.image.specs.Shown.{form_view};
ghost use Rattle.fields.specs.inplace.Held.{Reads, Writes};
ghost use Rattle.access.specs.cells.Runs.{Run, entries_of, entries_acts};

use device::map::Cell;
use device::map_low;
use fields::entries::{put_routes, put_vectors, route, routes, vector, vectors};
use image::form::Form;
use lines::halves::{value_of, write_half};

// ---- route and vector bytes: 64 each, from offsets that 64 divides. The two are told apart by number: an enum of them would be made here and taken apart at once.

pub fn read_entry(image: &[u8], form: Form, offset: usize) -> u8
    requires { length image.now ≡ form_length (form_view form) }
    ensures { Reads image.now result (λ d. entry d.core offset) }
{
    match offset / 64 {
        4 => route(image, form, offset % 64),
        8 => vector(image, form, offset % 64),
        _ => 0,
    }
}

pub fn write_entry(image: &mut [u8], form: Form, offset: usize, val: u8)
    requires { length image.old ≡ form_length (form_view form) }
    ensures { Writes image.old image.new 0 (λ c. entry_acts offset val) }
{
    match offset / 64 {
        4 => put_routes(image, form, offset % 64, 1, val as u64),
        8 => put_vectors(image, form, offset % 64, 1, val as u64),
        _ => {}
    }
}

// Several at once, where none is past the last input's.
pub fn read_run(image: &[u8], form: Form, offset: usize, n: usize) -> u64
    requires { (length image.now ≡ form_length (form_view form)) × Run offset n × (n ≤ 8) }
    ensures { Reads image.now result (λ d. number_of (entries_of d.core offset n)) }
{
    if offset < 0x200 {
        routes(image, form, offset % 64, n)
    } else {
        vectors(image, form, offset % 64, n)
    }
}

// By the table, in arms that are no two ways out of one test: of such the compiler brings the shifts together, and stores byte by byte.
pub fn write_run(image: &mut [u8], form: Form, offset: usize, n: usize, x: u64)
    requires { (length image.old ≡ form_length (form_view form)) × Run offset n }
    ensures { Writes image.old image.new 0 (λ c. entries_acts offset n x) }
{
    match offset / 64 {
        4 => put_routes(image, form, offset % 64, n, x),
        8 => put_vectors(image, form, offset % 64, n, x),
        _ => {}
    }
}

fn read_four(image: &[u8], form: Form, offset: usize) -> u32
    requires { (length image.now ≡ form_length (form_view form)) × (cell_at offset ≡ bytes) }
    ensures { Reads image.now result (λ d. read_cell d.core offset bytes) }
{
    if offset % 64 <= 60 {
        return bits::half(read_run(image, form, offset, 4), false);
    }
    let a = read_entry(image, form, offset) as u32;
    let b = read_entry(image, form, offset + 1) as u32;
    let c = read_entry(image, form, offset + 2) as u32;
    let d = read_entry(image, form, offset + 3) as u32;
    a + 256 * (b + 256 * (c + 256 * d))
}

fn write_four(image: &mut [u8], form: Form, offset: usize, val: u32)
    requires { (length image.old ≡ form_length (form_view form)) × (cell_at offset ≡ bytes) }
    ensures { Writes image.old image.new 0 (λ c. cell_acts offset val bytes) }
{
    if offset % 64 <= 60 {
        write_run(image, form, offset, 4, val as u64);
        return;
    }
    write_entry(image, form, offset, bits::byte_of(val, 0));
    write_entry(image, form, offset + 1, bits::byte_of(val, 1));
    write_entry(image, form, offset + 2, bits::byte_of(val, 2));
    write_entry(image, form, offset + 3, bits::byte_of(val, 3));
}

// ---- a Dword

// The image is lent anew in each arm: a shared slice that is passed on as it is gets copied, and then each caller hands it over in memory.
pub fn read_dword(image: &[u8], form: Form, offset: usize) -> u32
    requires { length image.now ≡ form_length (form_view form) }
    ensures { Reads image.now result (λ d. read_dword d.core offset) }
{
    match map_low::decode_low(offset) {
        Cell::Half(register, high) => bits::half(value_of(&*image, form, register), high),
        Cell::Bytes => read_four(&*image, form, offset),
        Cell::Nothing => 0,
    }
}

pub fn write_dword(image: &mut [u8], form: Form, offset: usize, val: u32) -> u32
    requires { length image.old ≡ form_length (form_view form) }
    ensures { (result ≤ 65) × Writes image.old image.new result (λ c. dword_acts offset val) }
{
    match map_low::decode_low(offset) {
        Cell::Half(register, high) => write_half(image, form, register, val, high),
        Cell::Bytes => {
            write_four(image, form, offset, val);
            0
        }
        Cell::Nothing => 0,
    }
}

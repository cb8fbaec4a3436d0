// Qwords, in place on an image.
ghost use Rattle.std.specs.Prelude.{◌≡◌, true, ◌+◌, ◌-◌, ◌^◌, ◌≤◌, length};
ghost use Rattle.rules.specs.Access.{qword, read_at, write_acts};
ghost use Rattle.images.specs.Form.{form_length};
ghost use Rattle.image.specs.Shown.{form_view};
ghost use Rattle.fields.specs.inplace.Held.{Reads, Writes};
ghost use Rattle.access.specs.cells.Runs.{Run};

use crate::cells::{read_dword, read_run, write_dword, write_run};
use image::form::Form;

// Eight bytes from an offset on lie wholly among the route or the vector bytes, where one read or store serves them all; by number, as in `cells`.
fn eight_together(offset: usize) -> bool
    ensures { result ≡ true → Run offset 8 }
{
    match offset / 64 {
        4 => offset % 64 <= 56,
        8 => offset % 64 <= 56,
        _ => false,
    }
}

pub fn read_qword(image: &[u8], form: Form, offset: usize) -> u64
    requires { (length image.now ≡ form_length (form_view form)) × (offset + 8 ≤ 2 ^ 64 - 1) }
    ensures { Reads image.now result (λ d. read_at d.core qword offset) }
{
    if eight_together(offset) {
        return read_run(image, form, offset, 8);
    }
    let low = read_dword(image, form, offset) as u64;
    low | ((read_dword(image, form, offset + 4) as u64) << 32)
}

pub fn write_qword(image: &mut [u8], form: Form, offset: usize, value: u64) -> u32
    requires { (length image.old ≡ form_length (form_view form)) × (offset + 8 ≤ 2 ^ 64 - 1) }
    ensures { (result ≤ 130) × Writes image.old image.new result (λ c. write_acts c qword offset value) }
{
    if eight_together(offset) {
        write_run(image, form, offset, 8, value);
        return 0;
    }
    let first = write_dword(image, form, offset, bits::half(value, false));
    first + write_dword(image, form, offset + 4, bits::half(value, true))
}

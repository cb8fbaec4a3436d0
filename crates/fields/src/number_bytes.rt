// The numbers of events as bytes: the next one, taken where it stands, and those from 0 on.
ghost use Rattle.std.specs.Prelude.{◌≡◌, ◌+◌, ◌≤◌, length};
ghost use Rattle.basics.specs.Numbers.{number_of, part, written};
ghost use Rattle.rules.specs.Device.{up_from};
ghost use Rattle.rules.specs.Numbering.{number_twos};
ghost use Rattle.fields.specs.number_bytes.Next.{NextTaken};

use bits::bytes::{number, put_bytes};
use image::form;

// The numbers from 0 on, as an image would have them.
pub fn from_zero() -> [u8; 32]
    ensures { result ≡ written number_twos (up_from 0 16) }
{
    [
        0, 0, 1, 0, 2, 0, 3, 0, 4, 0, 5, 0, 6, 0, 7, 0, 8, 0, 9, 0, 10, 0, 11, 0, 12, 0, 13, 0, 14,
        0, 15, 0,
    ]
}

// The number that two bytes from a place on spell. `drops_at` of pch_pic_convert does the same with four bytes: one function over the width would be longer than both.
fn number_at(image: &[u8], at: usize) -> u16
    requires { at + 2 ≤ length image.now }
    ensures { result ≡ number_of (part at 2 image.now) }
{
    let end = at + form::NUMBER;
    number(&image[at..end]) as u16
}

// Here an event gets its number, whether it is returned, kept or dropped: the next one, which stands at a place. After 65,535 comes 0.
pub fn take_next(image: &mut [u8], at: usize) -> u16
    requires { at + 2 ≤ length image.old }
    ensures { NextTaken at image.old image.new result }
{
    let taken = number_at(image, at);
    put_bytes(image, at, form::NUMBER, taken.wrapping_add(1) as u64);
    taken
}

// Things of two bytes, of which the first go: the others move to the front, and zeros follow them.
ghost use Rattle.std.specs.Prelude.{◌≡◌, ◌≤◌, length};
ghost use Rattle.rules.specs.Ring.{capacity};
ghost use Rattle.images.specs.Image.{pairs_length};
ghost use Rattle.drain.specs.move_up.Left.{Leaves};

use bits::bytes::{copy, put_zeros};
use image::form;

// Of `len` things of two bytes the first n go. Those that are left are read from a room of twice the length, in whose second half are zeros: so all move by loads and
// stores of a fixed length, however many they are. Where none is left nothing moves: the whole room becomes zeros.
pub fn leave(dst: &mut [u8], n: usize, len: usize)
    requires { (n ≤ len) × (len ≤ capacity) × (length dst.old ≡ pairs_length) }
    ensures { Leaves dst.old dst.new len n }
{
    if n < len {
        let mut room = [0u8; 64];
        copy(&mut room[0..32], dst);
        let from = form::PAIR * n;
        let end = from + form::PAIRS_LENGTH;
        copy(dst, &room[from..end]);
    } else {
        put_zeros(dst);
    }
}

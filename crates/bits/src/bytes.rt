// A number and its bytes, little end first, read and written where they stand; runs of bytes copied and zeroed.
ghost use Rattle.std.specs.Prelude.{◌≡◌, ◌+◌, ◌≤◌, length, replicate};
ghost use Rattle.basics.specs.Numbers.{number_of, bytes_of};
ghost use Rattle.images.specs.Image.{register_at};
ghost use Rattle.bits.specs.bytes.Put.{with_bytes, with_word};

// The number that at most eight bytes spell, the low one first. Read from the front, so that eight bytes become one load.
pub fn number(b: &[u8]) -> u64
    requires { length b.now ≤ 8 }
    ensures { result ≡ number_of b.now }
{
    let mut x = 0u64;
    for (i, byte) in b.iter().enumerate() {
        x |= u64::from(*byte) << (8 * i);
    }
    x
}

// The low bytes of x, as many as there are places.
pub fn put_number(dst: &mut [u8], x: u64)
    ensures { dst.new ≡ bytes_of (length dst.old) x }
{
    let mut y = x;
    for byte in dst.iter_mut() {
        *byte = (y % 256) as u8;
        y /= 256;
    }
}

// The number that the eight bytes from a place on spell.
pub fn word_at(image: &[u8], at: usize) -> u64
    requires { at + 8 ≤ length image.now }
    ensures { result ≡ register_at at image.now }
{
    number(&image[at..at + 8])
}

// The n low bytes of x from a place on; every other byte stays.
pub fn put_bytes(dst: &mut [u8], at: usize, n: usize, x: u64)
    requires { at + n ≤ length dst.old }
    ensures { dst.new ≡ with_bytes at n x dst.old }
{
    put_number(&mut dst[at..at + n], x);
}

// All eight bytes of x.
pub fn put_word(dst: &mut [u8], at: usize, x: u64)
    requires { at + 8 ≤ length dst.old }
    ensures { dst.new ≡ with_word at x dst.old }
{
    put_bytes(dst, at, 8, x);
}

// All of src over all of dst.
pub fn copy(dst: &mut [u8], src: &[u8])
    requires { length dst.old ≡ length src.now }
    ensures { dst.new ≡ src.now }
{
    for (i, byte) in src.iter().enumerate() {
        dst[i] = *byte;
    }
}

// Every byte becomes zero.
pub fn put_zeros(dst: &mut [u8])
    ensures { dst.new ≡ replicate (length dst.old) 0 }
{
    for byte in dst.iter_mut() {
        *byte = 0;
    }
}

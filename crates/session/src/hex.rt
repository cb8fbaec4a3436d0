// Hex digits, lower case: read out of a line, and written into an answer.
ghost use Rattle.std.specs.Prelude.{◌≡◌, ◌++◌, ◌+◌, ◌<◌, ◌≤◌, length, drop};
ghost use Rattle.sessions.specs.Session.{digit_of, digit, digits, digits_spell};
ghost use Rattle.session.specs.hex.Reads.{digit_view, number_view, field_of};

// What a byte is worth as a digit, if it is one.
pub fn digit_of(byte: u8) -> Option<u8>
    ensures { digit_view result ≡ digit_of byte }
{
    match byte {
        b'0'..=b'9' => Some(byte - b'0'),
        b'a'..=b'f' => Some(byte - b'a' + 10),
        _ => None,
    }
}

// The number that some digits spell, if they are digits.
pub fn number_of(text: &[u8]) -> Option<u64>
    requires { length text.now ≤ 16 }
    ensures { number_view result ≡ digits_spell 0 text.now }
{
    let mut value: u64 = 0;
    for byte in text {
        let digit = digit_of(*byte)?;
        value = 16 * value + u64::from(digit);
    }
    Some(value)
}

// A field of a line: a space at its place, and n digits behind it.
pub fn field(line: &[u8], at: usize, n: usize) -> Option<u64>
    requires { (at < 32) × (n ≤ 16) }
    ensures { number_view result ≡ field_of n (drop at line.now) }
{
    let start = at + 1;
    let end = start + n;
    if line.len() < end || line[at] != b' ' {
        return None;
    }
    number_of(&line[start..end])
}

// The digit of a number below 16. By hand, since std's `char::from_digit` answers an Option of a character.
fn hex_digit(x: u8) -> u8
    requires { x < 16 }
    ensures { result ≡ digit x }
{
    if x < 10 { b'0' + x } else { b'a' + (x - 10) }
}

// The n low digits of x stand at the front, the high one first; every other byte stays.
pub fn put_digits(out: &mut [u8], n: usize, x: u64)
    requires { n ≤ length out.old }
    ensures { out.new ≡ digits n x ++ drop n out.old }
{
    let mut rest = x;
    for i in (0..n).rev() {
        out[i] = hex_digit((rest % 16) as u8);
        rest /= 16;
    }
}

// The digits of a number, in upper-case hexadecimal.
// Buffer and place stay two parameters (`wording::words` says why).
ghost use Rattle.std.specs.Prelude.{◌≡◌, ◌+◌, ◌<◌, ◌≤◌, length};
ghost use Rattle.lines.specs.Hex.{digit_byte, hex_text, printed, placed};

// A digit's byte.
#[tactic(auto, unfolding(crate::specs::Hex::digit_byte))]
pub fn digit_byte(d: u8) -> u8
    requires { d < 16 }
    ensures { result ≡ digit_byte d }
{
    if d < 10 { b'0' + d } else { b'A' + (d - 10) }
}

// Puts n digits of a value into a buffer, the last digit first. By place: after a `rev` of `iter_mut` a proof knows nothing of what was written.
pub fn put_digits(out: &mut [u8], at: usize, n: usize, value: u32)
    requires { at + n ≤ length out.old }
    ensures { out.new ≡ placed out.old at (hex_text n value) }
{
    let mut v = value;
    for k in (0..n).rev() {
        out[at + k] = digit_byte((v % 16) as u8);
        v /= 16;
    }
}

// Puts a number in two digits, so many digits of a value, and LF into a buffer, and returns the place after them.
pub fn put_line(out: &mut [u8], at: usize, number: u32, digits: usize, value: u32) -> usize
    requires { at + (3 + digits) ≤ length out.old }
    ensures { (out.new ≡ placed out.old at (printed number digits value)) × (result ≡ at + (3 + digits)) }
{
    put_digits(out, at, 2, number);
    put_digits(out, at + 2, digits, value);
    let end = at + 2 + digits;
    out[end] = 0x0A;
    end + 1
}

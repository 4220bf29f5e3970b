// The answer to a line, and its bytes in upper-case hexadecimal, ended by LF.
// Buffer and place stay two parameters (`wording::words` says why).
ghost use Rattle.std.specs.Prelude.{◌≡◌, ◌+◌, ◌≤◌, length};
ghost use Rattle.lines.specs.Hex.{placed};
ghost use Rattle.session.specs.Answer.{text_of};

use lines::hex::put_line;

// The bytes of the longest answer: two digits, eight digits, LF.
pub const ANSWER: usize = 11;

// The refusal number (0: none), and a value in so many digits. These are the three that `text_of` prints, so a Result would only be taken apart again.
#[derive(Clone, Copy)]
pub struct Answer {
    pub number: u32,
    pub digits: usize,
    pub value: u32,
}

// Puts an answer into a buffer, and returns the place after it.
pub(crate) fn put_answer(out: &mut [u8], at: usize, a: Answer) -> usize
    requires { (at + 11 ≤ length out.old) × (a.digits ≤ 8) }
    ensures { (out.new ≡ placed out.old at (text_of a)) × (result ≡ at + length (text_of a)) × (result ≤ at + 11) }
{
    put_line(out, at, a.number, a.digits, a.value)
}

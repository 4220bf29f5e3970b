// Words, decimal numbers and digits, put into a lent buffer. Each function returns the place after what it put.
// The buffer and the place stay two parameters. As one value with a `&mut [u8]` in it they were tried: its contracts are longer, and what
// a lent slice keeps of itself, its length, has to be proved of that field after each word.
ghost use Rattle.std.specs.Prelude.{◌≡◌, ◌++◌, ◌+◌, ◌≤◌, length};
ghost use Rattle.lines.specs.Hex.{hex_text, placed};
ghost use Rattle.wording.specs.Words.{decimal};
ghost use Rattle.wording.specs.Aside.{Put, count_in, digits_in};

use lines::hex::put_digits;

// Puts a word: its bytes.
pub(crate) fn put_word(out: &mut [u8], at: usize, word: &[u8]) -> usize
    requires { at + length word.now ≤ length out.old }
    ensures { Put out.old at word.now (length word.now) out.new result }
{
    let end = at + word.len();
    out[at..end].copy_from_slice(word);
    end
}

// How many decimal digits a number has, of so many at most.
#[tactic(auto, using(crate::proofs::Puts::count_none, crate::proofs::Puts::count_last))]
fn count_digits(most: usize, v: u64) -> usize
    ensures { (result ≡ count_in most v) × (result ≤ most) }
{
    let mut n = 0;
    let mut rest = v;
    // No `for`: of one the compiler makes twenty tests without a branch, and the audit program worked those out for every line, with an event or without.
    while n < most {
        n += 1;
        if rest < 10 {
            return n;
        }
        rest /= 10;
    }
    n
}

// Puts so many decimal digits of a number into a buffer, the last digit first.
fn put_decimal(out: &mut [u8], at: usize, digits: usize, v: u64)
    requires { at + digits ≤ length out.old }
    ensures { out.new ≡ placed out.old at (digits_in digits v) }
{
    let mut rest = v;
    // By index: of what is written through `iter_mut` and `rev` a proof knows nothing.
    for k in (0..digits).rev() {
        out[at + k] = b'0' + (rest % 10) as u8;
        rest /= 10;
    }
}

// Puts a decimal number without leading zeros.
fn put_number(out: &mut [u8], at: usize, n: u64) -> usize
    requires { at + 20 ≤ length out.old }
    ensures { Put out.old at (decimal n) 20 out.new result }
{
    let digits = count_digits(20, n);
    put_decimal(out, at, digits, n);
    at + digits
}

// Puts a value in so many hexadecimal digits.
#[tactic(auto, using(lines::proofs::Placed::length_hex))]
fn put_hex(out: &mut [u8], at: usize, digits: usize, value: u32) -> usize
    requires { at + digits ≤ length out.old }
    ensures { Put out.old at (hex_text digits value) digits out.new result }
{
    put_digits(out, at, digits, value);
    at + digits
}

// Puts a word and a decimal number.
pub(crate) fn put_count(out: &mut [u8], at: usize, word: &[u8], n: u64) -> usize
    requires { at + (length word.now + 20) ≤ length out.old }
    ensures { Put out.old at (word.now ++ decimal n) (length word.now + 20) out.new result }
{
    let next = put_word(out, at, word);
    put_number(out, next, n)
}

// Puts a word and a value in so many hexadecimal digits.
pub(crate) fn put_code(out: &mut [u8], at: usize, word: &[u8], digits: usize, value: u32) -> usize
    requires { at + (length word.now + digits) ≤ length out.old }
    ensures { Put out.old at (word.now ++ hex_text digits value) (length word.now + digits) out.new result }
{
    let next = put_word(out, at, word);
    put_hex(out, next, digits, value)
}

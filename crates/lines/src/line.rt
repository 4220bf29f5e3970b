// A script line, without its LF, to the frame that it says.
#![tactic(auto, using(crate::proofs::Digits::parts), unfolding(crate::specs::Line::frame_of, crate::specs::Line::spelled, crate::specs::Line::number_of))]

ghost use Rattle.std.specs.Prelude.{◌≡◌, ◌+◌, ◌<◌, ◌≤◌, true, length, take, drop};
ghost use Rattle.lines.specs.Line.{is_hex, worth, digit_of, hex_part, number_at, number_of, Begins, frame_of};

use super::reader::LineReader;

// A byte as an upper-case hexadecimal digit. No Option: it has the definition's name, and a reading ends with what is none.
#[derive(Clone, Copy, PartialEq, Eq, Debug)]
pub enum Digit {
    Value(u8),
    NotHex,
}

// One frame a line. A row's bytes stay in the line. A line that says none is a frame too, as in the definitions, so this is no Option.
#[derive(Clone, Copy, PartialEq, Eq, Debug)]
pub enum Frame {
    Reset,
    Read(u16),
    Write(u16, u8),
    Tick(u32),
    Row(u8),
    Malformed,
}

// Whether a byte is a digit. No branch tells digits from letters: which comes next is not to be guessed.
fn is_digit(b: u8) -> bool
    ensures { result ≡ is_hex b }
{
    // in 30h to 46h, and not in 3Ah to 40h
    (b.wrapping_sub(b'0') <= 22) & (7 <= b.wrapping_sub(58))
}

// What a digit is worth.
fn worth_of(b: u8) -> u32
    requires { is_hex b ≡ true }
    ensures { (result ≡ worth b) × (result < 16) }
{
    u32::from(b % 16 + b / 64 * 9)
}

// A byte as a digit.
#[tactic(auto, unfolding(crate::specs::Line::digit_of))]
pub(crate) fn digit_of(b: u8) -> Digit
    ensures { result ≡ digit_of b }
{
    if is_digit(b) {
        Digit::Value(worth_of(b) as u8)
    } else {
        Digit::NotHex
    }
}

// The number that two bytes of a line, from `at` on, spell, one digit after the other: what is no digit ends the reading.
#[tactic(auto, using(crate::proofs::Digits::two))]
pub(crate) fn two_at(line: &[u8], at: usize) -> Option<u32>
    requires { at + 2 ≤ length line.now }
    ensures { result ≡ number_of line.now at 2 }
{
    let Digit::Value(high) = digit_of(line[at]) else {
        return None;
    };
    let Digit::Value(low) = digit_of(line[at + 1]) else {
        return None;
    };
    Some(16 * u32::from(high) + u32::from(low))
}

// Whether all bytes are digits. Nothing is decided at a byte, so that many are looked at together.
fn all_hex<const N: usize>(bytes: &[u8; N]) -> bool
    ensures { result ≡ hex_part bytes.now 0 N }
{
    bytes.iter().fold(true, |all, b| all & is_digit(*b))
}

// The number that N digits spell.
fn spelt<const N: usize>(digits: &[u8; N]) -> u32
    requires { (N ≤ 8) × (hex_part digits.now 0 N ≡ true) }
    ensures { result ≡ number_at digits.now 0 N }
{
    let mut v = 0;
    for (k, b) in digits.iter().enumerate() {
        v += worth_of(*b) << (4 * (N - 1 - k));
    }
    v
}

// The number that N bytes spell if they are digits: at most eight. All are looked at before any is added.
fn number_of<const N: usize>(bytes: &[u8; N]) -> Option<u32>
    requires { N ≤ 8 }
    ensures { result ≡ number_of bytes.now 0 N }
{
    if all_hex(bytes) {
        Some(spelt(bytes))
    } else {
        None
    }
}

// N bytes of a line, from `at` on.
fn part<const N: usize>(line: &[u8], at: usize) -> &[u8; N]
    requires { at + N ≤ length line.now }
    ensures { result.now ≡ take N (drop at line.now) }
{
    line[at..at + N].try_into().unwrap()
}

// Whether they are all digits.
#[tactic(auto, using(crate::proofs::Digits::hex_cut))]
pub(crate) fn all_hex_at<const N: usize>(line: &[u8], at: usize) -> bool
    requires { at + N ≤ length line.now }
    ensures { result ≡ hex_part line.now at N }
{
    all_hex(part::<N>(line, at))
}

// The number that they spell: at most eight.
#[tactic(auto, using(crate::proofs::Digits::of_cut))]
pub(crate) fn number_at<const N: usize>(line: &[u8], at: usize) -> Option<u32>
    requires { (at + N ≤ length line.now) × (N ≤ 8) }
    ensures { result ≡ number_of line.now at N }
{
    number_of(part::<N>(line, at))
}

// `00` reset.
fn reset_line(line: &[u8]) -> Frame
    requires { Begins line.now 0 }
    ensures { result ≡ frame_of line.now }
{
    if line.len() == 2 {
        Frame::Reset
    } else {
        Frame::Malformed
    }
}

// `01` four-digit address.
fn read_line(line: &[u8]) -> Frame
    requires { Begins line.now 1 }
    ensures { result ≡ frame_of line.now }
{
    if line.len() != 6 {
        return Frame::Malformed;
    }
    let Some(address) = LineReader::after_kind(line).number::<4>() else {
        return Frame::Malformed;
    };
    Frame::Read(address as u16)
}

// `02` four-digit address, byte.
fn write_line(line: &[u8]) -> Frame
    requires { Begins line.now 2 }
    ensures { result ≡ frame_of line.now }
{
    if line.len() != 8 {
        return Frame::Malformed;
    }
    let mut reader = LineReader::after_kind(line);
    let Some(address) = reader.number::<4>() else {
        return Frame::Malformed;
    };
    let Some(byte) = reader.byte() else {
        return Frame::Malformed;
    };
    Frame::Write(address as u16, byte as u8)
}

// `03` eight-digit tick.
fn tick_line(line: &[u8]) -> Frame
    requires { Begins line.now 3 }
    ensures { result ≡ frame_of line.now }
{
    if line.len() != 10 {
        return Frame::Malformed;
    }
    let Some(cycles) = LineReader::after_kind(line).number::<8>() else {
        return Frame::Malformed;
    };
    Frame::Tick(cycles)
}

// `04` row (00 to 7F) and 128 bytes of the image.
fn row_line(line: &[u8]) -> Frame
    requires { Begins line.now 4 }
    ensures { result ≡ frame_of line.now }
{
    if line.len() != 260 {
        return Frame::Malformed;
    }
    let mut reader = LineReader::after_kind(line);
    let Some(y) = reader.byte() else {
        return Frame::Malformed;
    };
    if 0x7F < y {
        return Frame::Malformed;
    }
    if !reader.all_hex::<256>() {
        return Frame::Malformed;
    }
    Frame::Row(y as u8)
}

// The frame that a line says.
#[tactic(auto, using(crate::proofs::Begins::by_kind))]
pub fn frame_of(line: &[u8]) -> Frame
    ensures { result ≡ frame_of line.now }
{
    // no kind but 00 to 04 is one
    let [b'0', kind, ..] = line else {
        return Frame::Malformed;
    };
    match *kind {
        b'0' => reset_line(line),
        b'1' => read_line(line),
        b'2' => write_line(line),
        b'3' => tick_line(line),
        b'4' => row_line(line),
        _ => Frame::Malformed,
    }
}

// The byte that two digits of a line spell.
#[tactic(auto, using(crate::proofs::Digits::pair))]
pub fn byte_at(line: &[u8], at: usize) -> u8
    requires { (at + 2 ≤ length line.now) × (hex_part line.now at 2 ≡ true) }
    ensures { result ≡ number_at line.now at 2 }
{
    (worth_of(line[at]) * 16 + worth_of(line[at + 1])) as u8
}

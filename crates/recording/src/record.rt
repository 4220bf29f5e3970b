// Frames written as lines into a lent buffer, which is what a live session is recorded with.
ghost use Rattle.std.specs.Prelude.{◌≡◌, false, not, [], ◌++◌, ◌+◌, ◌*◌, ◌≤◌, length};
ghost use Rattle.controller.specs.Outcome.{verdict_number};
ghost use Rattle.controller.specs.Table.{before, lowest};
ghost use Rattle.lines.specs.Hex.{hex_text, placed};
ghost use Rattle.recording.specs.Record.{row_hex, row_line, row_allowed, ended, too_short, record_rows, line_means, record_means, recorded};

use controller::Refusal;
use controller::judge::refused_if;
use lines::hex::{digit_byte, put_digits, put_line};
use lines::line::Frame;

// The bytes of an image row, and of its line with the LF.
pub const ROW: usize = 128;

pub const ROW_LINE: usize = 261;

// 7: the buffer is shorter than the line with its LF.
// (Not `judge::no_room`: `record_rows` has `too_short`.)
fn no_room(room: usize, length: usize) -> Result<(), Refusal>
    ensures { verdict_number result ≡ before (too_short room length) 0 }
{
    refused_if(room < length, Refusal::Room)
}

// Whether a row has a line: 00 to 7F, with 128 bytes.
#[tactic(auto, unfolding(crate::specs::Record::row_allowed))]
fn row_allowed(y: u8, length: usize) -> bool
    ensures { result ≡ row_allowed y length }
{
    y <= 0x7F && length == ROW
}

// Writes a kind, so many digits of a value, and LF: the length of the line with its LF, as each of these functions answers.
// The kind is a number: it is what is written.
fn record_digits(kind: u32, digits: usize, value: u32, out: &mut [u8]) -> Result<usize, Refusal>
    requires { digits ≤ 8 }
    ensures { recorded result out.new ≡ line_means false (hex_text 2 kind ++ hex_text digits value) out.old }
{
    no_room(out.len(), 3 + digits)?;
    Ok(put_line(out, 0, kind, digits, value))
}

// `00` reset.
pub fn record_reset(out: &mut [u8]) -> Result<usize, Refusal>
    ensures { recorded result out.new ≡ record_means Frame.Reset [] out.old }
{
    record_digits(0, 0, 0, out)
}

// `01` four-digit address.
pub fn record_read(address: u16, out: &mut [u8]) -> Result<usize, Refusal>
    ensures { recorded result out.new ≡ record_means (Frame.Read address) [] out.old }
{
    record_digits(1, 4, address as u32, out)
}

// `02` four-digit address, byte: six digits of the two as one number.
pub fn record_write(address: u16, value: u8, out: &mut [u8]) -> Result<usize, Refusal>
    ensures { recorded result out.new ≡ record_means (Frame.Write address value) [] out.old }
{
    record_digits(2, 6, address as u32 * 256 + value as u32, out)
}

// `03` eight-digit tick.
pub fn record_tick(cycles: u32, out: &mut [u8]) -> Result<usize, Refusal>
    ensures { recorded result out.new ≡ record_means (Frame.Tick cycles) [] out.old }
{
    record_digits(3, 8, cycles, out)
}

// Puts bytes into a buffer, two digits each. (By place: after a zip with `iter_mut` a proof knows nothing of what was written.)
pub fn put_bytes(out: &mut [u8], at: usize, bytes: &[u8])
    requires { at + 2 * length bytes.now ≤ length out.old }
    ensures { out.new ≡ placed out.old at (row_hex bytes.now) }
{
    for i in 0..bytes.len() {
        let b = bytes[i];
        out[at + 2 * i] = digit_byte(b / 16);
        out[at + 2 * i + 1] = digit_byte(b % 16);
    }
}

// Puts the line of a row into a buffer: kind, row, bytes and LF.
fn put_row(out: &mut [u8], row: u8, bytes: &[u8])
    requires { (length bytes.now ≡ 128) × (261 ≤ length out.old) }
    ensures { out.new ≡ placed out.old 0 (ended (row_line row bytes.now)) }
{
    put_digits(out, 0, 2, 4);
    put_digits(out, 2, 2, row as u32);
    put_bytes(out, 4, bytes);
    out[260] = 0x0A;
}

// What a row's line is refused by: 6, then 7.
fn judge_row(row: u8, bytes: &[u8], out: &[u8]) -> Result<(), Refusal>
    ensures { verdict_number result
        ≡ lowest (record_rows (not (row_allowed row (length bytes.now))) (row_line row bytes.now) out.now) }
{
    refused_if(!row_allowed(row, bytes.len()), Refusal::Line)?;
    no_room(out.len(), ROW_LINE)
}

// `04` row and 128 bytes of the image.
pub fn record_row(row: u8, bytes: &[u8], out: &mut [u8]) -> Result<usize, Refusal>
    ensures { recorded result out.new ≡ record_means (Frame.Row row) bytes.now out.old }
{
    judge_row(row, bytes, out)?;
    put_row(out, row, bytes);
    Ok(ROW_LINE)
}

// Frames written as script lines, for a recorder of a live session. The answer's value is the line's length with its LF.
ghost use Rattle.std.specs.Prelude.{◌≡◌, []};
ghost use Rattle.answers.specs.Called.{filled};
ghost use Rattle.recorder.specs.Recorder.{record_bytes};

use answers::answer;
use lines::line::Frame;
use recording::record::{record_read, record_reset, record_row, record_tick, record_write};

// `00` reset.
#[unsafe(no_mangle)]
pub extern "C" fn gulxinett_record_reset(out: &mut [u8]) -> u64
    ensures { filled result out.new ≡ record_bytes Frame.Reset [] out.old }
{
    answer(record_reset(out))
}

// `01` four-digit address.
#[unsafe(no_mangle)]
pub extern "C" fn gulxinett_record_read(address: u16, out: &mut [u8]) -> u64
    ensures { filled result out.new ≡ record_bytes (Frame.Read address) [] out.old }
{
    answer(record_read(address, out))
}

// `02` four-digit address, byte.
#[unsafe(no_mangle)]
pub extern "C" fn gulxinett_record_write(address: u16, value: u8, out: &mut [u8]) -> u64
    ensures { filled result out.new ≡ record_bytes (Frame.Write address value) [] out.old }
{
    answer(record_write(address, value, out))
}

// `03` eight-digit tick.
#[unsafe(no_mangle)]
pub extern "C" fn gulxinett_record_tick(cycles: u32, out: &mut [u8]) -> u64
    ensures { filled result out.new ≡ record_bytes (Frame.Tick cycles) [] out.old }
{
    answer(record_tick(cycles, out))
}

// `04` row and 128 bytes of the image.
#[unsafe(no_mangle)]
pub extern "C" fn gulxinett_record_row(row: u8, bytes: &[u8], out: &mut [u8]) -> u64
    ensures { filled result out.new ≡ record_bytes (Frame.Row row) bytes.now out.old }
{
    answer(record_row(row, bytes, out))
}

// Script lines and scripts: what `recorder` has.
ghost use Rattle.std.specs.Prelude.{◌≡◌, []};
ghost use Rattle.answers.specs.Called.{filled};
ghost use Rattle.recorder.specs.Recorder.{record_bytes, reported, salvage_bytes};
ghost use Rattle.recorder.specs.Steps.{stepped, step_bytes};

use lines::line::Frame;
use recorder::{clean, record, step};

// `00` reset.
#[unsafe(no_mangle)]
pub extern "C" fn gulxinett_record_reset(out: &mut [u8]) -> u64
    ensures { filled result out.new ≡ record_bytes Frame.Reset [] out.old }
{
    record::gulxinett_record_reset(out)
}

// `01` four-digit address.
#[unsafe(no_mangle)]
pub extern "C" fn gulxinett_record_read(address: u16, out: &mut [u8]) -> u64
    ensures { filled result out.new ≡ record_bytes (Frame.Read address) [] out.old }
{
    record::gulxinett_record_read(address, out)
}

// `02` four-digit address, byte.
#[unsafe(no_mangle)]
pub extern "C" fn gulxinett_record_write(address: u16, value: u8, out: &mut [u8]) -> u64
    ensures { filled result out.new ≡ record_bytes (Frame.Write address value) [] out.old }
{
    record::gulxinett_record_write(address, value, out)
}

// `03` eight-digit tick.
#[unsafe(no_mangle)]
pub extern "C" fn gulxinett_record_tick(cycles: u32, out: &mut [u8]) -> u64
    ensures { filled result out.new ≡ record_bytes (Frame.Tick cycles) [] out.old }
{
    record::gulxinett_record_tick(cycles, out)
}

// `04` row and 128 bytes of the image.
#[unsafe(no_mangle)]
pub extern "C" fn gulxinett_record_row(row: u8, bytes: &[u8], out: &mut [u8]) -> u64
    ensures { filled result out.new ≡ record_bytes (Frame.Row row) bytes.now out.old }
{
    record::gulxinett_record_row(row, bytes, out)
}

// Carries out a script line, without its LF, and puts its answer with the LF at the start of a buffer. The answer's value is that length.
#[unsafe(no_mangle)]
pub extern "C" fn gulxinett_step(
    state: &mut [u8],
    rom: &[u8],
    ram: &mut [u8],
    store: &mut [u8],
    image: &mut [u8],
    line: &[u8],
    out: &mut [u8],
) -> u64
    ensures { stepped result state.new ram.new store.new image.new out.new
        ≡ step_bytes state.old rom.now ram.old store.old image.old
        line.now out.old }
{
    step::gulxinett_step(state, rom, ram, store, image, line, out)
}

// Cleans a script into one buffer and reports on its lines in another. The answer's value is lines * 65536 + the text's length.
#[unsafe(no_mangle)]
pub extern "C" fn gulxinett_salvage(script: &[u8], text: &mut [u8], report: &mut [u8]) -> u64
    ensures { reported result text.new report.new ≡ salvage_bytes script.now text.old report.old }
{
    clean::gulxinett_salvage(script, text, report)
}

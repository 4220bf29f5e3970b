// Scripts salvaged, for who is handed recordings with broken lines or a second copy on the end.
ghost use Rattle.std.specs.Prelude.{◌≡◌, ◌+◌, ◌*◌, ◌≤◌};
ghost use Rattle.recorder.specs.Recorder.{reported, salvage_bytes};

use answers::{pack, refused};
use salvaging::{Salvaged, salvage};

// The number of lines and the text's length as one value.
fn counts(lines: usize, length: usize) -> u32
    requires { (lines ≤ 32768) × (length ≤ 32769) }
    ensures { result ≡ lines * 65536 + length }
{
    lines as u32 * 65536 + length as u32
}

// Cleans a script into one buffer and reports on its lines in another. The answer's value is lines * 65536 + the text's length.
#[unsafe(no_mangle)]
pub extern "C" fn gulxinett_salvage(script: &[u8], text: &mut [u8], report: &mut [u8]) -> u64
    ensures { reported result text.new report.new ≡ salvage_bytes script.now text.old report.old }
{
    match salvage(script, text, report) {
        Ok(Salvaged { length, lines }) => pack(0, counts(lines, length)),
        Err(why) => refused(why),
    }
}

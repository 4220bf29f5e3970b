// The picture area as a Netpbm file of kind P5, whether or not a capture is running.
// The RAM stays a slice whose least length a clause says: C lends it, of 1 to 16 banks.
ghost use Rattle.std.specs.Prelude.{◌≡◌, ◌++◌, ◌≤◌, length, drop};
ghost use Rattle.laws.specs.Lists.{listed};
ghost use Rattle.controller.specs.Outcome.{verdict_number};
ghost use Rattle.controller.specs.Table.{lowest};
ghost use Rattle.plates.specs.Grey.{header, grey_at, plate_of, export_rows, export_means};
ghost use Rattle.shades.specs.Shades.{output_number, output_value, exported};

use controller::Refusal;
use controller::judge::{no_ram, no_room};
use shades::put_tones;

// What a file starts with: kind, columns, rows and largest value.
pub const HEADER: [u8; 15] = *b"P5\n128 112\n255\n";
// The bytes of a file.
pub const FILE: usize = 14351;

// All pixels, row by row: 85 darker for the low bit and 170 for the high bit.
// The pixels are written, so they stay a slice.
fn put_pixels(ram: &[u8], pixels: &mut [u8])
    requires { (8192 ≤ length ram.now) × (length pixels.old ≡ 14336) }
    ensures { pixels.new ≡ listed (grey_at ram.now) 14336 }
{
    put_tones(ram, 85, true, pixels);
}

// The header's bytes.
#[tactic(auto, unfolding(crate::specs::Grey::header))]
pub fn put_header(out: &mut [u8])
    requires { length out.old ≡ 15 }
    ensures { out.new ≡ header }
{
    out.copy_from_slice(&HEADER);
}

// The file, at the start of a buffer that has room for it.
fn put_file(ram: &[u8], out: &mut [u8])
    requires { (8192 ≤ length ram.now) × (14351 ≤ length out.old) }
    ensures { out.new ≡ plate_of ram.now ++ drop 14351 out.old }
{
    put_header(&mut out[0..15]);
    put_pixels(ram, &mut out[15..14351]);
}

// What an export was lent, judged.
#[tactic(auto, using(controller::proofs::Judging::rows), unfolding(crate::specs::Grey::export_rows))]
fn judge_export(ram: &[u8], out: &[u8]) -> Result<(), Refusal>
    ensures { verdict_number result ≡ lowest (export_rows ram.now out.now) }
{
    no_ram(ram.len())?;
    no_room(FILE, out.len())
}

// The picture area as a file, in a lent buffer, whose later bytes stay: how many bytes were written.
pub fn export(ram: &[u8], out: &mut [u8]) -> Result<u32, Refusal>
    ensures { exported (output_number result) (output_value result) out.new ≡ export_means ram.now out.old }
{
    judge_export(ram, out)?;
    put_file(ram, out);
    Ok(14351)
}

// A photograph as an image: V = (2R + 5G + B) / 8 of each pixel.
ghost use Rattle.std.specs.Prelude.{◌≡◌, ℕ, ◌+◌, ◌*◌, ◌/◌, ◌<◌, ◌≤◌, length};
ghost use Rattle.laws.specs.Lists.{listed};
ghost use Rattle.controller.specs.Outcome.{verdict_number, write_number};
ghost use Rattle.controller.specs.Table.{lowest};
ghost use Rattle.photos.specs.Photo.{value_of, is_photo, import_rows, imported, import_means};

use super::header::is_header;
use controller::Refusal;
use controller::judge::{no_frame, refused_if};

// The bytes of the pixels, three each, and the longest header.
const PIXELS: usize = 49152;

const HEADER: usize = 256;

// The grey of a pixel.
fn value(r: u8, g: u8, b: u8) -> u8
    ensures { result ≡ (2 * r + 5 * g + b) / 8 }
{
    ((2 * r as u16 + 5 * g as u16 + b as u16) / 8) as u8
}

// The image of the pixels.
fn put_image(pixels: &[u8], image: &mut [u8])
    requires { (length pixels.now ≡ 49152) × (length image.old ≡ 16384) }
    ensures { image.new ≡ listed (value_of pixels.now) 16384 }
{
    // No plainer: after a zip with `iter_mut` a proof knows nothing of what was written.
    for k in 0..16384 {
        image[k] = value(pixels[3 * k], pixels[3 * k + 1], pixels[3 * k + 2]);
    }
}

// Whether a file is a photograph: a header of at most 256 bytes, and exactly 49,152 bytes after it.
fn is_photo(file: &[u8]) -> bool
    ensures { result ≡ is_photo file.now }
{
    let Some(end) = file.len().checked_sub(PIXELS) else {
        return false;
    };
    end <= HEADER && is_header(&file[..end])
}

// What an import was lent, judged.
#[tactic(auto, using(controller::proofs::Judging::rows), unfolding(crate::specs::Photo::import_rows))]
fn judge_import(file: &[u8], image: &[u8]) -> Result<(), Refusal>
    ensures { verdict_number result ≡ lowest (import_rows file.now image.now) }
{
    no_frame(image.len())?;
    refused_if(!is_photo(file), Refusal::File)
}

// A photograph, put into a lent image.
pub fn import(file: &[u8], image: &mut [u8]) -> Result<(), Refusal>
    ensures { imported (write_number result) image.new ≡ import_means file.now image.old }
{
    judge_import(file, image)?;
    let start = file.len() - PIXELS;
    put_image(&file[start..], image);
    Ok(())
}

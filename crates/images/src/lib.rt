// What C and Rust call for pictures, plates and photographs. Each function answers as those of `embed` do.
#![tactic(auto)]

pub mod judge;

ghost use Rattle.std.specs.Prelude.{◌≡◌, []};
ghost use Rattle.answers.specs.Called.{called, filled};
ghost use Rattle.images.specs.Images.{picture_bytes, export_bytes, shades_bytes, place_bytes, readings_bytes, import_bytes};

use answers::{answer, refused};
use controller::{Controller, Refusal};
use layout::{decode, is_record};
use photos::photo::import;
use placing::place;
use plates::grey::export;
use readings::readings;
use shades::shades;

// Draws the whole picture of an image under 54 registers taken.
#[unsafe(no_mangle)]
pub extern "C" fn gulxinett_picture(
    frame: &[u8],
    registers: &[u8; 54],
    picture: &mut [u8; 3584],
) -> u64
    ensures { filled result picture.new ≡ picture_bytes frame.now registers.now picture.old }
{
    answer(Controller::picture(frame, *registers, picture))
}

// Writes the picture area as a grey image, a Netpbm file of kind P5.
#[unsafe(no_mangle)]
pub extern "C" fn gulxinett_export(ram: &[u8], out: &mut [u8]) -> u64
    ensures { filled result out.new ≡ export_bytes ram.now out.old }
{
    answer(export(ram, out))
}

// Writes the picture area as shades, one a byte.
#[unsafe(no_mangle)]
pub extern "C" fn gulxinett_shades(ram: &[u8], out: &mut [u8]) -> u64
    ensures { filled result out.new ≡ shades_bytes ram.now out.old }
{
    answer(shades(ram, out))
}

// Places a grey image, a file as it is exported, in the picture area.
#[unsafe(no_mangle)]
pub extern "C" fn gulxinett_place(state: &[u8], ram: &mut [u8], file: &[u8]) -> u64
    ensures { called result state.now ram.new [] ≡ place_bytes state.now ram.old file.now }
{
    if !is_record(state) {
        return refused(Refusal::State);
    }
    answer(place(decode(state), ram, file))
}

// Writes the values of the held capture, before the matrix made shades of them, as a grey image.
#[unsafe(no_mangle)]
pub extern "C" fn gulxinett_readings(state: &[u8], store: &[u8], out: &mut [u8]) -> u64
    ensures { filled result out.new ≡ readings_bytes state.now store.now out.old }
{
    if !is_record(state) {
        return refused(Refusal::State);
    }
    answer(readings(decode(state), store, out))
}

// Reads a photograph, a Netpbm file of kind P6, into an image.
#[unsafe(no_mangle)]
pub extern "C" fn gulxinett_import_photo(file: &[u8], image: &mut [u8]) -> u64
    ensures { filled result image.new ≡ import_bytes file.now image.old }
{
    answer(import(file, image))
}

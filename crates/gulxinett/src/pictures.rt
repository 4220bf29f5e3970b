// Pictures, plates and photographs: what `images` has.
ghost use Rattle.std.specs.Prelude.{◌≡◌, []};
ghost use Rattle.answers.specs.Called.{called, filled};
ghost use Rattle.images.specs.Images.{picture_bytes, export_bytes, shades_bytes, place_bytes, readings_bytes, import_bytes};
ghost use Rattle.images.specs.Judges.{judge_bytes};

use images::judge;

// Draws the whole picture of an image under 54 registers taken.
#[unsafe(no_mangle)]
pub extern "C" fn gulxinett_picture(
    frame: &[u8],
    registers: &[u8; 54],
    picture: &mut [u8; 3584],
) -> u64
    ensures { filled result picture.new ≡ picture_bytes frame.now registers.now picture.old }
{
    images::gulxinett_picture(frame, registers, picture)
}

// Writes the picture area as a grey image, a Netpbm file of kind P5.
#[unsafe(no_mangle)]
pub extern "C" fn gulxinett_export(ram: &[u8], out: &mut [u8]) -> u64
    ensures { filled result out.new ≡ export_bytes ram.now out.old }
{
    images::gulxinett_export(ram, out)
}

// Writes the picture area as shades, one a byte.
#[unsafe(no_mangle)]
pub extern "C" fn gulxinett_shades(ram: &[u8], out: &mut [u8]) -> u64
    ensures { filled result out.new ≡ shades_bytes ram.now out.old }
{
    images::gulxinett_shades(ram, out)
}

// Places a grey image, a file as it is exported, in the picture area.
#[unsafe(no_mangle)]
pub extern "C" fn gulxinett_place(state: &[u8], ram: &mut [u8], file: &[u8]) -> u64
    ensures { called result state.now ram.new [] ≡ place_bytes state.now ram.old file.now }
{
    images::gulxinett_place(state, ram, file)
}

// Writes the values of the held capture, before the matrix made shades of them, as a grey image.
#[unsafe(no_mangle)]
pub extern "C" fn gulxinett_readings(state: &[u8], store: &[u8], out: &mut [u8]) -> u64
    ensures { filled result out.new ≡ readings_bytes state.now store.now out.old }
{
    images::gulxinett_readings(state, store, out)
}

// Reads a photograph, a Netpbm file of kind P6, into an image.
#[unsafe(no_mangle)]
pub extern "C" fn gulxinett_import_photo(file: &[u8], image: &mut [u8]) -> u64
    ensures { filled result image.new ≡ import_bytes file.now image.old }
{
    images::gulxinett_import_photo(file, image)
}

// Says of each row of a plate whether it is that of the picture afresh of a frame under 54 registers taken. The answer's value is how many are.
#[unsafe(no_mangle)]
pub extern "C" fn gulxinett_judge(
    plate: &[u8; 3584],
    frame: &[u8],
    registers: &[u8; 54],
    rows: &mut [u8],
) -> u64
    ensures { filled result rows.new ≡ judge_bytes plate.now frame.now registers.now rows.old }
{
    judge::gulxinett_judge(plate, frame, registers, rows)
}

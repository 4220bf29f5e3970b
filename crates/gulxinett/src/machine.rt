// The controller over numbers and byte slices, and its saves: what `embed` has.
ghost use Rattle.std.specs.Prelude.{◌≡◌, []};
ghost use Rattle.answers.specs.Called.{called, filled};
ghost use Rattle.embed.specs.Exports.{reset_bytes, read_bytes, write_bytes, tick_bytes, inspect_bytes, choose_bytes};
ghost use Rattle.embed.specs.Saves.{save_bytes, restore_bytes};

use embed::keep;

// Writes the reset record.
#[unsafe(no_mangle)]
pub extern "C" fn gulxinett_reset(state: &mut [u8]) -> u64
    ensures { called result state.new [] [] ≡ reset_bytes state.old }
{
    embed::gulxinett_reset(state)
}

// Reads the byte at an address.
#[unsafe(no_mangle)]
pub extern "C" fn gulxinett_read(state: &[u8], rom: &[u8], ram: &[u8], address: u16) -> u64
    ensures { called result state.now ram.now [] ≡ read_bytes state.now rom.now ram.now address }
{
    embed::gulxinett_read(state, rom, ram, address)
}

// Writes a byte to an address; a start puts the light of the image into the frame store.
#[unsafe(no_mangle)]
pub extern "C" fn gulxinett_write(
    state: &mut [u8],
    ram: &mut [u8],
    store: &mut [u8],
    image: &[u8],
    address: u16,
    value: u8,
) -> u64
    ensures { called result state.new ram.new store.new
        ≡ write_bytes state.old ram.old store.old image.now address value }
{
    embed::gulxinett_write(state, ram, store, image, address, value)
}

// Lets cycles pass; it answers how many of them fell while a capture was running.
#[unsafe(no_mangle)]
pub extern "C" fn gulxinett_tick(state: &mut [u8], ram: &mut [u8], store: &[u8], cycles: u32) -> u64
    ensures { called result state.new ram.new store.now
        ≡ tick_bytes state.old ram.old store.now cycles }
{
    embed::gulxinett_tick(state, ram, store, cycles)
}

// Chooses the matrix of a light set and a level, with its dithering (plain 0) or without, and an exposure.
#[unsafe(no_mangle)]
pub extern "C" fn gulxinett_choose(
    state: &mut [u8],
    light: u8,
    level: u8,
    plain: u8,
    exposure: u32,
) -> u64
    ensures { called result state.new [] [] ≡ choose_bytes state.old light level plain exposure }
{
    embed::gulxinett_choose(state, light, level, plain, exposure)
}

// Looks for the first element of the current matrix whose three values don't rise or stay level.
#[unsafe(no_mangle)]
pub extern "C" fn gulxinett_inspect(state: &[u8]) -> u64
    ensures { result ≡ inspect_bytes state.now }
{
    embed::gulxinett_inspect(state)
}

// Writes state, RAM and frame store as one file. The answer's value is its length.
#[unsafe(no_mangle)]
pub extern "C" fn gulxinett_save(state: &[u8], ram: &[u8], store: &[u8], out: &mut [u8]) -> u64
    ensures { filled result out.new ≡ save_bytes state.now ram.now store.now out.old }
{
    keep::gulxinett_save(state, ram, store, out)
}

// Reads such a file into state, RAM and frame store.
#[unsafe(no_mangle)]
pub extern "C" fn gulxinett_restore(
    file: &[u8],
    state: &mut [u8],
    ram: &mut [u8],
    store: &mut [u8],
) -> u64
    ensures { called result state.new ram.new store.new
        ≡ restore_bytes file.now state.old ram.old store.old }
{
    keep::gulxinett_restore(file, state, ram, store)
}

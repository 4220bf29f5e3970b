// What C and Rust call: the controller over numbers and byte slices, with the state record as 121 bytes (layout); `images`, `recorder` and
// `ledger` have the other functions.
// Each function answers the refusal's number * 2^32 + the value (answer). A refused call changes no byte it was lent.
#![tactic(auto)]

pub mod keep;

ghost use Rattle.std.specs.Prelude.{◌≡◌, []};
ghost use Rattle.answers.specs.Called.{called};
ghost use Rattle.embed.specs.Exports.{reset_bytes, read_bytes, write_bytes, tick_bytes, inspect_bytes, exposure_in, choose_bytes};

use answers::{answer, pack, refused};
use controller::{Controller, Element, Refusal};
use desk::choice::choose;
use layout::{STATE_LEN, decode, encode, is_record};

// Writes the reset record.
#[unsafe(no_mangle)]
pub extern "C" fn gulxinett_reset(state: &mut [u8]) -> u64
    ensures { called result state.new [] [] ≡ reset_bytes state.old }
{
    if state.len() != STATE_LEN {
        return refused(Refusal::State);
    }
    encode(Controller::reset(), state);
    pack(0, 0)
}

// Reads the byte at an address.
#[unsafe(no_mangle)]
pub extern "C" fn gulxinett_read(state: &[u8], rom: &[u8], ram: &[u8], address: u16) -> u64
    ensures { called result state.now ram.now [] ≡ read_bytes state.now rom.now ram.now address }
{
    if !is_record(state) {
        return refused(Refusal::State);
    }
    answer(calls::read(state, rom, ram, address))
}

// Writes a byte to an address; a start puts the light of the image into the frame store.
#[unsafe(no_mangle)]
pub extern "C" fn gulxinett_write(
    state: &mut [u8],
    ram: &mut [u8],
    store: &mut [u8],
    image: &[u8],
    address: u16,
    value: u8,
) -> u64
    ensures { called result state.new ram.new store.new
        ≡ write_bytes state.old ram.old store.old image.now address value }
{
    if !is_record(state) {
        return refused(Refusal::State);
    }
    answer(calls::write(state, ram, store, image, address, value))
}

// Lets cycles pass; it answers how many of them fell while a capture was running. The steps of `calls::tick` stand here, so that the code of a running
// capture is called only where one runs.
#[unsafe(no_mangle)]
pub extern "C" fn gulxinett_tick(state: &mut [u8], ram: &mut [u8], store: &[u8], cycles: u32) -> u64
    ensures { called result state.new ram.new store.now
        ≡ tick_bytes state.old ram.old store.now cycles }
{
    if !is_record(state) {
        return refused(Refusal::State);
    }
    if let Err(why) = calls::judge_tick(state, ram, store) {
        return refused(why);
    }
    if !calls::runs(state) {
        return pack(0, 0);
    }
    let store: &[u8; 16384] = store.try_into().unwrap();
    pack(0, calls::run(state, ram, store, cycles))
}

// The exposure that a number names; above FFFF none.
#[tactic(auto, unfolding(crate::specs::Exports::exposure_in))]
fn exposure_in(n: u32) -> Option<u16>
    ensures { result ≡ exposure_in n }
{
    u16::try_from(n).ok()
}

// Chooses the matrix of a light set and a level, with its dithering (plain 0) or without, and an exposure.
#[unsafe(no_mangle)]
pub extern "C" fn gulxinett_choose(
    state: &mut [u8],
    light: u8,
    level: u8,
    plain: u8,
    exposure: u32,
) -> u64
    ensures { called result state.new [] [] ≡ choose_bytes state.old light level plain exposure }
{
    if !is_record(state) {
        return refused(Refusal::State);
    }
    let done = choose(
        decode(state),
        light,
        level,
        plain != 0,
        exposure_in(exposure),
    );
    match done.answer {
        Ok(()) => {
            encode(done.state, state);
            pack(0, 0)
        }
        Err(why) => refused(why),
    }
}

// Looks for the first element of the current matrix whose three values don't rise or stay level.
#[unsafe(no_mangle)]
pub extern "C" fn gulxinett_inspect(state: &[u8]) -> u64
    ensures { result ≡ inspect_bytes state.now }
{
    if !is_record(state) {
        return refused(Refusal::State);
    }
    match decode(state).inspect() {
        Ok(Some(Element { row, column })) => {
            pack(0, 0x100 + 16 * u32::from(row) + u32::from(column))
        }
        Ok(None) => pack(0, 0),
        Err(why) => refused(why),
    }
}

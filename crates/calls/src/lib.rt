// Reads, writes and ticks over the bytes of a record: each looks at the bytes that it asks for where they stand, and changes those alone that it must.
// Only a start and the end of a capture, which change half of the record, have it read and written whole.
// `cartridge` does the same over a record. One generic function over both is no plainer: a trait would have a reader, a writer and their laws for each field,
// where a law here is one byte that is changed.
// That the bytes are a record, and how long RAM and store are, stay clauses: C lends all three as slices, and of a slice that a struct held nothing is known
// once the struct is let go.
#![tactic(auto, using(layout::proofs::Inverse::record_long))]

ghost use Rattle.std.specs.Prelude.{◌≡◌, true, [], ◌<◌, ◌≤◌, length};
ghost use Rattle.lighting.specs.Light.{byte_at};
ghost use Rattle.tiles.specs.Tiles.{Bytes};
ghost use Rattle.timing.specs.Lent.{ram_allowed};
ghost use Rattle.timing.specs.Timing.{total_of};
ghost use Rattle.controller.specs.State.{can_exist};
ghost use Rattle.controller.specs.Outcome.{verdict_number, read_number, read_value, write_number, tick_number, tick_value};
ghost use Rattle.controller.specs.Table.{no_state, before, lowest};
ghost use Rattle.capture.specs.Capture.{running, ticks, from};
ghost use Rattle.capture.specs.Calls.{tick_rows, ticked, tick_means};
ghost use Rattle.capture.specs.Aside.{after};
ghost use Rattle.cartridge.specs.Bus.{control_written, register_written, store_written, capture_written, byte_written};
ghost use Rattle.cartridge.specs.Calls.{read_rows, read_means, wrote, write_rows, write_means};
ghost use Rattle.layout.specs.Layout.{is_record, registers_at, decoded, encoded};
ghost use Rattle.calls.specs.Aside.{effect, in_bytes};

use capture::{Passed, at_end, is_running, lent_to_tick, pass};
use cartridge::{
    byte_read, capture_write, is_start, lent_to_read, lent_to_write, ram_write, registers_on,
};
use controller::Refusal;
use controller::judge::refused_if;
use controller::state::can_exist;
use layout::{decode, encode, four_at};
use timing::Cycles;

// The registers taken, with their number, which is then known where they are looked at.
fn taken(state: &[u8]) -> &[u8; 54]
    requires { is_record state.now ≡ true }
    ensures { result.now ≡ registers_at state.now 67 }
{
    state[67..].try_into().unwrap()
}

// Whether the record can exist.
#[tactic(auto, using(layout::proofs::Inverse::record_long, crate::proofs::Bytes::exists_at))]
fn exists(state: &[u8]) -> bool
    requires { is_record state.now ≡ true }
    ensures { result ≡ can_exist (decoded state.now) }
{
    let elapsed = Cycles(four_at(state, 5));
    can_exist(
        state[2],
        state[3],
        state[13],
        state[4] == 1,
        elapsed,
        taken(state),
    )
}

// 1: the state record can't exist.
fn no_state(state: &[u8]) -> Result<(), Refusal>
    requires { is_record state.now ≡ true }
    ensures { verdict_number result ≡ before (no_state (decoded state.now)) 0 }
{
    refused_if(!exists(state), Refusal::State)
}

// What a read was lent, judged.
#[tactic(auto, using(layout::proofs::Inverse::record_long, controller::proofs::Judging::rows), unfolding(cartridge::specs::Calls::read_rows))]
fn judge_read(state: &[u8], rom: &[u8], ram: &[u8], address: u16) -> Result<(), Refusal>
    requires { is_record state.now ≡ true }
    ensures { verdict_number result ≡ lowest (read_rows (decoded state.now) rom.now ram.now address) }
{
    no_state(state)?;
    lent_to_read(rom, ram, address)
}

// A read: lent ROM and RAM.
pub fn read(state: &[u8], rom: &[u8], ram: &[u8], address: u16) -> Result<u8, Refusal>
    requires { is_record state.now ≡ true }
    ensures { effect (read_number result) (read_value result) state.now ram.now []
        ≡ in_bytes (read_means (decoded state.now) rom.now ram.now address) }
{
    judge_read(state, rom, ram, address)?;
    let byte = byte_read(state[2], state[3], state[13], rom, ram, address);
    Ok(byte)
}

// A write below 8000: RAM enable, where 0A enables, 00 disables and other values change nothing; ROM bank; select.
#[tactic(auto, using(layout::proofs::Inverse::record_long, crate::proofs::Bytes::same, crate::proofs::Bytes::enabled_set, crate::proofs::Bytes::disabled_set, crate::proofs::Bytes::bank_set, crate::proofs::Bytes::select_set), unfolding(cartridge::specs::Bus::control_written))]
fn control_write(state: &mut [u8], address: u16, value: u8)
    requires { (is_record state.old ≡ true) × (Bytes state.old) }
    ensures { state.new ≡ encoded (control_written (decoded state.old) address value) }
{
    match address {
        0x0000..=0x1FFF => match value {
            0x0A => state[1] = 1,
            0x00 => state[1] = 0,
            _ => {}
        },
        0x2000..=0x3FFF => state[2] = value % 64,
        0x4000..=0x5FFF => state[3] = value % 32,
        _ => {}
    }
}

// A write of register 0. A start takes the registers and lights the image into the store.
fn first_write(state: &mut [u8], store: &mut [u8], image: &[u8; 16384], value: u8)
    requires { (is_record state.old ≡ true) × (length store.old ≡ 16384) }
    ensures { (state.new ≡ encoded (capture_written (decoded state.old) value))
        × (store.new ≡ store_written (decoded state.old) store.old image.now 0 value) }
{
    if is_start(state[4] == 1, value) {
        let next = capture_write(decode(state), store, image, value);
        encode(next, state);
        return;
    }
    state[13] = value % 8;
}

// A write of a register: 1 to 53 are always writable, 54 to 127 ignore writes.
#[tactic(auto, using(layout::proofs::Inverse::record_long, crate::proofs::Bytes::same, crate::proofs::Bytes::register_set), unfolding(cartridge::specs::Bus::register_written, cartridge::specs::Bus::store_written))]
fn register_write(state: &mut [u8], store: &mut [u8], image: &[u8; 16384], number: usize, value: u8)
    requires { (is_record state.old ≡ true) × (length store.old ≡ 16384) }
    ensures { (state.new ≡ encoded (register_written (decoded state.old) number value))
        × (store.new ≡ store_written (decoded state.old) store.old image.now number value) }
{
    if number == 0 {
        first_write(state, store, image, value);
        return;
    }
    if number < 54 {
        state[13 + number] = value;
    }
}

// A write at an address on the cartridge.
#[tactic(auto, using(layout::proofs::Inverse::record_long, crate::proofs::Bytes::same, crate::proofs::Bytes::on_at, crate::proofs::Bytes::written_at_lem), unfolding(cartridge::specs::Bus::byte_written))]
fn byte_write(
    state: &mut [u8],
    ram: &mut [u8],
    store: &mut [u8],
    image: &[u8; 16384],
    address: u16,
    value: u8,
)
    requires { (is_record state.old ≡ true) × (ram_allowed (length ram.old) ≡ true) × (length store.old ≡ 16384) }
    ensures { effect 0 0 state.new ram.new store.new
        ≡ in_bytes (wrote (byte_written (decoded state.old) ram.old store.old image.now address value)) }
{
    if address < 0x8000 {
        control_write(state, address, value);
        return;
    }
    let select = state[3];
    if registers_on(select) {
        register_write(state, store, image, usize::from(address) % 128, value);
        return;
    }
    ram_write(state[1] == 1, select, state[13], ram, address, value);
}

// What a write was lent, judged.
#[tactic(auto, using(layout::proofs::Inverse::record_long, controller::proofs::Judging::rows), unfolding(cartridge::specs::Calls::write_rows))]
fn judge_write(
    state: &[u8],
    ram: &[u8],
    store: &[u8],
    image: &[u8],
    address: u16,
) -> Result<(), Refusal>
    requires { is_record state.now ≡ true }
    ensures { verdict_number result
        ≡ lowest (write_rows (decoded state.now) ram.now store.now image.now address) }
{
    no_state(state)?;
    lent_to_write(ram, store, image, address)
}

// A write: lent RAM, frame store and image.
pub fn write(
    state: &mut [u8],
    ram: &mut [u8],
    store: &mut [u8],
    image: &[u8],
    address: u16,
    value: u8,
) -> Result<(), Refusal>
    requires { is_record state.old ≡ true }
    ensures { effect (write_number result) 0 state.new ram.new store.new
        ≡ in_bytes (write_means (decoded state.old) ram.old store.old image.now address value) }
{
    judge_write(state, ram, store, image, address)?;
    let image: &[u8; 16384] = image.try_into().unwrap();
    byte_write(state, ram, store, image, address, value);
    Ok(())
}

// Puts what some cycles of a running capture leave: its end, or its elapsed cycles.
#[tactic(auto, using(layout::proofs::Inverse::record_long, crate::proofs::Bytes::elapsed_put))]
fn leave(state: &mut [u8], passed: Passed)
    requires { is_record state.old ≡ true }
    ensures { state.new ≡ encoded (after passed.elapsed (decoded state.old)) }
{
    match passed.elapsed {
        Some(elapsed) => state[5..9].copy_from_slice(&elapsed.0.to_le_bytes()),
        None => encode(at_end(decode(state)), state),
    }
}

// What a tick was lent, judged.
#[tactic(auto, using(layout::proofs::Inverse::record_long, controller::proofs::Judging::rows), unfolding(capture::specs::Calls::tick_rows))]
pub fn judge_tick(state: &[u8], ram: &[u8], store: &[u8]) -> Result<(), Refusal>
    requires { is_record state.now ≡ true }
    ensures { verdict_number result ≡ lowest (tick_rows (decoded state.now) ram.now store.now) }
{
    no_state(state)?;
    lent_to_tick(ram, store)
}

// Whether a capture is running: cycles while none is change nothing.
#[tactic(auto, using(layout::proofs::Inverse::record_long, crate::proofs::Bytes::running_at))]
pub fn runs(state: &[u8]) -> bool
    requires { is_record state.now ≡ true }
    ensures { result ≡ running (decoded state.now) }
{
    is_running(state[4] == 1, state[13])
}

// n cycles of a running capture: how many of them ran.
pub fn run(state: &mut [u8], ram: &mut [u8], store: &[u8; 16384], n: u32) -> u32
    requires { (is_record state.old ≡ true) × (running (decoded state.old) ≡ true)
        × ((decoded state.old).elapsed.0 < total_of (decoded state.old).taken) × (8192 ≤ length ram.old) }
    ensures { effect 0 result state.new ram.new store.now
        ≡ in_bytes (ticked store.now (ticks (byte_at store.now) n (from (decoded state.old) ram.old))) }
{
    let elapsed = Cycles(four_at(state, 5));
    let passed = pass(taken(state), elapsed, ram, store, n);
    leave(state, passed);
    passed.ran
}

// A tick of n cycles: lent RAM and frame store. It answers how many of them fell while a capture was running.
pub fn tick(state: &mut [u8], ram: &mut [u8], store: &[u8], n: u32) -> Result<Cycles, Refusal>
    requires { is_record state.old ≡ true }
    ensures { effect (tick_number result) (tick_value result) state.new ram.new store.now
        ≡ in_bytes (tick_means (decoded state.old) ram.old store.now n) }
{
    judge_tick(state, ram, store)?;
    if !runs(state) {
        return Ok(Cycles(0));
    }
    let store: &[u8; 16384] = store.try_into().unwrap();
    Ok(Cycles(run(state, ram, store, n)))
}

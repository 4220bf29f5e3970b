// Bus rules: what a read gives and what a write does.
#![tactic(auto)]

ghost use Rattle.std.specs.Prelude.{◌≡◌, Bool, true, false, List, [], ◌∷◌, ℕ, ◌+◌, ◌*◌, ◌/◌, ◌%◌, ◌<◌, ◌≤◌, length, get_or, set};
ghost use Rattle.timing.specs.Lent.{rom_allowed, ram_allowed};
ghost use Rattle.controller.specs.declared.Controller.{Controller};
ghost use Rattle.controller.specs.State.{started};
ghost use Rattle.controller.specs.Outcome.{verdict_number, read_outcome, write_outcome};
ghost use Rattle.cartridge.specs.Bus.{registers_on, register_read, ram_read, rom_read, byte_read, ram_place};
ghost use Rattle.cartridge.specs.Bus.{enable, control_written, is_start, capture_written, register_written, store_written, ram_written, byte_written};
ghost use Rattle.cartridge.specs.Bus.{Left, left};
ghost use Rattle.capture.specs.Capture.{begun};
ghost use Rattle.controller.specs.Table.{lowest};
ghost use Rattle.cartridge.specs.Calls.{read_rows, read_means, write_rows, write_means};
ghost use Rattle.cartridge.specs.Aside.{facing, lent_to_read, lent_to_write};

use controller::judge::{no_frame, no_place, no_ram, no_rom};
use controller::state::one_more;
use controller::{Controller, ReadDone, Refusal, WriteDone};
use lighting::{Setting, light_frame};
use timing::{Cycles, bank_place};

// The functions over plain numbers take just what they look at (write enable, ROM bank, select, register 0), which differs from one to the next, so that
// no struct of it is plainer. What a call is lent stays its parameters: behind the fields of a struct of lent `&mut` each theorem would name a field.

// Bit 4 of select selects the registers.
pub fn registers_on(select: u8) -> bool
    ensures { result ≡ registers_on (facing false 0 select 0) }
{
    select / 16 % 2 == 1
}

// Register 0 has bit 0 set: RAM is out of reach.
fn busy(first: u8) -> bool
    ensures { result ≡ started (first ∷ []) }
{
    first % 2 == 1
}

// A register read: register 0 gives its three low bits, all others 00.
fn register_read(first: u8, address: u16) -> u8
    ensures { result ≡ register_read (facing false 0 0 first) address }
{
    if address % 128 == 0 {
        return first % 8;
    }
    0
}

// Where the byte of an address stands in RAM, in the bank of select.
#[tactic(auto, using(timing::proofs::Lent::ram_inside, timing::proofs::Lent::ram_lent, timing::proofs::Lent::banks))]
fn ram_place(select: u8, ram: &[u8], address: u16) -> usize
    requires { ram_allowed (length ram.now) ≡ true }
    ensures { (result ≡ ram_place (facing false 0 select 0) ram.now address) × (result < length ram.now) }
{
    bank_place(select % 16, ram.len(), Controller::RAM_BANK)
        + usize::from(address) % Controller::RAM_BANK
}

// A RAM read: 00 while register 0 has bit 0 set.
fn ram_read(select: u8, first: u8, ram: &[u8], address: u16) -> u8
    requires { ram_allowed (length ram.now) ≡ true }
    ensures { result ≡ ram_read (facing false 0 select first) ram.now address }
{
    if busy(first) {
        return 0;
    }
    ram[ram_place(select, ram, address)]
}

// A ROM read: bank 0 below 4000, the ROM bank above.
#[tactic(auto, using(timing::proofs::Lent::rom_inside, timing::proofs::Lent::rom_lent, timing::proofs::Lent::banks), unfolding(crate::specs::Bus::rom_read))]
fn rom_read(bank: u8, rom: &[u8], address: u16) -> u8
    requires { (rom_allowed (length rom.now) ≡ true) × (address < 0x8000) }
    ensures { result ≡ rom_read (facing false bank 0 0) rom.now address }
{
    if address < 0x4000 {
        return rom[usize::from(address)];
    }
    let at = bank_place(bank, rom.len(), Controller::ROM_BANK)
        + usize::from(address) % Controller::ROM_BANK;
    rom[at]
}

// The byte at an address on the cartridge, by ROM bank, select and register 0.
#[tactic(auto, unfolding(crate::specs::Bus::byte_read, crate::specs::Bus::rom_read))]
pub fn byte_read(bank: u8, select: u8, first: u8, rom: &[u8], ram: &[u8], address: u16) -> u8
    requires { (rom_allowed (length rom.now) ≡ true) × (ram_allowed (length ram.now) ≡ true) }
    ensures { result ≡ byte_read (facing false bank select first) rom.now ram.now address }
{
    if address < 0x8000 {
        return rom_read(bank, rom, address);
    }
    if registers_on(select) {
        return register_read(first, address);
    }
    ram_read(select, first, ram, address)
}

// What a read was lent, judged: all but the state.
#[tactic(auto, using(controller::proofs::Judging::rows))]
pub fn lent_to_read(rom: &[u8], ram: &[u8], address: u16) -> Result<(), Refusal>
    ensures { verdict_number result ≡ lowest (lent_to_read rom.now ram.now address) }
{
    no_rom(rom.len())?;
    no_ram(ram.len())?;
    no_place(address)
}

// What a read was lent, judged.
#[tactic(auto, using(controller::proofs::Judging::rows), unfolding(crate::specs::Calls::read_rows))]
fn judge_read(state: Controller, rom: &[u8], ram: &[u8], address: u16) -> Result<(), Refusal>
    ensures { verdict_number result ≡ lowest (read_rows state rom.now ram.now address) }
{
    state.no_state()?;
    lent_to_read(rom, ram, address)
}

// A read: lent ROM and RAM.
pub fn read(state: Controller, rom: &[u8], ram: &[u8], address: u16) -> ReadDone
    ensures { read_outcome result ram.now ≡ read_means state rom.now ram.now address }
{
    if let Err(why) = judge_read(state, rom, ram, address) {
        return ReadDone {
            state,
            answer: Err(why),
        };
    }
    let byte = byte_read(
        state.bank,
        state.select,
        state.registers[0],
        rom,
        ram,
        address,
    );
    ReadDone {
        state,
        answer: Ok(byte),
    }
}

// A write below 8000: RAM enable, ROM bank, select.
#[tactic(auto, unfolding(crate::specs::Bus::control_written, crate::specs::Bus::with_bank, crate::specs::Bus::with_select))]
fn control_write(state: Controller, address: u16, value: u8) -> Controller
    ensures { result ≡ control_written state address value }
{
    match address {
        0x0000..=0x1FFF => enable_write(state, value),
        0x2000..=0x3FFF => Controller {
            bank: value % 64,
            ..state
        },
        0x4000..=0x5FFF => Controller {
            select: value % 32,
            ..state
        },
        _ => state,
    }
}

// 0A enables, 00 disables RAM writing; other values change nothing.
#[tactic(auto, unfolding(crate::specs::Bus::with_enabled))]
fn enable_write(state: Controller, value: u8) -> Controller
    ensures { result ≡ enable state value }
{
    match value {
        0x0A => Controller {
            enabled: true,
            ..state
        },
        0x00 => Controller {
            enabled: false,
            ..state
        },
        _ => state,
    }
}

// Whether a write of register 0 is a start: bit 0 set, no capture held.
#[tactic(auto, unfolding(crate::specs::Bus::is_start))]
pub fn is_start(held: bool, value: u8) -> bool
    ensures { (c : Controller) → c.held ≡ held → result ≡ is_start c value }
{
    value % 2 == 1 && !held
}

// A start: the registers are taken, the new register 0 with them; one more has started.
#[tactic(auto, unfolding(capture::specs::Capture::begun))]
fn begin(mut state: Controller, value: u8) -> Controller
    ensures { result ≡ begun state value }
{
    state.registers[0] = value;
    state.taken = state.registers;
    state.held = true;
    state.elapsed = Cycles(0);
    state.started = one_more(state.started);
    state
}

// A write of register 0. A start lights the image into the store, by the registers just taken.
#[tactic(auto, unfolding(crate::specs::Bus::capture_written, crate::specs::Bus::store_written, crate::specs::Bus::with_register, capture::specs::Capture::begun))]
// The store is written, so it stays a slice: of one that is lent on as an array nothing is known afterwards.
pub fn capture_write(
    mut state: Controller,
    store: &mut [u8],
    image: &[u8; 16384],
    value: u8,
) -> Controller
    requires { length store.old ≡ 16384 }
    ensures { (result ≡ capture_written state value) × (store.new ≡ store_written state store.old image.now 0 value) }
{
    if is_start(state.held, value) {
        let next = begin(state, value % 8);
        let taken = next.taken;
        light_frame(image, Setting::of(&taken), store);
        return next;
    }
    state.registers[0] = value % 8;
    state
}

// A write of a register: 1 to 53 are always writable, 54 to 127 ignore writes.
#[tactic(auto, unfolding(crate::specs::Bus::register_written, crate::specs::Bus::store_written, crate::specs::Bus::with_register))]
fn register_write(
    mut state: Controller,
    store: &mut [u8],
    image: &[u8; 16384],
    number: usize,
    value: u8,
) -> Controller
    requires { length store.old ≡ 16384 }
    ensures { (result ≡ register_written state number value)
        × (store.new ≡ store_written state store.old image.now number value) }
{
    if number == 0 {
        return capture_write(state, store, image, value);
    }
    if number < 54 {
        state.registers[number] = value;
        return state;
    }
    state
}

// A write to RAM: ignored while register 0 has bit 0 set, and unless enabled.
#[tactic(auto, unfolding(crate::specs::Bus::ram_written))]
pub fn ram_write(enabled: bool, select: u8, first: u8, ram: &mut [u8], address: u16, value: u8)
    requires { ram_allowed (length ram.old) ≡ true }
    ensures { ram.new ≡ ram_written (facing enabled 0 select first) ram.old address value }
{
    if busy(first) {
        return;
    }
    if !enabled {
        return;
    }
    let at = ram_place(select, ram, address);
    ram[at] = value;
}

// A write at an address on the cartridge.
#[tactic(auto, unfolding(crate::specs::Bus::byte_written, crate::specs::Bus::ram_written))]
fn byte_write(
    state: Controller,
    ram: &mut [u8],
    store: &mut [u8],
    image: &[u8; 16384],
    address: u16,
    value: u8,
) -> Controller
    requires { (ram_allowed (length ram.old) ≡ true) × (length store.old ≡ 16384) }
    ensures { left result ram.new store.new
        ≡ byte_written state ram.old store.old image.now address value }
{
    if address < 0x8000 {
        return control_write(state, address, value);
    }
    if registers_on(state.select) {
        return register_write(state, store, image, usize::from(address) % 128, value);
    }
    ram_write(
        state.enabled,
        state.select,
        state.registers[0],
        ram,
        address,
        value,
    );
    state
}

// What a write was lent, judged: all but the state.
#[tactic(auto, using(controller::proofs::Judging::rows))]
pub fn lent_to_write(ram: &[u8], store: &[u8], image: &[u8], address: u16) -> Result<(), Refusal>
    ensures { verdict_number result ≡ lowest (lent_to_write ram.now store.now image.now address) }
{
    no_ram(ram.len())?;
    no_frame(store.len())?;
    no_frame(image.len())?;
    no_place(address)
}

// What a write was lent, judged.
#[tactic(auto, using(controller::proofs::Judging::rows), unfolding(crate::specs::Calls::write_rows))]
fn judge_write(
    state: Controller,
    ram: &[u8],
    store: &[u8],
    image: &[u8],
    address: u16,
) -> Result<(), Refusal>
    ensures { verdict_number result ≡ lowest (write_rows state ram.now store.now image.now address) }
{
    state.no_state()?;
    lent_to_write(ram, store, image, address)
}

// A write: lent RAM, frame store and image.
pub fn write(
    state: Controller,
    ram: &mut [u8],
    store: &mut [u8],
    image: &[u8],
    address: u16,
    value: u8,
) -> WriteDone
    ensures { write_outcome result ram.new store.new
        ≡ write_means state ram.old store.old image.now address value }
{
    if let Err(why) = judge_write(state, ram, store, image, address) {
        return WriteDone {
            state,
            answer: Err(why),
        };
    }
    let image: &[u8; 16384] = image.try_into().unwrap();
    let next = byte_write(state, ram, store, image, address, value);
    WriteDone {
        state: next,
        answer: Ok(()),
    }
}

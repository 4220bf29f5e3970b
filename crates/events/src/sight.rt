// What is seen of a record's bytes, where they stand.
ghost use Rattle.std.specs.Prelude.{◌≡◌, true, ◌/◌, ◌%◌, ◌≤◌, ◌<◌, length};
ghost use Rattle.layout.specs.Layout.{is_record, two_at, decoded};
ghost use Rattle.events.specs.Aside.{sight_of, takes_writes, place_by};

use capture::is_running;
use cartridge::registers_on;
use layout::four_at;

// No Option of what is held: serial and elapsed are read where none is held too.
// Of a record: whether a capture is held and whether it runs, its serial and its elapsed cycles, select, and whether bus writes at and above 8000h go
// to the RAM.
#[derive(Clone, Copy, PartialEq, Eq, Debug)]
pub struct Sight {
    pub held: bool,
    pub running: bool,
    pub serial: u16,
    pub elapsed: u32,
    pub select: u8,
    pub takes: bool,
}

// The serial: two bytes, the lowest first.
fn serial_at(state: &[u8]) -> u16
    requires { 11 ≤ length state.now }
    ensures { result ≡ two_at state.now 9 }
{
    u16::from(state[9]) + 256 * u16::from(state[10])
}

// Whether bus writes at and above 8000h go to the RAM.
#[tactic(auto, using(calls::proofs::Bytes::long))]
fn takes_at(state: &[u8]) -> bool
    requires { is_record state.now ≡ true }
    ensures { result ≡ takes_writes (decoded state.now) }
{
    !registers_on(state[3]) && state[13] % 2 != 1 && state[1] == 1
}

// What is seen of a record.
#[tactic(auto, using(calls::proofs::Bytes::long, calls::proofs::Bytes::running_at), unfolding(layout::specs::Layout::decoded))]
pub fn look(state: &[u8]) -> Sight
    requires { is_record state.now ≡ true }
    ensures { result ≡ sight_of (decoded state.now) }
{
    let held = state[4] == 1;
    Sight {
        held,
        running: is_running(held, state[13]),
        serial: serial_at(state),
        elapsed: four_at(state, 5),
        select: state[3],
        takes: takes_at(state),
    }
}

// The RAM bank that select has, in so many bytes.
fn bank_of(select: u8, length: usize) -> usize
    ensures { (result ≡ select % 16 % (length / 8192)) × (result < 16) }
{
    let bank = usize::from(select % 16);
    let banks = length / 8192;
    if banks == 0 {
        return bank;
    }
    bank % banks
}

// The place in so many bytes of RAM that an address has, by select.
pub(crate) fn place_of(select: u8, length: usize, address: u16) -> u32
    ensures { result ≡ place_by select length address }
{
    (bank_of(select, length) * 8192 + usize::from(address) % 8192) as u32
}

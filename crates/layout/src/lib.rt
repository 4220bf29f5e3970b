// The state record as bytes, layout 3: 121 of them, numbers little-endian.
#![tactic(auto)]

ghost use Rattle.std.specs.Prelude.{◌≡◌, true, ◌++◌, ◌+◌, ◌<◌, ◌≤◌, length, take, drop};
ghost use Rattle.layout.specs.Layout.{front, encoded, is_record, four_at, two_at, registers_at, decoded};

use controller::Controller;
use timing::Cycles;

// The number of the layout, at offset 0: bytes of another layout are no record.
const LAYOUT: u8 = 3;

// The record's length.
pub const STATE_LEN: usize = 121;

// Whether bytes are a record: as many as it has, of this layout, and its two flags 0 or 1.
// The functions over a record's bytes take them as a slice and say so by a clause: C lends the bytes, and with a struct around a lent `&mut [u8]`
// each theorem over their list would speak of what is behind a field.
#[tactic(auto, unfolding(crate::specs::Layout::is_record))]
pub fn is_record(state: &[u8]) -> bool
    ensures { result ≡ is_record state.now }
{
    state.len() == STATE_LEN && state[0] == LAYOUT && state[1] <= 1 && state[4] <= 1
}

// Four bytes from a place on as one number, the lowest first.
#[tactic(auto, unfolding(crate::specs::Layout::four_at))]
pub fn four_at(state: &[u8], at: usize) -> u32
    requires { at + 4 ≤ length state.now }
    ensures { result ≡ four_at state.now at }
{
    u32::from_le_bytes(state[at..at + 4].try_into().unwrap())
}

// Two bytes from a place on as one number, the lowest first.
fn two_at(state: &[u8], at: usize) -> u16
    requires { at + 2 ≤ length state.now }
    ensures { result ≡ two_at state.now at }
{
    u16::from_le_bytes(state[at..at + 2].try_into().unwrap())
}

// 54 bytes from a place on.
fn registers_at(state: &[u8], at: usize) -> [u8; 54]
    requires { at + 54 ≤ length state.now }
    ensures { result ≡ registers_at state.now at }
{
    state[at..at + 54].try_into().unwrap()
}

// The record of its bytes.
#[tactic(auto, using(crate::proofs::Inverse::record_long), unfolding(crate::specs::Layout::decoded))]
pub fn decode(state: &[u8]) -> Controller
    requires { is_record state.now ≡ true }
    ensures { result ≡ decoded state.now }
{
    Controller {
        enabled: state[1] == 1,
        bank: state[2],
        select: state[3],
        registers: registers_at(state, 13),
        held: state[4] == 1,
        taken: registers_at(state, 67),
        elapsed: Cycles(four_at(state, 5)),
        started: two_at(state, 9),
        ended: two_at(state, 11),
    }
}

// Writes a record as its bytes: layout number, flags and banks, elapsed cycles, captures started and ended, registers, registers taken.
pub fn encode(c: Controller, state: &mut [u8])
    requires { length state.old ≡ 121 }
    ensures { state.new ≡ encoded c }
{
    let first = [
        LAYOUT,
        u8::from(c.enabled),
        c.bank,
        c.select,
        u8::from(c.held),
    ];
    state[..5].copy_from_slice(&first);
    state[5..9].copy_from_slice(&c.elapsed.0.to_le_bytes());
    state[9..11].copy_from_slice(&c.started.to_le_bytes());
    state[11..13].copy_from_slice(&c.ended.to_le_bytes());
    state[13..67].copy_from_slice(&c.registers);
    state[67..].copy_from_slice(&c.taken);
}

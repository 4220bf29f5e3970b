// The controller of the camera cartridge: the state record, refusals and answers. The modules follow the paper's headings:
// state (which records can exist), judge (refusals), picture (afresh and whole), inspect. Ticks are in capture, reads and writes in cartridge.
#![tactic(auto)]

mod inspect;
pub mod judge;
mod picture;
pub mod state;

use timing::Cycles;

// What is held stands beside `held` and in no Option: a record with something left over where nothing is held is a value too, which is refused by 1
// (`State.left_over`), and the record's bytes have each field.
// The state record; captures started, and those that reached their end, are counted since reset.
#[derive(Clone, Copy)]
pub struct Controller {
    pub enabled: bool,
    pub bank: u8,
    pub select: u8,
    pub registers: [u8; 54],
    pub held: bool,
    pub taken: [u8; 54],
    pub elapsed: Cycles,
    pub started: u16,
    pub ended: u16,
}

// Refusals, by what can't exist, is not allowed, is too short or is held.
#[derive(Clone, Copy, Debug, PartialEq, Eq)]
pub enum Refusal {
    State,
    Rom,
    Ram,
    Frame,
    Address,
    Line,
    Room,
    File,
    Choice,
    Held,
    NotHeld,
    Script,
}

// An element of the matrix, by its row and column.
#[derive(Clone, Copy, Debug, PartialEq, Eq)]
pub struct Element {
    pub row: u8,
    pub column: u8,
}

// The state handed back, and the answer: the byte, nothing, or how many cycles ran; or why it is refused.
#[derive(Clone, Copy)]
pub struct Done<T> {
    pub state: Controller,
    pub answer: Result<T, Refusal>,
}

pub type ReadDone = Done<u8>;

pub type WriteDone = Done<()>;

pub type TickDone = Done<Cycles>;

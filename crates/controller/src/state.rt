// The state record: reset, the paper's figures, and which records can exist.
ghost use Rattle.std.specs.Prelude.{◌≡◌, true, false, not};
ghost use Rattle.controller.specs.State.{one_more, reset_state, left_over, wrong_capture, can_exist};
ghost use Rattle.controller.specs.Aside.{seen};

use super::Controller;
use timing::{Cycles, all_zero, total};

// One more, wrapping from 65,535 to 0.
pub fn one_more(n: u16) -> u16
    ensures { result ≡ one_more n }
{
    n.wrapping_add(1)
}

impl Controller {
    // The picture's offset in RAM bank 0, and its bytes.
    pub const PICTURE: usize = tiles::PICTURE;

    pub const PICTURE_SIZE: usize = tiles::PICTURE_SIZE;
    // Image and frame store: 128 * 128 bytes.
    pub const FRAME: usize = timing::FRAME;
    // Banks of ROM and RAM.
    pub const ROM_BANK: usize = timing::ROM_BANK;

    pub const RAM_BANK: usize = timing::RAM_BANK;
    // Cycles of a capture: the base, and what is added where N is clear.
    pub const BASE: u32 = timing::BASE;

    pub const N_CLEAR: u32 = timing::N_CLEAR;
    // Clocks before reading begins, at exposure 0.
    pub const READING: u32 = timing::READING;

    // The reset state.
    pub fn reset() -> Controller
        ensures { result ≡ reset_state }
    {
        Controller {
            enabled: false,
            bank: 1,
            select: 0,
            registers: [0; 54],
            held: false,
            taken: [0; 54],
            elapsed: Cycles(0),
            started: 0,
            ended: 0,
        }
    }

    // Whether the state record can exist.
    pub fn exists(self) -> bool
        ensures { result ≡ can_exist self }
    {
        can_exist(
            self.bank,
            self.select,
            self.registers[0],
            self.held,
            self.elapsed,
            &self.taken,
        )
    }
}

// Whether a held capture can exist: taken register 0 is odd and at most 7, and elapsed is below its total.
fn holds_capture(elapsed: Cycles, taken: &[u8; 54]) -> bool
    ensures { result ≡ not (wrong_capture (seen 0 0 0 true elapsed taken.now)) }
{
    let first = taken[0];
    if first % 2 == 0 {
        return false;
    }
    if 7 < first {
        return false;
    }
    let most = total(taken);
    elapsed.0 < most.0
}

// Whether nothing is left over where no capture is held.
fn holds_nothing(elapsed: Cycles, taken: &[u8; 54]) -> bool
    ensures { result ≡ not (left_over (seen 0 0 0 false elapsed taken.now)) }
{
    if elapsed.0 != 0 {
        return false;
    }
    all_zero(taken)
}

// Whether a record can exist, by all that is asked of it: ROM bank, select, register 0, the capture held.
#[tactic(auto, using(crate::proofs::Records::held_only, crate::proofs::Records::none_only), unfolding(crate::specs::State::cant_exist))]
pub fn can_exist(
    bank: u8,
    select: u8,
    first: u8,
    held: bool,
    elapsed: Cycles,
    taken: &[u8; 54],
) -> bool
    ensures { result ≡ can_exist (seen bank select first held elapsed taken.now) }
{
    if 63 < bank {
        return false;
    }
    if 31 < select {
        return false;
    }
    if 7 < first {
        return false;
    }
    if held {
        return holds_capture(elapsed, taken);
    }
    if first % 2 == 1 {
        return false;
    }
    holds_nothing(elapsed, taken)
}

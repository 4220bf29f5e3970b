// Judging what a call was lent, before anything is done: the rows of the table of refusals, lowest number first.
ghost use Rattle.std.specs.Prelude.{◌≡◌};
ghost use Rattle.controller.specs.Outcome.{number_of, verdict_number};
ghost use Rattle.controller.specs.Table.{on_cartridge};
ghost use Rattle.controller.specs.Table.{row, no_state, no_rom, no_ram, no_frame, no_place, no_room, before};

use super::{Controller, Refusal};
use timing::{ram_allowed, rom_allowed};

// The number of a refusal.
impl From<Refusal> for u32 {
    ghost from_gives = { λ why n. n ≡ number_of why };

    fn from(why: Refusal) -> u32 {
        match why {
            Refusal::State => 1,
            Refusal::Rom => 2,
            Refusal::Ram => 3,
            Refusal::Frame => 4,
            Refusal::Address => 5,
            Refusal::Line => 6,
            Refusal::Room => 7,
            Refusal::File => 8,
            Refusal::Choice => 9,
            Refusal::Held => 10,
            Refusal::NotHeld => 11,
            Refusal::Script => 12,
        }
    }
}

// A row of the table: refused where it holds. Rows stand one after the other, lowest number first, each with a `?`.
pub fn refused_if(holds: bool, why: Refusal) -> Result<(), Refusal>
    ensures { verdict_number result ≡ before (row why holds) 0 }
{
    if holds {
        return Err(why);
    }
    Ok(())
}

// 2: ROM length is not allowed.
pub fn no_rom(len: usize) -> Result<(), Refusal>
    ensures { verdict_number result ≡ before (no_rom len) 0 }
{
    refused_if(!rom_allowed(len), Refusal::Rom)
}

// 3: RAM length is not allowed.
pub fn no_ram(len: usize) -> Result<(), Refusal>
    ensures { verdict_number result ≡ before (no_ram len) 0 }
{
    refused_if(!ram_allowed(len), Refusal::Ram)
}

// 4: image or frame store is not 16,384 bytes.
pub fn no_frame(len: usize) -> Result<(), Refusal>
    ensures { verdict_number result ≡ before (no_frame len) 0 }
{
    refused_if(len != Controller::FRAME, Refusal::Frame)
}

// Whether an address is on the cartridge: 0000-7FFF and A000-BFFF.
fn on_cartridge(address: u16) -> bool
    ensures { result ≡ on_cartridge address }
{
    if address < 0x8000 {
        return true;
    }
    if address < 0xA000 {
        return false;
    }
    address < 0xC000
}

// 5: address is outside 0000-7FFF and A000-BFFF.
pub fn no_place(address: u16) -> Result<(), Refusal>
    ensures { verdict_number result ≡ before (no_place address) 0 }
{
    refused_if(!on_cartridge(address), Refusal::Address)
}

// 7: a lent buffer is shorter than what is to be written.
pub fn no_room(bytes: usize, len: usize) -> Result<(), Refusal>
    ensures { verdict_number result ≡ before (no_room bytes len) 0 }
{
    refused_if(len < bytes, Refusal::Room)
}

impl Controller {
    // 1: the state record can't exist.
    pub fn no_state(self) -> Result<(), Refusal>
        ensures { verdict_number result ≡ before (no_state self) 0 }
    {
        refused_if(!self.exists(), Refusal::State)
    }
}

// Reading a save into lent state bytes, RAM and frame store.
ghost use Rattle.std.specs.Prelude.{◌≡◌, Bool, not, ◌&&◌, ◌+◌, ◌≤◌, eqb, length, take};
ghost use Rattle.crc.specs.Crc.{crc_of};
ghost use Rattle.controller.specs.Outcome.{verdict_number, write_number};
ghost use Rattle.controller.specs.Table.{lowest};
ghost use Rattle.layout.specs.Layout.{four_at};
ghost use Rattle.save.specs.Restore.{ram_length_in, is_sized, has_magic, is_save, restore_rows, restored, restore_means};

use super::parts::{FRONT, MAGIC, REST, is_state, put};
use controller::judge::{no_frame, no_ram, refused_if};
use controller::{Controller, Refusal};
use crc::crc32;
use layout::{STATE_LEN, four_at};
use placing::begins;
use timing::ram_allowed;

// Whether a file is as long as its banks say, and these are allowed.
fn is_sized(file: &[u8]) -> bool
    ensures { result ≡ is_sized file.now }
{
    let Some(&banks) = file.get(6) else {
        return false;
    };
    let ram = Controller::RAM_BANK * usize::from(banks);
    ram_allowed(ram) && file.len() == REST + ram
}

// Whether a file begins with the magic.
fn has_magic(file: &[u8]) -> bool
    requires { 6 ≤ length file.now }
    ensures { result ≡ has_magic file.now }
{
    begins(file, &MAGIC)
}

// Whether the number at a place is the checksum of all before it.
fn is_whole(file: &[u8], end: usize) -> bool
    requires { end + 4 ≤ length file.now }
    ensures { result ≡ eqb (four_at file.now end) (crc_of (take end file.now)) }
{
    four_at(file, end) == crc32(&file[..end])
}

// Whether a file is a save.
fn is_save(file: &[u8]) -> bool
    ensures { result ≡ is_save file.now }
{
    is_sized(file) && has_magic(file) && is_state(&file[7..FRONT]) && is_whole(file, file.len() - 4)
}

// Whether a file is a save, and its RAM is of another length.
fn is_other(good: bool, file: &[u8], ram: usize) -> bool
    requires { good ≡ is_save file.now }
    ensures { result ≡ (is_save file.now && not (eqb ram (ram_length_in file.now))) }
{
    good && ram != file.len() - REST
}

// What a restoring was lent, judged: 1, 3, 4, then 8. The checksum is worked out once.
#[tactic(auto, using(controller::proofs::Judging::refused, controller::proofs::Judging::passed, controller::proofs::Judging::last, controller::proofs::Judging::exit), unfolding(crate::specs::Restore::restore_rows))]
fn judge_restore(file: &[u8], state: &[u8], ram: &[u8], store: &[u8]) -> Result<(), Refusal>
    ensures { verdict_number result ≡ lowest (restore_rows file.now state.now ram.now store.now) }
{
    refused_if(state.len() != STATE_LEN, Refusal::State)?;
    no_ram(ram.len())?;
    let good = is_save(file);
    refused_if(is_other(good, file, ram.len()), Refusal::Ram)?;
    no_frame(store.len())?;
    refused_if(!good, Refusal::File)
}

// A save's state, RAM and frame store, in what is lent.
pub fn restore(
    file: &[u8],
    state: &mut [u8],
    ram: &mut [u8],
    store: &mut [u8],
) -> Result<(), Refusal>
    ensures { restored (write_number result) state.new ram.new store.new
        ≡ restore_means file.now state.old ram.old store.old }
{
    judge_restore(file, state, ram, store)?;
    let end = FRONT + ram.len();
    put(&file[7..FRONT], state, 0);
    put(&file[FRONT..end], ram, 0);
    put(&file[end..end + Controller::FRAME], store, 0);
    Ok(())
}

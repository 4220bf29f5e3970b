// Writing a save into a lent buffer.
ghost use Rattle.std.specs.Prelude.{◌≡◌, Bool, [], ◌∷◌, ◌++◌, ◌+◌, ◌<◌, ◌≤◌, ltb, length, drop};
ghost use Rattle.controller.specs.Outcome.{verdict_number};
ghost use Rattle.controller.specs.Table.{lowest};
ghost use Rattle.layout.specs.Layout.{low_first};
ghost use Rattle.shades.specs.Shades.{output_number, output_value, exported};
ghost use Rattle.save.specs.Save.{magic, body_of, save_of, save_length, save_rows, save_means};

use super::parts::{FRONT, MAGIC, REST, is_state, put};
use controller::judge::{no_frame, no_ram, refused_if};
use controller::{Controller, Refusal};
use crc::crc32;

// The magic, and the number of the RAM's banks.
fn put_magic(banks: u8, out: &mut [u8])
    requires { 7 ≤ length out.old }
    ensures { out.new ≡ (magic ++ (banks ∷ [])) ++ drop 7 out.old }
{
    put(&MAGIC, out, 0);
    out[6] = banks;
}

// A number of 32 bits, its lowest byte first.
fn put_four(n: u32, out: &mut [u8])
    requires { length out.old ≡ 4 }
    ensures { out.new ≡ low_first n }
{
    out.copy_from_slice(&n.to_le_bytes());
}

// All before the checksum.
fn put_body(state: &[u8], ram: &[u8], store: &[u8], out: &mut [u8])
    requires state_len { (length state.now ≡ 121) × (length store.now ≡ 16384) }
    requires ram_len_bound { (length ram.now ≤ 131072) × (16512 + length ram.now ≤ length out.old) }
    ensures { out.new
        ≡ body_of state.now ram.now store.now ++ drop (16512 + length ram.now) out.old }
{
    let banks = ram.len() / Controller::RAM_BANK;
    put_magic(banks as u8, out);
    put(state, out, 7);
    put(ram, out, FRONT);
    put(store, out, FRONT + ram.len());
}

// The file, at the start of a buffer that has room for it.
fn put_save(state: &[u8], ram: &[u8], store: &[u8], out: &mut [u8])
    requires state_len { (length state.now ≡ 121) × (length store.now ≡ 16384) }
    requires ram_len_bound { (length ram.now ≤ 131072) × (16516 + length ram.now ≤ length out.old) }
    ensures { out.new
        ≡ save_of state.now ram.now store.now ++ drop (16516 + length ram.now) out.old }
{
    let end = REST - 4 + ram.len();
    put_body(state, ram, store, out);
    let crc = crc32(&out[0..end]);
    put_four(crc, &mut out[end..end + 4]);
}

// Whether a buffer is shorter than the save of a RAM of a length.
fn is_short(ram: usize, out: usize) -> bool
    ensures { result ≡ ltb out (save_length ram) }
{
    out < REST || out - REST < ram
}

// What a save was lent, judged: 1, 3, 4, then 7.
#[tactic(auto, using(controller::proofs::Judging::refused, controller::proofs::Judging::passed, controller::proofs::Judging::last, controller::proofs::Judging::exit), unfolding(crate::specs::Save::save_rows))]
fn judge_save(state: &[u8], ram: &[u8], store: &[u8], out: &[u8]) -> Result<(), Refusal>
    ensures { verdict_number result ≡ lowest (save_rows state.now ram.now store.now out.now) }
{
    refused_if(!is_state(state), Refusal::State)?;
    no_ram(ram.len())?;
    no_frame(store.len())?;
    refused_if(is_short(ram.len(), out.len()), Refusal::Room)
}

// State, RAM and frame store as one file, in a lent buffer, whose later bytes stay: how many bytes were written.
pub fn save(state: &[u8], ram: &[u8], store: &[u8], out: &mut [u8]) -> Result<u32, Refusal>
    ensures { exported (output_number result) (output_value result) out.new
        ≡ save_means state.now ram.now store.now out.old }
{
    judge_save(state, ram, store, out)?;
    put_save(state, ram, store, out);
    Ok((REST + ram.len()) as u32)
}

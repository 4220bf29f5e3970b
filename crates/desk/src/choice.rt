// Choosing a light set, a level, dithering and an exposure: the 48 matrix registers and the two exposure registers of a state.
ghost use Rattle.std.specs.Prelude.{◌≡◌, Bool, [], ℕ, ◌+◌, ◌*◌, ◌≤◌, get_or};
ghost use Rattle.controller.specs.Outcome.{verdict_number, write_outcome};
ghost use Rattle.controller.specs.Table.{lowest, before};
ghost use Rattle.desk.specs.Choice.{steps_of, shown, stored, timed, registers_chosen, beyond, no_choice, choose_rows, choose_means};

use super::levels::LEVELS;
use controller::judge::refused_if;
use controller::{Controller, Refusal, WriteDone};

// The state handed back, and the answer: done, or why not.
pub type Chosen = WriteDone;

// The exposure's steps; 1000h where none is named.
fn steps(exposure: Option<u16>) -> u16
    ensures { result ≡ steps_of exposure }
{
    exposure.unwrap_or(0x1000)
}

// Which value of a matrix stands in matrix register k.
fn shown_at(plain: bool, k: usize) -> usize
    requires { k ≤ 47 }
    ensures { (result ≡ shown plain k) × (result ≤ 47) }
{
    if plain { k % 3 } else { k }
}

// The registers with the exposure stored, the high byte first.
fn put_exposure(regs: [u8; 54], steps: u16) -> [u8; 54]
    ensures { result ≡ timed regs steps }
{
    let [high, low] = steps.to_be_bytes();
    let mut out = regs;
    out[2] = high;
    out[3] = low;
    out
}

// The registers with the matrix stored that begins at a place of the table.
fn put_matrix(regs: [u8; 54], table: &[u8; 1536], from: usize, plain: bool) -> [u8; 54]
    requires { from ≤ 1488 }
    ensures { result ≡ stored regs 6 (λ k. get_or table.now (from + shown plain k) 0) 48 }
{
    let mut out = regs;
    // No plainer: after an adapter of `iter_mut` a proof knows nothing of what was written.
    for k in 0..48 {
        out[6 + k] = table[from + shown_at(plain, k)];
    }
    out
}

// The registers with a choice stored.
fn put_choice(regs: [u8; 54], light: u8, level: u8, plain: bool, exposure: Option<u16>) -> [u8; 54]
    requires { (light ≤ 1) × (level ≤ 15) }
    ensures { result ≡ registers_chosen regs light level plain exposure }
{
    let timed = put_exposure(regs, steps(exposure));
    let from = 48 * (2 * level as usize + light as usize);
    put_matrix(timed, &LEVELS, from, plain)
}

// Whether the light set is above 1 or the level above 15.
fn is_beyond(light: u8, level: u8) -> bool
    ensures { result ≡ beyond light level }
{
    1 < light || 15 < level
}

// A choice, judged: 1, then 9.
#[tactic(auto, using(controller::proofs::Judging::rows), unfolding(crate::specs::Choice::choose_rows))]
fn judge_choice(state: Controller, light: u8, level: u8) -> Result<(), Refusal>
    ensures { verdict_number result ≡ lowest (choose_rows state light level) }
{
    state.no_state()?;
    refused_if(is_beyond(light, level), Refusal::Choice)
}

// A choice: the matrix of a light set and a level, with its dithering or without (plain), and an exposure.
// The four of a choice stay numbers, and apart: C gives them, refusal 9 is for a light set above 1 and a level above 15, and `choose_means` speaks of each.
pub fn choose(state: Controller, light: u8, level: u8, plain: bool, exposure: Option<u16>) -> Chosen
    ensures { write_outcome result [] [] ≡ choose_means state light level plain exposure }
{
    if let Err(why) = judge_choice(state, light, level) {
        return WriteDone {
            state,
            answer: Err(why),
        };
    }
    let registers = put_choice(state.registers, light, level, plain, exposure);
    WriteDone {
        state: Controller { registers, ..state },
        answer: Ok(()),
    }
}

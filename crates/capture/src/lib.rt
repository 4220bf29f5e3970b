// Captures: what a tick does with the state record, the RAM and the frame store lent.
// The RAM stays a slice whose least length a clause says: C lends it, of 1 to 16 banks.
#![tactic(auto)]

ghost use Rattle.std.specs.Prelude.{◌≡◌, Bool, true, false, ◌&&◌, List, [], ◌∷◌, ℕ, ◌+◌, ◌*◌, ◌/◌, ◌%◌, ◌<◌, ◌≤◌, length, get_or};
ghost use Rattle.lighting.specs.Light.{byte_at};
ghost use Rattle.timing.specs.Timing.{total_of};
ghost use Rattle.capture.specs.Capture.{ended, running, ticks, from};
ghost use Rattle.controller.specs.Outcome.{verdict_number, outcome, tick_outcome};
ghost use Rattle.controller.specs.State.{started};
ghost use Rattle.controller.specs.Table.{lowest};
ghost use Rattle.capture.specs.Calls.{ticked, tick_rows, tick_means};
ghost use Rattle.capture.specs.Aside.{after, lent_to_tick};
ghost use Rattle.controller.specs.declared.Controller.{Controller};

use controller::judge::{no_frame, no_ram};
use controller::state::one_more;
use controller::{Controller, Refusal, TickDone};
use timing::{Cycles, total, write_between};

// The state as its capture ends: register 0 bit 0 clears, nothing is held or taken; one more has ended.
#[tactic(auto, unfolding(crate::specs::Capture::ended))]
pub fn at_end(mut state: Controller) -> Controller
    ensures { result ≡ ended state }
{
    state.registers[0] = state.registers[0] / 2 * 2;
    state.held = false;
    state.taken = [0; 54];
    state.elapsed = Cycles(0);
    state.ended = one_more(state.ended);
    state
}

// Whether a capture is running: it is held and register 0 has bit 0 set.
pub fn is_running(held: bool, first: u8) -> bool
    ensures { result ≡ (held && started (first ∷ [])) }
{
    held && first % 2 == 1
}

// The answer to a tick of which n cycles fell while a capture was running.
fn ran(state: Controller, n: u32) -> TickDone
    ensures { (ram store : List ℕ) → tick_outcome result ram store ≡ outcome 0 n state ram store }
{
    TickDone {
        state,
        answer: Ok(Cycles(n)),
    }
}

// What some cycles of a running capture come to: how many of them ran, and the cycles elapsed where it is not over.
#[derive(Clone, Copy)]
pub struct Passed {
    pub ran: u32,
    pub elapsed: Option<Cycles>,
}

// n cycles of a running capture, by the registers it took and its elapsed cycles: their pixels are put.
pub fn pass(
    taken: &[u8; 54],
    elapsed: Cycles,
    ram: &mut [u8],
    store: &[u8; 16384],
    n: u32,
) -> Passed
    requires { (elapsed.0 < total_of taken.now) × (8192 ≤ length ram.old) }
    ensures { (c : Controller) → running c ≡ true → c.elapsed.0 ≡ elapsed.0 → c.taken ≡ taken.now
        → outcome 0 result.ran (after result.elapsed c) ram.new store.now
        ≡ ticked store.now (ticks (byte_at store.now) n (from c ram.old)) }
{
    let all = total(taken);
    let left = all.0 - elapsed.0;
    if n < left {
        let then = Cycles(elapsed.0 + n);
        write_between(ram, store, taken, elapsed, then);
        return Passed {
            ran: n,
            elapsed: Some(then),
        };
    }
    write_between(ram, store, taken, elapsed, all);
    Passed {
        ran: left,
        elapsed: None,
    }
}

// n cycles of a running capture.
fn run(state: Controller, ram: &mut [u8], store: &[u8; 16384], n: u32) -> TickDone
    requires { (running state ≡ true) × (state.elapsed.0 < total_of state.taken) × (8192 ≤ length ram.old) }
    ensures { tick_outcome result ram.new store.now
        ≡ ticked store.now (ticks (byte_at store.now) n (from state ram.old)) }
{
    let taken = state.taken;
    let passed = pass(&taken, state.elapsed, ram, store, n);
    match passed.elapsed {
        Some(elapsed) => ran(Controller { elapsed, ..state }, passed.ran),
        None => ran(at_end(state), passed.ran),
    }
}

// What a tick was lent, judged: all but the state.
#[tactic(auto, using(controller::proofs::Judging::rows))]
pub fn lent_to_tick(ram: &[u8], store: &[u8]) -> Result<(), Refusal>
    ensures { verdict_number result ≡ lowest (lent_to_tick ram.now store.now) }
{
    no_ram(ram.len())?;
    no_frame(store.len())
}

// What a tick was lent, judged.
#[tactic(auto, using(controller::proofs::Judging::rows), unfolding(crate::specs::Calls::tick_rows))]
fn judge_tick(state: Controller, ram: &[u8], store: &[u8]) -> Result<(), Refusal>
    ensures { verdict_number result ≡ lowest (tick_rows state ram.now store.now) }
{
    state.no_state()?;
    lent_to_tick(ram, store)
}

// A tick of n cycles: lent RAM and frame store. It answers how many of them fell while a capture was running.
pub fn tick(state: Controller, ram: &mut [u8], store: &[u8], n: u32) -> TickDone
    ensures { tick_outcome result ram.new store.now ≡ tick_means state ram.old store.now n }
{
    if let Err(why) = judge_tick(state, ram, store) {
        return TickDone {
            state,
            answer: Err(why),
        };
    }
    // Cycles while no capture is running change nothing.
    if !is_running(state.held, state.registers[0]) {
        return ran(state, 0);
    }
    let store: &[u8; 16384] = store.try_into().unwrap();
    run(state, ram, store, n)
}

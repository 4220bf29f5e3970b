// One step of a session, for who plays a script line by line.
ghost use Rattle.std.specs.Prelude.{◌≡◌};
ghost use Rattle.controller.specs.Outcome.{verdict_number};
ghost use Rattle.controller.specs.Table.{lowest};
ghost use Rattle.recorder.specs.Steps.{stepped, step_rows, step_bytes};

use answers::{pack, refused};
use controller::Refusal;
use controller::judge::{no_room, refused_if};
use layout::is_record;
use session::answer::ANSWER;
use session::session::line_done;

// What a step was lent, judged: 1, then 7.
#[tactic(auto, using(controller::proofs::Judging::rows), unfolding(crate::specs::Steps::step_rows))]
fn judge_step(state: &[u8], out: &[u8]) -> Result<(), Refusal>
    ensures { verdict_number result ≡ lowest (step_rows state.now out.now) }
{
    refused_if(!is_record(state), Refusal::State)?;
    no_room(ANSWER, out.len())
}

// Carries out a script line, without its LF, and puts its answer with the LF at the start of a buffer. The answer's value is that length.
#[unsafe(no_mangle)]
pub extern "C" fn gulxinett_step(
    state: &mut [u8],
    rom: &[u8],
    ram: &mut [u8],
    store: &mut [u8],
    image: &mut [u8],
    line: &[u8],
    out: &mut [u8],
) -> u64
    ensures { stepped result state.new ram.new store.new image.new out.new
        ≡ step_bytes state.old rom.now ram.old store.old image.old
        line.now out.old }
{
    if let Err(why) = judge_step(state, out) {
        return refused(why);
    }
    let length = line_done(state, rom, ram, store, image, line, out, 0);
    pack(0, length as u32)
}

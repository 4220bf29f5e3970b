// The text of an event, in a lent buffer.
// Buffer and place stay two parameters (`wording::words` says why).
ghost use Rattle.std.specs.Prelude.{◌≡◌, ◌+◌, ◌≤◌, length};
ghost use Rattle.wording.specs.Aside.{Put};
ghost use Rattle.events.specs.Entry.{event_text};
ghost use Rattle.events.specs.Aside.{event_from};

use super::event::Seen;
use changes::in_area;
use wording::events::{
    put_dropped, put_landed, put_resume, put_start, put_stop, put_touched, put_whole,
};

// Puts the text of an event at a place of a buffer, and returns the place after it.
#[tactic(auto, using(crate::proofs::Puts::put_nothing), unfolding(crate::specs::Entry::event_text, crate::specs::Aside::event_from))]
pub fn put_event(
    out: &mut [u8],
    at: usize,
    line: u64,
    seen: Option<Seen>,
    registers: &[u8],
) -> usize
    requires { (at + 256 ≤ length out.old) × (length registers.now ≡ 54) }
    ensures { Put out.old at (event_text line (event_from seen registers.now)) 256 out.new result }
{
    let Some(event) = seen else {
        return at;
    };
    match event {
        Seen::Start(serial, image, row) => put_start(out, at, line, serial, image, row, registers),
        Seen::Stop(serial, cycles) => put_stop(out, at, line, serial, cycles),
        Seen::Resume(serial, cycles) => put_resume(out, at, line, serial, cycles),
        Seen::Dropped(serial, cycles) => put_dropped(out, at, line, serial, cycles),
        Seen::Landed(serial, place, byte) => {
            put_landed(out, at, line, serial, in_area(place), place, byte)
        }
        Seen::Whole(serial, cycles, plate) => put_whole(out, at, line, serial, cycles, plate),
        Seen::Touched(serial, cycles, plate, writes, first, last) => {
            put_touched(out, at, line, serial, cycles, plate, writes, first, last)
        }
    }
}

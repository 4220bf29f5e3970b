// Events, put into a lent buffer. Each function returns the place after the event's LF.
// What an event tells is a parameter each, and no struct: the definition of its text, which is the contract, takes the same in this order.
// Buffer and place stay two parameters, and the room a clause of each: `words` says why.
ghost use Rattle.std.specs.Prelude.{◌≡◌, ◌++◌, ◌+◌, ◌≤◌, length};
ghost use Rattle.laws.specs.Pick.{pick};
ghost use Rattle.lines.specs.Hex.{hex_text};
ghost use Rattle.recording.specs.Record.{row_hex};
ghost use Rattle.wording.specs.Keys.{registers_word, inside_word, outside_word};
ghost use Rattle.wording.specs.Events.{mark_text, start_text, stop_text, resume_text, dropped_text, held_text, landed_text};
ghost use Rattle.wording.specs.Events.{whole_text, touched_text, changed_text, unchanged_text, summary_text};
ghost use Rattle.wording.specs.Aside.{Put, begun, taken_text, end_begun, ends_text};

use super::words::{put_code, put_count, put_word};
use recording::record::put_bytes;

// An event up to its serial.
fn put_opening(out: &mut [u8], at: usize, line: u64, word: &[u8], serial: u16) -> usize
    requires { at + (length word.now + 45) ≤ length out.old }
    ensures { Put out.old at (begun word.now line serial) (length word.now + 45) out.new result }
{
    let a = put_count(out, at, b"line ", line);
    put_count(out, a, word, u64::from(serial))
}

// The registers taken.
fn put_registers(out: &mut [u8], at: usize, registers: &[u8; 54]) -> usize
    requires { at + 119 ≤ length out.old }
    ensures { Put out.old at (registers_word ++ row_hex registers.now) 119 out.new result }
{
    let a = put_word(out, at, b" registers ");
    put_bytes(out, a, registers);
    a + 108
}

// What a start takes, from the checksum of the image on.
fn put_taken(out: &mut [u8], at: usize, image: u32, row: u64, registers: &[u8; 54]) -> usize
    requires { at + 160 ≤ length out.old }
    ensures { Put out.old at (taken_text image row registers.now) 160 out.new result }
{
    let a = put_code(out, at, b" image ", 8, image);
    let b = put_count(out, a, b" row ", row);
    let c = put_registers(out, b, registers);
    put_word(out, c, b"\n")
}

// A start.
// The registers stay a slice: an array would ask more of who calls it.
pub fn put_start(
    out: &mut [u8],
    at: usize,
    line: u64,
    serial: u16,
    image: u32,
    row: u64,
    registers: &[u8],
) -> usize
    requires { (at + 256 ≤ length out.old) × (length registers.now ≡ 54) }
    ensures { Put out.old at (start_text line serial image row registers.now) 256 out.new result }
{
    let registers: &[u8; 54] = registers.try_into().unwrap();
    let a = put_opening(out, at, line, b" event start serial ", serial);
    put_taken(out, a, image, row, registers)
}

// An event that has a serial and the cycles run so far: the four below are this one, each with its own word and text.
fn put_mark(out: &mut [u8], at: usize, word: &[u8], line: u64, serial: u16, cycles: u64) -> usize
    requires { (at + 256 ≤ length out.old) × (length word.now ≤ 24) }
    ensures { Put out.old at (mark_text word.now line serial cycles) 256 out.new result }
{
    let a = put_opening(out, at, line, word, serial);
    let b = put_count(out, a, b" cycles ", cycles);
    put_word(out, b, b"\n")
}

// A stop.
#[tactic(auto, unfolding(crate::specs::Events::stop_text))]
pub fn put_stop(out: &mut [u8], at: usize, line: u64, serial: u16, cycles: u64) -> usize
    requires { at + 256 ≤ length out.old }
    ensures { Put out.old at (stop_text line serial cycles) 256 out.new result }
{
    put_mark(out, at, b" event stop serial ", line, serial, cycles)
}

// A resume.
#[tactic(auto, unfolding(crate::specs::Events::resume_text))]
pub fn put_resume(out: &mut [u8], at: usize, line: u64, serial: u16, cycles: u64) -> usize
    requires { at + 256 ≤ length out.old }
    ensures { Put out.old at (resume_text line serial cycles) 256 out.new result }
{
    put_mark(out, at, b" event resume serial ", line, serial, cycles)
}

// A capture that a reset dropped.
#[tactic(auto, unfolding(crate::specs::Events::dropped_text))]
pub fn put_dropped(out: &mut [u8], at: usize, line: u64, serial: u16, cycles: u64) -> usize
    requires { at + 256 ≤ length out.old }
    ensures { Put out.old at (dropped_text line serial cycles) 256 out.new result }
{
    put_mark(out, at, b" event dropped serial ", line, serial, cycles)
}

// A capture that is still held.
#[tactic(auto, unfolding(crate::specs::Events::held_text))]
pub fn put_held(out: &mut [u8], at: usize, line: u64, serial: u16, cycles: u64) -> usize
    requires { at + 256 ≤ length out.old }
    ensures { Put out.old at (held_text line serial cycles) 256 out.new result }
{
    put_mark(out, at, b" event held serial ", line, serial, cycles)
}

// The bank of a place, after the area that it is in.
#[tactic(auto, using(crate::proofs::Puts::put_within))]
fn put_bank(out: &mut [u8], at: usize, inside: bool, bank: u32) -> usize
    requires { at + 20 ≤ length out.old }
    ensures { Put out.old at (pick inside inside_word outside_word ++ hex_text 1 bank) 20 out.new result }
{
    if inside {
        return put_code(out, at, b" area inside bank ", 1, bank);
    }
    put_code(out, at, b" area outside bank ", 1, bank)
}

// A bus write that landed.
pub fn put_landed(
    out: &mut [u8],
    at: usize,
    line: u64,
    serial: u16,
    inside: bool,
    place: u32,
    byte: u8,
) -> usize
    requires { at + 256 ≤ length out.old }
    ensures { Put out.old at (landed_text line serial inside place byte) 256 out.new result }
{
    let a = put_opening(out, at, line, b" event write serial ", serial);
    let b = put_bank(out, a, inside, place / 8192);
    let c = put_code(out, b, b" offset ", 4, place % 8192);
    let d = put_code(out, c, b" byte ", 2, u32::from(byte));
    put_word(out, d, b"\n")
}

// An end up to its verdict.
fn put_end(out: &mut [u8], at: usize, line: u64, serial: u16, cycles: u64, plate: u32) -> usize
    requires { at + 106 ≤ length out.old }
    ensures { Put out.old at (end_begun line serial cycles plate) 106 out.new result }
{
    let a = put_opening(out, at, line, b" event end serial ", serial);
    let b = put_count(out, a, b" cycles ", cycles);
    put_code(out, b, b" plate ", 8, plate)
}

// The end of a plate that is whole.
pub fn put_whole(
    out: &mut [u8],
    at: usize,
    line: u64,
    serial: u16,
    cycles: u64,
    plate: u32,
) -> usize
    requires { at + 256 ≤ length out.old }
    ensures { Put out.old at (whole_text line serial cycles plate) 256 out.new result }
{
    let a = put_end(out, at, line, serial, cycles, plate);
    put_word(out, a, b" verdict whole\n")
}

// The end of one that was touched.
pub fn put_touched(
    out: &mut [u8],
    at: usize,
    line: u64,
    serial: u16,
    cycles: u64,
    plate: u32,
    writes: u64,
    first: u64,
    last: u64,
) -> usize
    requires { at + 256 ≤ length out.old }
    ensures { Put out.old at (touched_text line serial cycles plate writes first last) 256 out.new result }
{
    let a = put_end(out, at, line, serial, cycles, plate);
    let b = put_count(out, a, b" verdict touched writes ", writes);
    let c = put_count(out, b, b" first ", first);
    let d = put_count(out, c, b" last ", last);
    put_word(out, d, b"\n")
}

// A stretch of RAM that changed.
pub fn put_changed(out: &mut [u8], at: usize, line: u64, from: u32, to: u32) -> usize
    requires { at + 256 ≤ length out.old }
    ensures { Put out.old at (changed_text line from to) 256 out.new result }
{
    let a = put_count(out, at, b"line ", line);
    let b = put_code(out, a, b" event changed bank ", 1, from / 8192);
    let c = put_code(out, b, b" from ", 4, from % 8192);
    let d = put_code(out, c, b" to ", 4, to % 8192);
    put_word(out, d, b"\n")
}

// There is none.
pub fn put_unchanged(out: &mut [u8], at: usize, line: u64) -> usize
    requires { at + 256 ≤ length out.old }
    ensures { Put out.old at (unchanged_text line) 256 out.new result }
{
    let a = put_count(out, at, b"line ", line);
    put_word(out, a, b" event unchanged\n")
}

// A summary's captures from those that ended on.
fn put_ends(
    out: &mut [u8],
    at: usize,
    ended: u64,
    whole: u64,
    touched: u64,
    dropped: u64,
    held: u64,
) -> usize
    requires { at + 140 ≤ length out.old }
    ensures { Put out.old at (ends_text ended whole touched dropped held) 140 out.new result }
{
    let a = put_count(out, at, b" ended ", ended);
    let b = put_count(out, a, b" whole ", whole);
    let c = put_count(out, b, b" touched ", touched);
    let d = put_count(out, c, b" dropped ", dropped);
    let e = put_count(out, d, b" held ", held);
    put_word(out, e, b"\n")
}

// The summary.
pub fn put_summary(
    out: &mut [u8],
    at: usize,
    line: u64,
    malformed: u64,
    refused: u64,
    captures: u64,
    ended: u64,
    whole: u64,
    touched: u64,
    dropped: u64,
    held: u64,
) -> usize
    requires { at + 400 ≤ length out.old }
    ensures { Put out.old at (summary_text line malformed refused captures ended whole touched dropped held) 400 out.new result }
{
    let a = put_count(out, at, b"line ", line);
    let b = put_count(out, a, b" event summary malformed ", malformed);
    let c = put_count(out, b, b" refused ", refused);
    let d = put_count(out, c, b" captures ", captures);
    put_ends(out, d, ended, whole, touched, dropped, held)
}

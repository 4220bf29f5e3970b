// A text to its answers, read in pieces that may be cut anywhere.
// What a session is lent stays one slice each, with `is_record` as a clause: C lends them, and of a slice that a struct held nothing is known once the struct is
// let go (`short`).
ghost use Rattle.std.specs.Prelude.{◌≡◌, true, ◌&&◌, ◌++◌, ◌+◌, ◌-◌, ◌≤◌, min, leb, ltb, length, take};
ghost use Rattle.layout.specs.Layout.{is_record, decoded};
ghost use Rattle.lines.specs.Hex.{placed};
ghost use Rattle.session.specs.Session.{world, step_of};
ghost use Rattle.session.specs.Aside.{Printed, said, saying};
ghost use Rattle.script.specs.Pieces.{reader_of, new_reader, fed_as, feed_means, finish_means};

use controller::Controller;
use layout::decode;
use session::answer::ANSWER;
use session::session::{Stepped, bytes_of, line_done, step};
use short::{line_end, short_lines};

// The bytes held of a line: one more than the longest line has.
pub const HELD: usize = 261;

// The first bytes of the line that has begun, and how many of them are held: 261 where it is over 260 bytes.
// A buffer with a length beside it: there is no heap, and `reader_of`, which theorems speak of, has these two fields.
#[derive(Clone, Copy)]
pub struct Reader {
    pub line: [u8; 261],
    pub held: usize,
}

// What a piece leaves: the reader, the state, how many bytes of the piece were read and of the answers written.
#[derive(Clone, Copy)]
pub struct Fed {
    pub reader: Reader,
    pub state: Controller,
    pub used: usize,
    pub written: usize,
}

impl Reader {
    // No line has begun.
    pub fn new() -> Reader
        ensures { result ≡ new_reader }
    {
        Reader {
            line: [0; 261],
            held: 0,
        }
    }
}

// Holds bytes of a line after those that are held, as far as 261, and returns how many are held then.
pub fn hold(line: &mut [u8], held: usize, bytes: &[u8]) -> usize
    requires { (length line.old ≡ 261) × (held ≤ 261) }
    ensures { (line.new ≡ placed line.old held (take (261 - held) bytes.now))
        × (result ≡ held + length (take (261 - held) bytes.now)) × (result ≤ 261) }
{
    let n = bytes.len().min(HELD - held); // the others are skipped
    // By place: `copy_from_slice` calls memmove (`save::parts::put`).
    for i in 0..n {
        line[held + i] = bytes[i];
    }
    held + n
}

// The reader that holds so many bytes of a line.
fn holding(line: [u8; 261], held: usize) -> Reader
    requires { held ≤ 261 }
    ensures { result ≡ reader_of (take held line) }
{
    let mut kept = [0u8; 261];
    hold(&mut kept, 0, &line[..held]);
    Reader { line: kept, held }
}

// Carries out a line of which the first bytes are held and the others stand in the piece, and puts its answer into a
// buffer. Where none is held the line is read where it stands.
fn end_line(
    state: &mut [u8],
    rom: &[u8],
    ram: &mut [u8],
    store: &mut [u8],
    image: &mut [u8],
    line: &mut [u8],
    held: usize,
    rest: &[u8],
    out: &mut [u8],
    at: usize,
) -> usize
    requires { (is_record state.old ≡ true) × (length line.old ≡ 261) × (held ≤ 261) × (at + 11 ≤ length out.old) }
    ensures { Printed (step_of rom.now (world (decoded state.old) ram.old store.old image.old)
        (take 261 (take held line.old ++ rest.now)))
        (world (decoded state.new) ram.new store.new image.new) out.old at out.new result
        × (is_record state.new ≡ true) }
{
    if held == 0 {
        return line_done(state, rom, ram, store, image, rest, out, at);
    }
    let n = hold(line, held, rest);
    line_done(state, rom, ram, store, image, &line[..n], out, at)
}

// Whether a line ends in a piece and there is room for its answer.
fn answered(end: usize, piece: &[u8], room: usize) -> bool
    ensures { result ≡ (ltb end (length piece.now) && leb 11 room) }
{
    end < piece.len() && ANSWER <= room
}

// Reads a piece, and writes the answers of the lines that end in it, one after the other: up to an LF for whose
// answer the buffer may have no room.
pub fn feed(
    reader: Reader,
    state: Controller,
    rom: &[u8],
    ram: &mut [u8],
    store: &mut [u8],
    image: &mut [u8],
    piece: &[u8],
    out: &mut [u8],
) -> Fed
    ensures { (fed_as result ram.new store.new image.new out.new
        ≡ feed_means rom.now (world state ram.old store.old image.old) reader piece.now
        out.old) × (result.used ≤ length piece.now) × (result.written ≤ length out.old) }
{
    let mut line = reader.line;
    let mut held = reader.held.min(HELD);
    let mut bytes = bytes_of(state);
    let mut at = 0;
    let mut i = 0;
    let mut end = line_end(piece, 0);
    // no iterator: where a turn goes on is what `short_lines` answers
    while answered(end, piece, out.len() - at) {
        at = end_line(
            &mut bytes,
            rom,
            ram,
            store,
            image,
            &mut line,
            held,
            &piece[i..end],
            out,
            at,
        );
        held = 0;
        let place = short_lines(&mut bytes, rom, ram, store, image, piece, end + 1, out, at);
        i = place.from;
        at = place.at;
        end = line_end(piece, i);
    }
    held = hold(&mut line, held, &piece[i..end]);
    let rest = holding(line, held);
    let next = decode(&bytes);
    Fed {
        reader: rest,
        state: next,
        used: end,
        written: at,
    }
}

// The end of the text: a last line without LF counts if it has at least one byte.
pub fn finish(
    reader: Reader,
    state: Controller,
    rom: &[u8],
    ram: &mut [u8],
    store: &mut [u8],
    image: &mut [u8],
) -> Stepped
    ensures { (said result ram.new store.new image.new
        ≡ saying (finish_means rom.now (world state ram.old store.old image.old) reader)) × (result.length ≤ 11) }
{
    let line = reader.line;
    let held = reader.held.min(HELD);
    if held == 0 { // no line has begun
        return Stepped {
            state,
            text: [0; 11],
            length: 0,
        };
    }
    step(state, rom, ram, store, image, &line[..held])
}

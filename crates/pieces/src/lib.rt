// A recording in pieces, at most one line to a call, and its end.
// The book and what a session is lent stay slices, one parameter each: `events::book` and `short` say why.
#![tactic(auto)]

ghost use Rattle.std.specs.Prelude.{◌≡◌, true, ◌+◌, ◌≤◌, length, set};
ghost use Rattle.layout.specs.Layout.{is_record, decoded};
ghost use Rattle.session.specs.Session.{world};
ghost use Rattle.wording.specs.Aside.{Put};
ghost use Rattle.events.specs.Book.{noted, written, lines};
ghost use Rattle.pieces.specs.Pieces.{held_in, piece_audited, last_audited, end_audited};
ghost use Rattle.auditing.specs.Aside.{Audits};
ghost use Rattle.pieces.specs.Aside.{standing, held_saying};

use auditing::line::line_audited;
use events::book::{HELD, LINES, WRITTEN};
use events::sight::look;
use script::text::hold;
use short::line_end;
use wording::events::put_held;

// How many bytes are held of a line.
fn held_in(book: &[u64]) -> usize
    requires { length book.now ≡ 13 }
    ensures { (result ≡ held_in book.now) × (result ≤ 261) }
{
    book[HELD].min(261) as usize
}

// Notes how many bytes are held, and how many were written.
fn note(book: &mut [u64], held: usize, bytes: usize)
    requires { length book.old ≡ 13 }
    ensures { book.new ≡ set (set book.old 1 held) 0 bytes }
{
    book[HELD] = held as u64;
    book[WRITTEN] = bytes as u64;
}

// Reads a piece up to its first LF and with it, and returns how many bytes those are. The line is then carried out, and its event is put at the start
// of the buffer; without an LF the piece is held.
pub fn piece_audited(
    book: &mut [u64],
    line: &mut [u8],
    state: &mut [u8],
    rom: &[u8],
    ram: &mut [u8],
    store: &mut [u8],
    image: &mut [u8],
    piece: &[u8],
    out: &mut [u8],
) -> usize
    requires { (is_record state.old ≡ true) × (length book.old ≡ 13) × (length line.old ≡ 261) × (512 ≤ length out.old) }
    ensures { (standing (world (decoded state.new) ram.new store.new image.new) book.new
        line.new out.new result
        ≡ piece_audited rom.now (world (decoded state.old) ram.old store.old image.old)
        book.old line.old out.old piece.now) × (is_record state.new ≡ true) }
{
    let end = line_end(piece, 0);
    let held = held_in(book);
    let n = hold(line, held, &piece[..end]);
    if end < piece.len() {
        let used = end + 1;
        let at = line_audited(book, state, rom, ram, store, image, &line[..n], out, 0);
        note(book, 0, at);
        return used;
    }
    note(book, n, 0);
    end
}

// A last line without LF, if it has at least one byte.
fn last_audited(
    book: &mut [u64],
    line: &[u8],
    state: &mut [u8],
    rom: &[u8],
    ram: &mut [u8],
    store: &mut [u8],
    image: &mut [u8],
    out: &mut [u8],
) -> usize
    requires { (is_record state.old ≡ true) × (length book.old ≡ 13) × (length line.now ≡ 261) × (512 ≤ length out.old) }
    ensures { Audits (last_audited rom.now (world (decoded state.old) ram.old store.old image.old)
        book.old line.now) (world (decoded state.new) ram.new store.new image.new)
        out.old 0 book.new out.new result × (is_record state.new ≡ true) }
{
    let held = held_in(book);
    if held == 0 {
        return 0;
    }
    line_audited(book, state, rom, ram, store, image, &line[..held], out, 0)
}

// Where a capture is held, that it is.
#[tactic(auto, using(events::proofs::Puts::put_nothing, events::proofs::Puts::put_same, crate::proofs::Pieces::held_said_lem, crate::proofs::Pieces::none_said))]
fn held_put(book: &[u64], state: &[u8], out: &mut [u8], at: usize) -> usize
    requires { (is_record state.now ≡ true) × (length book.now ≡ 13) × (at + 256 ≤ length out.old) }
    ensures { Put out.old at (held_saying (noted book.now lines) (decoded state.now)) 256 out.new result }
{
    let seen = look(state);
    if seen.held {
        return put_held(out, at, book[LINES], seen.serial, u64::from(seen.elapsed));
    }
    at
}

// The end of the text: a last line without LF, and that a capture is held, at the start of a buffer; returns how many bytes are written.
pub fn end_audited(
    book: &mut [u64],
    line: &[u8],
    state: &mut [u8],
    rom: &[u8],
    ram: &mut [u8],
    store: &mut [u8],
    image: &mut [u8],
    out: &mut [u8],
) -> usize
    requires { (is_record state.old ≡ true) × (length book.old ≡ 13) × (length line.now ≡ 261) × (512 ≤ length out.old) }
    ensures { (standing (world (decoded state.new) ram.new store.new image.new) book.new
        line.now out.new 0
        ≡ end_audited rom.now (world (decoded state.old) ram.old store.old image.old) book.old
        line.now out.old) × (result ≡ noted book.new written) × (is_record state.new ≡ true) }
{
    let at = last_audited(book, line, state, rom, ram, store, image, out);
    let end = held_put(book, state, out, at);
    note(book, 0, end);
    end
}

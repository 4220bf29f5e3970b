// Pieces of a recording: each is played, and the events of its lines are written to standard output as they come.
#![tactic(auto)]

ghost use Rattle.std.specs.Prelude.{◌<◌, ◌≤◌, IfOk, length};

use ledger::gulxinett_audit;
use std::io::{self, Write};
use sweeping::lines_audited;

// Writes so many bytes of a buffer, but at most all.
fn write(sink: &mut impl Write, out: &[u8], n: usize) -> io::Result<()> {
    sink.write_all(&out[..n.min(out.len())])
}

// How many bytes the last call has put into the buffer: the book's first number.
fn written(book: &[u64]) -> usize {
    book.first().map_or(0, |n| *n as usize)
}

// Writes what the last call has put into the buffer.
pub fn tell(sink: &mut impl Write, book: &[u64], out: &[u8]) -> io::Result<()> {
    write(sink, out, written(book))
}

// What a piece is played over: the book, the buffer of a line that has begun, the session (its record, ROM, RAM, frame store and image), and the buffer
// for events.
#[derive(Drop)]
pub struct Audit<'a> {
    pub book: &'a mut [u64],
    pub line: &'a mut [u8],
    pub state: &'a mut [u8],
    pub rom: &'a [u8],
    pub ram: &'a mut [u8],
    pub store: &'a mut [u8],
    pub image: &'a mut [u8],
    pub out: &'a mut [u8],
}

impl<'a> Audit<'a> {
    // Plays a line of a piece, or what there is of it, and writes its event; answers how much of the piece it is. Of a piece that is not empty that is
    // at least one byte.
    fn play_line(&mut self, sink: &mut impl Write, piece: &[u8]) -> io::Result<usize>
        requires { 0 < length piece.now }
        ensures { IfOk result (λ used. (0 < used) × (used ≤ length piece.now)) }
    {
        let answer = gulxinett_audit(
            self.book, self.line, self.state, self.rom, self.ram, self.store, self.image, piece,
            self.out,
        );
        let n = written(self.book);
        write(sink, self.out, n)?;
        Ok(((answer % 4294967296) as usize).clamp(1, piece.len()))
    }

    // Whether a line has begun: bytes of it are held.
    fn has_begun(&self) -> bool {
        self.book.len() < 2 || self.book[1] != 0
    }

    // Plays whole lines of a piece, as many as the buffer has room for the events of, and writes these; where a line has begun before, or none ends
    // here, one line or what there is of it. It answers how much of the piece was played.
    fn play_some(&mut self, sink: &mut impl Write, piece: &[u8]) -> io::Result<usize>
        requires { 0 < length piece.now }
        ensures { IfOk result (λ used. (0 < used) × (used ≤ length piece.now)) }
    {
        if self.has_begun() {
            return self.play_line(sink, piece);
        }
        let swept = lines_audited(
            self.book, self.state, self.rom, self.ram, self.store, self.image, piece, self.out,
        );
        if swept.used == 0 {
            return self.play_line(sink, piece);
        }
        write(sink, self.out, swept.written)?;
        Ok(swept.used)
    }

    // Plays a piece: every event is written before it returns.
    pub fn play(&mut self, sink: &mut impl Write, piece: &[u8]) -> io::Result<()>
        requires { length piece.now ≤ 65536 }
    {
        let mut rest = piece;
        // no iterator: how far a turn goes is what `play_some` answers
        while !rest.is_empty() {
            let used = self.play_some(sink, rest)?;
            rest = &rest[used..];
        }
        Ok(())
    }
}

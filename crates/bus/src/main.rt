// The bus script program: plays standard input to its end, one answer for each line. What can be said with a contract is in `script`.
#![tactic(auto)]

ghost use Rattle.std.specs.Prelude.{◌<◌, ◌≤◌, IfOk, length};

use controller::Controller;
use script::text::{Reader, feed, finish};
use std::io::{self, Read, Write};

// What goes on from one piece of the input to the next, with what is lent for all of it: ROM, RAM, frame store and image.
#[derive(Drop)]
struct Session<'a> {
    reader: Reader,
    state: Controller,
    rom: &'a [u8],
    ram: &'a mut [u8],
    store: &'a mut [u8],
    image: &'a mut [u8],
}

impl<'a> Session<'a> {
    // Plays lines of a piece until their answers fill the buffer, and writes the answers: how much of the piece was played.
    fn play_some(
        &mut self,
        sink: &mut impl Write,
        piece: &[u8],
        out: &mut [u8],
    ) -> io::Result<usize>
        requires { (0 < length piece.now) × (11 ≤ length out.old) }
        ensures { IfOk result (λ used. (0 < used) × (used ≤ length piece.now)) }
    {
        let fed = feed(
            self.reader,
            self.state,
            self.rom,
            self.ram,
            self.store,
            self.image,
            piece,
            out,
        );
        self.reader = fed.reader;
        self.state = fed.state;
        sink.write_all(&out[..fed.written.min(out.len())])?;
        Ok(fed.used)
    }

    // Plays a piece: every answer is written before it returns.
    fn play(&mut self, sink: &mut impl Write, piece: &[u8], out: &mut [u8]) -> io::Result<()>
        requires { (length piece.now ≤ 65536) × (11 ≤ length out.old) }
    {
        let mut rest = piece;
        // no iterator: how far a turn goes is what `feed` answers
        while !rest.is_empty() {
            let used = self.play_some(sink, rest, out)?;
            rest = &rest[used..];
        }
        Ok(())
    }

    // Piece after piece, as many as no run uses up, since a proved loop has to end: whether the input was played to its end, so that a
    // last line without LF is known to be whole. A write that fails ends the session. A read that fails is not the end of the
    // input: it is told, and a line that has begun is not answered.
    fn converse(
        &mut self,
        rt: &impl Eprint,
        source: &mut impl Read,
        sink: &mut impl Write,
        piece: &mut [u8],
        out: &mut [u8],
    ) -> bool
        requires { (length piece.old ≤ 65536) × (11 ≤ length out.old) }
    {
        for _ in 0..u64::MAX {
            match source.read(piece) {
                Ok(0) => return true,
                Ok(n) => {
                    if self.play(sink, &piece[..n], out).is_err() {
                        return false;
                    }
                }
                Err(_) => {
                    let _ = rt.eprintln(
                        "bus: standard input could not be read further; the whole lines before that are answered",
                    );
                    return false;
                }
            }
        }
        false
    }

    // The end of the input: a last line without LF is answered.
    fn end(&mut self, sink: &mut impl Write) {
        let done = finish(
            self.reader,
            self.state,
            self.rom,
            self.ram,
            self.store,
            self.image,
        );
        let _ = sink.write_all(&done.text[..done.length]);
    }
}

fn main(rt: HostRuntime) {
    let rom = [0xFFu8; 16384];
    let mut ram = [0xFFu8; 8192];
    let mut store = [0u8; 16384];
    let mut image = [0u8; 16384];
    let mut piece = [0u8; 65536];
    let mut out = [0u8; 65536];
    let mut session = Session {
        reader: Reader::new(),
        state: Controller::reset(),
        rom: &rom,
        ram: &mut ram,
        store: &mut store,
        image: &mut image,
    };
    let mut source = rt.stdin();
    let mut sink = rt.stdout();
    if session.converse(&rt, &mut source, &mut sink, &mut piece, &mut out) {
        session.end(&mut sink);
    }
}

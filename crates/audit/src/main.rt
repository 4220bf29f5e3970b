// The audit program: plays a recording on standard input as `bus` plays a script, and says of each capture what happened to it. What is said
// stands in `ledger`, whose contracts determine every byte of it.
#![tactic(auto)]

ghost use Rattle.std.specs.Prelude.{◌≤◌, length};

use controller::Controller;
use ledger::{gulxinett_audit_changed, gulxinett_audit_end, gulxinett_audit_summary};
use playing::{Audit, tell};
use session::session::bytes_of;
use std::io::{self, Read, Write};

// Waits for a piece of the input and plays it; answers how many bytes it has, 0 at the end of the input. A read that fails is not that end: it is told,
// and nothing is said of the end.
fn listen(
    rt: &impl Eprint,
    source: &mut impl Read,
    sink: &mut impl Write,
    audit: &mut Audit,
    piece: &mut [u8],
) -> io::Result<usize>
    requires { length piece.old ≤ 65536 }
{
    match source.read(piece) {
        Ok(n) => {
            audit.play(sink, &piece[..n])?;
            Ok(n)
        }
        Err(e) => {
            let _ = rt.eprintln(
                "audit: standard input could not be read further; what is said is of the whole lines before that",
            );
            Err(e)
        }
    }
}

// Piece after piece, as many as no run uses up, since a proved loop has to end. It answers whether the input has ended.
fn converse(
    rt: &impl Eprint,
    source: &mut impl Read,
    sink: &mut impl Write,
    audit: &mut Audit,
    piece: &mut [u8],
) -> bool
    requires { length piece.old ≤ 65536 }
{
    for _ in 0..u64::MAX {
        match listen(rt, source, sink, audit, piece) {
            Ok(0) => return true,
            Ok(_) => {}
            Err(_) => return false,
        }
    }
    false
}

// What outside the picture area changed, stretch by stretch: there are no more of them than bytes.
fn changes(
    sink: &mut impl Write,
    book: &mut [u64],
    first: &[u8],
    ram: &[u8],
    out: &mut [u8],
) -> io::Result<()> {
    let mut from = 0;
    for _ in 0..ram.len() {
        let answer = gulxinett_audit_changed(book, first, ram, from, out);
        from = (answer % 4294967296) as u32;
        tell(sink, book, out)?;
        if ram.len() <= from as usize {
            break;
        }
    }
    Ok(())
}

// After the end: its events, what outside the picture area changed, and the summary, which is told where a change could not be, too.
fn tell_rest(
    sink: &mut impl Write,
    book: &mut [u64],
    state: &[u8],
    first: &[u8],
    ram: &[u8],
    out: &mut [u8],
) -> io::Result<()> {
    tell(sink, book, out)?;
    let _ = changes(sink, book, first, ram, out);
    gulxinett_audit_summary(book, state, out);
    tell(sink, book, out)
}

fn main(rt: HostRuntime) {
    let rom = [0xFFu8; 16384];
    let first = [0xFFu8; 8192];
    let mut ram = [0xFFu8; 8192];
    let mut store = [0u8; 16384];
    let mut image = [0u8; 16384];
    let mut state = bytes_of(Controller::reset());
    let mut book = [0u64; 13];
    let mut line = [0u8; 261];
    let mut piece = [0u8; 65536];
    let mut out = [0u8; 65536];
    let mut audit = Audit {
        book: &mut book,
        line: &mut line,
        state: &mut state,
        rom: &rom,
        ram: &mut ram,
        store: &mut store,
        image: &mut image,
        out: &mut out,
    };
    let mut source = rt.stdin();
    let mut sink = rt.stdout();
    if !converse(&rt, &mut source, &mut sink, &mut audit, &mut piece) {
        return;
    }
    gulxinett_audit_end(
        &mut book, &line, &mut state, &rom, &mut ram, &mut store, &mut image, &mut out,
    );
    let _ = tell_rest(&mut sink, &mut book, &state, &first, &ram, &mut out);
}

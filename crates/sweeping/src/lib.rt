// Whole lines of a recording, one after the other, as long as there is room for their events: what a program plays a piece by.
// The book and what a session is lent stay slices, one parameter each: `events::book` and `short` say why.
#![tactic(auto)]

mod runs;

ghost use Rattle.std.specs.Prelude.{◌≡◌, true, length};
ghost use Rattle.layout.specs.Layout.{is_record, decoded};
ghost use Rattle.session.specs.Session.{world};
ghost use Rattle.sweeping.specs.Aside.{Sweeps, Stops, Settled};

use auditing::line::line_audited;
use layout::is_record;
use runs::short_lines;
use short::line_end;

// The bytes of a piece that were played, and of events that were put into a buffer.
#[derive(Clone, Copy)]
pub struct Swept {
    pub used: usize,
    pub written: usize,
}

// Plays whole lines of a piece, each where it stands.
fn sweep(
    book: &mut [u64],
    state: &mut [u8],
    rom: &[u8],
    ram: &mut [u8],
    store: &mut [u8],
    image: &mut [u8],
    piece: &[u8],
    out: &mut [u8],
) -> Swept
    requires { (is_record state.old ≡ true) × (length book.old ≡ 13) }
    ensures { Sweeps rom.now (world (decoded state.old) ram.old store.old image.old)
        book.old piece.now out.old
        (world (decoded state.new) ram.new store.new image.new) book.new out.new result.used
        result.written × Stops piece.now out.old result.used result.written × (is_record state.new ≡ true) }
{
    let mut at = 0;
    let mut i = 0;
    let mut end = line_end(piece, 0);
    while end < piece.len() && 256 <= out.len() - at {
        at = line_audited(book, state, rom, ram, store, image, &piece[i..end], out, at);
        let next = short_lines(book, state, rom, ram, store, image, piece, end + 1, out, at);
        i = next.used;
        at = next.written;
        end = line_end(piece, i);
    }
    Swept {
        used: i,
        written: at,
    }
}

// Plays whole lines of a piece, over a record and a book of thirteen numbers; over others none.
pub fn lines_audited(
    book: &mut [u64],
    state: &mut [u8],
    rom: &[u8],
    ram: &mut [u8],
    store: &mut [u8],
    image: &mut [u8],
    piece: &[u8],
    out: &mut [u8],
) -> Swept
    ensures { Sweeps rom.now (world (decoded state.old) ram.old store.old image.old)
        book.old piece.now out.old
        (world (decoded state.new) ram.new store.new image.new) book.new out.new result.used
        result.written
        × Settled state.old book.old piece.now out.old state.new result.used result.written }
{
    if book.len() == 13 && is_record(state) {
        return sweep(book, state, rom, ram, store, image, piece, out);
    }
    Swept {
        used: 0,
        written: 0,
    }
}

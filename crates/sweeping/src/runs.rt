// Reads, writes and ticks one after the other, as `short` reads them: such a line's kind says where its LF is to be, so none is looked for. Why they are
// not one with those of `short`, and no `for` goes over them, stands there.
ghost use Rattle.std.specs.Prelude.{◌≡◌, true, ◌+◌, ◌≤◌, ◌<◌, length};
ghost use Rattle.layout.specs.Layout.{is_record, decoded};
ghost use Rattle.session.specs.Session.{world};
ghost use Rattle.sweeping.specs.Aside.{Strides};

use super::Swept;
use auditing::line::line_audited;
use lines::line::frame_of;
use short::is_malformed;

// The bytes of the longest of these lines, with its LF.
const LONGEST: usize = 11;

// Plays a line of n bytes. It is left where no LF stands after them or they say no frame.
#[tactic(auto, using(crate::proofs::Turns::strides_none))]
fn line_of(
    book: &mut [u64],
    state: &mut [u8],
    rom: &[u8],
    ram: &mut [u8],
    store: &mut [u8],
    image: &mut [u8],
    piece: &[u8],
    from: usize,
    n: usize,
    out: &mut [u8],
    at: usize,
) -> Swept
    requires { (is_record state.old ≡ true) × (length book.old ≡ 13) × (from + n < length piece.now) × (at + 256 ≤ length out.old) }
    ensures { Strides rom.now piece.now
        (world (decoded state.old) ram.old store.old image.old) book.old out.old from at
        (world (decoded state.new) ram.new store.new image.new) book.new out.new result.used
        result.written × (is_record state.new ≡ true) }
{
    let end = from + n;
    if piece[end] != 0x0A {
        return Swept {
            used: from,
            written: at,
        };
    }
    if is_malformed(frame_of(&piece[from..end])) {
        return Swept {
            used: from,
            written: at,
        };
    }
    let next = line_audited(
        book,
        state,
        rom,
        ram,
        store,
        image,
        &piece[from..end],
        out,
        at,
    );
    Swept {
        used: end + 1,
        written: next,
    }
}

// Plays a line that is a read, a write or a tick by its second byte.
#[tactic(auto, using(crate::proofs::Turns::strides_none))]
fn short_line(
    book: &mut [u64],
    state: &mut [u8],
    rom: &[u8],
    ram: &mut [u8],
    store: &mut [u8],
    image: &mut [u8],
    piece: &[u8],
    from: usize,
    out: &mut [u8],
    at: usize,
) -> Swept
    requires { (is_record state.old ≡ true) × (length book.old ≡ 13) × (from + 11 ≤ length piece.now) × (at + 256 ≤ length out.old) }
    ensures { Strides rom.now piece.now
        (world (decoded state.old) ram.old store.old image.old) book.old out.old from at
        (world (decoded state.new) ram.new store.new image.new) book.new out.new result.used
        result.written × (is_record state.new ≡ true) }
{
    match piece[from + 1] {
        b'1' => line_of(book, state, rom, ram, store, image, piece, from, 6, out, at),
        b'2' => line_of(book, state, rom, ram, store, image, piece, from, 8, out, at),
        b'3' => line_of(
            book, state, rom, ram, store, image, piece, from, 10, out, at,
        ),
        _ => Swept {
            used: from,
            written: at,
        },
    }
}

// Plays such lines one after the other, up to one that is none or for which the piece or the buffer may have no room.
#[tactic(auto, using(crate::proofs::Turns::strides_none, crate::proofs::Turns::strides_on))]
pub(crate) fn short_lines(
    book: &mut [u64],
    state: &mut [u8],
    rom: &[u8],
    ram: &mut [u8],
    store: &mut [u8],
    image: &mut [u8],
    piece: &[u8],
    from: usize,
    out: &mut [u8],
    at: usize,
) -> Swept
    requires { (is_record state.old ≡ true) × (length book.old ≡ 13) × (from ≤ length piece.now) × (at ≤ length out.old) }
    ensures { Strides rom.now piece.now
        (world (decoded state.old) ram.old store.old image.old) book.old out.old from at
        (world (decoded state.new) ram.new store.new image.new) book.new out.new result.used
        result.written × (is_record state.new ≡ true) }
{
    let mut i = from;
    let mut to = at;
    while LONGEST <= piece.len() - i {
        if out.len() - to < 256 {
            return Swept {
                used: i,
                written: to,
            };
        }
        let place = short_line(book, state, rom, ram, store, image, piece, i, out, to);
        let next = place.used;
        if next == i {
            return place;
        }
        i = next;
        to = place.written;
    }
    Swept {
        used: i,
        written: to,
    }
}

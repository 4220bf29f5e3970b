// Lines of a piece, read where they stand: where one ends; reads, writes and ticks one after the other, whose kind says where their LF is to be.
//
// What a session is lent (record, ROM, RAM, frame store and image) stays one parameter each, here and in `auditing`, `pieces` and `sweeping`: the clauses
// and the theorems of `audited` speak of each. A struct that holds a `&mut` tells its caller of it by a ghost name, so every clause would say more and
// not less. `playing::Audit` is such a struct, where no clause speaks of them.
#![tactic(auto)]

ghost use Rattle.std.specs.Prelude.{◌≡◌, true, ◌+◌, ◌≤◌, ◌<◌, length, nat_eq, position};
ghost use Rattle.layout.specs.Layout.{is_record, decoded};
ghost use Rattle.lines.specs.Kinds.{is_malformed};
ghost use Rattle.session.specs.Session.{world};
ghost use Rattle.short.specs.Aside.{Ends, Moves};

use lines::line::{Frame, frame_of};
use session::answer::ANSWER;
use session::session::line_done;

// The bytes of the longest of these lines, with its LF.
const LONGEST: usize = 11;

// Where the next line begins in a piece, and where its answer goes in a buffer.
#[derive(Clone, Copy)]
pub struct Place {
    pub from: usize,
    pub at: usize,
}

// Where the first LF is, if there is one.
fn first_lf(bytes: &[u8]) -> Option<usize>
    ensures { result ≡ position (λ b. nat_eq b 10) bytes.now }
{
    bytes.iter().position(|b| *b == 0x0A)
}

// Where the line that begins at a place of a piece ends: at its LF, or at the piece's end. Eight bytes are looked at in a row, as long as there are so many:
// `position` alone was tried over lines of 260 bytes, and takes 1.9 times as long (x86-64). The outer loop goes on by eight, so it is no `for`.
#[tactic(auto, using(crate::proofs::Standing::passed_one))]
pub fn line_end(piece: &[u8], from: usize) -> usize
    requires { from ≤ length piece.now }
    ensures { Ends piece.now from result }
{
    let mut i = from;
    while 8 <= piece.len() - i {
        for k in 0..8 {
            if piece[i + k] == 0x0A {
                return i + k;
            }
        }
        i += 8;
    }
    match first_lf(&piece[i..]) {
        Some(k) => i + k,
        None => piece.len(),
    }
}

// Whether a line says no frame.
pub fn is_malformed(frame: Frame) -> bool
    ensures { result ≡ is_malformed frame }
{
    matches!(frame, Frame::Malformed)
}

// Carries out and answers a line of n bytes. It is left where no LF stands after them or they say no frame: the place then stays, which `Moves` says as it
// says a line. An Option would be no plainer, since its None needs a clause of its own for each of the slices. `sweeping::runs` has these three functions
// again, for lines that are played: one form for both, that finds a line's end alone, was tried and misses the speed of these (docs/DECISIONS.md, reads,
// writes and ticks in a row).
#[tactic(auto, using(crate::proofs::Standing::moves_none, crate::proofs::Standing::moves_line, crate::proofs::Standing::ends_there))]
fn line_of(
    state: &mut [u8],
    rom: &[u8],
    ram: &mut [u8],
    store: &mut [u8],
    image: &mut [u8],
    piece: &[u8],
    from: usize,
    n: usize,
    out: &mut [u8],
    at: usize,
) -> Place
    requires { (is_record state.old ≡ true) × (from + n < length piece.now) × (at + 11 ≤ length out.old) }
    ensures { Moves rom.now piece.now
        (world (decoded state.old) ram.old store.old image.old) out.old at from
        (world (decoded state.new) ram.new store.new image.new) out.new result.at result.from
        × (is_record state.new ≡ true) }
{
    let end = from + n;
    if piece[end] != 0x0A {
        return Place { from, at };
    }
    if is_malformed(frame_of(&piece[from..end])) {
        return Place { from, at };
    }
    let next = line_done(state, rom, ram, store, image, &piece[from..end], out, at);
    Place {
        from: end + 1,
        at: next,
    }
}

// Carries out and answers a line that is a read, a write or a tick by its second byte.
#[tactic(auto, using(crate::proofs::Standing::moves_none))]
fn short_line(
    state: &mut [u8],
    rom: &[u8],
    ram: &mut [u8],
    store: &mut [u8],
    image: &mut [u8],
    piece: &[u8],
    from: usize,
    out: &mut [u8],
    at: usize,
) -> Place
    requires { (is_record state.old ≡ true) × (from + 11 ≤ length piece.now) × (at + 11 ≤ length out.old) }
    ensures { Moves rom.now piece.now
        (world (decoded state.old) ram.old store.old image.old) out.old at from
        (world (decoded state.new) ram.new store.new image.new) out.new result.at result.from
        × (is_record state.new ≡ true) }
{
    match piece[from + 1] {
        b'1' => line_of(state, rom, ram, store, image, piece, from, 6, out, at),
        b'2' => line_of(state, rom, ram, store, image, piece, from, 8, out, at),
        b'3' => line_of(state, rom, ram, store, image, piece, from, 10, out, at),
        _ => Place { from, at },
    }
}

// Carries out and answers such lines one after the other, up to one that is none or for which the piece or the buffer may have no room. No `for` goes over
// them: how far a line reaches is known only when its kind is read.
#[tactic(auto, using(crate::proofs::Standing::moves_none, crate::proofs::Standing::moves_on))]
pub fn short_lines(
    state: &mut [u8],
    rom: &[u8],
    ram: &mut [u8],
    store: &mut [u8],
    image: &mut [u8],
    piece: &[u8],
    from: usize,
    out: &mut [u8],
    at: usize,
) -> Place
    requires { (is_record state.old ≡ true) × (from ≤ length piece.now) × (at ≤ length out.old) }
    ensures { Moves rom.now piece.now
        (world (decoded state.old) ram.old store.old image.old) out.old at from
        (world (decoded state.new) ram.new store.new image.new) out.new result.at result.from
        × (is_record state.new ≡ true) }
{
    let mut i = from;
    let mut to = at;
    while LONGEST <= piece.len() - i {
        if out.len() - to < ANSWER {
            return Place { from: i, at: to };
        }
        let place = short_line(state, rom, ram, store, image, piece, i, out, to);
        let next = place.from;
        if next == i {
            return place;
        }
        i = next;
        to = place.at;
    }
    Place { from: i, at: to }
}

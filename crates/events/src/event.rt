// The event of a line: its kind, and what it says.
ghost use Rattle.std.specs.Prelude.{◌≡◌, true, Some, List, ℕ, length};
ghost use Rattle.timing.specs.Lent.{ram_allowed};
ghost use Rattle.crc.specs.Crc.{crc_of};
ghost use Rattle.plates.specs.Grey.{plate_of};
ghost use Rattle.events.specs.Event.{end_of};
ghost use Rattle.events.specs.Aside.{is_reset, lands_in, cycles_in, place_in, byte_in, kind_in, facts_of, event_by, event_from};

use super::book::{FIRST, LAST, ROW, WRITES};
use super::sight::{Sight, place_of};
use crc::crc32_small;
use lines::line::Frame;
use plates::grey::export;

// What is seen of a line.
#[derive(Clone, Copy, PartialEq, Eq, Debug)]
pub enum Kind {
    Start,
    End,
    Drop,
    Land,
    Stop,
    Resume,
}

// An event, but for the registers of a start: serial, checksum of the image and line of its last row; serial and cycles; serial, place and
// byte; serial, cycles and checksum of the plate, and how many writes touched it, with the first line and the last.
#[derive(Clone, Copy, PartialEq, Eq, Debug)]
pub enum Seen {
    Start(u16, u32, u64),
    Stop(u16, u64),
    Resume(u16, u64),
    Dropped(u16, u64),
    Landed(u16, u32, u8),
    Whole(u16, u64, u32),
    Touched(u16, u64, u32, u64, u64, u64),
}

// A line that was carried out: its frame, what is seen of the record before it and after it, how many bytes of RAM are lent, the number of a refusal
// (0: none), and the value that is answered.
#[derive(Clone, Copy)]
pub struct Step {
    pub frame: Frame,
    pub before: Sight,
    pub after: Sight,
    pub size: usize,
    pub number: u32,
    pub value: u32,
}

// What an event may say: the serial before the line and after it, the cycles with those of the line, the place and the byte of a write.
#[derive(Clone, Copy, PartialEq, Eq, Debug)]
pub struct Facts {
    pub serial: u16,
    pub next: u16,
    pub cycles: u64,
    pub place: u32,
    pub byte: u8,
}

impl Step {
    // Whether it is a reset.
    fn is_reset(self) -> bool
        ensures { result ≡ is_reset self.frame }
    {
        matches!(self.frame, Frame::Reset)
    }

    // Whether it is a write that landed: it goes to the RAM, and is not refused.
    fn lands(self) -> bool
        ensures { result ≡ lands_in self }
    {
        match self.frame {
            Frame::Write(a, _) => 0x8000 <= a && self.before.takes && self.number == 0,
            _ => false,
        }
    }

    // The kind of its event, by what is held and runs before it and after it.
    pub fn kind(self) -> Option<Kind>
        ensures { result ≡ kind_in self }
    {
        let held = self.before.held;
        let still = self.after.held;
        match (held, still, self.before.running, self.after.running) {
            (false, false, _, _) => None,
            (false, true, _, _) => Some(Kind::Start),
            (true, _, _, _) if self.is_reset() => Some(Kind::Drop),
            (true, false, _, _) => Some(Kind::End),
            (true, true, _, _) if self.lands() => Some(Kind::Land),
            (true, true, true, false) => Some(Kind::Stop),
            (true, true, false, true) => Some(Kind::Resume),
            (true, true, _, _) => None,
        }
    }

    // The cycles of the capture held before it, with those of its ticks.
    fn cycles(self) -> u64
        ensures { result ≡ cycles_in self }
    {
        let elapsed = u64::from(self.before.elapsed);
        match self.frame {
            Frame::Tick(_) => elapsed + u64::from(self.value),
            _ => elapsed,
        }
    }

    // Where it writes in the RAM.
    fn place(self) -> u32
        ensures { result ≡ place_in self }
    {
        match self.frame {
            Frame::Write(a, _) => place_of(self.before.select, self.size, a),
            _ => 0,
        }
    }

    // The byte that it writes.
    fn byte(self) -> u8
        ensures { result ≡ byte_in self }
    {
        match self.frame {
            Frame::Write(_, v) => v,
            _ => 0,
        }
    }

    // What its event may say.
    pub fn facts(self) -> Facts
        ensures { result ≡ facts_of self }
    {
        Facts {
            serial: self.before.serial,
            next: self.after.serial,
            cycles: self.cycles(),
            place: self.place(),
            byte: self.byte(),
        }
    }
}

// The checksum of the picture area as a file.
fn plate_sum(ram: &[u8]) -> u32
    requires { ram_allowed (length ram.now) ≡ true }
    ensures { result ≡ crc_of (plate_of ram.now) }
{
    let mut file = [0u8; 14351];
    let _ = export(ram, &mut file);
    crc32_small(&file)
}

// An end: whole where no bus write landed in the picture area.
#[tactic(auto, unfolding(crate::specs::Event::end_of, crate::specs::Aside::event_from))]
fn end_of(book: &[u64], serial: u16, cycles: u64, plate: u32) -> Seen
    requires { length book.now ≡ 13 }
    ensures { (regs : List ℕ) → event_from (Some result) regs ≡ end_of book.now serial cycles plate }
{
    if book[WRITES] == 0 {
        return Seen::Whole(serial, cycles, plate);
    }
    Seen::Touched(serial, cycles, plate, book[WRITES], book[FIRST], book[LAST])
}

// The event of a kind.
#[tactic(auto, unfolding(crate::specs::Aside::event_by, crate::specs::Aside::event_from))]
// That the RAM's length is allowed stays a clause: it is asked only where a capture ends.
pub fn event_of(
    kind: Option<Kind>,
    book: &[u64],
    image: &[u8],
    ram: &[u8],
    facts: Facts,
) -> Option<Seen>
    requires { (length book.now ≡ 13) × (kind ≡ Some Kind.End → ram_allowed (length ram.now) ≡ true) }
    ensures { (regs : List ℕ) → event_from result regs ≡ event_by book.now image.now ram.now regs facts kind }
{
    Some(match kind? {
        Kind::Start => Seen::Start(facts.next, crc32_small(image), book[ROW]),
        Kind::End => end_of(book, facts.serial, facts.cycles, plate_sum(ram)),
        Kind::Drop => Seen::Dropped(facts.serial, facts.cycles),
        Kind::Land => Seen::Landed(facts.serial, facts.place, facts.byte),
        Kind::Stop => Seen::Stop(facts.serial, facts.cycles),
        Kind::Resume => Seen::Resume(facts.serial, facts.cycles),
    })
}

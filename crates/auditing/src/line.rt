// One line of a recording: it is carried out, counted, and its event is put into a lent buffer.
// The book and what a session is lent stay slices, one parameter each: `events::book` and `short` say why.
ghost use Rattle.std.specs.Prelude.{◌≡◌, true, Some, ◌+◌, ◌≤◌, length};
ghost use Rattle.timing.specs.Lent.{ram_allowed};
ghost use Rattle.layout.specs.Layout.{is_record, decoded};
ghost use Rattle.session.specs.Session.{world};
ghost use Rattle.auditing.specs.Line.{is_malformed, is_row, line_counted, audit_of};
ghost use Rattle.events.specs.Aside.{kind_in, facts_of, event_by};
ghost use Rattle.auditing.specs.Aside.{Entered, Audits};

use events::book::{LINES, count_event, count_line, one_more};
use events::event::{Kind, Step, event_of};
use events::sight::look;
use events::text::put_event;
use lines::line::{Frame, frame_of};
use session::session::carry_out;

// Whether a frame is malformed.
#[tactic(auto, unfolding(crate::specs::Line::is_malformed))]
// (Not the one of `short`, which this crate does not need.)
fn is_malformed(frame: Frame) -> bool
    ensures { result ≡ is_malformed frame }
{
    matches!(frame, Frame::Malformed)
}

// Whether it is an image row.
#[tactic(auto, unfolding(crate::specs::Line::is_row))]
fn is_row(frame: Frame) -> bool
    ensures { result ≡ is_row frame }
{
    matches!(frame, Frame::Row(_))
}

// Counts a line.
#[tactic(auto, unfolding(crate::specs::Line::line_counted))]
fn counted(book: &mut [u64], step: Step)
    requires { length book.old ≡ 13 }
    ensures { book.new ≡ line_counted book.old step.frame step.number }
{
    count_line(
        book,
        is_malformed(step.frame),
        is_row(step.frame),
        step.number,
    );
}

// Counts a line and its event, and puts its event's text at a place of a buffer. Without an event a line is counted alone.
#[tactic(auto, using(crate::proofs::Lines::quiet_entered))]
fn entered(
    book: &mut [u64],
    step: Step,
    image: &[u8],
    ram: &[u8],
    registers: &[u8],
    out: &mut [u8],
    at: usize,
) -> usize
    requires { (length book.old ≡ 13) × (at + 256 ≤ length out.old) × (length registers.now ≡ 54)
        × (kind_in step ≡ Some Kind.End → ram_allowed (length ram.now) ≡ true) }
    ensures { Entered book.old (line_counted book.old step.frame step.number)
        (event_by book.old image.now ram.now registers.now (facts_of step) (kind_in step)) out.old
        at book.new out.new result }
{
    let kind = step.kind();
    let Some(_) = kind else {
        counted(book, step);
        return at;
    };
    let line = one_more(book[LINES]);
    let seen = event_of(kind, book, image, ram, step.facts());
    counted(book, step);
    count_event(book, seen);
    put_event(out, at, line, seen, registers)
}

// Carries out a line of a recording, counts it, and puts its event at a place of a buffer; returns the place after it.
#[tactic(auto, using(calls::proofs::Bytes::long))]
pub fn line_audited(
    book: &mut [u64],
    state: &mut [u8],
    rom: &[u8],
    ram: &mut [u8],
    store: &mut [u8],
    image: &mut [u8],
    line: &[u8],
    out: &mut [u8],
    at: usize,
) -> usize
    requires { (is_record state.old ≡ true) × (length book.old ≡ 13) × (at + 256 ≤ length out.old) }
    ensures { Audits (audit_of rom.now (world (decoded state.old) ram.old store.old image.old)
        book.old line.now) (world (decoded state.new) ram.new store.new image.new)
        out.old at book.new out.new result × (is_record state.new ≡ true) }
{
    let frame = frame_of(line);
    let before = look(state);
    let size = ram.len();
    let answer = carry_out(state, rom, ram, store, image, line, frame);
    let step = Step {
        frame,
        before,
        after: look(state),
        size,
        number: answer.number,
        value: answer.value,
    };
    entered(book, step, image, ram, &state[67..], out, at)
}

// One step of a session: a line is carried out and answered.
// What a session is lent stays one slice each, with `is_record` as a clause: C lends them, and of a slice that a struct held nothing is known once the struct is
// let go (`short`).
ghost use Rattle.std.specs.Prelude.{◌≡◌, true, [], ◌+◌, ◌*◌, ◌≤◌, ◌<◌, length};
ghost use Rattle.controller.specs.Outcome.{number_of, read_number, read_value, write_number, tick_number, tick_value};
ghost use Rattle.cartridge.specs.Calls.{read_means, write_means};
ghost use Rattle.capture.specs.Calls.{tick_means};
ghost use Rattle.controller.specs.State.{reset_state};
ghost use Rattle.layout.specs.Layout.{is_record, decoded};
ghost use Rattle.lines.specs.Line.{hex_part, frame_of};
ghost use Rattle.session.specs.Answer.{answer_text, text_of};
ghost use Rattle.session.specs.Session.{world, step, row_taken, row_image, row_text, step_of};
ghost use Rattle.session.specs.Aside.{Short, Obeys, Carried, Printed, said, saying};

use super::answer::{Answer, put_answer};
use controller::{Controller, Refusal};
use layout::{decode, encode};
use lines::line::{Frame, byte_at, frame_of};
use timing::Cycles;

// A refusal prints its number alone.
fn refused(r: Refusal) -> Answer
    ensures { (text_of result ≡ answer_text (number_of r) 0 0) × Short result × (result.value ≡ 0) }
{
    Answer {
        number: u32::from(r),
        digits: 0,
        value: 0,
    }
}

// Nothing is refused and there is no value.
fn done() -> Answer
    ensures { (text_of result ≡ answer_text 0 0 0) × Short result }
{
    Answer {
        number: 0,
        digits: 0,
        value: 0,
    }
}

// The answers of a read, a write and a tick. No plainer as one: a trait would need an instance for each, as long as these three.
// After a read the byte.
fn read_answer(r: Result<u8, Refusal>) -> Answer
    ensures { (text_of result ≡ answer_text (read_number r) 2 (read_value r)) × Short result }
{
    match r {
        Ok(b) => Answer {
            number: 0,
            digits: 2,
            value: u32::from(b),
        },
        Err(why) => refused(why),
    }
}

// After a write nothing but the number.
fn write_answer(r: Result<(), Refusal>) -> Answer
    ensures { (text_of result ≡ answer_text (write_number r) 0 0) × Short result }
{
    match r {
        Ok(()) => done(),
        Err(why) => refused(why),
    }
}

// After a tick eight digits of running cycles.
fn tick_answer(r: Result<Cycles, Refusal>) -> Answer
    ensures { (text_of result ≡ answer_text (tick_number r) 8 (tick_value r)) × Short result × (result.value ≡ tick_value r) }
{
    match r {
        Ok(n) => Answer {
            number: 0,
            digits: 8,
            value: n.0,
        },
        Err(why) => refused(why),
    }
}

// Takes the 128 bytes of row y from a line. (By place: after a zip with `iter_mut` a proof knows nothing of what was written.)
fn take_row(image: &mut [u8], line: &[u8], y: usize)
    requires { (length line.now ≡ 260) × (hex_part line.now 0 260 ≡ true) × (128 * y + 128 ≤ length image.old) }
    ensures { image.new ≡ row_taken line.now y 128 image.old }
{
    for i in 0..128 {
        image[128 * y + i] = byte_at(line, 4 + 2 * i);
    }
}

// A read, and the byte.
fn do_read(state: &[u8], rom: &[u8], ram: &[u8], address: u16) -> Answer
    requires { is_record state.now ≡ true }
    ensures { Obeys 2 (read_means (decoded state.now) rom.now ram.now address) state.now result
        ram.now [] }
{
    read_answer(calls::read(state, rom, ram, address))
}

// A write.
fn do_write(
    state: &mut [u8],
    ram: &mut [u8],
    store: &mut [u8],
    image: &[u8],
    address: u16,
    value: u8,
) -> Answer
    requires { is_record state.old ≡ true }
    ensures { Obeys 0 (write_means (decoded state.old) ram.old store.old image.now address value)
        state.new result ram.new store.new }
{
    write_answer(calls::write(state, ram, store, image, address, value))
}

// A tick, and the running cycles.
fn do_tick(state: &mut [u8], ram: &mut [u8], store: &[u8], n: u32) -> Answer
    requires { is_record state.old ≡ true }
    ensures { Obeys 8 (tick_means (decoded state.old) ram.old store.now n) state.new result ram.new
        store.now × (result.value ≡ (tick_means (decoded state.old) ram.old store.now n).value) }
{
    tick_answer(calls::tick(state, ram, store, n))
}

// A state as its record's bytes.
// (No `From`: type and array are of other crates.)
pub fn bytes_of(c: Controller) -> [u8; 121]
    ensures { (is_record result ≡ true) × (decoded result ≡ c) }
{
    let mut bytes = [0u8; 121];
    encode(c, &mut bytes);
    bytes
}

// The reset state in a record's bytes.
fn do_reset(state: &mut [u8]) -> Answer
    requires { is_record state.old ≡ true }
    ensures { (is_record state.new ≡ true) × (decoded state.new ≡ reset_state) × (text_of result ≡ answer_text 0 0 0) × Short result }
{
    encode(Controller::reset(), state);
    done()
}

// An image row: refused where the image is not 16,384 bytes.
fn do_row(image: &mut [u8], line: &[u8], y: u8) -> Answer
    requires { frame_of line.now ≡ Frame.Row y }
    ensures { (image.new ≡ row_image line.now image.old y) × (text_of result ≡ row_text image.old) × Short result }
{
    if image.len() != Controller::FRAME {
        return refused(Refusal::Frame);
    }
    take_row(image, line, y as usize);
    done()
}

// Carries out the frame that a line says.
pub fn carry_out(
    state: &mut [u8],
    rom: &[u8],
    ram: &mut [u8],
    store: &mut [u8],
    image: &mut [u8],
    line: &[u8],
    frame: Frame,
) -> Answer
    requires { (is_record state.old ≡ true) × (frame ≡ frame_of line.now) }
    ensures { Carried rom.now line.now
        (world (decoded state.old) ram.old store.old image.old) frame result
        (world (decoded state.new) ram.new store.new image.new) × (is_record state.new ≡ true) }
{
    match frame {
        Frame::Reset => do_reset(state),
        Frame::Read(a) => do_read(state, rom, ram, a),
        Frame::Write(a, v) => do_write(state, ram, store, image, a, v),
        Frame::Tick(n) => do_tick(state, ram, store, n),
        Frame::Row(y) => do_row(image, line, y),
        Frame::Malformed => refused(Refusal::Line),
    }
}

// Carries out a line.
pub(crate) fn obey(
    state: &mut [u8],
    rom: &[u8],
    ram: &mut [u8],
    store: &mut [u8],
    image: &mut [u8],
    line: &[u8],
) -> Answer
    requires { is_record state.old ≡ true }
    ensures { (step (world (decoded state.new) ram.new store.new image.new) (text_of result)
        ≡ step_of rom.now (world (decoded state.old) ram.old store.old image.old) line.now)
        × (is_record state.new ≡ true) × (result.digits ≤ 8) }
{
    let frame = frame_of(line);
    carry_out(state, rom, ram, store, image, line, frame)
}

// Carries out a line and puts its answer into a buffer, and returns where it ends.
pub fn line_done(
    state: &mut [u8],
    rom: &[u8],
    ram: &mut [u8],
    store: &mut [u8],
    image: &mut [u8],
    line: &[u8],
    out: &mut [u8],
    at: usize,
) -> usize
    requires { (is_record state.old ≡ true) × (at + 11 ≤ length out.old) }
    ensures { Printed (step_of rom.now (world (decoded state.old) ram.old store.old image.old)
        line.now) (world (decoded state.new) ram.new store.new image.new) out.old at
        out.new result × (is_record state.new ≡ true) }
{
    let answer = obey(state, rom, ram, store, image, line);
    put_answer(out, at, answer)
}

// A buffer with its length beside it: there is no heap, and `said` speaks of both.
// A line's answer: so many of the bytes of `text`, and the others 0.
#[derive(Clone, Copy)]
pub struct Stepped {
    pub state: Controller,
    pub text: [u8; 11],
    pub length: usize,
}

// One step of a session: a line, without its LF, is carried out and answered.
pub fn step(
    state: Controller,
    rom: &[u8],
    ram: &mut [u8],
    store: &mut [u8],
    image: &mut [u8],
    line: &[u8],
) -> Stepped
    ensures { (said result ram.new store.new image.new
        ≡ saying (step_of rom.now (world state ram.old store.old image.old) line.now))
        × (result.length ≤ 11) }
{
    let mut text = [0u8; 11];
    let mut bytes = bytes_of(state);
    let length = line_done(&mut bytes, rom, ram, store, image, line, &mut text, 0);
    let next = decode(&bytes);
    Stepped {
        state: next,
        text,
        length,
    }
}

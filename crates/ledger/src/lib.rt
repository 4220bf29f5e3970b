// What C and Rust call to audit recordings. Each function answers as those of `embed` do; the book's first number is how many bytes were put into the buffer.
#![tactic(auto)]

ghost use Rattle.std.specs.Prelude.{◌≡◌, ◌≤◌, min, length, take};
ghost use Rattle.controller.specs.Outcome.{verdict_number};
ghost use Rattle.controller.specs.Table.{lowest};
ghost use Rattle.ledger.specs.Audits.{auditing, fits, audit_rows, lent, audit_bytes, end_bytes, noting, room, same_ram, changed_rows, changed_bytes};
ghost use Rattle.ledger.specs.Audits.{summary_rows, summary_bytes};

use answers::{pack, refused};
use auditing::summary::summary_put;
use changes::change_put;
use controller::Refusal;
use controller::judge::refused_if;
use events::book::{LINES, WRITTEN};
use layout::is_record;
use pieces::{end_audited, piece_audited};
use timing::ram_allowed;

// A book of 13 numbers, and room for an event.
#[tactic(auto, unfolding(crate::specs::Audits::room))]
fn has_room(book: &[u64], out: &[u8]) -> bool
    ensures { result ≡ room book.now out.now }
{
    book.len() == 13 && 512 <= out.len()
}

// The same, and room for a line.
#[tactic(auto, unfolding(crate::specs::Audits::fits))]
fn has_sizes(book: &[u64], line: &[u8], out: &[u8]) -> bool
    ensures { result ≡ fits book.now line.now out.now }
{
    book.len() == 13 && line.len() == 261 && 512 <= out.len()
}

// The RAM now and at first.
#[tactic(auto, unfolding(crate::specs::Audits::same_ram))]
fn same_ram(first: &[u8], ram: &[u8]) -> bool
    ensures { result ≡ same_ram first.now ram.now }
{
    ram_allowed(ram.len()) && first.len() == ram.len()
}

// What an audit is lent, judged: 1, then 7.
#[tactic(auto, using(controller::proofs::Judging::rows), unfolding(crate::specs::Audits::audit_rows))]
fn judge_audit(state: &[u8], book: &[u64], line: &[u8], out: &[u8]) -> Result<(), Refusal>
    ensures { verdict_number result ≡ lowest (audit_rows state.now book.now line.now out.now) }
{
    refused_if(!is_record(state), Refusal::State)?;
    refused_if(!has_sizes(book, line, out), Refusal::Room)
}

// What a search for changes is lent, judged: 3, then 7.
#[tactic(auto, using(controller::proofs::Judging::rows), unfolding(crate::specs::Audits::changed_rows))]
fn judge_changed(book: &[u64], first: &[u8], ram: &[u8], out: &[u8]) -> Result<(), Refusal>
    ensures { verdict_number result ≡ lowest (changed_rows book.now first.now ram.now out.now) }
{
    refused_if(!same_ram(first, ram), Refusal::Ram)?;
    refused_if(!has_room(book, out), Refusal::Room)
}

// What a summary is lent, judged: 1, then 7.
#[tactic(auto, using(controller::proofs::Judging::rows), unfolding(crate::specs::Audits::summary_rows))]
fn judge_summary(book: &[u64], state: &[u8], out: &[u8]) -> Result<(), Refusal>
    ensures { verdict_number result ≡ lowest (summary_rows book.now state.now out.now) }
{
    refused_if(!is_record(state), Refusal::State)?;
    refused_if(!has_room(book, out), Refusal::Room)
}

// How much of a piece a value can count.
fn countable(piece: &[u8]) -> usize
    ensures { (take result piece.now ≡ lent piece.now) × (result ≤ length piece.now) × (result ≤ 4294967295) }
{
    piece.len().min(4294967295)
}

// A place, but no further than the RAM's end.
fn place_in(from: u32, length: usize) -> usize
    ensures { (result ≡ min from length) × (result ≤ length) }
{
    (from as usize).min(length)
}

// Audits a piece of a recording, up to its first LF and with it. The answer's value is how many bytes of it were read.
#[unsafe(no_mangle)]
pub extern "C" fn gulxinett_audit(
    book: &mut [u64],
    line: &mut [u8],
    state: &mut [u8],
    rom: &[u8],
    ram: &mut [u8],
    store: &mut [u8],
    image: &mut [u8],
    piece: &[u8],
    out: &mut [u8],
) -> u64
    ensures { auditing result state.new ram.new store.new image.new
        book.new line.new out.new
        ≡ audit_bytes state.old rom.now ram.old store.old image.old book.old
        line.old piece.now out.old }
{
    if let Err(why) = judge_audit(state, book, line, out) {
        return refused(why);
    }
    let n = countable(piece);
    let used = piece_audited(book, line, state, rom, ram, store, image, &piece[..n], out);
    pack(0, used as u32)
}

// The end of a recording: a last line without LF, and that a capture is held. The answer's value is how many bytes were written.
#[unsafe(no_mangle)]
pub extern "C" fn gulxinett_audit_end(
    book: &mut [u64],
    line: &[u8],
    state: &mut [u8],
    rom: &[u8],
    ram: &mut [u8],
    store: &mut [u8],
    image: &mut [u8],
    out: &mut [u8],
) -> u64
    ensures { auditing result state.new ram.new store.new image.new
        book.new line.now out.new
        ≡ end_bytes state.old rom.now ram.old store.old image.old book.old
        line.now out.old }
{
    if let Err(why) = judge_audit(state, book, line, out) {
        return refused(why);
    }
    let written = end_audited(book, line, state, rom, ram, store, image, out);
    pack(0, (written % 4294967296) as u32)
}

// The first stretch of RAM from a place on that changed. The answer's value is the place after it.
#[unsafe(no_mangle)]
pub extern "C" fn gulxinett_audit_changed(
    book: &mut [u64],
    first: &[u8],
    ram: &[u8],
    from: u32,
    out: &mut [u8],
) -> u64
    ensures { noting result book.new out.new
        ≡ changed_bytes book.old first.now ram.now from out.old }
{
    if let Err(why) = judge_changed(book, first, ram, out) {
        return refused(why);
    }
    let change = change_put(first, ram, place_in(from, ram.len()), book[LINES], out);
    book[WRITTEN] = change.written as u64;
    pack(0, (change.next % 4294967296) as u32)
}

// The summary of a recording. The answer's value is its length.
#[unsafe(no_mangle)]
pub extern "C" fn gulxinett_audit_summary(book: &mut [u64], state: &[u8], out: &mut [u8]) -> u64
    ensures { noting result book.new out.new ≡ summary_bytes book.old state.now out.old }
{
    if let Err(why) = judge_summary(book, state, out) {
        return refused(why);
    }
    let written = summary_put(book, state[4] == 1, out);
    book[WRITTEN] = written as u64;
    pack(0, (written % 4294967296) as u32)
}

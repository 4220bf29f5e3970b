// The cleaned text and the report, put into buffers that have room for them.
ghost use Rattle.std.specs.Prelude.{◌≡◌, Bool, ◌+◌, ◌≤◌, length, take};
ghost use Rattle.lines.specs.Hex.{placed};
ghost use Rattle.recording.specs.Record.{ended};
ghost use Rattle.script.specs.Text.{lines_of};
ghost use Rattle.salvaging.specs.Kept.{text_of, mark_of, left_after, marks};
ghost use Rattle.salvaging.specs.Marks.{byte_of};
ghost use Rattle.salvaging.specs.Aside.{accepted_at};

use super::place::{Accepted, Lines, Script, is_accepted};

// What a report says of a line.
#[derive(Clone, Copy, Debug, PartialEq, Eq)]
pub enum Mark {
    Kept,
    Malformed,
    Repeated,
}

// Its byte in the report.
impl From<Mark> for u8 {
    ghost from_gives = { λ m b. b ≡ byte_of m };

    fn from(mark: Mark) -> u8 {
        match mark {
            Mark::Kept => 0,
            Mark::Malformed => 1,
            Mark::Repeated => 2,
        }
    }
}

// How long the text of the first n accepted lines is, each with its LF.
pub(crate) fn text_length(script: Script<'_>, n: usize) -> usize
    requires { n ≤ length (accepted_at script.text.now 0) }
    ensures { result ≡ length (text_of (take n (accepted_at script.entry.text.now 0))) }
{
    Accepted(Lines(script.text))
        .take(n)
        .map(|line| line.len() + 1)
        .sum()
}

// Puts a line with its LF at a place of a buffer.
fn put_line(text: &mut [u8], at: usize, line: &[u8])
    requires { at + (length line.now + 1) ≤ length text.old }
    ensures { text.new ≡ placed text.old at (ended line.now) }
{
    // By place: `copy_from_slice` calls memmove (`save::parts::put`).
    for i in 0..line.len() {
        text[at + i] = line[i];
    }
    text[at + line.len()] = 0x0A;
}

// Puts the first n accepted lines, each with its LF. The place goes on by each line's length, so no iterator knows it.
pub(crate) fn put_text(script: Script<'_>, n: usize, text: &mut [u8])
    requires { (n ≤ length (accepted_at script.text.now 0)) × (length (text_of (take n (accepted_at script.text.now 0))) ≤ length text.old) }
    ensures { text.new ≡ placed text.old 0 (text_of (take n (accepted_at script.entry.text.now 0))) }
{
    let mut out = 0;
    for line in Accepted(Lines(script.text)).take(n) {
        put_line(text, out, line);
        out += line.len() + 1;
    }
}

// What is said of a line, with so many still to be kept.
fn line_mark(good: bool, left: usize) -> Mark
    ensures { byte_of result ≡ mark_of good left }
{
    if !good {
        return Mark::Malformed;
    }
    if left == 0 {
        return Mark::Repeated;
    }
    Mark::Kept
}

// How many are still to be kept after it.
fn left_after(good: bool, left: usize) -> usize
    ensures { result ≡ left_after good left }
{
    if !good {
        return left;
    }
    if left == 0 {
        return 0;
    }
    left - 1
}

// Puts one byte for each line, in order, where the first n accepted lines are kept. By place: after a zip with `iter_mut` a proof knows nothing of what was
// written.
pub(crate) fn put_report(script: Script<'_>, n: usize, report: &mut [u8])
    requires { length (lines_of script.text.now) ≤ length report.old }
    ensures { report.new ≡ placed report.old 0 (marks n (lines_of script.entry.text.now)) }
{
    let mut left = n;
    for (i, line) in Lines(script.text).enumerate() {
        let good = is_accepted(line);
        report[i] = u8::from(line_mark(good, left));
        left = left_after(good, left);
    }
}

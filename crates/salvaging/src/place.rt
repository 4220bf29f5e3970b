// The lines of a script, one after the other: all of them, or the accepted ones, and how many there are.
ghost use Rattle.std.specs.Prelude.{◌≡◌, ◌≤◌, length};
ghost use Rattle.std.specs.Iterator.{YieldsFirstRef, item_count};
ghost use Rattle.script.specs.Text.{lines_of};
ghost use Rattle.salvaging.specs.Kept.{accepted, accepted_of};

use lines::line::{Frame, frame_of};

// A script of no more than the longest one's bytes.
#[derive(Clone, Copy)]
pub(crate) struct Script<'a> {
    pub(crate) text: &'a [u8],
    ghost bound: { length text.now ≤ 32768 },
}

// The lines that are left of a script, each without its LF.
#[derive(Clone, Copy)]
pub(crate) struct Lines<'a>(pub(crate) &'a [u8]);

impl<'a> Iterator for Lines<'a> {
    type Item = &'a [u8];

    ghost next_gives = { YieldsFirstRef (λ s. lines_of s.0.now) };

    ghost remaining = { item_count (λ s. lines_of s.0.now) };

    // By place, which is the line's length too: by `position` a script of empty lines took twice as long to salvage.
    fn next(&mut self) -> Option<&'a [u8]> {
        let script = self.0;
        if script.is_empty() {
            return None;
        }
        for end in 0..script.len() {
            if script[end] == 0x0A {
                self.0 = &script[end + 1..];
                return Some(&script[..end]);
            }
        }
        self.0 = &[];
        Some(script)
    }
}

// The accepted ones of them.
#[derive(Clone, Copy)]
pub(crate) struct Accepted<'a>(pub(crate) Lines<'a>);

impl<'a> Iterator for Accepted<'a> {
    type Item = &'a [u8];

    ghost next_gives = { YieldsFirstRef (λ s. accepted_of (lines_of s.0.0.now)) };

    ghost remaining = { item_count (λ s. accepted_of (lines_of s.0.0.now)) };

    fn next(&mut self) -> Option<&'a [u8]> {
        while let Some(line) = self.0.next() {
            if is_accepted(line) {
                return Some(line);
            }
        }
        None
    }
}

// Whether a line is accepted.
pub(crate) fn is_accepted(line: &[u8]) -> bool
    ensures { result ≡ accepted line.now }
{
    !matches!(frame_of(line), Frame::Malformed)
}

// How many lines a script has.
pub(crate) fn count_lines(script: Script<'_>) -> usize
    ensures { result ≡ length (lines_of script.entry.text.now) }
{
    Lines(script.text).count()
}

// How many of them are accepted.
pub(crate) fn count_accepted(script: Script<'_>) -> usize
    ensures { result ≡ length (accepted_of (lines_of script.entry.text.now)) }
{
    Accepted(Lines(script.text)).count()
}

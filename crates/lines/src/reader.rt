// The line reader: the lent line together with its place in it.
// What digits mean is read by functions on a slice and a number; its methods are thin.
ghost use Rattle.std.specs.Prelude.{◌≡◌, ◌+◌, ◌≤◌, length};
ghost use Rattle.lines.specs.Line.{hex_part, number_of};

use super::line::{all_hex_at, number_at, two_at};

#[derive(Clone, Copy)]
pub struct LineReader<'a> {
    pub line: &'a [u8],
    pub at: usize,
}

impl<'a> LineReader<'a> {
    // A reader at a line's first byte after its kind.
    pub(crate) fn after_kind(line: &'a [u8]) -> LineReader<'a>
        ensures { (result.line ≡ line.entry) × (result.at ≡ 2) }
    {
        LineReader { line, at: 2 }
    }

    // The reader moves on by n bytes: where it stood.
    fn pass(&mut self, n: usize) -> usize
        requires { self.old.at + n ≤ length self.old.line.now }
        ensures moved { (self.new.line ≡ self.old.line) × (self.new.at ≡ self.old.at + n) }
        ensures place { result ≡ self.old.at }
    {
        let at = self.at;
        self.at += n;
        at
    }

    // The number that the next N digits spell: at most eight. The reader stands after them then. Inline, so that its place is in no memory.
    #[inline]
    pub(crate) fn number<const N: usize>(&mut self) -> Option<u32>
        requires { (self.old.at + N ≤ length self.old.line.now) × (N ≤ 8) }
        ensures moved { (self.new.line ≡ self.old.line) × (self.new.at ≡ self.old.at + N) }
        ensures value { result ≡ number_of self.old.line.now self.old.at N }
    {
        let at = self.pass(N);
        number_at::<N>(self.line, at)
    }

    // The number that the next two digits spell, likewise.
    #[inline]
    pub(crate) fn byte(&mut self) -> Option<u32>
        requires { self.old.at + 2 ≤ length self.old.line.now }
        ensures moved { (self.new.line ≡ self.old.line) × (self.new.at ≡ self.old.at + 2) }
        ensures value { result ≡ number_of self.old.line.now self.old.at 2 }
    {
        let at = self.pass(2);
        two_at(self.line, at)
    }

    // Whether the next N bytes are all digits. The reader stands after them then.
    pub(crate) fn all_hex<const N: usize>(&mut self) -> bool
        requires { self.old.at + N ≤ length self.old.line.now }
        ensures moved { (self.new.line ≡ self.old.line) × (self.new.at ≡ self.old.at + N) }
        ensures value { result ≡ hex_part self.old.line.now self.old.at N }
    {
        let at = self.pass(N);
        all_hex_at::<N>(self.line, at)
    }
}

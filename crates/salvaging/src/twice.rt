// Whether accepted lines are some sequence followed by itself, and how many are kept.
ghost use Rattle.std.specs.Prelude.{◌≡◌, ◌≤◌, length, take, drop};
ghost use Rattle.lines.specs.Line.{frame_of};
ghost use Rattle.script.specs.Text.{lines_of};
ghost use Rattle.salvaging.specs.Kept.{accepted_of, is_reset, starts_reset, same_lines, doubled, salvaged};
ghost use Rattle.salvaging.specs.Aside.{accepted_at};

use super::place::{Accepted, Lines, Script, count_accepted};
use lines::line::{Frame, frame_of};

// Whether a line is reset.
fn is_reset(line: &[u8]) -> bool
    ensures { result ≡ is_reset (frame_of line.now) }
{
    matches!(frame_of(line), Frame::Reset)
}

// The accepted lines after the first n.
fn after<'a>(script: &'a [u8], n: usize) -> Accepted<'a>
    ensures { accepted_of (lines_of result.0.0.now) ≡ drop n (accepted_of (lines_of script.now)) }
{
    let mut lines = Accepted(Lines(script));
    for _ in 0..n {
        lines.next();
    }
    lines
}

// Whether lines start with reset.
fn starts_reset(mut lines: Accepted<'_>) -> bool
    ensures { result ≡ starts_reset (accepted_of (lines_of lines.entry.0.0.now)) }
{
    match lines.next() {
        Some(line) => is_reset(line),
        None => false,
    }
}

// Whether the first n of some lines are those of others.
fn same_lines(one: Accepted<'_>, other: Accepted<'_>, n: usize) -> bool
    requires { (n ≤ length (accepted_of (lines_of one.0.0.now))) × (n ≤ length (accepted_of (lines_of other.0.0.now))) }
    ensures { result ≡ same_lines (take n (accepted_of (lines_of one.entry.0.0.now))) (take n (accepted_of (lines_of other.entry.0.0.now))) }
{
    one.take(n).zip(other).all(|(a, b)| a == b)
}

// Whether the first n accepted lines are some sequence followed by itself, both halves starting with reset.
fn is_doubled(script: Script<'_>, n: usize) -> bool
    requires { n ≤ length (accepted_at script.text.now 0) }
    ensures { result ≡ doubled (take n (accepted_at script.entry.text.now 0)) }
{
    let half = n / 2;
    if half == 0 {
        return false;
    }
    if n % 2 != 0 {
        return false;
    }
    if !starts_reset(Accepted(Lines(script.text))) {
        return false;
    }
    let later = after(script.text, half);
    if !starts_reset(later) {
        return false;
    }
    same_lines(Accepted(Lines(script.text)), later, half)
}

// How many of the accepted lines are kept: one half of them, again until no repetition is left.
pub(crate) fn kept(script: Script<'_>) -> usize
    ensures { (result ≤ length (accepted_at script.entry.text.now 0))
        × (take result (accepted_at script.entry.text.now 0) ≡ salvaged (lines_of script.entry.text.now)) }
{
    let mut n = count_accepted(script);
    while is_doubled(script, n) {
        n /= 2;
    }
    n
}

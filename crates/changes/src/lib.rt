// What outside the picture area changed: stretches of RAM bytes that differ from what they were at first.
#![tactic(auto)]

ghost use Rattle.std.specs.Prelude.{◌≡◌, ◌-◌, ◌<◌, ◌≤◌, length};
ghost use Rattle.history.specs.Seen.{in_area};
ghost use Rattle.wording.specs.Aside.{Put};
ghost use Rattle.changes.specs.Changes.{differs, reach, begins, ends, stretch_text, change_text};

use wording::events::{put_changed, put_unchanged};

// Where a stretch ends, and how many bytes its event is.
#[derive(Clone, Copy)]
pub struct Change {
    pub next: usize,
    pub written: usize,
}

// Whether a place of the RAM is in the picture area.
#[tactic(auto, unfolding(history::specs::Seen::in_area))]
pub fn in_area(place: u32) -> bool
    ensures { result ≡ in_area place }
{
    (0x100..=0xEFF).contains(&place)
}

// A RAM beside what it was at first: of one size, and of sixteen banks at most.
#[derive(Clone, Copy)]
struct Compared<'a> {
    first: &'a [u8],
    ram: &'a [u8],
    ghost one_size: { length first.now ≡ length ram.now },
    ghost banks: { length ram.now ≤ 131072 },
}

impl<'a> Compared<'a> {
    // Whether a byte outside the picture area is not what it was.
    #[tactic(auto, unfolding(crate::specs::Changes::differs))]
    fn is_other(&self, p: usize) -> bool
        requires { p < length self.now.ram.now }
        ensures { result ≡ differs self.now.first.now self.now.ram.now p }
    {
        !in_area(p as u32) && self.first[p] != self.ram[p]
    }

    // Where the first stretch from a place on begins, at the RAM's end where there is none.
    #[tactic(auto, using(crate::proofs::Stretches::seek_none, crate::proofs::Stretches::seek_here, crate::proofs::Stretches::seek_past))]
    fn begin(&self, from: usize) -> usize
        requires { from ≤ length self.now.ram.now }
        ensures { result ≡ begins self.now.first.now self.now.ram.now from }
    {
        for p in from..self.ram.len() {
            if self.is_other(p) {
                return p;
            }
        }
        self.ram.len()
    }

    // The place after the stretch that begins at a place: it ends before a byte that does not differ, and with its bank.
    #[tactic(auto, using(crate::proofs::Stretches::reach_none, crate::proofs::Stretches::reach_here, crate::proofs::Stretches::reach_bank, crate::proofs::Stretches::reach_past))]
    fn end(&self, from: usize) -> usize
        requires { from ≤ length self.now.ram.now }
        ensures { result ≡ reach self.now.first.now self.now.ram.now (length self.now.ram.now - from) from }
    {
        for p in from..self.ram.len() {
            if !self.is_other(p) {
                return p;
            }
            if (p + 1) % 8192 == 0 {
                return p + 1;
            }
        }
        self.ram.len()
    }
}

// Puts the event of a stretch, or that nothing changed, and returns how many bytes that is.
#[tactic(auto, using(crate::proofs::Stretches::put_nothing))]
fn put_stretch(
    line: u64,
    size: usize,
    from: usize,
    begin: usize,
    end: usize,
    out: &mut [u8],
) -> usize
    requires { (256 ≤ length out.old) × (size ≤ 131072) × (end ≤ size) × (begin < size → begin < end) }
    ensures { Put out.old 0 (stretch_text line size from begin end) 256 out.new result }
{
    if begin < size {
        return put_changed(out, 0, line, begin as u32, (end - 1) as u32);
    }
    if from == 0 {
        return put_unchanged(out, 0, line);
    }
    0
}

// Puts the event of the first stretch from a place on, or that nothing changed, at the start of a buffer.
#[tactic(auto, using(crate::proofs::Stretches::begins_within, crate::proofs::Stretches::ends_within, crate::proofs::Stretches::stretch_some), unfolding(crate::specs::Changes::change_text))]
// It takes two slices and no `Compared`: C lends them.
pub fn change_put(first: &[u8], ram: &[u8], from: usize, line: u64, out: &mut [u8]) -> Change
    requires { (256 ≤ length out.old) × (length first.now ≡ length ram.now) × (length ram.now ≤ 131072) × (from ≤ length ram.now) }
    ensures put { Put out.old 0 (change_text line first.now ram.now from) 256 out.new result.written }
    ensures next_value { result.next ≡ ends first.now ram.now from }
{
    let both = Compared { first, ram };
    let begin = both.begin(from);
    let next = both.end(begin);
    let written = put_stretch(line, ram.len(), from, begin, next, out);
    Change { next, written }
}

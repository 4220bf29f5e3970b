// How long a capture takes, which of the picture's pixels fall into which cycles, and which lengths of lent memory are allowed.
// It knows registers, lengths, RAM bytes and cycles, but neither the state record nor the bus, and refuses nothing.
// The RAM stays a slice whose least length a clause says: C lends it, of 1 to 16 banks.
#![tactic(auto)]

ghost use Rattle.std.specs.Prelude.{◌≡◌, Bool, true, false, ℕ, ◌+◌, ◌-◌, ◌*◌, ◌/◌, ◌%◌, ◌<◌, ◌≤◌, min, length};
ghost use Rattle.std.specs.Int.Count.{ones};
ghost use Rattle.lighting.specs.Taken.{exposure_of};
ghost use Rattle.lighting.specs.Light.{byte_at};
ghost use Rattle.tiles.specs.Aside.{pixels};
ghost use Rattle.timing.specs.Lent.{banks_allowed, rom_allowed, ram_allowed};
ghost use Rattle.timing.specs.Registers.{all_zero};
ghost use Rattle.timing.specs.Timing.{n_set, clocks, total_of};
ghost use Rattle.timing.specs.Aside.{picture_from, done_by};

use lighting::{Setting, exposure_of};

// Image and frame store: 128 * 128 bytes.
pub const FRAME: usize = 16384;

// Banks of ROM and RAM.
pub const ROM_BANK: usize = 16384;

pub const RAM_BANK: usize = 8192;

// Cycles of a capture: the base, and what is added where N is clear.
pub const BASE: u32 = 32446;

pub const N_CLEAR: u32 = 512;

// Clocks before reading begins, at exposure 0.
pub const READING: u32 = 92;

// Whole banks, at most so many; the count of banks must have exactly one bit set.
#[tactic(auto, unfolding(crate::specs::Lent::banks_allowed))]
fn banks_allowed(len: usize, size: usize, most: usize) -> bool
    requires { 0 < size }
    ensures { result ≡ banks_allowed size most len }
{
    len % size == 0 && len / size <= most && (len / size).count_ones() == 1
}

pub fn rom_allowed(len: usize) -> bool
    ensures { result ≡ rom_allowed len }
{
    banks_allowed(len, ROM_BANK, 64)
}

pub fn ram_allowed(len: usize) -> bool
    ensures { result ≡ ram_allowed len }
{
    banks_allowed(len, RAM_BANK, 16)
}

// The bank of a number in so many bytes of banks of a size: taken modulo their count, which has one bit set, so that the bits below it are left.
pub fn bank_place(number: u8, len: usize, size: usize) -> usize
    requires { (0 < size) × (ones (len / size) ≡ 1) × (len < 2000000) }
    ensures { result ≡ number % (len / size) * size }
{
    (usize::from(number) & (len / size - 1)) * size
}

// Whether each of 54 registers is 0: their bits together, with no question for each, so that it becomes vector code.
pub fn all_zero(regs: &[u8; 54]) -> bool
    ensures { result ≡ all_zero regs.now }
{
    regs.iter().fold(0, |bits, r| bits | r) == 0
}

// Cartridge cycles (PHI), and sensor clocks: two cycles make one clock.
#[derive(Clone, Copy, Debug, PartialEq, Eq, PartialOrd, Ord)]
pub struct Cycles(pub u32);

#[derive(Clone, Copy, Debug, PartialEq, Eq, PartialOrd, Ord)]
pub struct Clocks(pub u32);

impl Cycles {
    // Two cycles make one clock: the only place where cycles become clocks.
    pub fn clocks(self) -> Clocks
        ensures { result.0 ≡ clocks self.0 }
    {
        Clocks(self.0 / 2)
    }
}

// N, bit 7 of A001, is set.
fn n_set(regs: &[u8; 54]) -> bool
    ensures { result ≡ n_set regs.now }
{
    regs[1] / 128 % 2 == 1
}

// Total cycles of a capture with these registers taken.
#[tactic(auto, unfolding(crate::specs::Timing::total_of))]
pub fn total(regs: &[u8; 54]) -> Cycles
    ensures { (result.0 ≡ total_of regs.now) × (result.0 < 2000000) }
{
    let added = if n_set(regs) { 0 } else { N_CLEAR };
    Cycles(BASE + added + 16 * u32::from(exposure_of(regs)))
}

// The clock after which the picture's pixels begin: row 8 of the sensor, the seventh or the eighth after the first that is read.
#[tactic(auto, unfolding(crate::specs::Aside::picture_from, crate::specs::Timing::reading_from))]
fn picture_from(regs: &[u8; 54]) -> Clocks
    ensures { (result.0 ≡ picture_from regs.now) × (result.0 < 1000000) }
{
    let rows = if n_set(regs) { 7 } else { 8 };
    Clocks(READING + 8 * u32::from(exposure_of(regs)) + 128 * rows)
}

// How many of the picture's pixels are done after so many cycles, where they begin after clock `first`.
fn done_by(first: Clocks, elapsed: Cycles) -> usize
    ensures { (result ≡ min (clocks elapsed.0 - first.0) 14336) × (result ≤ 14336) }
{
    // `as`, since Rust has no `From<u32>` for `usize`
    (elapsed.clocks().0.saturating_sub(first.0) as usize).min(tiles::PIXELS)
}

// Writes what falls between two numbers of elapsed cycles of a capture, from a store of lit values.
#[tactic(auto, unfolding(crate::specs::Aside::done_by))]
pub fn write_between(
    ram: &mut [u8],
    store: &[u8; 16384],
    regs: &[u8; 54],
    elapsed: Cycles,
    then: Cycles,
)
    requires { (elapsed.0 ≤ then.0) × (8192 ≤ length ram.old) }
    ensures { ram.new
        ≡ pixels (byte_at store.now) regs.now (done_by regs.now elapsed.0) (done_by regs.now then.0)
        ram.old }
{
    let first = picture_from(regs);
    let from = done_by(first, elapsed);
    let to = done_by(first, then);
    tiles::put_pixels(ram, store, Setting::of(regs), regs, from, to);
}

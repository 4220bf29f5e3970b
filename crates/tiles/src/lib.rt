// Step 7 of light to shade: where a shade stands in the RAM, a range of the picture's pixels put there, and the picture afresh.
// It knows stores of lit values, registers and RAM bytes, but neither the bus nor time.
// The RAM stays a slice whose least length a clause says: C lends it, of 1 to 16 banks.
#![tactic(auto)]

ghost use Rattle.std.specs.Prelude.{◌≡◌, ℕ, ◌+◌, ◌*◌, ◌/◌, ◌%◌, ◌<◌, ◌≤◌, length};
ghost use Rattle.laws.specs.Bits.{put_bit};
ghost use Rattle.lighting.specs.Aside.{Asked};
ghost use Rattle.lighting.specs.Light.{byte_at};
ghost use Rattle.rows.specs.Aside.{Carried};
ghost use Rattle.strips.specs.Aside.{spread_of};
ghost use Rattle.tiles.specs.Picture.{picture_of};
ghost use Rattle.tiles.specs.Aside.{pixels};
ghost use Rattle.tiles.specs.Aside.{put_pairs};

use lighting::Setting;

// The picture's offset in RAM bank 0, its bytes, and its pixels: 112 rows of 128.
pub const PICTURE: usize = 0x100;

pub const PICTURE_SIZE: usize = 3584;

pub const PIXELS: usize = 14336;

// A frame: a store of lit values, and the registers taken. `set` is what they ask.
#[derive(Clone, Copy)]
struct Frame<'a> {
    store: &'a [u8; 16384],
    set: Setting,
    regs: &'a [u8; 54],
    ghost asked: { Asked set regs.now },
    // said, since behind a field a proof knows no array's length
    ghost long: { length store.now ≡ 16384 },
}

// `b` with its bit `bit` set to `v`.
#[tactic(auto, using(laws::proofs::Masks::by_masks), unfolding(laws::specs::Bits::put_bit))]
fn put_bit(b: u8, bit: u8, v: u8) -> u8
    requires { (bit < 8) × (v < 2) }
    ensures { result ≡ put_bit b bit v }
{
    let w = 1u8 << bit;
    (b & !w) | (v << bit)
}

// Where the two bytes of eight pixels of picture row y stand, those from column 8 * t on, from the picture's first byte on.
pub fn pair_at(t: usize, y: usize) -> usize
    requires { (t < 16) × (y < 112) }
    ensures { result ≡ 16 * (16 * (y / 8) + t) + 2 * (y % 8) }
{
    16 * (16 * (y / 8) + t) + 2 * (y % 8)
}

// Puts the pixels from j to end, which stand in the same two bytes: these are read once, and stored once.
fn put_part(ram: &mut [u8], frame: Frame<'_>, j: usize, end: usize)
    requires range { (j ≤ end) × (j < 14336) × (end ≤ 8 * (j / 8) + 8) }
    requires ram_len { 8192 ≤ length ram.old }
    ensures { ram.new ≡ pixels (byte_at frame.entry.store.now) frame.entry.regs.now j end ram.old }
{
    let y = j / 128;
    let o = PICTURE + pair_at(j % 128 / 8, y);
    let p = o + 1;
    let mut low = ram[o];
    let mut high = ram[p];
    for k in j..end {
        let x = k % 128;
        let pixel = sensor::pixel_at(frame.store, frame.set, frame.regs, x, y + 8);
        let bit = (7 - x % 8) as u8;
        low = put_bit(low, bit, pixel.shade % 2);
        high = put_bit(high, bit, pixel.shade / 2);
    }
    ram[o] = low;
    ram[p] = high;
}

// Puts a row of the picture whose first byte is out[at], two bytes a tile. What is carried moves on by a row; `matrix` is that of its registers, spread.
// The row's values are made in `values`, which is lent so that it is made once.
fn put_line(
    out: &mut [u8],
    at: usize,
    frame: Frame<'_>,
    matrix: &[u8; 1536],
    y: usize,
    carried: &mut [u8; 128],
    values: &mut [u8; 128],
)
    requires at_in_bounds { (at + 3584 ≤ length out.old) × (y < 112) }
    requires matrix { matrix.now ≡ spread_of frame.regs.now }
    requires carried { Carried (byte_at frame.store.now) frame.set (y + 8) carried.old }
    ensures { (out.new ≡ put_pairs (byte_at frame.entry.store.now) frame.entry.regs.now at (16 * y) 16 out.old)
        × Carried (byte_at frame.entry.store.now) frame.entry.set (y + 8 + 1) carried.new }
{
    rows::next_row(frame.store, frame.set, y + 8, carried, values);
    let mut low = [0u8; 16];
    let mut high = [0u8; 16];
    strips::shade_row(values, matrix, frame.regs, y + 8, &mut low, &mut high);
    // an index, since the bytes stand apart: there is no slice of them to copy into
    for t in 0..16 {
        let o = at + pair_at(t, y);
        let p = o + 1;
        out[o] = low[t];
        out[p] = high[t];
    }
}

// Puts as many rows of it, from one on.
fn put_rows(out: &mut [u8], at: usize, frame: Frame<'_>, first: usize, count: usize)
    requires at_in_bounds { (at + 3584 ≤ length out.old) × (first < 112) × (first + count ≤ 112) }
    ensures { out.new ≡ put_pairs (byte_at frame.entry.store.now) frame.entry.regs.now at (16 * first) (16 * count) out.old }
{
    let mut matrix = [0u8; 1536];
    strips::spread(frame.regs, &mut matrix);
    let mut carried = [0u8; 128];
    rows::first_row(frame.store, frame.set, first + 8, &mut carried);
    let mut values = [0u8; 128];
    for y in first..first + count {
        put_line(out, at, frame, &matrix, y, &mut carried, &mut values);
    }
}

// Puts the pixels from..to, two bytes at a time.
fn put_parts(ram: &mut [u8], frame: Frame<'_>, from: usize, to: usize)
    requires range { (from ≤ to) × (to ≤ 14336) }
    requires ram_len { 8192 ≤ length ram.old }
    ensures { ram.new ≡ pixels (byte_at frame.entry.store.now) frame.entry.regs.now from to ram.old }
{
    for n in from / 8..to.div_ceil(8) {
        put_part(ram, frame, from.max(8 * n), to.min(8 * n + 8));
    }
}

// Puts the pixels from..to of the picture, in order: whole rows at a time where there are such.
// Setting and registers are both given, the first worked out once for all pixels.
pub fn put_pixels(
    ram: &mut [u8],
    store: &[u8; 16384],
    set: Setting,
    regs: &[u8; 54],
    from: usize,
    to: usize,
)
    requires range { (from ≤ to) × (to ≤ 14336) }
    requires ram_len { 8192 ≤ length ram.old }
    requires asked { Asked set regs.now }
    ensures { ram.new ≡ pixels (byte_at store.now) regs.now from to ram.old }
{
    let frame = Frame { store, set, regs };
    let first = from.div_ceil(128);
    let end = to / 128;
    if first < end {
        put_parts(ram, frame, from, 128 * first);
        put_rows(ram, PICTURE, frame, first, end - first);
        put_parts(ram, frame, 128 * end, to);
    } else if from < to {
        put_parts(ram, frame, from, to);
    }
}

// The picture afresh, of a store of lit values.
#[tactic(auto, using(crate::proofs::Pairs::pairs_picture))]
pub fn fill(store: &[u8; 16384], set: Setting, regs: &[u8; 54], out: &mut [u8; 3584])
    requires asked { Asked set regs.now }
    ensures { out.new ≡ picture_of (byte_at store.now) regs.now }
{
    let frame = Frame { store, set, regs };
    put_rows(out, 0, frame, 0, 112);
}

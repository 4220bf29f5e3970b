// The picture area as shades, one a byte, whether or not a capture is running.
// The RAM stays a slice whose least length a clause says: C lends it, of 1 to 16 banks.
#![tactic(auto)]

ghost use Rattle.std.specs.Prelude.{◌≡◌, Bool, ◌+◌, ◌-◌, ◌*◌, ◌<◌, ◌≤◌, length};
ghost use Rattle.laws.specs.Lists.{listed};
ghost use Rattle.laws.specs.Pick.{pick};
ghost use Rattle.controller.specs.Outcome.{verdict_number};
ghost use Rattle.controller.specs.Table.{lowest};
ghost use Rattle.shades.specs.Shades.{shade_nth, output_number, output_value, exported, shades_rows, shades_means};
ghost use Rattle.shades.specs.Aside.{Built, Weight, Low, Eight, put_eight, tone_nth};

use controller::Refusal;
use controller::judge::{no_ram, no_room};

// The bytes from w to twice w, where w has one bit: each adds what that bit is to a byte below w.
fn double(t: &mut [u64; 256], step: u8, w: usize, bit: u64)
    requires { Built step w t.old × (3 * step < 256) × Weight w bit }
    ensures { Built step (2 * w) t.new }
{
    let add = step as u64 * bit;
    // No plainer: what is written is read from the same table.
    for b in 0..w {
        t[w + b] = t[b] + add;
    }
}

// What eight pixels are for each byte, as one number: `step` for each bit that is set, the first pixel in the lowest byte.
fn fill(t: &mut [u64; 256], step: u8)
    requires { 3 * step < 256 }
    ensures { Built step 256 t.new }
{
    t[0] = 0;
    for k in 0..8u32 {
        double(t, step, 1 << k, 0x100000000000000 >> (8 * k));
    }
}

// A number's eight bytes from a place on, the lowest first: the compiler makes one store of them.
fn put_eight(out: &mut [u8], at: usize, v: u64)
    requires { at + 8 ≤ length out.old }
    ensures { out.new ≡ put_eight out.old at v }
{
    out[at..at + 8].copy_from_slice(&v.to_le_bytes());
}

// Eight pixels, or the negative of them.
// As lighting's of one pixel. No plainer as one: a generic one would have a trait with two impls for this line.
fn turn(v: u64, negative: bool) -> u64
    ensures { result ≡ pick negative (0xFFFFFFFFFFFFFFFF - v) v }
{
    if negative { u64::MAX - v } else { v }
}

// Eight pixels of row y, from column 8 * x on, by a table of what each byte's bits are.
fn eight(ram: &[u8], t: &[u64; 256], x: usize, y: usize, negative: bool) -> u64
    requires { (8192 ≤ length ram.now) × (x < 16) × (y < 112) × Low t.now }
    ensures { Eight ram.now t.now x y negative result }
{
    let at = tiles::PICTURE + tiles::pair_at(x, y);
    let l = ram[at] as usize;
    let h = ram[at + 1] as usize;
    turn(t[l] + 2 * t[h], negative)
}

// All pixels, row by row, eight at a time: `step` for the low bit and twice that for the high bit, or the negative of it. Shades by 1, greys by 85.
// Two times eight are read before they are put, so that the two stores can be one. The bytes of eight pixels stand apart in the RAM: no slice holds a row.
// The pixels are written, so they stay a slice: of one that is lent on as an array nothing is known afterwards. The bound on the step stays a clause: a const
// parameter would have the same bound.
pub fn put_tones(ram: &[u8], step: u8, negative: bool, pixels: &mut [u8])
    requires in_bounds { (8192 ≤ length ram.now) × (length pixels.old ≡ 14336) }
    requires step_bound { 3 * step < 256 }
    ensures { pixels.new ≡ listed (tone_nth step (2 * step) negative ram.now) 14336 }
{
    let mut t = [0u64; 256];
    fill(&mut t, step);
    for y in 0..112 {
        for x in 0..8 {
            let a = eight(ram, &t, 2 * x, y, negative);
            let b = eight(ram, &t, 2 * x + 1, y, negative);
            put_eight(pixels, 128 * y + 16 * x, a);
            put_eight(pixels, 128 * y + 16 * x + 8, b);
        }
    }
}

// All pixels as shades.
fn put_shades(ram: &[u8], pixels: &mut [u8])
    requires { (8192 ≤ length ram.now) × (length pixels.old ≡ 14336) }
    ensures { pixels.new ≡ listed (shade_nth ram.now) 14336 }
{
    put_tones(ram, 1, false, pixels);
}

// What a reading of shades was lent, judged.
#[tactic(auto, using(controller::proofs::Judging::rows), unfolding(crate::specs::Shades::shades_rows))]
fn judge_shades(ram: &[u8], out: &[u8]) -> Result<(), Refusal>
    ensures { verdict_number result ≡ lowest (shades_rows ram.now out.now) }
{
    no_ram(ram.len())?;
    no_room(tiles::PIXELS, out.len())
}

// The picture area's shades, in a lent buffer, whose later bytes stay: how many bytes were written.
pub fn shades(ram: &[u8], out: &mut [u8]) -> Result<u32, Refusal>
    ensures { exported (output_number result) (output_value result) out.new ≡ shades_means ram.now out.old }
{
    judge_shades(ram, out)?;
    put_shades(ram, &mut out[0..tiles::PIXELS]);
    Ok(14336)
}

// A plate's file back into the picture area, whether or not RAM writing is enabled.
#![tactic(auto)]

ghost use Rattle.std.specs.Prelude.{◌≡◌, true, [], ◌+◌, ◌*◌, ◌<◌, ◌≤◌, eqb, length, get_or};
ghost use Rattle.laws.specs.Lists.{listed};
ghost use Rattle.strips.specs.Aside.{place_of};
ghost use Rattle.controller.specs.Outcome.{verdict_number, write_number, outcome};
ghost use Rattle.controller.specs.Table.{lowest};
ghost use Rattle.placing.specs.Placing.{each, has_header, is_grey, only_greys, is_plate, placed_area, place_rows, place_means};
ghost use Rattle.placing.specs.Aside.{lows_at, highs_at, unset, unset_bits};

use controller::judge::{no_ram, refused_if};
use controller::{Controller, Refusal};
use plates::grey::{FILE, HEADER};

// The end of the picture area in RAM bank 0.
const END: usize = 0xF00;

// Whether a file begins with some bytes.
pub fn begins(file: &[u8], head: &[u8]) -> bool
    requires { length head.now ≤ length file.now }
    ensures { result ≡ each (λ k. eqb (get_or file.now k 0) (get_or head.now k 0)) (length head.now) }
{
    file.starts_with(head)
}

// Whether a file begins with the header.
fn has_header(file: &[u8]) -> bool
    requires { 15 ≤ length file.now }
    ensures { result ≡ has_header file.now }
{
    begins(file, &HEADER)
}

// Whether a byte is one of the four greys: each two of its bits are as the two above, which a vector asks of sixteen bytes without a product.
fn is_grey(v: u8) -> bool
    ensures { result ≡ is_grey v }
{
    v / 4 == v % 64
}

// Whether each pixel is a grey: all are looked at, so that a vector takes many of them at once.
fn only_greys(pixels: &[u8]) -> bool
    requires { length pixels.now ≡ 14336 }
    ensures { result ≡ only_greys pixels.now }
{
    let mut all = true;
    for v in pixels {
        all &= is_grey(*v);
    }
    all
}

// Whether a file is of the kind that is exported.
fn is_plate(file: &[u8]) -> bool
    ensures { result ≡ is_plate file.now }
{
    file.len() == FILE && has_header(file) && only_greys(&file[15..FILE])
}

// What a grey adds to a byte: a bit of its shade is set where that bit of the grey is not.
fn weigh(grey: u8, bit: u8, weight: u8) -> u8
    ensures { result ≡ unset bit grey * weight }
{
    if grey & bit == 0 { weight } else { 0 }
}

// A row of pixels, from a place on.
fn row_of(pixels: &[u8], at: usize) -> &[u8; 128]
    requires { at + 128 ≤ length pixels.now }
    ensures { result.now ≡ listed (λ x. get_or pixels.now (at + x) 0) 128 }
{
    pixels[at..at + 128].try_into().unwrap()
}

// Adds the bits of one column more, the b-th of each of sixteen tiles, to the bytes of those before it: w is their weight. The columns are turned, as
// where shades are made.
// (Tried as an instance of `strips::pack`: a plate took 45 µs to place in place of 3, since the compiler made no vector code of it.)
fn add_column(turned: &[u8; 128], b: usize, w: u8, low: &mut [u8; 16], high: &mut [u8; 16])
    requires b_bound { (b < 8) × (w ≡ place_of (b + 1)) }
    requires low_value { (low.old ≡ listed (unset_bits 1 turned.now b) 16) × (high.old ≡ listed (unset_bits 2 turned.now b) 16) }
    ensures { (low.new ≡ listed (unset_bits 1 turned.now (b + 1)) 16)
        × (high.new ≡ listed (unset_bits 2 turned.now (b + 1)) 16) }
{
    // No plainer, here and where the area is put: after a zip with `iter_mut` a proof knows nothing of what was written.
    for t in 0..16 {
        let v = turned[16 * b + t];
        low[t] += weigh(v, 1, w);
        high[t] += weigh(v, 2, w);
    }
}

// A row's sixteen bytes of low bits, and of high bits.
#[derive(Clone, Copy)]
struct Sixteen {
    low: [u8; 16],
    high: [u8; 16],
}

// Those of the row of greys from a place on, the first pixel's bits the highest.
fn pack(pixels: &[u8], at: usize) -> Sixteen
    requires pixels_len { (length pixels.now ≡ 14336) × (at + 128 ≤ 14336) }
    requires pixels_value { only_greys pixels.now ≡ true }
    ensures { (result.low ≡ listed (λ t. lows_at pixels.now (at + 8 * t)) 16)
        × (result.high ≡ listed (λ t. highs_at pixels.now (at + 8 * t)) 16) }
{
    let turned = strips::turn(row_of(pixels, at));
    let mut low = [0u8; 16];
    let mut high = [0u8; 16];
    let mut w = 128u8;
    for b in 0..8 {
        add_column(&turned, b, w, &mut low, &mut high);
        w /= 2;
    }
    Sixteen { low, high }
}

// The area's bytes, row by row of the picture.
fn put_area(pixels: &[u8], area: &mut [u8])
    requires pixels_len { (length pixels.now ≡ 14336) × (length area.old ≡ 3584) }
    requires pixels_value { only_greys pixels.now ≡ true }
    ensures { area.new ≡ placed_area pixels.now }
{
    for y in 0..112 {
        let Sixteen { low, high } = pack(pixels, 128 * y);
        for t in 0..16 {
            let o = tiles::pair_at(t, y);
            let p = o + 1;
            area[o] = low[t];
            area[p] = high[t];
        }
    }
}

// What a placing was lent, judged.
#[tactic(auto, using(controller::proofs::Judging::rows), unfolding(crate::specs::Placing::place_rows))]
fn judge_place(state: Controller, ram: &[u8], file: &[u8]) -> Result<(), Refusal>
    ensures { verdict_number result ≡ lowest (place_rows state ram.now file.now) }
{
    state.no_state()?;
    no_ram(ram.len())?;
    refused_if(!is_plate(file), Refusal::File)?;
    refused_if(state.held, Refusal::Held)
}

// A plate's file, placed in RAM bank 0.
pub fn place(state: Controller, ram: &mut [u8], file: &[u8]) -> Result<(), Refusal>
    ensures { outcome (write_number result) 0 state ram.new [] ≡ place_means state ram.old file.now }
{
    judge_place(state, ram, file)?;
    put_area(&file[15..FILE], &mut ram[tiles::PICTURE..END]);
    Ok(())
}

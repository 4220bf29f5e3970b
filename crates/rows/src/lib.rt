// From light to shade, steps 4 and 5, a row at a time: the values of a row of the sensor, from a store of lit values. Step 4 values are kept as
// bytes, 128 added to each; where the 1-D filter asks for the row below, a row's are worked out once and carried on to the next row.
// Where a row may be, and that a setting is in its range, stay clauses, as in `sensor` and `lighting`, which say why.
#![tactic(auto)]

ghost use Rattle.std.specs.Prelude.{◌≡◌, ◌+◌, ◌<◌, ◌≤◌, IsTrue};
ghost use Rattle.std.specs.Int.Signed.{mag};
ghost use Rattle.lighting.specs.Aside.{Sane};
ghost use Rattle.lighting.specs.Light.{Within, byte_at};
ghost use Rattle.filters.specs.Aside.{has_filter};
ghost use Rattle.rows.specs.Aside.{value_row, asks_below, negates, raised_of, pixel_by, row_by, less_of, less_row, negative_row, Carried};

use filters::filter;
use lighting::Setting;
use sensor::nine::nine;
use sensor::row::passing;

// A value with 128 added.
#[tactic(auto, using(std::proofs::lemmas::Int::ints), unfolding(crate::specs::Aside::raised_of))]
fn raise(v: i32) -> u8
    requires { mag v < 128 }
    ensures { result ≡ raised_of v }
{
    (v + 128) as u8
}

// The step 4 value at a column of a row, with 128 added, by a mode that has a filter.
#[tactic(auto, using(filters::proofs::Facts::edge_small, std::proofs::lemmas::Int::ints), unfolding(crate::specs::Aside::pixel_by))]
fn pixel<const MODE: u8>(store: &[u8; 16384], quarters: u8, x: usize, row: usize) -> u8
    requires mode { IsTrue (has_filter MODE) }
    requires inside { Within x row 8 120 }
    requires quarters_bound { quarters ≤ 20 }
    ensures { result ≡ pixel_by MODE quarters (byte_at store.now) row x }
{
    raise(filter::<MODE>(quarters, nine(store, x, row)))
}

// A row of them. The mode is a constant of each instance, so that nothing is asked of it in a loop. Where bit 1 of it asks for W and E the columns at the
// two edges stand apart, and those between them are 112 and 16, two of them done twice: multiples of 16, so that none is left over from a vector. The
// loops go by the column, which is asked for and is where the value goes: after a zip with `iter_mut` a proof knows nothing of what was written.
#[tactic(auto, using(laws::proofs::Filled::filled_end))]
fn row_of<const MODE: u8>(store: &[u8; 16384], quarters: u8, row: usize, out: &mut [u8; 128])
    requires mode { IsTrue (has_filter MODE) }
    requires inside { Within 0 row 8 120 }
    requires quarters_bound { quarters ≤ 20 }
    ensures { out.new ≡ row_by MODE quarters (byte_at store.now) row }
{
    if MODE / 2 % 2 == 0 {
        for x in 0..128 {
            out[x] = pixel::<MODE>(store, quarters, x, row);
        }
        return;
    }
    out[0] = pixel::<MODE>(store, quarters, 0, row);
    for x in 1..113 {
        out[x] = pixel::<MODE>(store, quarters, x, row);
    }
    for x in 111..127 {
        out[x] = pixel::<MODE>(store, quarters, x, row);
    }
    out[127] = pixel::<MODE>(store, quarters, 127, row);
}

// The step 4 values of a row, with 128 added: the mode is asked once. Mode 1 is 0 always, and modes 0 and 4 to B are P, which with 128 added is the lit value.
fn row_4(store: &[u8; 16384], mode: u8, quarters: u8, row: usize, out: &mut [u8; 128])
    requires inside { Within 0 row 8 120 }
    requires quarters_bound { quarters ≤ 20 }
    ensures { out.new ≡ row_by mode quarters (byte_at store.now) row }
{
    match mode {
        0x1 => out.fill(128),
        0x2 => row_of::<0x2>(store, quarters, row, out),
        0x3 => row_of::<0x3>(store, quarters, row, out),
        0xC => row_of::<0xC>(store, quarters, row, out),
        0xD => row_of::<0xD>(store, quarters, row, out),
        0xE => row_of::<0xE>(store, quarters, row, out),
        0xF => row_of::<0xF>(store, quarters, row, out),
        _ => out.copy_from_slice(&store[row * 128..row * 128 + 128]),
    }
}

// P - s of two values with 128 added, held, with 128 added: in bytes, so that a loop takes sixteen columns at a time.
fn less(p: u8, s: u8) -> u8
    ensures { result ≡ less_of p s }
{
    if p < s {
        128 - (s - p).min(128)
    } else {
        128 + (p - s).min(127)
    }
}

// The 1-D filter's negative of a row, in its place.
#[tactic(auto, using(laws::proofs::Filled::filled_end))]
fn negate(out: &mut [u8; 128])
    ensures { out.new ≡ negative_row out.old }
{
    for v in out.iter_mut() {
        *v = less(128, *v);
    }
}

// Its difference of a row and the row below, in the latter's place, which is carried on. Both are written, by their index: after a zip with `iter_mut` a
// proof knows nothing of what was written.
fn lessen(carried: &mut [u8; 128], out: &mut [u8; 128])
    ensures { (out.new ≡ less_row carried.old out.old) × (carried.new ≡ out.old) }
{
    for x in 0..128 {
        let below = out[x];
        out[x] = less(carried[x], below);
        carried[x] = below;
    }
}

// The mode passes the 1-D filter, and its kind asks for the row below.
#[tactic(auto, unfolding(crate::specs::Aside::asks_below))]
fn asks_below(set: Setting) -> bool
    ensures { result ≡ asks_below set }
{
    passing(set.mode) && 1 < set.kind
}

// The mode passes it, and its kind is the negative.
#[tactic(auto, unfolding(crate::specs::Aside::negates))]
fn negating(set: Setting) -> bool
    ensures { result ≡ negates set }
{
    passing(set.mode) && set.kind == 0
}

// What is carried into the first row that is asked for: its step 4 values, where the row below is asked for.
pub fn first_row(store: &[u8; 16384], set: Setting, row: usize, carried: &mut [u8; 128])
    requires inside { Within 0 row 8 119 }
    requires sane { Sane set }
    ensures { Carried (byte_at store.now) set row carried.new }
{
    if asks_below(set) {
        row_4(store, set.mode, set.quarters, row, carried);
    }
}

// The values of a row. What is carried moves on by a row.
pub fn next_row(
    store: &[u8; 16384],
    set: Setting,
    row: usize,
    carried: &mut [u8; 128],
    out: &mut [u8; 128],
)
    requires inside { Within 0 row 8 119 }
    requires sane { Sane set }
    requires carried { Carried (byte_at store.now) set row carried.old }
    ensures { (out.new ≡ value_row (byte_at store.now) set row)
        × Carried (byte_at store.now) set (row + 1) carried.new }
{
    if asks_below(set) {
        row_4(store, set.mode, set.quarters, row + 1, out);
        lessen(carried, out);
        return;
    }
    row_4(store, set.mode, set.quarters, row, out);
    if negating(set) {
        negate(out);
    }
}

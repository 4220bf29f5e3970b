// Step 6 of light to shade by the row: the shades of a row of values as two bits a pixel, eight to a byte. No step turns on a value, so that many
// columns are done at a time. They are turned for it: first the first of every eight columns, then the second of every eight, and so on, so that
// what is alike stands side by side, and a byte gets its eight bits where it stands.
#![tactic(auto)]

ghost use Rattle.std.specs.Prelude.{◌≡◌, ℕ, ◌+◌, ◌*◌, ◌/◌, ◌%◌, ◌<◌, length, get_or};
ghost use Rattle.laws.specs.Lists.{listed};
ghost use Rattle.strips.specs.Aside.{low_of, high_of, column_of, spread_of, turned_shade, bits_of, bytes_of};
ghost use Rattle.strips.specs.Turned.{shade_bits};

use sensor::shade::either;

// A row of pixels, two bits each, whose columns are turned. `weigh` is a vector's own step: it asks nothing that becomes a branch.
pub trait Turned {
    // the low bit, and the high bit, of what stands at a place
    ghost low: { Self → ℕ → ℕ };

    ghost high: { Self → ℕ → ℕ };

    // What it adds to the byte of low bits, and to that of high bits, w the weight of its place.
    fn weigh(&self, p: usize, w: u8) -> (u8, u8)
        requires { p < 128 }
        ensures { (result.0 ≡ low self.now p * w) × (result.1 ≡ high self.now p * w) };

    // each is one bit
    ghost bits: { (row : Self) (p : ℕ) → (low row p < 2) × (high row p < 2) };
}

// The two halves of a row, one from each by turns: a vector's own step. (`array::from_fn` was tried: it becomes no vector code, and takes six times as long.)
#[tactic(auto, using(laws::proofs::Filled::filled_end))]
fn interleave(a: &[u8; 128]) -> [u8; 128]
    ensures { result ≡ listed (λ p. get_or a.now (p % 2 * 64 + p / 2) 0) 128 }
{
    let mut out = [0u8; 128];
    for i in 0..64 {
        out[2 * i] = a[i];
        out[2 * i + 1] = a[i + 64];
    }
    out
}

// A row of values, turned: four such steps.
pub fn turn(values: &[u8; 128]) -> [u8; 128]
    ensures { result ≡ listed (λ p. get_or values.now (column_of p) 0) 128 }
{
    let once = interleave(values);
    let twice = interleave(&once);
    let thrice = interleave(&twice);
    interleave(&thrice)
}

// The matrix spread over the columns, turned: for each of its four rows the first thresholds of all 128, then the second, and then the third. What
// stands at a column is that of each of the sixteen tiles.
#[tactic(auto, using(laws::proofs::Filled::filled_end), unfolding(crate::specs::Aside::spread_of))]
pub fn spread(regs: &[u8; 54], out: &mut [u8; 1536])
    ensures { out.new ≡ spread_of regs.now }
{
    for j in 0..12 {
        for b in 0..8 {
            let at = 128 * j + 16 * b;
            out[at..at + 16].fill(regs[6 + 12 * (j % 4) + 3 * (b % 4) + j / 4]);
        }
    }
}

// Adds the bits of one column more, the b-th of each of sixteen tiles, to the bytes of those before it. The bytes are changed where they stand, so that
// they stay in registers from column to column. (No plainer: after a zip with `iter_mut` a proof knows nothing of what was written.)
fn add_column<R: Turned>(row: &R, b: usize, low: &mut [u8; 16], high: &mut [u8; 16])
    requires b_bound { b < 8 }
    requires low_value { (low.old ≡ listed (bits_of (R.low row.now) b) 16) × (high.old ≡ listed (bits_of (R.high row.now) b) 16) }
    ensures { (low.new ≡ listed (bits_of (R.low row.now) (b + 1)) 16)
        × (high.new ≡ listed (bits_of (R.high row.now) (b + 1)) 16) }
{
    let w = 128u8 >> b;
    for t in 0..16 {
        let (l, h) = row.weigh(16 * b + t, w);
        low[t] += l;
        high[t] += h;
    }
}

// A row's bits as bytes, one of low bits and one of high bits for each of its sixteen tiles, the first pixel's the highest, into what is zero before.
// Low and high bits stay two arrays: a vector holds sixteen bytes of one kind.
pub fn pack<R: Turned>(row: &R, low: &mut [u8; 16], high: &mut [u8; 16])
    requires { (low.old ≡ listed (λ _. 0) 16) × (high.old ≡ listed (λ _. 0) 16) }
    ensures { (low.new ≡ listed (bytes_of (R.low row.now)) 16)
        × (high.new ≡ listed (bytes_of (R.high row.now)) 16) }
{
    for b in 0..8 {
        add_column(row, b, low, high);
    }
}

// A row of values, turned, and the matrix spread, in which the thresholds of a row stand from 128 * (row % 4) on.
#[derive(Clone, Copy)]
struct Shaded<'a> {
    values: &'a [u8; 128],
    matrix: &'a [u8; 1536],
    row: usize,
}

impl<'a> Turned for Shaded<'a> {
    ghost low = { λ s p. turned_shade s.values.now s.matrix.now (128 * (s.row % 4)) p % 2 };

    ghost high = { λ s p. turned_shade s.values.now s.matrix.now (128 * (s.row % 4)) p / 2 };

    ghost bits = { λ s p. shade_bits s.values.now s.matrix.now (128 * (s.row % 4)) p };

    // The tests are put so that each is a vector's own.
    #[tactic(auto, unfolding(crate::specs::Aside::turned_shade))]
    fn weigh(&self, p: usize, w: u8) -> (u8, u8) {
        let at = 128 * (self.row % 4) + p;
        let v = self.values[p];
        let l = self.matrix[at];
        let m = self.matrix[at + 512];
        let h = self.matrix[at + 1024];
        let low = either(v < l, w, either(h <= v, 0, either(m <= v, w, 0)));
        let high = either(v < l, w, either(v < m, w, 0));
        (low, high)
    }
}

// The shades of a row, a byte of low bits and one of high bits for each of its sixteen tiles, into what is zero before. `matrix` is that of `regs`, spread.
pub fn shade_row(
    values: &[u8; 128],
    matrix: &[u8; 1536],
    regs: &[u8; 54],
    row: usize,
    low: &mut [u8; 16],
    high: &mut [u8; 16],
)
    requires { (matrix.now ≡ spread_of regs.now) × (low.old ≡ listed (λ _. 0) 16) × (high.old ≡ listed (λ _. 0) 16) }
    ensures { (low.new ≡ listed (low_of values.now regs.now row) 16)
        × (high.new ≡ listed (high_of values.now regs.now row) 16) }
{
    let turned = turn(values);
    let shaded = Shaded {
        values: &turned,
        matrix,
        row,
    };
    pack(&shaded, low, high);
}

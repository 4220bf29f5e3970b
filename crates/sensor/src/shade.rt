// Step 6: the value, and its shade by the matrix.
ghost use Rattle.std.specs.Prelude.{◌≡◌};
ghost use Rattle.laws.specs.Pick.{pick};
ghost use Rattle.lighting.specs.Aside.{Sane};
ghost use Rattle.lighting.specs.Light.{Within, byte_at};
ghost use Rattle.sensor.specs.Shade.{value_at, shade_by, shade_of};

use super::row::step_5;
use lighting::Setting;

// The pixel's value, 0 to 255.
#[tactic(auto, using(crate::proofs::Facts::step5_small), unfolding(crate::specs::Shade::value_at))]
pub(crate) fn value(store: &[u8; 16384], set: Setting, x: usize, row: usize) -> u8
    requires inside { Within x row 8 119 }
    requires sane { Sane set }
    ensures { result ≡ value_at (byte_at store.now) set x row }
{
    (step_5(store, set, x, row) + 128) as u8
}

// One of two bytes, by a test, which is no branch.
pub fn either(t: bool, a: u8, b: u8) -> u8
    ensures { result ≡ pick t a b }
{
    if t { a } else { b }
}

// The shade of a value by three thresholds: its high bit and its low bit, each by tests of its own, since a choice among four shades becomes branches.
fn shade_by(v: u8, low: u8, mid: u8, high: u8) -> u8
    ensures { result ≡ shade_by low mid high v }
{
    let dark = either(v < low, 1, either(v < mid, 1, 0));
    let odd = either(v < low, 1, either(v < mid, 0, either(v < high, 1, 0)));
    2 * dark + odd
}

// Step 6: the shade of a value, by the matrix's element.
#[tactic(auto, unfolding(crate::specs::Shade::shade_of))]
pub fn shade(regs: &[u8; 54], x: usize, row: usize, v: u8) -> u8
    ensures { result ≡ shade_of regs.now x row v }
{
    let at = 6 + 3 * (4 * (row % 4) + x % 4);
    shade_by(v, regs[at], regs[at + 1], regs[at + 2])
}

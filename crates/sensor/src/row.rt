// Step 5: the 1-D filter.
ghost use Rattle.std.specs.Prelude.{◌≡◌};
ghost use Rattle.lighting.specs.Aside.{Sane};
ghost use Rattle.lighting.specs.Light.{Within, byte_at};
ghost use Rattle.sensor.specs.Row.{passes, step5};

use super::nine::step_4;
use filters::hold;
use lighting::Setting;

// Modes 0, 2 and 3 pass the 1-D filter.
#[tactic(auto, unfolding(crate::specs::Row::passes))]
pub fn passing(mode: u8) -> bool
    ensures { result ≡ passes mode }
{
    matches!(mode, 0 | 2 | 3)
}

// Step 5: what its kind makes of the value and, where it asks for it, of the one a row below.
#[tactic(auto, using(std::proofs::lemmas::Int::ints, crate::proofs::Facts::step4_small), unfolding(crate::specs::Row::step5, crate::specs::Row::row_filter))]
pub(crate) fn step_5(store: &[u8; 16384], set: Setting, x: usize, row: usize) -> i32
    requires inside { Within x row 8 119 }
    requires sane { Sane set }
    ensures { result ≡ step5 (byte_at store.now) set x row }
{
    let p = step_4(store, set, x, row);
    if !passing(set.mode) {
        return p;
    }
    match set.kind {
        0 => hold(-p),
        1 => hold(p),
        _ => hold(p - step_4(store, set, x, row + 1)),
    }
}

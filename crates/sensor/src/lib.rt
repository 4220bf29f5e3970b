// From light to shade, steps 4 to 6: one pixel's value and shade, from a store of lit values and the registers taken.
// Where a pixel may be stays a clause (`Within`): the rows allowed differ, so a struct of column and row would need it still.
#![tactic(auto)]

pub mod nine;
pub mod row;
pub mod shade;

ghost use Rattle.std.specs.Prelude.{◌≡◌};
ghost use Rattle.lighting.specs.Aside.{Asked};
ghost use Rattle.lighting.specs.Light.{Within, byte_at};
ghost use Rattle.sensor.specs.Aside.{pixel_at};

use lighting::Setting;
use shade::{shade, value};

// A pixel of the sensor: its value, 0 to 255, and its shade.
#[derive(Clone, Copy, PartialEq, Eq, Debug)]
pub struct Pixel {
    pub value: u8,
    pub shade: u8,
}

// The pixel at a column and a row. `set` is what `regs` ask.
#[tactic(auto, unfolding(crate::specs::Shade::shade_at))]
pub fn pixel_at(store: &[u8; 16384], set: Setting, regs: &[u8; 54], x: usize, row: usize) -> Pixel
    requires inside { Within x row 8 119 }
    requires asked { Asked set regs.now }
    ensures { result ≡ pixel_at (byte_at store.now) regs.now x row }
{
    let v = value(store, set, x, row);
    Pixel {
        value: v,
        shade: shade(regs, x, row, v),
    }
}

// Step 4: the nine values around a pixel, and what the table of modes makes of them.
ghost use Rattle.std.specs.Prelude.{◌≡◌, ◌+◌, ◌<◌, ◌≤◌, pos, ◌-ℤ◌, get_or};
ghost use Rattle.lighting.specs.Aside.{Sane};
ghost use Rattle.lighting.specs.Light.{Within, byte_at};
ghost use Rattle.sensor.specs.Nine.{left_of, right_of, signed_at, three_of, step4};
ghost use Rattle.sensor.specs.Aside.{Nine};

use filters::filter;
use lighting::Setting;

// The places in the store of the columns beside one, from the place of that one; beyond the left and the right edge of the sensor the edge is
// repeated. Worked out so, rather than from the row and a column beside, a loop over columns becomes vector code also where an address has 32 bits.
fn left(x: usize, at: usize) -> usize
    requires { (x ≤ at) × (at < 16384) }
    ensures { result + x ≡ at + left_of x }
{
    if x == 0 { at } else { at - 1 }
}

fn right(x: usize, at: usize) -> usize
    requires { (x < 128) × (x ≤ at) × (at < 16384) }
    ensures { result + x ≡ at + right_of x }
{
    if x < 127 { at + 1 } else { at }
}

// The lit value at a place in the store, less 128.
fn less_at(store: &[u8; 16384], at: usize) -> i32
    requires { at < 16384 }
    ensures { result ≡ pos (get_or store.now at 0) -ℤ pos 128 }
{
    i32::from(store[at]) - 128
}

// The same at a column and a row: rows 7 to 121 are all that is asked for.
#[tactic(auto, unfolding(crate::specs::Nine::signed_at))]
fn signed_at(store: &[u8; 16384], x: usize, row: usize) -> i32
    requires { Within x row 7 121 }
    ensures { result ≡ signed_at (byte_at store.now) x row }
{
    less_at(store, row * 128 + x)
}

// The three signed values around a column of a row.
fn three(store: &[u8; 16384], x: usize, row: usize) -> [i32; 3]
    requires { Within x row 7 121 }
    ensures { result ≡ three_of (byte_at store.now) x row }
{
    let at = row * 128 + x;
    [
        less_at(store, left(x, at)),
        less_at(store, at),
        less_at(store, right(x, at)),
    ]
}

// The nine signed values around a pixel, three rows of three: of a pixel of the picture, or of the one below it.
#[tactic(auto, using(crate::proofs::Facts::nine_bound), unfolding(crate::specs::Nine::nine_of))]
pub fn nine(store: &[u8; 16384], x: usize, row: usize) -> [[i32; 3]; 3]
    requires { Within x row 8 120 }
    ensures { Nine (byte_at store.now) x row result }
{
    [
        three(store, x, row - 1),
        three(store, x, row),
        three(store, x, row + 1),
    ]
}

// The step 4 value of a pixel, by the table of modes. The nine values are worked out only where a filter asks for them.
#[tactic(auto, unfolding(crate::specs::Nine::step4, crate::specs::Nine::nine_of, crate::specs::Nine::three_of, filters::specs::Edge::edge_of))]
pub(crate) fn step_4(store: &[u8; 16384], set: Setting, x: usize, row: usize) -> i32
    requires inside { Within x row 8 120 }
    requires sane { Sane set }
    ensures { result ≡ step4 (byte_at store.now) set x row }
{
    let quarters = set.quarters;
    match set.mode {
        0x0 => signed_at(store, x, row),
        0x1 => 0,
        0x2 => filter::<0x2>(quarters, nine(store, x, row)),
        0x3 => filter::<0x3>(quarters, nine(store, x, row)),
        0xC => filter::<0xC>(quarters, nine(store, x, row)),
        0xD => filter::<0xD>(quarters, nine(store, x, row)),
        0xE => filter::<0xE>(quarters, nine(store, x, row)),
        0xF => filter::<0xF>(quarters, nine(store, x, row)),
        _ => signed_at(store, x, row),
    }
}

// The reading before the dots: the value of each pixel of a held capture, as a Netpbm file of the kind that a plate has.
#![tactic(auto)]

ghost use Rattle.std.specs.Prelude.{◌≡◌, ◌++◌, ℕ, ◌+◌, ◌/◌, ◌%◌, ◌≤◌, length, drop};
ghost use Rattle.laws.specs.Lists.{listed};
ghost use Rattle.lighting.specs.Aside.{Sane};
ghost use Rattle.lighting.specs.Light.{Within, byte_at};
ghost use Rattle.rows.specs.Aside.{Carried, value_row};
ghost use Rattle.sensor.specs.Shade.{value_at};
ghost use Rattle.controller.specs.Outcome.{verdict_number};
ghost use Rattle.controller.specs.Table.{lowest};
ghost use Rattle.shades.specs.Shades.{output_number, output_value, exported};
ghost use Rattle.readings.specs.Readings.{readings_of, reading_rows, readings_mean};

use controller::judge::{no_frame, no_room, refused_if};
use controller::{Controller, Refusal};
use lighting::Setting;
use plates::grey::{FILE, put_header};
use rows::{first_row, next_row};

// The values of a row, put where they are to stand. They are lent on as an array by `as_mut_array`, since after `try_into` nothing is known of a slice.
fn put_row(store: &[u8; 16384], set: Setting, row: usize, carried: &mut [u8; 128], out: &mut [u8])
    requires out_len { length out.old ≡ 128 }
    requires inside { Within 0 row 8 119 }
    requires sane { Sane set }
    requires carried { Carried (byte_at store.now) set row carried.old }
    ensures { (out.new ≡ value_row (byte_at store.now) set row)
        × Carried (byte_at store.now) set (row + 1) carried.new }
{
    let Some(values) = out.as_mut_array() else {
        unreachable!()
    };
    next_row(store, set, row, carried, values);
}

// All values, row by row: picture row y is sensor row y + 8. What a row needs of the next one is carried on.
// The values are written, so they stay a slice; by place, since after `chunks_exact_mut` a proof knows nothing of what was written.
fn put_values(store: &[u8; 16384], set: Setting, values: &mut [u8])
    requires values_len { length values.old ≡ 14336 }
    requires sane { Sane set }
    ensures { values.new ≡ listed (λ k. value_at (byte_at store.now) set (k % 128) (k / 128 + 8)) 14336 }
{
    let mut carried = [0u8; 128];
    first_row(store, set, 8, &mut carried);
    for y in 0..112 {
        let start = 128 * y;
        put_row(
            store,
            set,
            y + 8,
            &mut carried,
            &mut values[start..start + 128],
        );
    }
}

// The file, at the start of a buffer that has room for it.
fn put_readings(store: &[u8; 16384], regs: &[u8; 54], out: &mut [u8])
    requires { 14351 ≤ length out.old }
    ensures { out.new ≡ readings_of (byte_at store.now) regs.now ++ drop 14351 out.old }
{
    put_header(&mut out[0..15]);
    put_values(store, Setting::of(regs), &mut out[15..14351]);
}

// What readings are asked of, judged: 1, 4, 7, then 11.
#[tactic(auto, using(controller::proofs::Judging::rows), unfolding(crate::specs::Readings::reading_rows))]
fn judge_readings(state: Controller, store: &[u8], out: &[u8]) -> Result<(), Refusal>
    ensures { verdict_number result ≡ lowest (reading_rows state store.now out.now) }
{
    state.no_state()?;
    no_frame(store.len())?;
    no_room(FILE, out.len())?;
    refused_if(!state.held, Refusal::NotHeld)
}

// The values of the held capture as a file, in a lent buffer, whose later bytes stay.
pub fn readings(state: Controller, store: &[u8], out: &mut [u8]) -> Result<u32, Refusal>
    ensures { exported (output_number result) (output_value result) out.new ≡ readings_mean state store.now out.old }
{
    judge_readings(state, store, out)?;
    let store: &[u8; 16384] = store.try_into().unwrap();
    put_readings(store, &state.taken, out);
    Ok(14351)
}

// Judging a plate: which of its rows are those of the picture afresh of a frame, and how many.
#![tactic(auto)]

ghost use Rattle.std.specs.Prelude.{◌≡◌, ◌<◌, length};
ghost use Rattle.laws.specs.Lists.{listed};
ghost use Rattle.controller.specs.Outcome.{verdict_number};
ghost use Rattle.controller.specs.Table.{lowest};
ghost use Rattle.judging.specs.Judging.{row_same, row_judged, rows_equal, answered, judge_rows, judge_means};

use controller::judge::{no_frame, no_room};
use controller::{Controller, Refusal};

// The rows of a picture.
pub const ROWS: usize = 112;

// Whether all 32 bytes of row y are the same in both: two for each of its sixteen tiles.
fn same_row(plate: &[u8; 3584], picture: &[u8; 3584], y: usize) -> bool
    requires { y < 112 }
    ensures { result ≡ row_same plate.now picture.now y }
{
    let at = 256 * (y / 8) + 2 * (y % 8);
    // The two bytes of each tile stand apart from those of the next: no slice holds a row.
    for t in 0..16 {
        let low = at + 16 * t;
        let high = low + 1;
        if plate[low] != picture[low] || plate[high] != picture[high] {
            return false;
        }
    }
    true
}

// Row y judged: 1 where it is the same in both, else 0.
fn judge_row(plate: &[u8; 3584], picture: &[u8; 3584], y: usize) -> u8
    requires { y < 112 }
    ensures { (result ≡ row_judged plate.now picture.now y) × (result < 2) }
{
    u8::from(same_row(plate, picture, y))
}

// All rows judged, and how many are equal.
fn judge_rows(plate: &[u8; 3584], picture: &[u8; 3584], rows: &mut [u8]) -> u32
    requires { length rows.old ≡ 112 }
    ensures rows_after { rows.new ≡ listed (row_judged plate.now picture.now) 112 }
    ensures value { result ≡ rows_equal plate.now picture.now 112 }
{
    let mut equal: u32 = 0;
    // No plainer: after an adapter of `iter_mut` a proof knows nothing of what was written.
    for y in 0..ROWS {
        let row = judge_row(plate, picture, y);
        rows[y] = row;
        equal += row as u32;
    }
    equal
}

// What a judging was lent, judged: 4, then 7.
#[tactic(auto, using(controller::proofs::Judging::rows), unfolding(crate::specs::Judging::judge_rows))]
fn judge_lent(frame: &[u8], rows: &[u8]) -> Result<(), Refusal>
    ensures { verdict_number result ≡ lowest (judge_rows frame.now rows.now) }
{
    no_frame(frame.len())?;
    no_room(ROWS, rows.len())
}

// Judges a plate by a frame and the registers taken, row by row, into a lent buffer, whose later bytes stay: how many rows are equal.
pub fn judge(
    plate: &[u8; 3584],
    frame: &[u8],
    registers: [u8; 54],
    rows: &mut [u8],
) -> Result<u32, Refusal>
    ensures { answered result rows.new ≡ judge_means plate.now frame.now registers rows.old }
{
    judge_lent(frame, rows)?;
    let mut picture = [0u8; 3584];
    Controller::picture(frame, registers, &mut picture)?;
    Ok(judge_rows(plate, &picture, &mut rows[0..ROWS]))
}

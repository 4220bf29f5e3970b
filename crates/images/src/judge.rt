// A plate judged by a frame, for who must say which of its rows are whose.
ghost use Rattle.std.specs.Prelude.{◌≡◌};
ghost use Rattle.answers.specs.Called.{filled};
ghost use Rattle.images.specs.Judges.{judge_bytes};

use answers::answer;
use judging::judge;

// Says of each row of a plate whether it is that of the picture afresh of a frame under 54 registers taken. The answer's value is how many are.
#[unsafe(no_mangle)]
pub extern "C" fn gulxinett_judge(
    plate: &[u8; 3584],
    frame: &[u8],
    registers: &[u8; 54],
    rows: &mut [u8],
) -> u64
    ensures { filled result rows.new ≡ judge_bytes plate.now frame.now registers.now rows.old }
{
    answer(judge(plate, frame, *registers, rows))
}

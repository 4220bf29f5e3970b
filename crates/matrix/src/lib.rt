// The matrix of thresholds in 54 registers: the first element whose three values don't rise or stay level.
#![tactic(auto)]

ghost use Rattle.std.specs.Prelude.{◌≡◌, Bool, ℕ, ◌+◌, ◌*◌, ◌<◌, ◌≤◌};
ghost use Rattle.matrix.specs.Matrix.{reversed, first_in};

// Whether L > M or M > H in the element of a row and column.
fn is_reversed(regs: &[u8; 54], row: usize, column: usize) -> bool
    requires { (row < 4) × (column < 4) }
    ensures { result ≡ reversed regs.now row column }
{
    let at = 6 + 3 * (4 * row + column);
    if regs[at + 1] < regs[at] {
        return true;
    }
    regs[at + 2] < regs[at + 1]
}

// The number of the first reversed element, by rows and then columns; 16 where there is none. Labelled nested loops, as the rules ask for this sentence
// (docs/RULES.md, "Forms in the code").
// 16 and no Option: `Matrix.first_in`, whose answer it is, gives 16 where there is none; `inspect` makes the Option of it.
pub fn first_reversed(regs: &[u8; 54]) -> usize
    ensures { result ≡ first_in regs.now 0 16 }
{
    let mut first = 16;
    'rows: for row in 0..4 {
        for column in 0..4 {
            if is_reversed(regs, row, column) {
                first = 4 * row + column;
                break 'rows;
            }
        }
    }
    first
}

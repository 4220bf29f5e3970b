// Matrix inspection: the first element whose three values don't rise or stay level.
ghost use Rattle.std.specs.Prelude.{◌≡◌};
ghost use Rattle.controller.specs.Outcome.{inspection};
ghost use Rattle.controller.specs.Inspect.{inspect_means};

use super::{Controller, Element, Refusal};

impl Controller {
    // The first reversed element of the current registers, if there is one.
    pub fn inspect(self) -> Result<Option<Element>, Refusal>
        ensures { inspection result ≡ inspect_means self }
    {
        self.no_state()?;
        let regs = self.registers;
        let first = matrix::first_reversed(&regs);
        if 16 <= first {
            return Ok(None);
        }
        Ok(Some(Element {
            row: (first / 4) as u8,
            column: (first % 4) as u8,
        }))
    }
}

// Choices that desks know by name, each for a bright table.
ghost use Rattle.std.specs.Prelude.{◌≡◌, Bool, []};
ghost use Rattle.controller.specs.Outcome.{write_outcome};
ghost use Rattle.desk.specs.Stored.{bright_table, stored_means, type_slide, pinned_beetle, herbarium_sheet};

use super::choice::{Chosen, choose};
use controller::Controller;

// A choice as it is stored.
#[derive(Clone, Copy, Debug, PartialEq, Eq)]
pub struct Stored {
    pub light: u8,
    pub level: u8,
    pub plain: bool,
    pub exposure: Option<u16>,
}

// A choice for a bright table: light set 0, exposure 0300h.
fn bright_table(level: u8, plain: bool) -> Stored
    ensures { result ≡ bright_table level plain }
{
    Stored {
        light: 0,
        level,
        plain,
        exposure: Some(0x0300),
    }
}

impl Stored {
    // "Type slide, bright table".
    pub fn type_slide() -> Stored
        ensures { result ≡ type_slide }
    {
        bright_table(11, true)
    }

    // "Pinned beetle, bright table".
    pub fn pinned_beetle() -> Stored
        ensures { result ≡ pinned_beetle }
    {
        bright_table(7, false)
    }

    // "Herbarium sheet, bright table".
    pub fn herbarium_sheet() -> Stored
        ensures { result ≡ herbarium_sheet }
    {
        bright_table(4, false)
    }

    // The stored choice, chosen.
    pub fn choose(self, state: Controller) -> Chosen
        ensures { write_outcome result [] [] ≡ stored_means state self }
    {
        choose(state, self.light, self.level, self.plain, self.exposure)
    }
}

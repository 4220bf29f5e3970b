// The picture afresh, as a call.
ghost use Rattle.std.specs.Prelude.{◌≡◌};
ghost use Rattle.controller.specs.Outcome.{write_number};
ghost use Rattle.controller.specs.Picture.{afresh, picture_means};

use super::judge::no_frame;
use super::{Controller, Refusal};
use lighting::Setting;

impl Controller {
    // The picture afresh and whole, from an image, which is lit first, and 54 registers.
    pub fn picture(image: &[u8], regs: [u8; 54], out: &mut [u8; 3584]) -> Result<(), Refusal>
        ensures { afresh (write_number result) out.new ≡ picture_means image.now regs out.old }
    {
        no_frame(image.len())?;
        let image: &[u8; 16384] = image.try_into().unwrap();
        let set = Setting::of(&regs);
        let mut lit = [0u8; 16384];
        lighting::light_frame(image, set, &mut lit);
        tiles::fill(&lit, set, &regs, out);
        Ok(())
    }
}

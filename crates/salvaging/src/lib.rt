// Scripts with a second copy on the end: accepted lines are kept, malformed ones dropped, and a second copy too.
#![tactic(auto)]

pub mod place;
pub mod put;
pub mod twice;

ghost use Rattle.std.specs.Prelude.{◌≡◌, length};
ghost use Rattle.salvaging.specs.Salvage.{salvage_means, salvaged_as};

use controller::Refusal;
use controller::judge::{no_room, refused_if};
use place::{Script, count_lines};
use put::{put_report, put_text, text_length};
use twice::kept;

// The bytes of the longest script.
pub const LONGEST: usize = 32768;

// The text's length and the number of lines.
#[derive(Clone, Copy)]
pub struct Salvaged {
    pub length: usize,
    pub lines: usize,
}

// Cleans a script into one buffer and reports on its lines in another. Nothing is written before all refusals are decided.
pub fn salvage(script: &[u8], text: &mut [u8], report: &mut [u8]) -> Result<Salvaged, Refusal>
    ensures { salvaged_as result text.new report.new ≡ salvage_means script.now text.old report.old }
{
    refused_if(LONGEST < script.len(), Refusal::Script)?;
    let script = Script { text: script };
    let lines = count_lines(script);
    let n = kept(script);
    let length = text_length(script, n);
    no_room(length, text.len())?;
    no_room(lines, report.len())?;
    put_text(script, n, text);
    put_report(script, n, report);
    Ok(Salvaged { length, lines })
}

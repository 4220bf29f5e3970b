// The summary of a recording, in a lent buffer.
ghost use Rattle.std.specs.Prelude.{◌≡◌, ◌≤◌, length};
ghost use Rattle.wording.specs.Aside.{Put};
ghost use Rattle.auditing.specs.Summary.{summary_of};

use events::book::{CAPTURES, DROPPED, ENDED, LINES, MALFORMED, REFUSED, WHOLE};
use wording::events::put_summary;

// The summary, at the start of a buffer; returns how many bytes are written.
#[tactic(auto, using(layout::proofs::Stores::as_flag))]
pub fn summary_put(book: &[u64], held: bool, out: &mut [u8]) -> usize
    requires { (length book.now ≡ 13) × (512 ≤ length out.old) }
    ensures { Put out.old 0 (summary_of book.now held) 400 out.new result }
{
    let touched = book[ENDED].saturating_sub(book[WHOLE]);
    put_summary(
        out,
        0,
        book[LINES],
        book[MALFORMED],
        book[REFUSED],
        book[CAPTURES],
        book[ENDED],
        book[WHOLE],
        touched,
        book[DROPPED],
        u64::from(held),
    )
}

// The book of an audit: thirteen numbers, lent. Its functions take a slice, since C lends one, and after a `try_into` to `&mut [u64; 13]` nothing is
// known of the slice that was lent; and no struct, since the theorems of `audited` speak of the thirteen numbers as a list.
ghost use Rattle.std.specs.Prelude.{◌≡◌, List, ℕ, ◌<◌, eqb, length};
ghost use Rattle.laws.specs.Pick.{pick};
ghost use Rattle.events.specs.Book.{noted, one_more, more, lines, writes, first};
ghost use Rattle.events.specs.Entry.{touch_counted, event_counted};
ghost use Rattle.events.specs.Aside.{line_by, event_from};

use super::event::Seen;
use changes::in_area;

// Where each number stands.
pub const WRITTEN: usize = 0;

pub const HELD: usize = 1;

pub const LINES: usize = 2;

pub const ROW: usize = 3;

pub const WRITES: usize = 4;

pub const FIRST: usize = 5;

pub const LAST: usize = 6;

pub const MALFORMED: usize = 7;

pub const REFUSED: usize = 8;

pub const CAPTURES: usize = 9;

pub const ENDED: usize = 10;

pub const WHOLE: usize = 11;

pub const DROPPED: usize = 12;

// One more; the largest number stays.
#[tactic(auto, unfolding(crate::specs::Book::one_more))]
pub fn one_more(n: u64) -> u64
    ensures { result ≡ one_more n }
{
    n.saturating_add(1)
}

// One more of these.
fn count(book: &mut [u64], k: usize)
    requires { k < length book.old }
    ensures { book.new ≡ more book.old k }
{
    book[k] = one_more(book[k]);
}

// A line: malformed, refused with a number (0: it is not), or a row that is lent. Two flags, as this function has to answer for every two.
pub fn count_line(book: &mut [u64], malformed: bool, row: bool, number: u32)
    requires { length book.old ≡ 13 }
    ensures { book.new ≡ line_by book.old malformed row number }
{
    count(book, LINES);
    if malformed {
        count(book, MALFORMED);
        return;
    }
    if number != 0 {
        count(book, REFUSED);
        return;
    }
    if row {
        book[ROW] = book[LINES];
    }
}

// The line of the first write in the picture area, with this one.
fn first_touched(book: &[u64]) -> u64
    requires { length book.now ≡ 13 }
    ensures { result ≡ pick (eqb (noted book.now writes) 0) (noted book.now lines) (noted book.now first) }
{
    if book[WRITES] == 0 {
        return book[LINES];
    }
    book[FIRST]
}

// A bus write in the picture area.
#[tactic(auto, unfolding(crate::specs::Entry::touch_counted))]
fn count_touch(book: &mut [u64])
    requires { length book.old ≡ 13 }
    ensures { book.new ≡ touch_counted book.old }
{
    let line = book[LINES];
    book[FIRST] = first_touched(book);
    book[LAST] = line;
    count(book, WRITES);
}

// An event; where there is none the book stays.
#[tactic(auto, unfolding(crate::specs::Entry::event_counted, crate::specs::Aside::event_from))]
pub fn count_event(book: &mut [u64], seen: Option<Seen>)
    requires { length book.old ≡ 13 }
    ensures { (regs : List ℕ) → book.new ≡ event_counted book.old (event_from seen regs) }
{
    let Some(event) = seen else {
        return;
    };
    match event {
        Seen::Start(_, _, _) => {
            book[WRITES] = 0;
            count(book, CAPTURES);
        }
        Seen::Stop(_, _) => {}
        Seen::Resume(_, _) => {}
        Seen::Dropped(_, _) => count(book, DROPPED),
        Seen::Landed(_, at, _) => {
            if in_area(at) {
                count_touch(book);
            }
        }
        Seen::Whole(_, _, _) => {
            count(book, ENDED);
            count(book, WHOLE);
        }
        Seen::Touched(_, _, _, _, _, _) => count(book, ENDED),
    }
}

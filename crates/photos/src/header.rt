// The header of a photograph, read from the left: `P6`, 128, 128, 255, with white space and comments between.
ghost use Rattle.std.specs.Prelude.{◌≡◌, ◌≤◌, length, get_or};
ghost use Rattle.photos.specs.Header.{is_white, is_end};
ghost use Rattle.photos.specs.Aside.{Next, Goes, Enters, Has, Begins, goes, is_header};

// White space: space, tab, LF, VT, FF, CR.
#[tactic(auto, unfolding(crate::specs::Header::is_white))]
fn is_white(b: u8) -> bool
    ensures { result ≡ is_white b }
{
    matches!(b, b' ' | 0x09..=0x0D)
}

// LF or CR.
#[tactic(auto, unfolding(crate::specs::Header::is_end))]
fn is_end(b: u8) -> bool
    ensures { result ≡ is_end b }
{
    matches!(b, b'\n' | b'\r')
}

// Where a comment ends that has been entered: after the next LF or CR, or at the end of the text.
// No plainer by `position`: that counts from the start of what is left, and `Goes` speaks of places in the whole text.
fn comment_end(text: &[u8], from: usize) -> usize
    requires { from ≤ length text.now }
    ensures { (from ≤ result) × (result ≤ length text.now) × Goes text.now from 2 result }
{
    for i in from..text.len() {
        if is_end(text[i]) {
            return i + 1;
        }
    }
    text.len()
}

// Where a gap ends that has been entered: what comes next is neither white space nor a comment.
fn gap_end(text: &[u8], from: usize) -> usize
    requires { from ≤ length text.now }
    ensures { Next text.now result × Goes text.now from 1 result }
{
    let mut i = from;
    // Not a `for`: a comment takes the place on by more than one.
    while i < text.len() {
        let b = text[i];
        if is_white(b) {
            i += 1;
        } else if b == b'#' {
            i = comment_end(text, i + 1);
        } else {
            return i;
        }
    }
    i
}

// Where a gap ends; the end of the text if there is none.
fn after_gap(text: &[u8], from: usize) -> usize
    requires { from ≤ length text.now }
    ensures { Next text.now result × Enters text.now from result }
{
    if from < text.len() && is_white(text[from]) {
        return gap_end(text, from + 1);
    }
    text.len()
}

// Whether three given bytes stand at a place where a gap has ended.
fn has(text: &[u8], at: usize, bytes: &[u8; 3]) -> bool
    requires { Next text.now at }
    ensures { Has text.now at (get_or bytes.now 0 0) (get_or bytes.now 1 0) (get_or bytes.now 2 0) result }
{
    text[at..].starts_with(bytes)
}

// Whether the text begins with `P6`.
fn begins(text: &[u8]) -> bool
    ensures { Begins text.now result }
{
    text.starts_with(b"P6")
}

// Whether the text ends with one white space byte from a place on.
fn ends(text: &[u8], at: usize) -> bool
    requires { at ≤ length text.now }
    ensures { goes text.now at 0 14 ≡ result }
{
    text.len() == at + 1 && is_white(text[at])
}

// Whether a text is a header.
pub(crate) fn is_header(text: &[u8]) -> bool
    ensures { result ≡ is_header text.now }
{
    if !begins(text) {
        return false;
    }
    let width = after_gap(text, 2);
    if !has(text, width, b"128") {
        return false;
    }
    let height = after_gap(text, width + 3);
    if !has(text, height, b"128") {
        return false;
    }
    let most = after_gap(text, height + 3);
    if !has(text, most, b"255") {
        return false;
    }
    ends(text, most + 3)
}

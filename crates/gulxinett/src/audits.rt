// Recordings audited: what `ledger` has.
ghost use Rattle.std.specs.Prelude.{◌≡◌};
ghost use Rattle.ledger.specs.Audits.{auditing, audit_bytes, end_bytes, noting, changed_bytes, summary_bytes};

// Audits a piece of a recording, up to its first LF and with it. The answer's value is how many bytes of it were read.
#[unsafe(no_mangle)]
pub extern "C" fn gulxinett_audit(
    book: &mut [u64],
    line: &mut [u8],
    state: &mut [u8],
    rom: &[u8],
    ram: &mut [u8],
    store: &mut [u8],
    image: &mut [u8],
    piece: &[u8],
    out: &mut [u8],
) -> u64
    ensures { auditing result state.new ram.new store.new image.new
        book.new line.new out.new
        ≡ audit_bytes state.old rom.now ram.old store.old image.old book.old
        line.old piece.now out.old }
{
    ledger::gulxinett_audit(book, line, state, rom, ram, store, image, piece, out)
}

// The end of a recording: a last line without LF, and that a capture is held. The answer's value is how many bytes were written.
#[unsafe(no_mangle)]
pub extern "C" fn gulxinett_audit_end(
    book: &mut [u64],
    line: &[u8],
    state: &mut [u8],
    rom: &[u8],
    ram: &mut [u8],
    store: &mut [u8],
    image: &mut [u8],
    out: &mut [u8],
) -> u64
    ensures { auditing result state.new ram.new store.new image.new
        book.new line.now out.new
        ≡ end_bytes state.old rom.now ram.old store.old image.old book.old
        line.now out.old }
{
    ledger::gulxinett_audit_end(book, line, state, rom, ram, store, image, out)
}

// The first stretch of RAM from a place on that changed. The answer's value is the place after it.
#[unsafe(no_mangle)]
pub extern "C" fn gulxinett_audit_changed(
    book: &mut [u64],
    first: &[u8],
    ram: &[u8],
    from: u32,
    out: &mut [u8],
) -> u64
    ensures { noting result book.new out.new
        ≡ changed_bytes book.old first.now ram.now from out.old }
{
    ledger::gulxinett_audit_changed(book, first, ram, from, out)
}

// The summary of a recording. The answer's value is its length.
#[unsafe(no_mangle)]
pub extern "C" fn gulxinett_audit_summary(book: &mut [u64], state: &[u8], out: &mut [u8]) -> u64
    ensures { noting result book.new out.new ≡ summary_bytes book.old state.now out.old }
{
    ledger::gulxinett_audit_summary(book, state, out)
}

// The salvage program: a script on standard input, the cleaned script on standard output, one sentence on standard error.
#![tactic(auto)]

ghost use Rattle.std.specs.Prelude.{◌≡◌, IfOk};
ghost use Rattle.std.specs.Counts.{IsPrefixLen};
ghost use Rattle.salvage.specs.Counted.{counted};

use salvaging::Salvaged;
use salvaging::put::Mark;
use std::io::{self, Read, Write};

// Words of the sentence. Where it cannot be written, nothing more can be said.
fn say(rt: &impl Eprint, s: &str) {
    let _ = rt.eprint(s);
}

// A number of it, in decimal.
fn number(rt: &impl Eprint, n: u64) {
    let _ = rt.eprint(n);
}

// Reads until the buffer is full or the input ends: how many bytes. A read that fails is not the end of the input.
fn gather(source: &mut impl Read, buf: &mut [u8]) -> io::Result<usize>
    ensures { IfOk result (λ n. IsPrefixLen n buf.new) }
{
    let mut at = 0;
    // no iterator: how far a turn goes is what `read` answers
    while at < buf.len() {
        let more = source.read(&mut buf[at..])?;
        if more == 0 {
            break;
        }
        at += more;
    }
    Ok(at)
}

// How many bytes of a report are m.
fn count(report: &[u8], m: u8) -> usize
    ensures { result ≡ counted m report.now }
{
    report.iter().filter(|b| **b == m).count()
}

// So many lines kept, malformed, repeated.
fn tell(rt: &impl Eprint, report: &[u8]) {
    say(rt, "salvage: ");
    number(rt, count(report, u8::from(Mark::Kept)) as u64);
    say(rt, " lines kept, ");
    number(rt, count(report, u8::from(Mark::Malformed)) as u64);
    say(rt, " malformed, ");
    number(rt, count(report, u8::from(Mark::Repeated)) as u64);
    say(rt, " repeated\n");
}

// Writes the cleaned script, then the sentence.
fn finish(rt: &impl Eprint, sink: &mut impl Write, text: &[u8], report: &[u8]) {
    if sink.write_all(text).is_ok() {
        tell(rt, report);
    } else {
        say(rt, "salvage: the cleaned script could not be written\n");
    }
}

// Salvages a script and tells how it went.
fn clean(
    rt: &impl Eprint,
    sink: &mut impl Write,
    script: &[u8],
    text: &mut [u8],
    report: &mut [u8],
) {
    match salvaging::salvage(script, text, report) {
        Ok(Salvaged { length, lines }) => {
            finish(
                rt,
                sink,
                &text[..length.min(text.len())],
                &report[..lines.min(report.len())],
            );
        }
        Err(why) => {
            say(rt, "salvage: refused by ");
            number(rt, u64::from(u32::from(why)));
            say(rt, ": a script has at most 32768 bytes\n");
        }
    }
}

// The buffers have room for all that a script of the size gives, and one byte more of it is read than is allowed.
fn main(rt: HostRuntime) {
    let mut script = [0u8; 32769];
    let mut text = [0u8; 32769];
    let mut report = [0u8; 32768];
    let mut source = rt.stdin();
    let mut sink = rt.stdout();
    match gather(&mut source, &mut script) {
        Ok(length) => {
            let script = &script[..length.min(script.len())];
            clean(&rt, &mut sink, script, &mut text, &mut report);
        }
        Err(_) => say(
            &rt,
            "salvage: standard input could not be read to its end; nothing is written\n",
        ),
    }
}

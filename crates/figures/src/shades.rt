// Step 6: the shade of every input for the three triples that document 001, 2.2.6, has example lines of.
ghost use Rattle.std.specs.Iterator.{IsFinite};

use sensor::shade::shade;
use std::io;

// 54 registers with L, M, H in the matrix's first element, all others 0.
fn matrix(triple: &[u8; 3]) -> [u8; 54] {
    let mut regs = [0; 54];
    regs[6..9].copy_from_slice(triple);
    regs
}

// The shades of 64 inputs as digits.
fn shades<Inputs: Iterator<Item = u8> + Drop>(regs: &[u8; 54], inputs: Inputs) -> [u8; 64]
    requires { Inputs.Iterator.can_next inputs × IsFinite (Inputs.Iterator.remaining inputs) }
{
    let mut row = [0; 64];
    for (digit, v) in row.iter_mut().zip(inputs) {
        *digit = b'0' + shade(regs, 0, 0, v) % 4;
    }
    row
}

// A line of the shades of 64 inputs.
fn line(rt: &impl Print, name: &str, inputs: &str, row: &[u8; 64]) -> io::Result<()> {
    print!(rt; "{name} of {inputs} ")?;
    rt.write_all(row)?;
    println!(rt)
}

// How long the document's line is, and the inputs of those of its first 64 columns, each fourth from 00 on, that have another digit than the shade, or
// none.
fn compare(rt: &impl Print, name: &str, row: &[u8; 64], printed: &[u8]) -> io::Result<()> {
    let columns = printed.len();
    print!(rt; "{name} printed with {columns} columns, the first 64 differ at:")?;
    let mut same = true;
    for (input, (i, digit)) in (0u8..=255).step_by(4).zip(row.iter().enumerate()) {
        if printed.get(i) != Some(digit) {
            print!(rt; " {input:02X}")?;
            same = false;
        }
    }
    println!(rt; "{}", if same { " none" } else { "" })
}

// One triple: every input, and then each fourth, as the document prints them, beside the document's line.
fn example(rt: &impl Print, name: &str, triple: &[u8; 3], printed: &[u8]) -> io::Result<()> {
    let regs = matrix(triple);
    line(rt, name, "00-3F", &shades(&regs, 0x00..=0x3F))?;
    line(rt, name, "40-7F", &shades(&regs, 0x40..=0x7F))?;
    line(rt, name, "80-BF", &shades(&regs, 0x80..=0xBF))?;
    line(rt, name, "C0-FF", &shades(&regs, 0xC0..=0xFF))?;
    let row = shades(&regs, (0x00..=0xFF).step_by(4));
    line(rt, name, "00, 04 .. FC", &row)?;
    compare(rt, name, &row, printed)
}

// The three example lines, letter for letter as document 001 prints them.
pub(crate) fn examples(rt: &impl Print) -> io::Result<()> {
    println!(rt; "In (00h-FFh) 0000111122223333444455556666777788889999AAAABBBBCCCCDDDDEEEEFFFF")?;
    example(
        rt,
        "Min: 80 8F D0",
        &[0x80, 0x8F, 0xD0],
        b"333333333333333333333333333333332222111111111111111100000000000000",
    )?;
    example(
        rt,
        "Def: 89 92 A2",
        &[0x89, 0x92, 0xA2],
        b"33333333333333333333333333333333333322111100000000000000000000000000",
    )?;
    example(
        rt,
        "Max: 92 92 92",
        &[0x92, 0x92, 0x92],
        b"33333333333333333333333333333333333333000000000000000000000000000000",
    )
}

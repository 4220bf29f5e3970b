// A capture in each of modes 0, 2, 3, C, D, E, F over one image, by bus writes and a tick.
use controller::Controller;
use lighting::Setting;
use std::io;

// The matrix of document 001, 2.2.6, set 1 (high light), default contrast, behind six registers that are 0.
const DEFAULT: [u8; 54] = [
    0x00, 0x00, 0x00, 0x00, 0x00, 0x00, 0x89, 0x92, 0xA2, 0x8F, 0x9E, 0xC6, 0x8A, 0x95, 0xAB, 0x91,
    0xA1, 0xCF, 0x8D, 0x9A, 0xBA, 0x8B, 0x96, 0xAE, 0x8F, 0x9D, 0xC3, 0x8C, 0x99, 0xB7, 0x8A, 0x94,
    0xA8, 0x90, 0xA0, 0xCC, 0x89, 0x93, 0xA5, 0x90, 0x9F, 0xC9, 0x8E, 0x9C, 0xC0, 0x8C, 0x98, 0xB4,
    0x8E, 0x9B, 0xBD, 0x8B, 0x97, 0xB1,
];

// Byte i of the image: a slope with stripes, 96 + (x + row) / 4 + 8 * ((3 * x + 5 * row) mod 7), and its negative from column 64 on.
fn light(i: usize) -> u8 {
    let x = i % 128;
    let row = i / 128 % 128;
    let v = 96 + (x + row) / 4 + 8 * ((3 * x + 5 * row) % 7);
    if x < 64 {
        return v as u8;
    }
    (255 - v) as u8
}

// The image, 128 * 128 bytes, row by row.
fn image() -> [u8; 16384] {
    let mut out = [0; 16384];
    // By its index: the edit `past_the_image` goes past the loop's end, which no iterator over the image could.
    for i in 0..16384 {
        out[i] = light(i);
    }
    out
}

// A000 to A005 as given, then the matrix.
fn registers(first: &[u8; 6]) -> [u8; 54] {
    let mut regs = DEFAULT;
    regs[..6].copy_from_slice(first);
    regs
}

// The cartridge: its state, and what its bus lends a call.
#[derive(Drop)]
struct Cartridge<'a> {
    state: Controller,
    ram: [u8; 8192],
    store: [u8; 16384],
    image: &'a [u8; 16384],
}

impl<'a> Cartridge<'a> {
    // A bus write.
    fn put(&mut self, address: u16, value: u8) {
        let image = self.image;
        let done = cartridge::write(
            self.state,
            &mut self.ram,
            &mut self.store,
            image,
            address,
            value,
        );
        self.state = done.state;
    }

    // From reset: selects the registers, writes 1 to 53, starts with register 0, and ticks past the largest total.
    fn capture(&mut self, regs: &[u8; 54]) -> u32 {
        self.put(0x4000, 0x10);
        for (address, value) in (0xA001..).zip(&regs[1..]) {
            self.put(address, *value);
        }
        self.put(0xA000, regs[0]);
        let done = capture::tick(self.state, &mut self.ram, &self.store, 2000000);
        done.answer.map_or(0, |n| n.0)
    }
}

// Bytes as one number, the first the highest, modulo the largest prime below 2^32.
fn sum(s: &[u8]) -> u32 {
    s.iter().fold(0, |n, b| {
        ((u64::from(n) * 256 + u64::from(*b)) % 4294967291) as u32
    })
}

// Bytes, each after a space.
fn bytes(rt: &impl Print, s: &[u8]) -> io::Result<()> {
    for b in s {
        print!(rt; " {b:02X}")?;
    }
    Ok(())
}

// One capture: its mode and registers, its cycles, and what it left in a RAM of bytes FF: the area's 3,584 bytes as one number, and its first tile.
fn mode(rt: &impl Print, first: &[u8; 6], image: &[u8; 16384]) -> io::Result<()> {
    let mut cartridge = Cartridge {
        state: Controller::reset(),
        ram: [0xFF; 8192],
        store: [0; 16384],
        image,
    };
    let regs = registers(first);
    let cycles = cartridge.capture(&regs);
    print!(rt; "mode {:X}: A000-A005", Setting::of(&regs).mode)?;
    bytes(rt, first)?;
    let sum = sum(&cartridge.ram[0x100..0xF00]);
    print!(rt; ", {cycles} cycles, sum {sum:08X}, first tile")?;
    bytes(rt, &cartridge.ram[0x100..0x110])?;
    println!(rt)
}

// Between them: -P, P and P - s in step 5, inversion, five ratios, and gain, Vref and A005 bits that count for nothing.
pub(crate) fn modes(rt: &impl Print) -> io::Result<()> {
    let image = image();
    mode(rt, &[0x01, 0x00, 0x01, 0x40, 0x08, 0x00], &image)?;
    mode(rt, &[0x03, 0x20, 0x01, 0x40, 0x10, 0x00], &image)?;
    mode(rt, &[0x05, 0x20, 0x01, 0x00, 0xB0, 0x00], &image)?;
    mode(rt, &[0x03, 0xC0, 0x01, 0x40, 0x20, 0x00], &image)?;
    mode(rt, &[0x03, 0xC4, 0x00, 0xC0, 0xC0, 0xBF], &image)?;
    mode(rt, &[0x03, 0xE4, 0x01, 0x40, 0x07, 0xBF], &image)?;
    mode(rt, &[0x07, 0xE8, 0x01, 0x20, 0x9F, 0x3F], &image)
}

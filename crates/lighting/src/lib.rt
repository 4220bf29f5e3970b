// From light to shade, steps 1 to 3: what the registers taken ask, and the light of a pixel and of a whole image.
#![tactic(auto)]

ghost use Rattle.std.specs.Prelude.{◌≡◌, ◌+◌, ◌/◌, ◌%◌, length, get_or};
ghost use Rattle.lighting.specs.Taken.{exposure_of, alphas};
ghost use Rattle.lighting.specs.Aside.{Asked};
ghost use Rattle.lighting.specs.Light.{adapted, exposed, turned, light_of, light_frame};

// What the registers taken ask of every pixel, worked out once. Mode and kind are the numbers by which the tables of document 001 are laid out,
// and with them `Taken`, `Edge` and `Row`: an enum would be turned from a number and back to one. That the quarters are at most 20 (`Sane`) is asked
// where a filter needs it, and not of the type: `light_frame` takes any setting, and theorems speak of any.
#[derive(Clone, Copy, PartialEq, Eq, Debug)]
pub struct Setting {
    pub exposure: u16,
    pub inverted: bool,
    pub mode: u8,
    pub quarters: u8,
    pub kind: u8,
}

// α in quarters of the byte of A004, by bits 6-4: 2, 3, 4, 5, 8, 12, 16, 20, worked out, so that no table is put into memory at each call.
fn quarters_of(byte: u8) -> u8
    ensures { result ≡ get_or alphas (byte / 16 % 8) 0 }
{
    let level = byte / 16 % 8;
    if level < 4 { level + 2 } else { 4 * level - 8 }
}

// The exposure of the registers: A002 * 256 + A003.
#[tactic(auto, unfolding(crate::specs::Taken::exposure_of))]
pub fn exposure_of(regs: &[u8; 54]) -> u16
    ensures { result ≡ exposure_of regs.now }
{
    u16::from_be_bytes([regs[2], regs[3]])
}

impl Setting {
    // What 54 registers ask.
    #[tactic(auto, using(crate::proofs::Facts::quarters_small), unfolding(crate::specs::Taken::setting_of, crate::specs::Taken::inverted_of, crate::specs::Taken::mode_of, crate::specs::Taken::quarters_of, crate::specs::Taken::kind_of))]
    pub fn of(regs: &[u8; 54]) -> Setting
        ensures { Asked result regs.now }
    {
        Setting {
            exposure: exposure_of(regs),
            inverted: regs[4] / 8 % 2 == 1,
            mode: 8 * (regs[1] / 128 % 2) + 2 * (regs[1] / 32 % 4) + regs[4] / 128 % 2,
            quarters: quarters_of(regs[4]),
            kind: regs[0] / 2 % 4,
        }
    }
}

// Step 3: 255 - v if the picture is turned to its negative.
#[tactic(auto, unfolding(crate::specs::Light::turned))]
fn turn(inverted: bool, v: u8) -> u8
    ensures { result ≡ turned inverted v }
{
    if inverted { 255 - v } else { v }
}

// Half of a sum, rounded up.
fn mean(a: u8, b: u8) -> u8
    ensures { result ≡ (a + b + 1) / 2 }
{
    ((u16::from(a) + u16::from(b) + 1) / 2) as u8
}

// Step 1: 5/8 of v and 3/8 of 128, from means, which a vector takes sixteen bytes at a time. They round up, as below 128 is
// asked; from 128 on the negative is adapted.
#[tactic(auto, using(crate::proofs::Facts::adapted_means))]
fn adapt(v: u8) -> u8
    ensures { result ≡ adapted v }
{
    let up = 127 < v;
    let u = turn(up, v);
    let c = turn(up, 128);
    turn(up, mean(u, mean(c, mean(c, u))))
}

// Step 2: times exposure / 256, at most 255. Times its high byte and times its low byte, so that 16 bits do.
#[tactic(auto, using(crate::proofs::Facts::exposure_split), unfolding(crate::specs::Light::exposed))]
pub fn expose(exposure: u16, v: u8) -> u8
    ensures { result ≡ exposed exposure v }
{
    let w = u16::from(v);
    let n = w * (exposure / 256) + w * (exposure % 256) / 256;
    n.min(255) as u8
}

// Steps 1 to 3, before 128 is subtracted.
#[tactic(auto, unfolding(crate::specs::Light::light_of))]
fn light(set: Setting, v: u8) -> u8
    ensures { result ≡ light_of set v }
{
    turn(set.inverted, expose(set.exposure, adapt(v)))
}

// The light of a whole image: steps 1 to 3 of each pixel, before 128 is subtracted. The store is written, so that it stays a slice: what is lent
// as an array of its bytes would be unknown afterwards. And by its index: after a zip with `iter_mut` a proof knows nothing of what was written.
#[tactic(auto, using(laws::proofs::Filled::filled_end), unfolding(crate::specs::Light::light_frame))]
pub fn light_frame(image: &[u8; 16384], set: Setting, store: &mut [u8])
    requires { length store.old ≡ 16384 }
    ensures { store.new ≡ light_frame image.now set }
{
    for i in 0..16384 {
        store[i] = light(set, image[i]);
    }
}

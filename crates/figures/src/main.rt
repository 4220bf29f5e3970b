// The checked figures that carry no star, run through the public functions of sensor and controller: a line for each, with its name.
#![tactic(auto)]

mod captures;
mod shades;

use std::io;

// Step 2: a value times exposure / 256, at most 255.
fn exposed(rt: &impl Print, v: u8, exposure: u16) -> io::Result<()> {
    let given = lighting::expose(exposure, v);
    println!(rt; "step 2: {v} at {exposure:04X}h gives {given}")
}

fn main(rt: HostRuntime) -> io::Result<()> {
    exposed(&rt, 207, 0x0030)?;
    exposed(&rt, 128, 0x0200)?;
    shades::examples(&rt)?;
    captures::modes(&rt)
}

// From light to shade, step 4: the filters, one function of nine signed values, whose parameter is the mode.
// That α is of at most 20 quarters stays a clause: `lighting` says why it is no invariant of a setting.
#![tactic(auto)]

ghost use Rattle.std.specs.Prelude.{◌≡◌, ◌/◌, ◌<◌, ◌≤◌, IsTrue, pos, nat_abs};
ghost use Rattle.std.specs.Int.Signed.{mag, quot_z};
ghost use Rattle.filters.specs.Edge.{held, edge_of};
ghost use Rattle.filters.specs.Aside.{Small, has_filter, beside_of, top_bits};

// Held to -128..127.
pub fn hold(v: i32) -> i32
    ensures { result ≡ held v }
{
    v.clamp(-128, 127)
}

// In 16 bits, which hold every number that a filter meets: a loop over pixels then has eight of them in a vector.
fn narrow(v: i32) -> i16
    requires { mag v < 128 }
    ensures value { result ≡ v }
    ensures size { nat_abs result ≤ 128 }
{
    v as i16
}

// What the neighbours that a mode looks at add up to: W and E by bit 1 of its number, N and S by bit 2.
fn beside<const MODE: u8>(n: [[i32; 3]; 3]) -> i16
    requires { Small n }
    ensures value { result ≡ beside_of MODE n }
    ensures size { nat_abs result ≤ 512 }
{
    let sides = narrow(n[1][0]) + narrow(n[1][2]);
    let ends = narrow(n[0][1]) + narrow(n[2][1]);
    i16::from(MODE / 2 % 2) * sides + i16::from(MODE / 4 % 2) * ends
}

// The two top bits of a number: 3 below zero and else 0, but 2 and 1 far from it.
fn top_bits(v: i16) -> u16
    ensures { result ≡ top_bits v }
{
    v.cast_unsigned() >> 14
}

// A quarter cut toward zero, then held: by shifts, which every target has for a vector. With top bits 2 or 1 it is beyond the range either way.
fn held_quarter(v: i16) -> i16
    requires { nat_abs v ≤ 20992 }
    ensures { result ≡ held (quot_z v (pos 4)) }
{
    ((v + top_bits(v) as i16) >> 2).clamp(-128, 127)
}

// The filter of a mode, worked out in 16 bits: what P is above its neighbours, times α, the quarters cut toward zero, then held; and P added to it, but
// where bit 0 is set. P is weighed once. The mode is a constant of each instance, so that nothing is asked of it in a loop over pixels.
pub fn filter<const MODE: u8>(quarters: u8, n: [[i32; 3]; 3]) -> i32
    requires mode { IsTrue (has_filter MODE) }
    requires small { (quarters ≤ 20) × Small n }
    ensures { result ≡ edge_of MODE quarters n }
{
    let p = narrow(n[1][1]);
    let own = 4 - 4 * (MODE % 2);
    let count = 2 * (MODE / 2 % 2 + MODE / 4 % 2);
    let weight = i16::from(own + count * quarters);
    i32::from(held_quarter(weight * p - i16::from(quarters) * beside::<MODE>(n)))
}

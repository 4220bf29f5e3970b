// What writing and reading share: the magic, sizes, bytes put in a place, and state bytes that can exist.
ghost use Rattle.std.specs.Prelude.{◌≡◌, Bool, ◌++◌, ◌+◌, ◌≤◌, length, take, drop};
ghost use Rattle.save.specs.Save.{is_state};

use layout::{decode, is_record};

// What a save starts with.
pub(crate) const MAGIC: [u8; 6] = *b"GXSAVE";
// The bytes before the RAM: magic, banks, state record.
pub(crate) const FRONT: usize = 128;
// The bytes of a save besides the RAM.
pub(crate) const REST: usize = 16516;

// Puts bytes in a place.
pub(crate) fn put(from: &[u8], to: &mut [u8], at: usize)
    requires { at + length from.now ≤ length to.old }
    ensures { to.new ≡ take at to.old ++ (from.now ++ drop (at + length from.now) to.old) }
{
    // By place: `copy_from_slice` of so many bytes calls memmove, which C would have to bring.
    for i in 0..from.len() {
        to[at + i] = from[i];
    }
}

// Whether bytes are a record, and one that can exist.
#[tactic(auto, unfolding(crate::specs::Save::is_state))]
pub(crate) fn is_state(state: &[u8]) -> bool
    ensures { result ≡ is_state state.now }
{
    is_record(state) && decode(state).exists()
}

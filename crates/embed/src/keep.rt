// One save file, for a worker that is stopped and another that goes on.
ghost use Rattle.std.specs.Prelude.{◌≡◌};
ghost use Rattle.answers.specs.Called.{called, filled};
ghost use Rattle.embed.specs.Saves.{save_bytes, restore_bytes};

use answers::answer;
use save::reading::restore;
use save::writing::save;

// Writes state, RAM and frame store as one file. The answer's value is its length.
#[unsafe(no_mangle)]
pub extern "C" fn gulxinett_save(state: &[u8], ram: &[u8], store: &[u8], out: &mut [u8]) -> u64
    ensures { filled result out.new ≡ save_bytes state.now ram.now store.now out.old }
{
    answer(save(state, ram, store, out))
}

// Reads such a file into state, RAM and frame store.
#[unsafe(no_mangle)]
pub extern "C" fn gulxinett_restore(
    file: &[u8],
    state: &mut [u8],
    ram: &mut [u8],
    store: &mut [u8],
) -> u64
    ensures { called result state.new ram.new store.new
        ≡ restore_bytes file.now state.old ram.old store.old }
{
    answer(restore(file, state, ram, store))
}

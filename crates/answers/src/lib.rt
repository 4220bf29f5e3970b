// An answer as one number: the refusal's number * 2^32 + the value.
#![tactic(auto)]

ghost use Rattle.std.specs.Prelude.{◌≡◌, ℕ, [], ◌≤◌, Ok, Err, refl};
ghost use Rattle.std.specs.declared.result.Result.{Result};
ghost use Rattle.controller.specs.declared.Refusal.{Refusal};
ghost use Rattle.controller.specs.Outcome.{number_of, read_number, read_value, write_number};
ghost use Rattle.recording.specs.Record.{recorded};
ghost use Rattle.shades.specs.Shades.{output_number, output_value};
ghost use Rattle.answers.specs.Packed.{packed};

use controller::Refusal;

// What is answered where nothing is refused: nothing, a byte, or how many bytes were written.
pub trait Value {
    // The number and the value of an answer, and that the value fits.
    ghost number: { Result Self Refusal → ℕ };

    ghost value: { Result Self Refusal → ℕ };

    ghost fits: { Result Self Refusal → Type 0 };

    fn word(self) -> u32
        requires { fits (Ok self) }
        ensures { result ≡ value (Ok self) };

    // A refusal stands above the value, which is 0 then.
    ghost done: { (x : Self) → number (Ok x) ≡ 0 };

    ghost refused: { (why : Refusal) → (number (Err why) ≡ number_of why) × (value (Err why) ≡ 0) };
}

// Done, without a value.
impl Value for () {
    ghost number = { write_number };

    ghost value = { λ a. 0 };

    ghost fits = { λ a. Unit };

    fn word(self) -> u32 {
        0
    }

    ghost done = { λ x. refl };

    ghost refused = { λ why. (refl, refl) };
}

// A byte that was read.
impl Value for u8 {
    ghost number = { read_number };

    ghost value = { read_value };

    ghost fits = { λ a. Unit };

    fn word(self) -> u32 {
        u32::from(self)
    }

    ghost done = { λ x. refl };

    ghost refused = { λ why. (refl, refl) };
}

// Bytes that were written: how many.
impl Value for u32 {
    ghost number = { output_number };

    ghost value = { output_value };

    ghost fits = { λ a. Unit };

    fn word(self) -> u32 {
        self
    }

    ghost done = { λ x. refl };

    ghost refused = { λ why. (refl, refl) };
}

// A line that was recorded: its length with the LF.
impl Value for usize {
    ghost number = { λ a. (recorded a []).number };

    ghost value = { λ a. (recorded a []).length };

    ghost fits = { λ a. (recorded a []).length ≤ 261 };

    fn word(self) -> u32 {
        self as u32
    }

    ghost done = { λ x. refl };

    ghost refused = { λ why. (refl, refl) };
}

// A number and a value, packed.
#[tactic(auto, unfolding(crate::specs::Packed::packed))]
pub fn pack(number: u32, value: u32) -> u64
    ensures { result ≡ packed number value }
{
    u64::from(number) * 4294967296 + u64::from(value)
}

// A refusal, whose value is 0.
pub fn refused(why: Refusal) -> u64
    ensures { result ≡ packed (number_of why) 0 }
{
    pack(u32::from(why), 0)
}

// What is done, with its value, or the refusal.
pub fn answer<T: Value>(a: Result<T, Refusal>) -> u64
    requires { T.fits a }
    ensures { result ≡ packed (T.number a) (T.value a) }
{
    match a {
        Ok(x) => pack(0, x.word()),
        Err(why) => refused(why),
    }
}

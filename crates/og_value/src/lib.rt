//! Texts of values: which values of a type they are, and what a value shows.
#![tactic(auto)]

ghost use Rattle.std.specs.Prelude.{◌≡◌};
ghost use Rattle.og_value.specs.declared.ValueError.TheVariants.{NoMemory as OutOfMemory};

pub mod examples;
pub mod forms;
pub mod laws;
mod membership;
mod parts;
mod read;
pub mod tokens;
mod values;
mod write;

pub use membership::fits;
use og_names::NoMemory;
pub use read::{ReadValue, read_value, value_end};
use std::alloc::{AllocError, AllocFailed};
pub use write::write_value;

/// Why a text gives no value: the longest text of a value at its place reads as none of the type, or there is none; or memory
/// could not be had.
#[derive(Clone, Copy, Debug, PartialEq, Eq)]
pub enum ValueError {
    Bad,
    NoMemory(NoMemory),
}

impl From<AllocError> for ValueError {
    ghost use Rattle.og_value.specs.Answers.{IsOutOfMemory};

    ghost from_gives = { λ _ error. IsOutOfMemory error };

    fn from(error: AllocError) -> ValueError {
        ValueError::NoMemory(NoMemory::from(error))
    }
}

impl From<NoMemory> for ValueError {
    ghost from_gives = { λ met error. error ≡ OutOfMemory met };

    fn from(met: NoMemory) -> ValueError {
        ValueError::NoMemory(met)
    }
}

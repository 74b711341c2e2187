//! The tokens of a text of the C subset, where a program begins with them and the text nests within its limit; or the place where it
//! does not (`scan`, with `lex`, `machine` and `nest`).
#![tactic(auto)]

mod lex;
mod machine;
mod nest;
mod scan;
mod token;

pub use machine::{is_keyword, is_mark};
use og_base::Place;
use og_names::NoMemory;
pub use scan::tokens_of;
use std::alloc::AllocError;
use thiserror::Error;
pub use token::{Digits, Keyword, Mark, Token};

/// Why a text gives no program. The file of a place is 0.
#[derive(Clone, Copy, Debug, PartialEq, Eq, Error)]
pub enum CReadError {
    /// Rule K1: no program goes on with what stands at this place.
    #[error("no program of the C subset goes on here")]
    Bad(Place),
    /// Rule K2: the token at this place nests more than 256 deep.
    #[error("the text nests too deep")]
    TooDeep(Place),
    #[error("memory could not be had")]
    NoMemory(NoMemory),
}

impl From<AllocError> for CReadError {
    ghost use Rattle.og_clex.specs.Told.{IsOutOfMemory};

    ghost from_gives = { λ _ error. IsOutOfMemory error };

    fn from(error: AllocError) -> CReadError {
        CReadError::NoMemory(NoMemory::from(error))
    }
}

impl From<NoMemory> for CReadError {
    ghost use Rattle.std.specs.Prelude.{◌≡◌};
    ghost use Rattle.og_clex.specs.declared.CReadError.TheVariants.{NoMemory as OutOfMemory};

    ghost from_gives = { λ met error. error ≡ OutOfMemory met };

    fn from(met: NoMemory) -> CReadError {
        CReadError::NoMemory(met)
    }
}

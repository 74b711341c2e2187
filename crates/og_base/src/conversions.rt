//! Want of memory, as it is answered by each kind of call.
use crate::{ModelError, ReadError};
use og_names::NoMemory;
use std::alloc::AllocError;

impl From<NoMemory> for ModelError {
    ghost use Rattle.std.specs.Prelude.{◌≡◌};
    ghost use Rattle.og_base.specs.declared.ModelError.TheVariants.{NoMemory as OutOfMemory};

    ghost from_gives = { λ met error. error ≡ OutOfMemory met };

    fn from(met: NoMemory) -> ModelError {
        ModelError::NoMemory(met)
    }
}

impl From<NoMemory> for ReadError {
    ghost use Rattle.std.specs.Prelude.{◌≡◌};
    ghost use Rattle.og_base.specs.declared.read.ReadError.TheVariants.{NoMemory as OutOfMemory};

    ghost from_gives = { λ met error. error ≡ OutOfMemory met };

    fn from(met: NoMemory) -> ReadError {
        ReadError::NoMemory(met)
    }
}

impl From<AllocError> for ReadError {
    ghost use Rattle.og_base.specs.Failing.{IsOutOfMemory};

    ghost from_gives = { λ _ error. IsOutOfMemory error };

    fn from(error: AllocError) -> ReadError {
        ReadError::NoMemory(NoMemory::from(error))
    }
}

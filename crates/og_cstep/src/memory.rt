//! Want of memory, as it is answered by each kind of call.
ghost use Rattle.std.specs.Prelude.{◌≡◌};

use crate::LoadError;
use og_names::NoMemory;

impl From<NoMemory> for LoadError {
    ghost use Rattle.og_cstep.specs.declared.LoadError.TheVariants as load_error;

    ghost from_gives = { λ met error. error ≡ load_error.NoMemory met };

    fn from(met: NoMemory) -> LoadError {
        LoadError::NoMemory(met)
    }
}

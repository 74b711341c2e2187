ghost use Rattle.std.specs.Prelude.{◌-◌, ◌^◌, ◌≤◌};

use std::alloc::{AllocError, AllocFailed};

/// Memory could not be had. Its field is private: a value comes of the error of an allocation, or where more things were met
/// than numbers of 32 bits can count, and no other error is turned into it.
#[derive(Clone, Copy, Debug, PartialEq, Eq)]
pub struct NoMemory {
    met: (),
}

impl NoMemory {
    /// More things, or bytes, than numbers of 32 bits can count are told as want of memory: `count` is how many there are.
    pub fn past_numbers(count: usize) -> NoMemory
        requires { 2 ^ 32 - 1 ≤ count }
    {
        NoMemory { met: () }
    }
}

impl From<AllocError> for NoMemory {
    fn from(_error: AllocError) -> NoMemory {
        NoMemory { met: () }
    }
}

impl<T: Drop> From<AllocFailed<T>> for NoMemory {
    fn from(_error: AllocFailed<T>) -> NoMemory {
        NoMemory { met: () }
    }
}

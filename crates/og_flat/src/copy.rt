//! Copies of bounds. Each copy equals what it copies.
ghost use Rattle.std.specs.Prelude.{◌≡◌, IfOk};

use crate::flat::Bound;
use og_names::NoMemory;
use std::alloc::Global;

impl Bound {
    /// The same bound once more.
    pub fn copy(&self, alloc: Global) -> Result<Bound, NoMemory>
        ensures { IfOk result (λ bound. bound ≡ self.now) }
    {
        Ok(match self {
            Bound::Number {
                is_negative,
                digits,
            } => Bound::Number {
                is_negative: *is_negative,
                digits: *digits,
            },
            Bound::Named { name } => Bound::Named {
                name: name.copy(alloc)?,
            },
        })
    }
}

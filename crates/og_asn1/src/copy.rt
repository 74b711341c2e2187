//! Copies of names. Each copy equals what it copies.
ghost use Rattle.std.specs.Prelude.{◌≡◌, IfOk};

use crate::syntax::Name;
use og_names::NoMemory;
use std::alloc::Global;

impl Name {
    /// The same name once more.
    pub fn copy(&self, alloc: Global) -> Result<Name, NoMemory>
        ensures { IfOk result (λ name. name ≡ self.now) }
    {
        Ok(Name {
            place: self.place,
            word: self.word.copy(alloc)?,
        })
    }
}

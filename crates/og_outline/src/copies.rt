//! Copies of names. Each copy equals what it copies.
ghost use Rattle.std.specs.Prelude.{◌≡◌, [], ◌∷◌, ◌++◌, IfOk, OnOk};

use og_ast::Name;
use og_names::NoMemory;
use sqlite_items::Items;
use std::alloc::Global;

/// The same name once more.
pub fn copy_name(alloc: Global, name: &Name) -> Result<Name, NoMemory>
    ensures { IfOk result (λ copied. copied ≡ name.now) }
{
    Ok(Name {
        place: name.place,
        word: name.word.copy(alloc)?,
    })
}

/// Adds a copy of the name.
pub fn add_name(alloc: Global, names: &mut Items<Name>, name: &Name) -> Result<(), NoMemory>
    ensures { OnOk result (names.new ≡ names.old ++ name.now ∷ []) }
{
    names.push(copy_name(alloc, name)?)?;
    Ok(())
}

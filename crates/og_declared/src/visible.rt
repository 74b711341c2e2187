//! What a name of a type can be where it is used.
ghost use Rattle.std.specs.Prelude.{◌≡◌, ◌||◌, IfOk};
ghost use Rattle.std.specs.List.{list_any};
ghost use Rattle.std.specs.Str.{bytes_eq};
ghost use Rattle.og_names.specs.Folding.{folded};
ghost use Rattle.og_system.specs.Scopes.{built_in};
ghost use Rattle.og_declared.specs.Sorts.{has as has_in, is_type as is_type_of};
ghost use Rattle.og_declared.specs.Tables.{outside_tables, is_other as is_other_in};

use crate::known::{is_built_in, is_built_in_type};
use crate::tables::add_bodies;
use og_ast::Unit;
use og_names::{Names, NoMemory};
use std::alloc::Global;

/// Names that are visible in all systems: the types of ASN.1, and its constants with the bodies at file level.
#[derive(Drop)]
pub struct Outside {
    pub types: Names,
    pub others: Names,
}

impl Outside {
    pub fn of(
        alloc: Global,
        types: &Names,
        constants: &Names,
        units: &[Unit],
    ) -> Result<Outside, NoMemory>
        ensures { IfOk result (λ outside. outside ≡ outside_tables types.now constants.now units.now) }
    {
        let types = types.copy(alloc)?;
        let mut others = constants.copy(alloc)?;
        add_bodies(&mut others, units)?;
        Ok(Outside { types, others })
    }

    /// Whether the name is one of a type.
    pub fn is_type(&self, name: &[u8]) -> bool
        ensures { result ≡ is_type_of self.now.types (folded name.now) }
    {
        has(&self.types, name) || is_built_in_type(name)
    }

    /// Whether a constant, a body at file level, or what is built in has the name.
    fn is_other(&self, name: &[u8]) -> bool
        ensures { result ≡ (has_in self.now.others (folded name.now) || list_any (bytes_eq (folded name.now)) built_in) }
    {
        has(&self.others, name) || is_built_in(name)
    }
}

/// Whether anything that is visible in a block has the name. The tables are those of its system and its own.
pub fn is_other(outside: &Outside, system: &Names, block: &Names, name: &[u8]) -> bool
    ensures { result ≡ is_other_in outside.now system.now block.now (folded name.now) }
{
    has(block, name) || (has(system, name) || outside.is_other(name))
}

/// Whether a table has the name.
fn has(table: &Names, name: &[u8]) -> bool
    ensures { result ≡ has_in table.now (folded name.now) }
{
    table.find(name).is_some()
}

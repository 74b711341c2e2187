//! Names of systems and blocks in tables.
ghost use Rattle.std.specs.Prelude.{◌≡◌, ◌||◌, IfOk, OnOk};
ghost use Rattle.og_names.specs.Folding.{with_name};
ghost use Rattle.og_system.specs.Scopes.{key, is_outside};
ghost use Rattle.og_system.specs.Tables.{is_in as is_in_table, around_tables, system_tables, block_tables, seen_by_system, seen_by_block};

use crate::declared::{
    add_blocks, add_bodies, add_channels, add_names_of_block, add_names_of_system, add_processes,
    add_references, add_routes, add_signals_of_block, add_signals_of_system,
};
use crate::known::is_built_in;
use og_ast::{BlockTree, Name, SystemTree, Unit};
use og_names::{Names, NoMemory};
use std::alloc::Global;

/// Names that are visible in all systems: those of the data, and of the bodies at file level; and the names that references have.
#[derive(Drop)]
pub struct AroundTables {
    pub types: Names,
    pub bodies: Names,
    pub references: Names,
}

/// Names that a system declares, without those of its blocks.
#[derive(Drop)]
pub struct SystemTables {
    pub signals: Names,
    pub channels: Names,
    pub blocks: Names,
    pub any: Names,
}

/// Names that a block declares.
#[derive(Drop)]
pub struct BlockTables {
    pub signals: Names,
    pub routes: Names,
    pub processes: Names,
    pub any: Names,
}

impl AroundTables {
    pub fn of(alloc: Global, types: &Names, units: &[Unit]) -> Result<AroundTables, NoMemory>
        ensures { IfOk result (λ tables. tables ≡ around_tables units.now types.now) }
    {
        let types = types.copy(alloc)?;
        let mut bodies = Names::new(alloc);
        add_bodies(&mut bodies, units)?;
        let mut references = Names::new(alloc);
        add_references(&mut references, units)?;
        Ok(AroundTables {
            types,
            bodies,
            references,
        })
    }

    /// Whether a body at file level, a type or a constant has the name, or whether it needs no declaration.
    fn sees(&self, name: &Name) -> bool
        ensures { result ≡ (is_in_table self.now.bodies name.now || is_outside self.now.types name.now) }
    {
        is_in(&self.bodies, name) || (is_in(&self.types, name) || is_built_in(name))
    }
}

impl SystemTables {
    pub fn of(alloc: Global, system: &SystemTree) -> Result<SystemTables, NoMemory>
        ensures { IfOk result (λ tables. tables ≡ system_tables system.now) }
    {
        let parts = system.parts.as_slice();
        let mut signals = Names::new(alloc);
        add_signals_of_system(&mut signals, parts)?;
        let mut channels = Names::new(alloc);
        add_channels(&mut channels, parts)?;
        let mut blocks = Names::new(alloc);
        add_blocks(&mut blocks, parts)?;
        let mut any = Names::new(alloc);
        add_names_of_system(&mut any, parts)?;
        Ok(SystemTables {
            signals,
            channels,
            blocks,
            any,
        })
    }

    /// Whether any declaration that the system sees has the name.
    pub fn sees(&self, around: &AroundTables, name: &Name) -> bool
        ensures { result ≡ (seen_by_system around.now self.now).any name.now }
    {
        is_in(&self.any, name) || around.sees(name)
    }
}

impl BlockTables {
    pub fn of(alloc: Global, block: &BlockTree) -> Result<BlockTables, NoMemory>
        ensures { IfOk result (λ tables. tables ≡ block_tables block.now) }
    {
        let parts = block.parts.as_slice();
        let mut signals = Names::new(alloc);
        add_signals_of_block(&mut signals, parts)?;
        let mut routes = Names::new(alloc);
        add_routes(&mut routes, parts)?;
        let mut processes = Names::new(alloc);
        add_processes(&mut processes, parts)?;
        let mut any = Names::new(alloc);
        add_names_of_block(&mut any, parts)?;
        Ok(BlockTables {
            signals,
            routes,
            processes,
            any,
        })
    }

    /// Whether any declaration that the block sees has the name.
    pub fn sees(&self, around: &AroundTables, system: &SystemTables, name: &Name) -> bool
        ensures { result ≡ (seen_by_block around.now system.now self.now).any name.now }
    {
        is_in(&self.any, name) || system.sees(around, name)
    }
}

/// Adds a name to a table. More names than numbers of 32 bits can count do not fit into memory.
pub fn add_name(table: &mut Names, name: &Name) -> Result<(), NoMemory>
    ensures { OnOk result (table.new ≡ with_name table.old (key name.now)) }
{
    let count = table.len();
    if count >= u32::MAX as usize {
        return Err(NoMemory::past_numbers(count));
    }
    table.add(name.bytes())?;
    Ok(())
}

/// Whether a table has the name.
pub fn is_in(table: &Names, name: &Name) -> bool
    ensures { result ≡ is_in_table table.now name.now }
{
    table.find(name.bytes()).is_some()
}

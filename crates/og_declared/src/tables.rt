//! Names that systems and blocks declare, in tables.
#![tactic(auto, using(crate::proofs::Filling::fills))]

ghost use Rattle.std.specs.Prelude.{◌≡◌, map, flat_map, OnOk};
ghost use Rattle.og_names.specs.Folding.{with_name};
ghost use Rattle.og_system.specs.Scopes.{key, name_of_signal, names_of_block_part, names_of_system_part, processes_of_unit};
ghost use Rattle.og_system.specs.Tables.{is_in as is_in_table, with_names};

use og_ast::{BlockPart, Name, SigTree, SystemPart, Unit};
use og_names::{Names, NoMemory};

/// Whether a table has the name.
pub fn is_in(table: &Names, name: &Name) -> bool
    ensures { result ≡ is_in_table table.now name.now }
{
    table.find(name.bytes()).is_some()
}

/// Adds a name. More names than numbers of 32 bits can count do not fit into memory.
pub fn add_name(table: &mut Names, name: &Name) -> Result<(), NoMemory>
    ensures { OnOk result (table.new ≡ with_name table.old (key name.now)) }
{
    let count = table.len();
    if count >= u32::MAX as usize {
        return Err(NoMemory::past_numbers(count));
    }
    table.add(name.bytes())?;
    Ok(())
}

fn add_signals(table: &mut Names, signals: &[SigTree]) -> Result<(), NoMemory>
    ensures { OnOk result (table.new ≡ with_names table.old (map name_of_signal signals.now)) }
{
    for signal in signals {
        add_name(table, &signal.name)?;
    }
    Ok(())
}

/// Adds all names that a block declares.
pub fn add_names_of_block(table: &mut Names, parts: &[BlockPart]) -> Result<(), NoMemory>
    ensures { OnOk result (table.new ≡ with_names table.old (flat_map names_of_block_part parts.now)) }
{
    for part in parts {
        add_names_of_block_part(table, part)?;
    }
    Ok(())
}

fn add_names_of_block_part(table: &mut Names, part: &BlockPart) -> Result<(), NoMemory>
    ensures { OnOk result (table.new ≡ with_names table.old (names_of_block_part part.now)) }
{
    match part {
        BlockPart::Signal(signal) => {
            add_signals(table, signal.signals.as_slice())?;
            Ok(())
        }
        BlockPart::Route(route) => {
            add_name(table, &route.name)?;
            Ok(())
        }
        BlockPart::Process(process) => {
            add_name(table, &process.name)?;
            Ok(())
        }
        _ => Ok(()),
    }
}

/// Adds all names that a system declares.
pub fn add_names_of_system(table: &mut Names, parts: &[SystemPart]) -> Result<(), NoMemory>
    ensures { OnOk result (table.new ≡ with_names table.old (flat_map names_of_system_part parts.now)) }
{
    for part in parts {
        add_names_of_system_part(table, part)?;
    }
    Ok(())
}

fn add_names_of_system_part(table: &mut Names, part: &SystemPart) -> Result<(), NoMemory>
    ensures { OnOk result (table.new ≡ with_names table.old (names_of_system_part part.now)) }
{
    match part {
        SystemPart::Use(_) => Ok(()),
        SystemPart::Signal(signal) => {
            add_signals(table, signal.signals.as_slice())?;
            Ok(())
        }
        SystemPart::Channel(channel) => {
            add_name(table, &channel.name)?;
            Ok(())
        }
        SystemPart::Procedure(procedure) => {
            add_name(table, &procedure.name)?;
            Ok(())
        }
        SystemPart::Block(block) => {
            add_name(table, &block.name)?;
            Ok(())
        }
    }
}

/// Adds the bodies at file level.
pub fn add_bodies(table: &mut Names, units: &[Unit]) -> Result<(), NoMemory>
    ensures { OnOk result (table.new ≡ with_names table.old (flat_map processes_of_unit units.now)) }
{
    for unit in units {
        add_body(table, unit)?;
    }
    Ok(())
}

fn add_body(table: &mut Names, unit: &Unit) -> Result<(), NoMemory>
    ensures { OnOk result (table.new ≡ with_names table.old (processes_of_unit unit.now)) }
{
    if let Unit::Process(process) = unit {
        add_name(table, &process.name)?;
    }
    Ok(())
}

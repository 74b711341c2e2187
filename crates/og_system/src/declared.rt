//! Names that systems and blocks declare, added to tables in the order of the text.
#![tactic(auto, using(crate::proofs::Adding::adds))]

ghost use Rattle.std.specs.Prelude.{◌≡◌, map, flat_map, OnOk};
ghost use Rattle.og_system.specs.Bodies.{references, references_of_unit, references_of_system_part, references_of_block_part};
ghost use Rattle.og_system.specs.Scopes.{name_of_signal, signals_of_block_part, routes_of_block_part, processes_of_block_part, names_of_block_part, signals_of_system_part, channels_of_system_part, blocks_of_system_part, procedures_of_system_part, names_of_system_part, processes_of_unit};
ghost use Rattle.og_system.specs.Tables.{with_names};

use crate::tables::add_name;
use og_ast::{BlockPart, Name, SigTree, SystemPart, Unit};
use og_names::{Names, NoMemory};

/// Adds these names.
pub fn add_names(table: &mut Names, names: &[Name]) -> Result<(), NoMemory>
    ensures { OnOk result (table.new ≡ with_names table.old names.now) }
{
    for name in names {
        add_name(table, name)?;
    }
    Ok(())
}

fn add_signals(table: &mut Names, signals: &[SigTree]) -> Result<(), NoMemory>
    ensures { OnOk result (table.new ≡ with_names table.old (map name_of_signal signals.now)) }
{
    for signal in signals {
        add_name(table, &signal.name)?;
    }
    Ok(())
}

/// Adds the signals that a block declares.
pub fn add_signals_of_block(table: &mut Names, parts: &[BlockPart]) -> Result<(), NoMemory>
    ensures { OnOk result (table.new ≡ with_names table.old (flat_map signals_of_block_part parts.now)) }
{
    for part in parts {
        add_signals_of_block_part(table, part)?;
    }
    Ok(())
}

fn add_signals_of_block_part(table: &mut Names, part: &BlockPart) -> Result<(), NoMemory>
    ensures { OnOk result (table.new ≡ with_names table.old (signals_of_block_part part.now)) }
{
    if let BlockPart::Signal(signal) = part {
        add_signals(table, signal.signals.as_slice())?;
    }
    Ok(())
}

/// Adds the routes of a block.
pub fn add_routes(table: &mut Names, parts: &[BlockPart]) -> Result<(), NoMemory>
    ensures { OnOk result (table.new ≡ with_names table.old (flat_map routes_of_block_part parts.now)) }
{
    for part in parts {
        add_route(table, part)?;
    }
    Ok(())
}

fn add_route(table: &mut Names, part: &BlockPart) -> Result<(), NoMemory>
    ensures { OnOk result (table.new ≡ with_names table.old (routes_of_block_part part.now)) }
{
    if let BlockPart::Route(route) = part {
        add_name(table, &route.name)?;
    }
    Ok(())
}

/// Adds the bodies that stand in a block.
pub fn add_processes(table: &mut Names, parts: &[BlockPart]) -> Result<(), NoMemory>
    ensures { OnOk result (table.new ≡ with_names table.old (flat_map processes_of_block_part parts.now)) }
{
    for part in parts {
        add_process(table, part)?;
    }
    Ok(())
}

fn add_process(table: &mut Names, part: &BlockPart) -> Result<(), NoMemory>
    ensures { OnOk result (table.new ≡ with_names table.old (processes_of_block_part part.now)) }
{
    if let BlockPart::Process(process) = part {
        add_name(table, &process.name)?;
    }
    Ok(())
}

/// Adds all names that a block declares.
pub fn add_names_of_block(table: &mut Names, parts: &[BlockPart]) -> Result<(), NoMemory>
    ensures { OnOk result (table.new ≡ with_names table.old (flat_map names_of_block_part parts.now)) }
{
    for part in parts {
        add_names_of_block_part(table, part)?;
    }
    Ok(())
}

fn add_names_of_block_part(table: &mut Names, part: &BlockPart) -> Result<(), NoMemory>
    ensures { OnOk result (table.new ≡ with_names table.old (names_of_block_part part.now)) }
{
    add_signals_of_block_part(table, part)?;
    add_route(table, part)?;
    add_process(table, part)?;
    Ok(())
}

/// Adds the signals that a system declares.
pub fn add_signals_of_system(table: &mut Names, parts: &[SystemPart]) -> Result<(), NoMemory>
    ensures { OnOk result (table.new ≡ with_names table.old (flat_map signals_of_system_part parts.now)) }
{
    for part in parts {
        add_signals_of_system_part(table, part)?;
    }
    Ok(())
}

fn add_signals_of_system_part(table: &mut Names, part: &SystemPart) -> Result<(), NoMemory>
    ensures { OnOk result (table.new ≡ with_names table.old (signals_of_system_part part.now)) }
{
    if let SystemPart::Signal(signal) = part {
        add_signals(table, signal.signals.as_slice())?;
    }
    Ok(())
}

/// Adds the channels of a system.
pub fn add_channels(table: &mut Names, parts: &[SystemPart]) -> Result<(), NoMemory>
    ensures { OnOk result (table.new ≡ with_names table.old (flat_map channels_of_system_part parts.now)) }
{
    for part in parts {
        add_channel(table, part)?;
    }
    Ok(())
}

fn add_channel(table: &mut Names, part: &SystemPart) -> Result<(), NoMemory>
    ensures { OnOk result (table.new ≡ with_names table.old (channels_of_system_part part.now)) }
{
    if let SystemPart::Channel(channel) = part {
        add_name(table, &channel.name)?;
    }
    Ok(())
}

/// Adds the blocks of a system.
pub fn add_blocks(table: &mut Names, parts: &[SystemPart]) -> Result<(), NoMemory>
    ensures { OnOk result (table.new ≡ with_names table.old (flat_map blocks_of_system_part parts.now)) }
{
    for part in parts {
        add_block(table, part)?;
    }
    Ok(())
}

fn add_block(table: &mut Names, part: &SystemPart) -> Result<(), NoMemory>
    ensures { OnOk result (table.new ≡ with_names table.old (blocks_of_system_part part.now)) }
{
    if let SystemPart::Block(block) = part {
        add_name(table, &block.name)?;
    }
    Ok(())
}

fn add_procedure(table: &mut Names, part: &SystemPart) -> Result<(), NoMemory>
    ensures { OnOk result (table.new ≡ with_names table.old (procedures_of_system_part part.now)) }
{
    if let SystemPart::Procedure(procedure) = part {
        add_name(table, &procedure.name)?;
    }
    Ok(())
}

/// Adds all names that a system declares.
pub fn add_names_of_system(table: &mut Names, parts: &[SystemPart]) -> Result<(), NoMemory>
    ensures { OnOk result (table.new ≡ with_names table.old (flat_map names_of_system_part parts.now)) }
{
    for part in parts {
        add_names_of_system_part(table, part)?;
    }
    Ok(())
}

fn add_names_of_system_part(table: &mut Names, part: &SystemPart) -> Result<(), NoMemory>
    ensures { OnOk result (table.new ≡ with_names table.old (names_of_system_part part.now)) }
{
    add_signals_of_system_part(table, part)?;
    add_channel(table, part)?;
    add_block(table, part)?;
    add_procedure(table, part)?;
    Ok(())
}

/// Adds the bodies at file level.
pub fn add_bodies(table: &mut Names, units: &[Unit]) -> Result<(), NoMemory>
    ensures { OnOk result (table.new ≡ with_names table.old (flat_map processes_of_unit units.now)) }
{
    for unit in units {
        add_body(table, unit)?;
    }
    Ok(())
}

fn add_body(table: &mut Names, unit: &Unit) -> Result<(), NoMemory>
    ensures { OnOk result (table.new ≡ with_names table.old (processes_of_unit unit.now)) }
{
    if let Unit::Process(process) = unit {
        add_name(table, &process.name)?;
    }
    Ok(())
}

/// Adds the names that the references of all files have.
pub fn add_references(table: &mut Names, units: &[Unit]) -> Result<(), NoMemory>
    ensures { OnOk result (table.new ≡ with_names table.old (references units.now)) }
{
    for unit in units {
        add_references_of_unit(table, unit)?;
    }
    Ok(())
}

fn add_references_of_unit(table: &mut Names, unit: &Unit) -> Result<(), NoMemory>
    ensures { OnOk result (table.new ≡ with_names table.old (references_of_unit unit.now)) }
{
    if let Unit::System(system) = unit {
        add_references_of_system(table, system.parts.as_slice())?;
    }
    Ok(())
}

fn add_references_of_system(table: &mut Names, parts: &[SystemPart]) -> Result<(), NoMemory>
    ensures { OnOk result (table.new ≡ with_names table.old (flat_map references_of_system_part parts.now)) }
{
    for part in parts {
        add_references_of_system_part(table, part)?;
    }
    Ok(())
}

fn add_references_of_system_part(table: &mut Names, part: &SystemPart) -> Result<(), NoMemory>
    ensures { OnOk result (table.new ≡ with_names table.old (references_of_system_part part.now)) }
{
    if let SystemPart::Block(block) = part {
        add_references_of_block(table, block.parts.as_slice())?;
    }
    Ok(())
}

fn add_references_of_block(table: &mut Names, parts: &[BlockPart]) -> Result<(), NoMemory>
    ensures { OnOk result (table.new ≡ with_names table.old (flat_map references_of_block_part parts.now)) }
{
    for part in parts {
        add_reference(table, part)?;
    }
    Ok(())
}

fn add_reference(table: &mut Names, part: &BlockPart) -> Result<(), NoMemory>
    ensures { OnOk result (table.new ≡ with_names table.old (references_of_block_part part.now)) }
{
    if let BlockPart::Reference(reference) = part {
        add_name(table, &reference.name)?;
    }
    Ok(())
}

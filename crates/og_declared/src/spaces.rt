//! N2 and N4: names of one space, each against those before it.
#![tactic(auto, using(crate::proofs::Spacing::spacings))]

ghost use Rattle.std.specs.Prelude.{◌≡◌, flat_map, OnOk};
ghost use Rattle.og_base.specs.Order.{first_from};
ghost use Rattle.og_names.specs.Folding.{with_name};
ghost use Rattle.og_system.specs.Scopes.{key, processes_at_file_level, processes_of_unit};
ghost use Rattle.og_system.specs.Tables.{with_names};
ghost use Rattle.og_declared.specs.Spaces.{begins_with_underscore as begins_so, has_two_underscores as has_two, in_space, spaces_in_block, spaces_of_unit, spaces_in_system};
ghost use Rattle.og_declared.specs.Tables.{declared_by, each_declared_by, named_in_system, named_in_block, in_spaces_of_part};

use crate::noting::note_if;
use crate::tables::{add_name, is_in};
use og_ast::{BlockPart, BlockTree, Name, SystemPart, SystemTree, Unit};
use og_base::{Rule, Violation};
use og_names::{Names, NoMemory};
use std::alloc::Global;

/// What a system declares that has names, but for signals.
#[derive(Clone, Copy, Debug, PartialEq, Eq)]
pub enum SystemSpace {
    Channels,
    Blocks,
    Procedures,
}

/// What a block declares that has names, but for signals.
#[derive(Clone, Copy, Debug, PartialEq, Eq)]
pub enum BlockSpace {
    Routes,
    Processes,
}

// ---- one name

/// N2 at a declared name that the table has, and N4 at one with two underscores. The table has the name from here on.
pub fn note_declared(
    table: &mut Names,
    name: &Name,
    first: &mut Option<Violation>,
) -> Result<(), NoMemory>
    ensures table { OnOk result (table.new ≡ with_name table.old (key name.now)) }
    ensures first { OnOk result (first.new ≡ first_from first.old (declared_by table.old name.now)) }
{
    note_if(is_in(table, name), Rule::N2, name, first);
    note_if(has_two_underscores(name.bytes()), Rule::N4, name, first);
    add_name(table, name)?;
    Ok(())
}

/// Whether two underscores stand side by side.
fn has_two_underscores(bytes: &[u8]) -> bool
    ensures { result ≡ has_two bytes.now }
{
    match bytes {
        [] => false,
        [byte, rest @ ..] => {
            *byte == b'_' && begins_with_underscore(rest) || has_two_underscores(rest)
        }
    }
}

fn begins_with_underscore(bytes: &[u8]) -> bool
    ensures { result ≡ begins_so bytes.now }
{
    match bytes {
        [] => false,
        [byte, ..] => *byte == b'_',
    }
}

// ---- bodies at file level

/// The names of the bodies at file level.
pub fn note_bodies(
    alloc: Global,
    units: &[Unit],
    first: &mut Option<Violation>,
) -> Result<(), NoMemory>
    ensures { OnOk result (first.new ≡ first_from first.old (in_space (processes_at_file_level units.now))) }
{
    let mut table = Names::new(alloc);
    for unit in units {
        note_body(&mut table, unit, first)?;
    }
    Ok(())
}

fn note_body(table: &mut Names, unit: &Unit, first: &mut Option<Violation>) -> Result<(), NoMemory>
    ensures table { OnOk result (table.new ≡ with_names table.old (processes_of_unit unit.now)) }
    ensures first { OnOk result (first.new ≡ first_from first.old (each_declared_by table.old (processes_of_unit unit.now))) }
{
    if let Unit::Process(process) = unit {
        note_declared(table, &process.name, first)?;
    }
    Ok(())
}

// ---- spaces of systems and blocks

/// The names of channels, blocks, procedures, routes and bodies in each system.
pub fn note_spaces(
    alloc: Global,
    units: &[Unit],
    first: &mut Option<Violation>,
) -> Result<(), NoMemory>
    ensures { OnOk result (first.new ≡ first_from first.old (flat_map in_space (flat_map spaces_of_unit units.now))) }
{
    for unit in units {
        note_spaces_of_unit(alloc, unit, first)?;
    }
    Ok(())
}

fn note_spaces_of_unit(
    alloc: Global,
    unit: &Unit,
    first: &mut Option<Violation>,
) -> Result<(), NoMemory>
    ensures { OnOk result (first.new ≡ first_from first.old (flat_map in_space (spaces_of_unit unit.now))) }
{
    if let Unit::System(system) = unit {
        note_spaces_of_system(alloc, system, first)?;
    }
    Ok(())
}

fn note_spaces_of_system(
    alloc: Global,
    system: &SystemTree,
    first: &mut Option<Violation>,
) -> Result<(), NoMemory>
    ensures { OnOk result (first.new ≡ first_from first.old (flat_map in_space (spaces_in_system system.now))) }
{
    let parts = system.parts.as_slice();
    note_in_system(alloc, SystemSpace::Channels, parts, first)?;
    note_in_system(alloc, SystemSpace::Blocks, parts, first)?;
    note_in_system(alloc, SystemSpace::Procedures, parts, first)?;
    note_in_blocks(alloc, parts, first)?;
    Ok(())
}

fn note_in_system(
    alloc: Global,
    space: SystemSpace,
    parts: &[SystemPart],
    first: &mut Option<Violation>,
) -> Result<(), NoMemory>
    ensures { OnOk result (first.new ≡ first_from first.old (in_space (flat_map (named_in_system space) parts.now))) }
{
    let mut table = Names::new(alloc);
    for part in parts {
        note_in_system_part(&mut table, space, part, first)?;
    }
    Ok(())
}

fn note_in_system_part(
    table: &mut Names,
    space: SystemSpace,
    part: &SystemPart,
    first: &mut Option<Violation>,
) -> Result<(), NoMemory>
    ensures table { OnOk result (table.new ≡ with_names table.old (named_in_system space part.now)) }
    ensures first { OnOk result (first.new ≡ first_from first.old (each_declared_by table.old (named_in_system space part.now))) }
{
    match space {
        SystemSpace::Channels => {
            if let SystemPart::Channel(channel) = part {
                note_declared(table, &channel.name, first)?;
            }
            Ok(())
        }
        SystemSpace::Blocks => {
            if let SystemPart::Block(block) = part {
                note_declared(table, &block.name, first)?;
            }
            Ok(())
        }
        SystemSpace::Procedures => {
            if let SystemPart::Procedure(procedure) = part {
                note_declared(table, &procedure.name, first)?;
            }
            Ok(())
        }
    }
}

fn note_in_blocks(
    alloc: Global,
    parts: &[SystemPart],
    first: &mut Option<Violation>,
) -> Result<(), NoMemory>
    ensures { OnOk result (first.new ≡ first_from first.old (flat_map in_spaces_of_part parts.now)) }
{
    for part in parts {
        note_in_block_of(alloc, part, first)?;
    }
    Ok(())
}

fn note_in_block_of(
    alloc: Global,
    part: &SystemPart,
    first: &mut Option<Violation>,
) -> Result<(), NoMemory>
    ensures { OnOk result (first.new ≡ first_from first.old (in_spaces_of_part part.now)) }
{
    if let SystemPart::Block(block) = part {
        note_spaces_of_block(alloc, block, first)?;
    }
    Ok(())
}

fn note_spaces_of_block(
    alloc: Global,
    block: &BlockTree,
    first: &mut Option<Violation>,
) -> Result<(), NoMemory>
    ensures { OnOk result (first.new ≡ first_from first.old (flat_map in_space (spaces_in_block block.now))) }
{
    let parts = block.parts.as_slice();
    note_in_block(alloc, BlockSpace::Routes, parts, first)?;
    note_in_block(alloc, BlockSpace::Processes, parts, first)?;
    Ok(())
}

fn note_in_block(
    alloc: Global,
    space: BlockSpace,
    parts: &[BlockPart],
    first: &mut Option<Violation>,
) -> Result<(), NoMemory>
    ensures { OnOk result (first.new ≡ first_from first.old (in_space (flat_map (named_in_block space) parts.now))) }
{
    let mut table = Names::new(alloc);
    for part in parts {
        note_in_block_part(&mut table, space, part, first)?;
    }
    Ok(())
}

fn note_in_block_part(
    table: &mut Names,
    space: BlockSpace,
    part: &BlockPart,
    first: &mut Option<Violation>,
) -> Result<(), NoMemory>
    ensures table { OnOk result (table.new ≡ with_names table.old (named_in_block space part.now)) }
    ensures first { OnOk result (first.new ≡ first_from first.old (each_declared_by table.old (named_in_block space part.now))) }
{
    match space {
        BlockSpace::Routes => {
            if let BlockPart::Route(route) = part {
                note_declared(table, &route.name, first)?;
            }
            Ok(())
        }
        BlockSpace::Processes => {
            if let BlockPart::Process(process) = part {
                note_declared(table, &process.name, first)?;
            }
            Ok(())
        }
    }
}

//! N5 and the names of systems and blocks: the first violation in the units of all files.
#![tactic(auto, using(crate::proofs::Noticed::notes))]

ghost use Rattle.std.specs.Prelude.{◌≡◌, flat_map, IfOk, OnOk};
ghost use Rattle.og_base.specs.Order.{first_from};
ghost use Rattle.og_system.specs.Bodies.{in_block_part, first_violation as first_violation_in};
ghost use Rattle.og_system.specs.Tables.{system_tables, block_tables, seen_by_block, system_part_by, unit_by};

use crate::counting::first_miscount;
use crate::noting::note_if;
use crate::tables::{AroundTables, BlockTables, SystemTables, is_in};
use crate::uses::{note_channel, note_link, note_reference, note_route};
use og_ast::{BlockPart, BlockTree, SystemPart, SystemTree, Unit};
use og_base::{Rule, Violation};
use og_names::{Names, NoMemory};
use std::alloc::Global;

/// The first violation of N5, and of N1 and N3 at the names of bodies, references, channels, routes and CONNECT, in the units
/// of all files. `file` is the number of the first file of SDL/PR, and `types` has the names of the types and
/// constants of ASN.1.
#[tactic(auto, using(crate::proofs::ByTables::first_by_tables))]
pub fn first_violation(
    alloc: Global,
    file: u32,
    types: &Names,
    units: &[Unit],
) -> Result<Option<Violation>, NoMemory>
    ensures { IfOk result (λ first. first ≡ first_violation_in file types.now units.now) }
{
    let around = AroundTables::of(alloc, types, units)?;
    let mut first = first_miscount(file, units);
    note_units(alloc, &around, units, &mut first)?;
    Ok(first)
}

fn note_units(
    alloc: Global,
    around: &AroundTables,
    units: &[Unit],
    first: &mut Option<Violation>,
) -> Result<(), NoMemory>
    ensures { OnOk result (first.new ≡ first_from first.old (flat_map (unit_by around.now) units.now)) }
{
    for unit in units {
        note_unit(alloc, around, unit, first)?;
    }
    Ok(())
}

fn note_unit(
    alloc: Global,
    around: &AroundTables,
    unit: &Unit,
    first: &mut Option<Violation>,
) -> Result<(), NoMemory>
    ensures { OnOk result (first.new ≡ first_from first.old (unit_by around.now unit.now)) }
{
    match unit {
        Unit::Use(_) => Ok(()),
        Unit::System(system) => {
            note_system(alloc, around, system, first)?;
            Ok(())
        }
        Unit::Process(process) => {
            let name = &process.name;
            note_if(!is_in(&around.references, name), Rule::N1, name, first);
            Ok(())
        }
    }
}

fn note_system(
    alloc: Global,
    around: &AroundTables,
    system: &SystemTree,
    first: &mut Option<Violation>,
) -> Result<(), NoMemory>
    ensures { OnOk result (first.new ≡ first_from first.old (flat_map (system_part_by around.now (system_tables system.now)) system.now.parts)) }
{
    let tables = SystemTables::of(alloc, system)?;
    note_system_parts(alloc, around, &tables, system.parts.as_slice(), first)?;
    Ok(())
}

fn note_system_parts(
    alloc: Global,
    around: &AroundTables,
    system: &SystemTables,
    parts: &[SystemPart],
    first: &mut Option<Violation>,
) -> Result<(), NoMemory>
    ensures { OnOk result (first.new ≡ first_from first.old (flat_map (system_part_by around.now system.now) parts.now)) }
{
    for part in parts {
        note_system_part(alloc, around, system, part, first)?;
    }
    Ok(())
}

fn note_system_part(
    alloc: Global,
    around: &AroundTables,
    system: &SystemTables,
    part: &SystemPart,
    first: &mut Option<Violation>,
) -> Result<(), NoMemory>
    ensures { OnOk result (first.new ≡ first_from first.old (system_part_by around.now system.now part.now)) }
{
    match part {
        SystemPart::Channel(channel) => {
            note_channel(around, system, channel, first);
            Ok(())
        }
        SystemPart::Block(block) => {
            note_block(alloc, around, system, block, first)?;
            Ok(())
        }
        _ => Ok(()),
    }
}

fn note_block(
    alloc: Global,
    around: &AroundTables,
    system: &SystemTables,
    block: &BlockTree,
    first: &mut Option<Violation>,
) -> Result<(), NoMemory>
    ensures { OnOk result (first.new ≡ first_from first.old (flat_map (in_block_part (seen_by_block around.now system.now (block_tables block.now))) block.now.parts)) }
{
    let tables = BlockTables::of(alloc, block)?;
    note_block_parts(around, system, &tables, block.parts.as_slice(), first);
    Ok(())
}

fn note_block_parts(
    around: &AroundTables,
    system: &SystemTables,
    block: &BlockTables,
    parts: &[BlockPart],
    first: &mut Option<Violation>,
)
    ensures { first.new ≡ first_from first.old (flat_map (in_block_part (seen_by_block around.now system.now block.now)) parts.now) }
{
    for part in parts {
        note_block_part(around, system, block, part, first);
    }
}

fn note_block_part(
    around: &AroundTables,
    system: &SystemTables,
    block: &BlockTables,
    part: &BlockPart,
    first: &mut Option<Violation>,
)
    ensures { first.new ≡ first_from first.old (in_block_part (seen_by_block around.now system.now block.now) part.now) }
{
    match part {
        BlockPart::Route(route) => note_route(around, system, block, route, first),
        BlockPart::Link(link) => note_link(around, system, block, link, first),
        BlockPart::Reference(reference) => note_reference(around, system, block, reference, first),
        _ => {}
    }
}

//! N2 and N4: the signals of all systems and blocks, which are one space.
#![tactic(auto, using(crate::proofs::Spacing::spacings))]

ghost use Rattle.std.specs.Prelude.{◌≡◌, map, flat_map, OnOk};
ghost use Rattle.og_base.specs.Order.{first_from};
ghost use Rattle.og_system.specs.Scopes.{name_of_signal, signals_of_block_part};
ghost use Rattle.og_system.specs.Tables.{with_names};
ghost use Rattle.og_declared.specs.Spaces.{in_space, signals_in, signals_of_unit, signals_of_part};
ghost use Rattle.og_declared.specs.Tables.{each_declared_by};

use crate::spaces::note_declared;
use og_ast::{BlockPart, SigTree, SystemPart, Unit};
use og_base::Violation;
use og_names::{Names, NoMemory};
use std::alloc::Global;

/// The names of the signals of all systems and blocks.
pub fn note_signals(
    alloc: Global,
    units: &[Unit],
    first: &mut Option<Violation>,
) -> Result<(), NoMemory>
    ensures { OnOk result (first.new ≡ first_from first.old (in_space (signals_in units.now))) }
{
    let mut table = Names::new(alloc);
    for unit in units {
        note_signals_of_unit(&mut table, unit, first)?;
    }
    Ok(())
}

fn note_signals_of_unit(
    table: &mut Names,
    unit: &Unit,
    first: &mut Option<Violation>,
) -> Result<(), NoMemory>
    ensures table { OnOk result (table.new ≡ with_names table.old (signals_of_unit unit.now)) }
    ensures first { OnOk result (first.new ≡ first_from first.old (each_declared_by table.old (signals_of_unit unit.now))) }
{
    if let Unit::System(system) = unit {
        note_signals_of_parts(table, system.parts.as_slice(), first)?;
    }
    Ok(())
}

fn note_signals_of_parts(
    table: &mut Names,
    parts: &[SystemPart],
    first: &mut Option<Violation>,
) -> Result<(), NoMemory>
    ensures table { OnOk result (table.new ≡ with_names table.old (flat_map signals_of_part parts.now)) }
    ensures first { OnOk result (first.new ≡ first_from first.old (each_declared_by table.old (flat_map signals_of_part parts.now))) }
{
    for part in parts {
        note_signals_of_part(table, part, first)?;
    }
    Ok(())
}

fn note_signals_of_part(
    table: &mut Names,
    part: &SystemPart,
    first: &mut Option<Violation>,
) -> Result<(), NoMemory>
    ensures table { OnOk result (table.new ≡ with_names table.old (signals_of_part part.now)) }
    ensures first { OnOk result (first.new ≡ first_from first.old (each_declared_by table.old (signals_of_part part.now))) }
{
    match part {
        SystemPart::Signal(signal) => {
            note_each_signal(table, signal.signals.as_slice(), first)?;
            Ok(())
        }
        SystemPart::Block(block) => {
            note_signals_of_block(table, block.parts.as_slice(), first)?;
            Ok(())
        }
        _ => Ok(()),
    }
}

fn note_signals_of_block(
    table: &mut Names,
    parts: &[BlockPart],
    first: &mut Option<Violation>,
) -> Result<(), NoMemory>
    ensures table { OnOk result (table.new ≡ with_names table.old (flat_map signals_of_block_part parts.now)) }
    ensures first { OnOk result (first.new ≡ first_from first.old (each_declared_by table.old (flat_map signals_of_block_part parts.now))) }
{
    for part in parts {
        note_signals_of_block_part(table, part, first)?;
    }
    Ok(())
}

fn note_signals_of_block_part(
    table: &mut Names,
    part: &BlockPart,
    first: &mut Option<Violation>,
) -> Result<(), NoMemory>
    ensures table { OnOk result (table.new ≡ with_names table.old (signals_of_block_part part.now)) }
    ensures first { OnOk result (first.new ≡ first_from first.old (each_declared_by table.old (signals_of_block_part part.now))) }
{
    if let BlockPart::Signal(signal) = part {
        note_each_signal(table, signal.signals.as_slice(), first)?;
    }
    Ok(())
}

fn note_each_signal(
    table: &mut Names,
    signals: &[SigTree],
    first: &mut Option<Violation>,
) -> Result<(), NoMemory>
    ensures table { OnOk result (table.new ≡ with_names table.old (map name_of_signal signals.now)) }
    ensures first { OnOk result (first.new ≡ first_from first.old (each_declared_by table.old (map name_of_signal signals.now))) }
{
    for signal in signals {
        note_declared(table, &signal.name, first)?;
    }
    Ok(())
}

//! The signals of all systems and blocks, with the types of their parameters, and all names that are visible.
#![tactic(auto, using(crate::proofs::Opens::opens, crate::proofs::Pieces::pieces))]

ghost use Rattle.std.specs.Prelude.{◌≡◌, ◌++◌, map, flat_map, IfOk, OnOk};
ghost use Rattle.og_system.specs.Lent.{read_home};
ghost use Rattle.og_system.specs.WayTables.{read_directed};
ghost use Rattle.og_system.specs.Scopes.{names_of_block_part, names_of_system_part, name_of_signal, processes_of_unit};
ghost use Rattle.og_outline.specs.Outlines.{hyphened, sort_at, sort_of, signal_of, signals_of, names_around};

use crate::copies::{add_name, copy_name};
use crate::{SignalOutline, SortOutline};
use og_ast::{BlockPart, HyphenedName, Name, ProcessTree, SigTree, SystemPart, Unit};
use og_base::Place;
use og_names::{NoMemory, Word};
use og_system::{DirectedSignal, Home, signals_of as directed_signals};
use sqlite_items::Items;
use std::alloc::Global;

// ---- signals

/// The signals of all systems and blocks, with the ways that they go for a process and its block.
pub fn signals_of(
    alloc: Global,
    units: &[Unit],
    process: &ProcessTree,
    home: &Home<'_>,
) -> Result<Items<SignalOutline>, NoMemory>
    ensures { IfOk result (λ signals. signals ≡ signals_of units.now process.now (read_home home.now)) }
{
    let directed = directed_signals(alloc, units, process, home)?;
    let signals = outlined(alloc, directed.as_slice())?;
    Ok(signals)
}

fn outlined(
    alloc: Global,
    directed: &[DirectedSignal<'_>],
) -> Result<Items<SignalOutline>, NoMemory>
    ensures { IfOk result (λ signals. signals ≡ map signal_of (map read_directed directed.now)) }
{
    let mut signals = Items::new(alloc);
    for signal in directed {
        signals.push(signal_of(alloc, *signal)?)?;
    }
    Ok(signals)
}

fn signal_of(alloc: Global, directed: DirectedSignal<'_>) -> Result<SignalOutline, NoMemory>
    ensures { IfOk result (λ signal. signal ≡ signal_of (read_directed directed.entry)) }
{
    let name = copy_name(alloc, &directed.signal.name)?;
    let sorts = sorts_of(alloc, directed.signal)?;
    Ok(SignalOutline {
        name,
        sorts,
        visible: directed.visible,
        incoming: directed.incoming,
        outgoing: directed.outgoing,
    })
}

fn sorts_of(alloc: Global, signal: &SigTree) -> Result<Items<SortOutline>, NoMemory>
    ensures { IfOk result (λ sorts. sorts ≡ flat_map sort_of signal.now.sorts) }
{
    let mut sorts = Items::new(alloc);
    add_sorts(alloc, &mut sorts, signal.sorts.as_slice())?;
    Ok(sorts)
}

fn add_sorts(
    alloc: Global,
    sorts: &mut Items<SortOutline>,
    names: &[HyphenedName],
) -> Result<(), NoMemory>
    ensures { OnOk result (sorts.new ≡ sorts.old ++ flat_map sort_of names.now) }
{
    for name in names {
        add_sort(alloc, sorts, name.parts.as_slice())?;
    }
    Ok(())
}

fn add_sort(alloc: Global, sorts: &mut Items<SortOutline>, parts: &[Name]) -> Result<(), NoMemory>
    ensures { OnOk result (sorts.new ≡ sorts.old ++ sort_at parts.now) }
{
    if let [first, more @ ..] = parts {
        let word = joined(alloc, first, more)?;
        sorts.push(SortOutline {
            place: first.place,
            word,
        })?;
    }
    Ok(())
}

/// The names with a hyphen between each two.
fn joined(alloc: Global, first: &Name, more: &[Name]) -> Result<Word, NoMemory>
    ensures { IfOk result (λ word. word.bytes ≡ first.now.word.bytes ++ hyphened more.now) }
{
    let mut bytes = Items::from_slice(alloc, first.bytes())?;
    add_hyphened(alloc, &mut bytes, more)?;
    Ok(Word { bytes })
}

fn add_hyphened(alloc: Global, bytes: &mut Items<u8>, names: &[Name]) -> Result<(), NoMemory>
    ensures { OnOk result (bytes.new ≡ bytes.old ++ hyphened names.now) }
{
    for name in names {
        bytes.push(b'-')?;
        bytes.append(Items::from_slice(alloc, name.bytes())?)?;
    }
    Ok(())
}

// ---- names that are visible

/// The names of all that is visible in a block.
pub fn names_around(alloc: Global, units: &[Unit], home: &Home<'_>) -> Result<Items<Name>, NoMemory>
    ensures { IfOk result (λ names. names ≡ names_around units.now (read_home home.now)) }
{
    let mut names = Items::new(alloc);
    add_names_of_block(alloc, &mut names, home.block.parts.as_slice())?;
    add_names_of_system(alloc, &mut names, home.system.parts.as_slice())?;
    add_bodies(alloc, &mut names, units)?;
    Ok(names)
}

fn add_names_of_block(
    alloc: Global,
    names: &mut Items<Name>,
    parts: &[BlockPart],
) -> Result<(), NoMemory>
    ensures { OnOk result (names.new ≡ names.old ++ flat_map names_of_block_part parts.now) }
{
    for part in parts {
        add_names_of_block_part(alloc, names, part)?;
    }
    Ok(())
}

fn add_names_of_block_part(
    alloc: Global,
    names: &mut Items<Name>,
    part: &BlockPart,
) -> Result<(), NoMemory>
    ensures { OnOk result (names.new ≡ names.old ++ names_of_block_part part.now) }
{
    match part {
        BlockPart::Signal(tree) => {
            add_names_of_signals(alloc, names, tree.signals.as_slice())?;
            Ok(())
        }
        BlockPart::Route(route) => {
            add_name(alloc, names, &route.name)?;
            Ok(())
        }
        BlockPart::Link(_) => Ok(()),
        BlockPart::Process(process) => {
            add_name(alloc, names, &process.name)?;
            Ok(())
        }
        BlockPart::Reference(_) => Ok(()),
    }
}

fn add_names_of_system(
    alloc: Global,
    names: &mut Items<Name>,
    parts: &[SystemPart],
) -> Result<(), NoMemory>
    ensures { OnOk result (names.new ≡ names.old ++ flat_map names_of_system_part parts.now) }
{
    for part in parts {
        add_names_of_system_part(alloc, names, part)?;
    }
    Ok(())
}

fn add_names_of_system_part(
    alloc: Global,
    names: &mut Items<Name>,
    part: &SystemPart,
) -> Result<(), NoMemory>
    ensures { OnOk result (names.new ≡ names.old ++ names_of_system_part part.now) }
{
    match part {
        SystemPart::Use(_) => Ok(()),
        SystemPart::Signal(tree) => {
            add_names_of_signals(alloc, names, tree.signals.as_slice())?;
            Ok(())
        }
        SystemPart::Channel(channel) => {
            add_name(alloc, names, &channel.name)?;
            Ok(())
        }
        SystemPart::Procedure(procedure) => {
            add_name(alloc, names, &procedure.name)?;
            Ok(())
        }
        SystemPart::Block(block) => {
            add_name(alloc, names, &block.name)?;
            Ok(())
        }
    }
}

fn add_names_of_signals(
    alloc: Global,
    names: &mut Items<Name>,
    signals: &[SigTree],
) -> Result<(), NoMemory>
    ensures { OnOk result (names.new ≡ names.old ++ map name_of_signal signals.now) }
{
    for signal in signals {
        add_name(alloc, names, &signal.name)?;
    }
    Ok(())
}

/// Adds the names of the bodies at file level.
fn add_bodies(alloc: Global, names: &mut Items<Name>, units: &[Unit]) -> Result<(), NoMemory>
    ensures { OnOk result (names.new ≡ names.old ++ flat_map processes_of_unit units.now) }
{
    for unit in units {
        add_body(alloc, names, unit)?;
    }
    Ok(())
}

fn add_body(alloc: Global, names: &mut Items<Name>, unit: &Unit) -> Result<(), NoMemory>
    ensures { OnOk result (names.new ≡ names.old ++ processes_of_unit unit.now) }
{
    if let Unit::Process(process) = unit {
        add_name(alloc, names, &process.name)?;
    }
    Ok(())
}

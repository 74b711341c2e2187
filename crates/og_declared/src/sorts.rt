//! N1 and N3: the types of the parameters of signals.
#![tactic(auto, using(crate::proofs::Noticing::notes))]

ghost use Rattle.std.specs.Prelude.{◌≡◌, [], ◌++◌, flat_map, IfOk, OnOk};
ghost use Rattle.og_base.specs.Order.{first_from};
ghost use Rattle.og_system.specs.Scopes.{names_in_block, names_in_system};
ghost use Rattle.og_system.specs.Tables.{with_names};
ghost use Rattle.og_declared.specs.Sorts.{behind_hyphen, joined as joined_parts, front_of as front_part, in_sort, in_signal, in_block_part};
ghost use Rattle.og_declared.specs.Tables.{is_other as is_other_in, part_by, unit_by};

use crate::noting::note_looked_up;
use crate::tables::{add_names_of_block, add_names_of_system};
use crate::visible::{Outside, is_other};
use og_ast::{BlockPart, BlockTree, HyphenedName, Name, SigTree, SystemPart, SystemTree, Unit};
use og_base::Violation;
use og_names::{Names, NoMemory};
use std::alloc::Global;

/// The types in all systems.
pub fn note_sorts(
    alloc: Global,
    outside: &Outside,
    units: &[Unit],
    first: &mut Option<Violation>,
) -> Result<(), NoMemory>
    ensures { OnOk result (first.new ≡ first_from first.old (flat_map (unit_by outside.now) units.now)) }
{
    for unit in units {
        note_unit(alloc, outside, unit, first)?;
    }
    Ok(())
}

fn note_unit(
    alloc: Global,
    outside: &Outside,
    unit: &Unit,
    first: &mut Option<Violation>,
) -> Result<(), NoMemory>
    ensures { OnOk result (first.new ≡ first_from first.old (unit_by outside.now unit.now)) }
{
    if let Unit::System(system) = unit {
        note_system(alloc, outside, system, first)?;
    }
    Ok(())
}

fn note_system(
    alloc: Global,
    outside: &Outside,
    system: &SystemTree,
    first: &mut Option<Violation>,
) -> Result<(), NoMemory>
    ensures { OnOk result (first.new ≡ first_from first.old (flat_map (part_by outside.now (with_names [] (names_in_system system.now))) system.now.parts)) }
{
    let parts = system.parts.as_slice();
    let mut names = Names::new(alloc);
    add_names_of_system(&mut names, parts)?;
    note_system_parts(alloc, outside, &names, parts, first)?;
    Ok(())
}

fn note_system_parts(
    alloc: Global,
    outside: &Outside,
    system: &Names,
    parts: &[SystemPart],
    first: &mut Option<Violation>,
) -> Result<(), NoMemory>
    ensures { OnOk result (first.new ≡ first_from first.old (flat_map (part_by outside.now system.now) parts.now)) }
{
    for part in parts {
        note_system_part(alloc, outside, system, part, first)?;
    }
    Ok(())
}

fn note_system_part(
    alloc: Global,
    outside: &Outside,
    system: &Names,
    part: &SystemPart,
    first: &mut Option<Violation>,
) -> Result<(), NoMemory>
    ensures { OnOk result (first.new ≡ first_from first.old (part_by outside.now system.now part.now)) }
{
    match part {
        SystemPart::Signal(signal) => {
            let nothing = Names::new(alloc);
            note_signals(
                alloc,
                outside,
                system,
                &nothing,
                signal.signals.as_slice(),
                first,
            )?;
            Ok(())
        }
        SystemPart::Block(block) => {
            note_block(alloc, outside, system, block, first)?;
            Ok(())
        }
        _ => Ok(()),
    }
}

fn note_block(
    alloc: Global,
    outside: &Outside,
    system: &Names,
    block: &BlockTree,
    first: &mut Option<Violation>,
) -> Result<(), NoMemory>
    ensures { OnOk result (first.new ≡ first_from first.old (flat_map (in_block_part outside.now.types (is_other_in outside.now system.now (with_names [] (names_in_block block.now)))) block.now.parts)) }
{
    let parts = block.parts.as_slice();
    let mut names = Names::new(alloc);
    add_names_of_block(&mut names, parts)?;
    note_block_parts(alloc, outside, system, &names, parts, first)?;
    Ok(())
}

fn note_block_parts(
    alloc: Global,
    outside: &Outside,
    system: &Names,
    block: &Names,
    parts: &[BlockPart],
    first: &mut Option<Violation>,
) -> Result<(), NoMemory>
    ensures { OnOk result (first.new ≡ first_from first.old (flat_map (in_block_part outside.now.types (is_other_in outside.now system.now block.now)) parts.now)) }
{
    for part in parts {
        note_block_part(alloc, outside, system, block, part, first)?;
    }
    Ok(())
}

fn note_block_part(
    alloc: Global,
    outside: &Outside,
    system: &Names,
    block: &Names,
    part: &BlockPart,
    first: &mut Option<Violation>,
) -> Result<(), NoMemory>
    ensures { OnOk result (first.new ≡ first_from first.old (in_block_part outside.now.types (is_other_in outside.now system.now block.now) part.now)) }
{
    if let BlockPart::Signal(signal) = part {
        note_signals(
            alloc,
            outside,
            system,
            block,
            signal.signals.as_slice(),
            first,
        )?;
    }
    Ok(())
}

// ---- signals

fn note_signals(
    alloc: Global,
    outside: &Outside,
    system: &Names,
    block: &Names,
    signals: &[SigTree],
    first: &mut Option<Violation>,
) -> Result<(), NoMemory>
    ensures { OnOk result (first.new ≡ first_from first.old (flat_map (in_signal outside.now.types (is_other_in outside.now system.now block.now)) signals.now)) }
{
    for signal in signals {
        note_signal(alloc, outside, system, block, signal, first)?;
    }
    Ok(())
}

fn note_signal(
    alloc: Global,
    outside: &Outside,
    system: &Names,
    block: &Names,
    signal: &SigTree,
    first: &mut Option<Violation>,
) -> Result<(), NoMemory>
    ensures { OnOk result (first.new ≡ first_from first.old (in_signal outside.now.types (is_other_in outside.now system.now block.now) signal.now)) }
{
    let sorts = signal.sorts.as_slice();
    for sort in sorts {
        note_sort(alloc, outside, system, block, &signal.name, sort, first)?;
    }
    Ok(())
}

/// A type of a parameter of this signal.
fn note_sort(
    alloc: Global,
    outside: &Outside,
    system: &Names,
    block: &Names,
    signal: &Name,
    sort: &HyphenedName,
    first: &mut Option<Violation>,
) -> Result<(), NoMemory>
    ensures { OnOk result (first.new ≡ first_from first.old (in_sort outside.now.types (is_other_in outside.now system.now block.now) signal.now sort.now)) }
{
    let parts = sort.parts.as_slice();
    let word = joined(alloc, parts)?;
    let bytes = word.as_slice();
    let own = outside.is_type(bytes);
    let other = is_other(outside, system, block, bytes);
    note_looked_up(own, other, front_of(signal, parts), first);
    Ok(())
}

/// The first part, or the signal where there is none.
fn front_of<'a>(signal: &'a Name, parts: &'a [Name]) -> &'a Name
    ensures { result.now ≡ front_part signal.now parts.now }
{
    match parts {
        [] => signal,
        [first, ..] => first,
    }
}

// ---- names with hyphens

/// The parts with a hyphen between each two.
#[tactic(auto, using(crate::proofs::Joining::joins))]
fn joined(alloc: Global, parts: &[Name]) -> Result<Vec<u8>, NoMemory>
    ensures { IfOk result (λ word. word.items ≡ joined_parts parts.now) }
{
    let mut word = Vec::new(alloc);
    match parts {
        [] => Ok(word),
        [first, more @ ..] => {
            put(&mut word, first.bytes())?;
            add_parts(&mut word, more)?;
            Ok(word)
        }
    }
}

#[tactic(auto, using(crate::proofs::Joining::joins))]
fn add_parts(word: &mut Vec<u8>, parts: &[Name]) -> Result<(), NoMemory>
    ensures { OnOk result (word.new.items ≡ word.old.items ++ flat_map behind_hyphen parts.now) }
{
    for part in parts {
        add_part(word, part)?;
    }
    Ok(())
}

#[tactic(auto, using(crate::proofs::Joining::joins))]
fn add_part(word: &mut Vec<u8>, part: &Name) -> Result<(), NoMemory>
    ensures { OnOk result (word.new.items ≡ word.old.items ++ behind_hyphen part.now) }
{
    put(word, b"-")?;
    put(word, part.bytes())?;
    Ok(())
}

/// Appends bytes.
fn put(word: &mut Vec<u8>, bytes: &[u8]) -> Result<(), NoMemory>
    ensures { OnOk result (word.new.items ≡ word.old.items ++ bytes.now) }
{
    word.extend_from_slice(bytes)?;
    Ok(())
}

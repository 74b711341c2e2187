//! Forms in the units of files: systems, blocks and processes (Z.102 clauses 9 and 10).
ghost use Rattle.std.specs.Prelude.{◌≡◌, flat_map};
ghost use Rattle.std.specs.List.{list_any};
ghost use Rattle.og_base.specs.Order.{first_of};
ghost use Rattle.og_forms.specs.Forms.{noted, unbuilt_in, in_unit as forms_in_unit, in_system_part as forms_in_system_part, in_block_part as forms_in_block_part, in_signal as forms_in_signal, has_parameters as has_parameters_in};

use crate::form::Form;
use crate::noting::note_if;
use crate::states::{note_inners, note_procedure};
use og_ast::{BlockPart, SigTree, SignalTree, SystemPart, Unit};
use og_base::Violation;

/// F1 at the first token of the first form that is not built, in the units of all files; or none where each form is built.
pub fn first_unbuilt(units: &[Unit]) -> Option<Violation>
    ensures { result ≡ first_of (unbuilt_in units.now) }
{
    let mut first = None;
    note_units(units, &mut first);
    first
}

#[tactic(auto, using(crate::proofs::FirstSoFar::notes))]
fn note_units(units: &[Unit], first: &mut Option<Violation>)
    ensures { first.new ≡ noted first.old (flat_map forms_in_unit units.now) }
{
    for unit in units {
        note_unit(unit, first);
    }
}

fn note_unit(unit: &Unit, first: &mut Option<Violation>)
    ensures { first.new ≡ noted first.old (forms_in_unit unit.now) }
{
    match unit {
        Unit::Use(_) => {}
        Unit::System(system) => note_system_parts(system.parts.as_slice(), first),
        Unit::Process(process) => note_inners(process.parts.as_slice(), first),
    }
}

#[tactic(auto, using(crate::proofs::FirstSoFar::notes))]
fn note_system_parts(parts: &[SystemPart], first: &mut Option<Violation>)
    ensures { first.new ≡ noted first.old (flat_map forms_in_system_part parts.now) }
{
    for part in parts {
        note_system_part(part, first);
    }
}

fn note_system_part(part: &SystemPart, first: &mut Option<Violation>)
    ensures { first.new ≡ noted first.old (forms_in_system_part part.now) }
{
    match part {
        SystemPart::Use(_) => {}
        SystemPart::Signal(signal) => note_signal(signal, first),
        SystemPart::Channel(_) => {}
        SystemPart::Procedure(procedure) => note_procedure(procedure, first),
        SystemPart::Block(block) => note_block_parts(block.parts.as_slice(), first),
    }
}

#[tactic(auto, using(crate::proofs::FirstSoFar::notes))]
fn note_block_parts(parts: &[BlockPart], first: &mut Option<Violation>)
    ensures { first.new ≡ noted first.old (flat_map forms_in_block_part parts.now) }
{
    for part in parts {
        note_block_part(part, first);
    }
}

fn note_block_part(part: &BlockPart, first: &mut Option<Violation>)
    ensures { first.new ≡ noted first.old (forms_in_block_part part.now) }
{
    match part {
        BlockPart::Signal(signal) => note_signal(signal, first),
        BlockPart::Route(_) => {}
        BlockPart::Link(_) => {}
        BlockPart::Process(process) => note_inners(process.parts.as_slice(), first),
        BlockPart::Reference(_) => {}
    }
}

fn note_signal(signal: &SignalTree, first: &mut Option<Violation>)
    ensures { first.new ≡ noted first.old (forms_in_signal signal.now) }
{
    note_if(
        has_any_parameters(signal.signals.as_slice()),
        Form::Parameters,
        signal.place,
        first,
    );
}

fn has_any_parameters(signals: &[SigTree]) -> bool
    ensures { result ≡ list_any has_parameters_in signals.now }
{
    signals.iter().any(|sig| has_parameters(sig))
}

fn has_parameters(sig: &SigTree) -> bool
    ensures { result ≡ has_parameters_in sig.now }
{
    sig.sorts.len() > 0
}

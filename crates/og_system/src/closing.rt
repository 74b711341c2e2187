//! A1 and A7: a process or a partition without a START that has no name, and transitions that do not close.
#![tactic(auto, using(crate::proofs::Noticed::notes, crate::proofs::Opens::opens))]

ghost use Rattle.std.specs.Prelude.{◌≡◌, flat_map};
ghost use Rattle.std.specs.List.{list_any};
ghost use Rattle.og_base.specs.Order.{first_from};
ghost use Rattle.og_system.specs.Closing.{unclosed as unclosed_at, in_part as broken_by_part, in_state as broken_by_state, in_connection as broken_by_connection, in_procedure as broken_by_procedure, in_inner as broken_by_inner, in_composite as broken_by_composite, in_aggregation as broken_by_aggregation, in_partition as broken_by_partition, in_process as broken_by_process, in_unit as broken_by_unit, in_system_part as broken_by_system_part, is_plain_start as is_plain_start_in, without_start, first_unclosed as first_unclosed_in};

use crate::ends::closes;
use og_ast::{
    AggregationPart, AggregationTree, CompositeTree, ConnectionTree, InnerTree, Name, PartTree,
    ProcedureBody, ProcedureTree, ProcessTree, StateTree, SystemPart, TransitionTree, Unit,
};
use og_base::{Place, Rule, Violation, sooner};

/// The first violation of A1 and A7 in the process and in the procedures of all systems.
pub fn first_unclosed(units: &[Unit], process: &ProcessTree) -> Option<Violation>
    ensures { result ≡ first_unclosed_in units.now process.now }
{
    let mut first = None;
    note_units(units, &mut first);
    note_process(process, &mut first);
    first
}

fn note_units(units: &[Unit], first: &mut Option<Violation>)
    ensures { first.new ≡ first_from first.old (flat_map broken_by_unit units.now) }
{
    for unit in units {
        note_unit(unit, first);
    }
}

fn note_unit(unit: &Unit, first: &mut Option<Violation>)
    ensures { first.new ≡ first_from first.old (broken_by_unit unit.now) }
{
    if let Unit::System(system) = unit {
        note_system_parts(system.parts.as_slice(), first);
    }
}

fn note_system_parts(parts: &[SystemPart], first: &mut Option<Violation>)
    ensures { first.new ≡ first_from first.old (flat_map broken_by_system_part parts.now) }
{
    for part in parts {
        note_system_part(part, first);
    }
}

fn note_system_part(part: &SystemPart, first: &mut Option<Violation>)
    ensures { first.new ≡ first_from first.old (broken_by_system_part part.now) }
{
    if let SystemPart::Procedure(procedure) = part {
        note_procedure(procedure, first);
    }
}

fn note_process(process: &ProcessTree, first: &mut Option<Violation>)
    ensures { first.new ≡ first_from first.old (broken_by_process process.now) }
{
    let parts = process.parts.as_slice();
    note_without_start(has_plain_start(parts), &process.name, first);
    note_inners(parts, first);
}

/// A1 at the name, where there is no START without a name.
fn note_without_start(has_start: bool, name: &Name, first: &mut Option<Violation>)
    ensures { first.new ≡ first_from first.old (without_start has_start name.now) }
{
    if !has_start {
        *first = sooner(
            *first,
            Violation {
                rule: Rule::A1,
                place: name.place,
            },
        );
    }
}

fn has_plain_start(parts: &[InnerTree]) -> bool
    ensures { result ≡ list_any is_plain_start_in parts.now }
{
    parts.iter().any(|part| is_plain_start(part))
}

/// Whether this is a START without a name.
fn is_plain_start(part: &InnerTree) -> bool
    ensures { result ≡ is_plain_start_in part.now }
{
    match part {
        InnerTree::Dcl(_) => false,
        InnerTree::Timer(_) => false,
        InnerTree::Procedure(_) => false,
        InnerTree::Start(start) => start.name.is_none(),
        InnerTree::State(_) => false,
        InnerTree::Composite(_) => false,
        InnerTree::Aggregation(_) => false,
        InnerTree::Connection(_) => false,
    }
}

#[cycle(nesting)]
fn note_inners(parts: &[InnerTree], first: &mut Option<Violation>)
    ensures { first.new ≡ first_from first.old (flat_map broken_by_inner parts.now) }
{
    for part in parts {
        note_inner(part, first);
    }
}

#[cycle(nesting)]
fn note_inner(part: &InnerTree, first: &mut Option<Violation>)
    ensures { first.new ≡ first_from first.old (broken_by_inner part.now) }
{
    match part {
        InnerTree::Dcl(_) => {}
        InnerTree::Timer(_) => {}
        InnerTree::Procedure(procedure) => note_procedure(procedure, first),
        InnerTree::Start(start) => note_unclosed(start.place, &start.transition, first),
        InnerTree::State(state) => note_state(state, first),
        InnerTree::Composite(composite) => note_composite(composite, false, first),
        InnerTree::Aggregation(aggregation) => note_aggregation(aggregation, first),
        InnerTree::Connection(connection) => note_connection(connection, first),
    }
}

/// What is violated in a composite state, which may be a partition of an aggregation.
#[cycle(nesting)]
fn note_composite(composite: &CompositeTree, is_partition: bool, first: &mut Option<Violation>)
    ensures { first.new ≡ first_from first.old (broken_by_composite composite.now is_partition) }
{
    let parts = composite.parts.as_slice();
    let has_start = !is_partition || has_plain_start(parts);
    note_without_start(has_start, &composite.name, first);
    note_inners(parts, first);
}

#[cycle(nesting)]
fn note_aggregation(aggregation: &AggregationTree, first: &mut Option<Violation>)
    ensures { first.new ≡ first_from first.old (broken_by_aggregation aggregation.now) }
{
    note_partitions(aggregation.parts.as_slice(), first);
}

#[cycle(nesting)]
fn note_partitions(parts: &[AggregationPart], first: &mut Option<Violation>)
    ensures { first.new ≡ first_from first.old (flat_map broken_by_partition parts.now) }
{
    for part in parts {
        note_partition(part, first);
    }
}

#[cycle(nesting)]
fn note_partition(part: &AggregationPart, first: &mut Option<Violation>)
    ensures { first.new ≡ first_from first.old (broken_by_partition part.now) }
{
    match part {
        AggregationPart::Dcl(_) => {}
        AggregationPart::Timer(_) => {}
        AggregationPart::Procedure(procedure) => note_procedure(procedure, first),
        AggregationPart::Empty(_) => {}
        AggregationPart::Composite(composite) => note_composite(composite, true, first),
    }
}

fn note_procedure(procedure: &ProcedureTree, first: &mut Option<Violation>)
    ensures { first.new ≡ first_from first.old (broken_by_procedure procedure.now) }
{
    match &procedure.body {
        ProcedureBody::External(..) => {}
        ProcedureBody::Own {
            place,
            transition,
            connections,
            ..
        } => {
            note_unclosed(*place, transition, first);
            note_connections(connections.as_slice(), first);
        }
    }
}

fn note_connections(connections: &[ConnectionTree], first: &mut Option<Violation>)
    ensures { first.new ≡ first_from first.old (flat_map broken_by_connection connections.now) }
{
    for connection in connections {
        note_connection(connection, first);
    }
}

fn note_connection(connection: &ConnectionTree, first: &mut Option<Violation>)
    ensures { first.new ≡ first_from first.old (broken_by_connection connection.now) }
{
    note_unclosed(connection.place, &connection.transition, first);
}

fn note_state(state: &StateTree, first: &mut Option<Violation>)
    ensures { first.new ≡ first_from first.old (broken_by_state state.now) }
{
    note_parts(state.parts.as_slice(), first);
}

fn note_parts(parts: &[PartTree], first: &mut Option<Violation>)
    ensures { first.new ≡ first_from first.old (flat_map broken_by_part parts.now) }
{
    for part in parts {
        note_part(part, first);
    }
}

fn note_part(part: &PartTree, first: &mut Option<Violation>)
    ensures { first.new ≡ first_from first.old (broken_by_part part.now) }
{
    match part {
        PartTree::Input(input) => note_unclosed(input.place, &input.transition, first),
        PartTree::Provided(provided) => note_unclosed(provided.place, &provided.transition, first),
        PartTree::Connect(connect) => note_unclosed(connect.place, &connect.transition, first),
        PartTree::Save(_) => {}
    }
}

/// A7 at the keyword of what the transition belongs to.
fn note_unclosed(place: Place, transition: &TransitionTree, first: &mut Option<Violation>)
    ensures { first.new ≡ first_from first.old (unclosed_at place transition.now) }
{
    if !closes(transition) {
        *first = sooner(
            *first,
            Violation {
                rule: Rule::A7,
                place,
            },
        );
    }
}

//! Forms in processes and in composite states: declarations, procedures, states and what stands in them (Z.102 clauses 9.4
//! and 11).
ghost use Rattle.std.specs.Prelude.{◌≡◌, flat_map};
ghost use Rattle.std.specs.List.{list_any};
ghost use Rattle.og_forms.specs.Forms.{noted, in_enabling as forms_in_enabling, in_inner as forms_in_inner, in_composite as forms_in_composite, in_aggregation as forms_in_aggregation, in_partition as forms_in_partition, in_procedure as forms_in_procedure, in_dcl as forms_in_dcl, in_connection as forms_in_connection, in_start as forms_in_start, in_state as forms_in_state, in_list as forms_in_list, in_part as forms_in_part, in_input as forms_in_input, has_variables as has_variables_in};

use crate::form::Form;
use crate::noting::{note, note_if};
use crate::transitions::note_transition;
use og_ast::{
    AggregationPart, AggregationTree, CompositeTree, ConnectionTree, DclTree, EnablingTree, InTree,
    InnerTree, InputTree, ListTree, PartTree, ProcedureBody, ProcedureTree, StartTree, StateTree,
};
use og_base::{Place, Violation};

/// The forms of what stands in a process.
#[cycle(nesting)]
#[tactic(auto, using(crate::proofs::FirstSoFar::notes, crate::proofs::Opens::opens))]
pub fn note_inners(parts: &[InnerTree], first: &mut Option<Violation>)
    ensures { first.new ≡ noted first.old (flat_map forms_in_inner parts.now) }
{
    for part in parts {
        note_inner(part, first);
    }
}

#[cycle(nesting)]
#[tactic(auto, using(crate::proofs::FirstSoFar::notes, crate::proofs::Opens::opens))]
fn note_inner(part: &InnerTree, first: &mut Option<Violation>)
    ensures { first.new ≡ noted first.old (forms_in_inner part.now) }
{
    match part {
        InnerTree::Dcl(dcl) => note(Form::Dcl, dcl.place, first),
        InnerTree::Timer(timer) => note(Form::Timer, timer.place, first),
        InnerTree::Procedure(procedure) => note_procedure(procedure, first),
        InnerTree::Start(start) => note_start(start, first),
        InnerTree::State(state) => note_state(state, first),
        InnerTree::Composite(composite) => note_composite(composite, first),
        InnerTree::Aggregation(aggregation) => note_aggregation(aggregation, first),
        InnerTree::Connection(connection) => note_connection(connection, first),
    }
}

#[cycle(nesting)]
#[tactic(auto, using(crate::proofs::FirstSoFar::notes, crate::proofs::Opens::opens))]
fn note_composite(composite: &CompositeTree, first: &mut Option<Violation>)
    ensures { first.new ≡ noted first.old (forms_in_composite composite.now) }
{
    note(Form::CompositeState, composite.place, first);
    note_inners(composite.parts.as_slice(), first);
}

#[cycle(nesting)]
#[tactic(auto, using(crate::proofs::FirstSoFar::notes, crate::proofs::Opens::opens))]
fn note_aggregation(aggregation: &AggregationTree, first: &mut Option<Violation>)
    ensures { first.new ≡ noted first.old (forms_in_aggregation aggregation.now) }
{
    note(Form::Aggregation, aggregation.place, first);
    note_partitions(aggregation.parts.as_slice(), first);
}

#[cycle(nesting)]
#[tactic(auto, using(crate::proofs::FirstSoFar::notes, crate::proofs::Opens::opens))]
fn note_partitions(parts: &[AggregationPart], first: &mut Option<Violation>)
    ensures { first.new ≡ noted first.old (flat_map forms_in_partition parts.now) }
{
    for part in parts {
        note_partition(part, first);
    }
}

#[cycle(nesting)]
#[tactic(auto, using(crate::proofs::FirstSoFar::notes, crate::proofs::Opens::opens))]
fn note_partition(part: &AggregationPart, first: &mut Option<Violation>)
    ensures { first.new ≡ noted first.old (forms_in_partition part.now) }
{
    match part {
        AggregationPart::Dcl(dcl) => note(Form::Dcl, dcl.place, first),
        AggregationPart::Timer(timer) => note(Form::Timer, timer.place, first),
        AggregationPart::Procedure(procedure) => note_procedure(procedure, first),
        AggregationPart::Empty(_) => {}
        AggregationPart::Composite(composite) => note_composite(composite, first),
    }
}

/// The forms of a procedure.
#[tactic(auto, using(crate::proofs::FirstSoFar::notes))]
pub fn note_procedure(procedure: &ProcedureTree, first: &mut Option<Violation>)
    ensures { first.new ≡ noted first.old (forms_in_procedure procedure.now) }
{
    note(Form::Procedure, procedure.place, first);
    match &procedure.body {
        ProcedureBody::External(..) => {}
        ProcedureBody::Own {
            dcls,
            transition,
            connections,
            ..
        } => {
            note_dcls(dcls.as_slice(), first);
            note_transition(transition, first);
            note_connections(connections.as_slice(), first);
        }
    }
}

#[tactic(auto, using(crate::proofs::FirstSoFar::notes))]
fn note_dcls(dcls: &[DclTree], first: &mut Option<Violation>)
    ensures { first.new ≡ noted first.old (flat_map forms_in_dcl dcls.now) }
{
    for dcl in dcls {
        note(Form::Dcl, dcl.place, first);
    }
}

#[tactic(auto, using(crate::proofs::FirstSoFar::notes))]
fn note_connections(connections: &[ConnectionTree], first: &mut Option<Violation>)
    ensures { first.new ≡ noted first.old (flat_map forms_in_connection connections.now) }
{
    for connection in connections {
        note_connection(connection, first);
    }
}

#[tactic(auto, using(crate::proofs::FirstSoFar::notes))]
fn note_connection(connection: &ConnectionTree, first: &mut Option<Violation>)
    ensures { first.new ≡ noted first.old (forms_in_connection connection.now) }
{
    note(Form::Connection, connection.place, first);
    note_transition(&connection.transition, first);
}

#[tactic(auto, using(crate::proofs::FirstSoFar::notes))]
fn note_start(start: &StartTree, first: &mut Option<Violation>)
    ensures { first.new ≡ noted first.old (forms_in_start start.now) }
{
    note_if(start.name.is_some(), Form::NamedStart, start.place, first);
    note_transition(&start.transition, first);
}

#[tactic(auto, using(crate::proofs::FirstSoFar::notes))]
fn note_state(state: &StateTree, first: &mut Option<Violation>)
    ensures { first.new ≡ noted first.old (forms_in_state state.now) }
{
    note_list(&state.list, state.place, first);
    note_parts(state.parts.as_slice(), first);
}

/// The forms of the names of STATE, which stands at the place.
fn note_list(list: &ListTree, place: Place, first: &mut Option<Violation>)
    ensures { first.new ≡ noted first.old (forms_in_list list.now place) }
{
    match list {
        ListTree::Names(names) => note_if(names.len() > 1, Form::SeveralStates, place, first),
        ListTree::All(..) => note(Form::EveryState, place, first),
    }
}

#[tactic(auto, using(crate::proofs::FirstSoFar::notes))]
fn note_parts(parts: &[PartTree], first: &mut Option<Violation>)
    ensures { first.new ≡ noted first.old (flat_map forms_in_part parts.now) }
{
    for part in parts {
        note_part(part, first);
    }
}

#[tactic(auto, using(crate::proofs::FirstSoFar::notes))]
fn note_part(part: &PartTree, first: &mut Option<Violation>)
    ensures { first.new ≡ noted first.old (forms_in_part part.now) }
{
    match part {
        PartTree::Input(input) => note_input(input, first),
        PartTree::Provided(provided) => {
            note(Form::ContinuousSignal, provided.place, first);
            note_transition(&provided.transition, first);
        }
        PartTree::Connect(connect) => {
            note(Form::Connect, connect.place, first);
            note_transition(&connect.transition, first);
        }
        PartTree::Save(save) => note(Form::Save, save.place, first),
    }
}

#[tactic(auto, using(crate::proofs::FirstSoFar::notes))]
fn note_input(input: &InputTree, first: &mut Option<Violation>)
    ensures { first.new ≡ noted first.old (forms_in_input input.now) }
{
    let inputs = input.inputs.as_slice();
    note_if(inputs.len() > 1, Form::SeveralInputs, input.place, first);
    note_if(
        has_any_variables(inputs),
        Form::InputVariables,
        input.place,
        first,
    );
    note_enabling(&input.enabling, first);
    note_transition(&input.transition, first);
}

fn note_enabling(enabling: &Option<EnablingTree>, first: &mut Option<Violation>)
    ensures { first.new ≡ noted first.old (forms_in_enabling enabling.now) }
{
    if let Some(enabling) = enabling {
        note(Form::EnablingCondition, enabling.place, first);
    }
}

fn has_any_variables(inputs: &[InTree]) -> bool
    ensures { result ≡ list_any has_variables_in inputs.now }
{
    inputs.iter().any(|input| has_variables(input))
}

fn has_variables(input: &InTree) -> bool
    ensures { result ≡ has_variables_in input.now }
{
    input.variables.len() > 0
}

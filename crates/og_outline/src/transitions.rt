//! Transitions, and the starts and states that have them.
#![tactic(auto, using(crate::proofs::Opens::opens, crate::proofs::Pieces::pieces))]

ghost use Rattle.std.specs.Prelude.{◌≡◌, ◌++◌, map, flat_map, IfOk, OnOk};
ghost use Rattle.og_outline.specs.Outlines.{sent, steps_in_step, steps_of, next_by, next_of, start_of, starts_in_inner, received, input_of, inputs_in_part, state_at, state_of, states_in_inner};

use crate::copies::copy_name;
use crate::{InputOutline, NextOutline, StartOutline, StateOutline, StepOutline};
use og_ast::{
    ActionTree, InTree, InnerTree, InputTree, ListTree, Name, OutTree, PartTree, StartTree,
    StateTree, StepTree, TerminatorKind, TerminatorTree, TransitionTree,
};
use og_base::Place;
use og_names::NoMemory;
use sqlite_items::Items;
use std::alloc::Global;

// ---- starts

/// Adds the starts among the parts of a process.
pub fn add_starts(
    alloc: Global,
    starts: &mut Items<StartOutline>,
    parts: &[InnerTree],
) -> Result<(), NoMemory>
    ensures { OnOk result (starts.new ≡ starts.old ++ flat_map starts_in_inner parts.now) }
{
    for part in parts {
        add_start_part(alloc, starts, part)?;
    }
    Ok(())
}

fn add_start_part(
    alloc: Global,
    starts: &mut Items<StartOutline>,
    part: &InnerTree,
) -> Result<(), NoMemory>
    ensures { OnOk result (starts.new ≡ starts.old ++ starts_in_inner part.now) }
{
    match part {
        InnerTree::Dcl(_) => Ok(()),
        InnerTree::Timer(_) => Ok(()),
        InnerTree::Procedure(_) => Ok(()),
        InnerTree::Start(start) => {
            add_start(alloc, starts, start)?;
            Ok(())
        }
        InnerTree::State(_) => Ok(()),
        InnerTree::Composite(_) => Ok(()),
        InnerTree::Aggregation(_) => Ok(()),
        InnerTree::Connection(_) => Ok(()),
    }
}

fn add_start(
    alloc: Global,
    starts: &mut Items<StartOutline>,
    start: &StartTree,
) -> Result<(), NoMemory>
    ensures { OnOk result (starts.new ≡ starts.old ++ start_of start.now) }
{
    match &start.name {
        Some(_) => Ok(()),
        None => {
            if let Some(next) = next_of(alloc, &start.transition)? {
                let steps = steps_of(alloc, &start.transition)?;
                starts.push(StartOutline {
                    place: start.place,
                    steps,
                    next,
                })?;
            }
            Ok(())
        }
    }
}

// ---- states

/// Adds the states among the parts of a process.
pub fn add_states(
    alloc: Global,
    states: &mut Items<StateOutline>,
    parts: &[InnerTree],
) -> Result<(), NoMemory>
    ensures { OnOk result (states.new ≡ states.old ++ flat_map states_in_inner parts.now) }
{
    for part in parts {
        add_state_part(alloc, states, part)?;
    }
    Ok(())
}

fn add_state_part(
    alloc: Global,
    states: &mut Items<StateOutline>,
    part: &InnerTree,
) -> Result<(), NoMemory>
    ensures { OnOk result (states.new ≡ states.old ++ states_in_inner part.now) }
{
    match part {
        InnerTree::Dcl(_) => Ok(()),
        InnerTree::Timer(_) => Ok(()),
        InnerTree::Procedure(_) => Ok(()),
        InnerTree::Start(_) => Ok(()),
        InnerTree::State(state) => {
            add_state(alloc, states, state)?;
            Ok(())
        }
        InnerTree::Composite(_) => Ok(()),
        InnerTree::Aggregation(_) => Ok(()),
        InnerTree::Connection(_) => Ok(()),
    }
}

fn add_state(
    alloc: Global,
    states: &mut Items<StateOutline>,
    state: &StateTree,
) -> Result<(), NoMemory>
    ensures { OnOk result (states.new ≡ states.old ++ state_of state.now) }
{
    match &state.list {
        ListTree::Names(names) => {
            add_named(alloc, states, names.as_slice(), state.parts.as_slice())?;
            Ok(())
        }
        ListTree::All(..) => Ok(()),
    }
}

/// Adds the state of a STATE that has one name.
fn add_named(
    alloc: Global,
    states: &mut Items<StateOutline>,
    names: &[Name],
    parts: &[PartTree],
) -> Result<(), NoMemory>
    ensures { OnOk result (states.new ≡ states.old ++ state_at names.now parts.now) }
{
    match names {
        [name] => {
            let name = copy_name(alloc, name)?;
            let mut inputs = Items::new(alloc);
            add_inputs(alloc, &mut inputs, parts)?;
            states.push(StateOutline { name, inputs })?;
            Ok(())
        }
        _ => Ok(()),
    }
}

fn add_inputs(
    alloc: Global,
    inputs: &mut Items<InputOutline>,
    parts: &[PartTree],
) -> Result<(), NoMemory>
    ensures { OnOk result (inputs.new ≡ inputs.old ++ flat_map inputs_in_part parts.now) }
{
    for part in parts {
        add_input_part(alloc, inputs, part)?;
    }
    Ok(())
}

fn add_input_part(
    alloc: Global,
    inputs: &mut Items<InputOutline>,
    part: &PartTree,
) -> Result<(), NoMemory>
    ensures { OnOk result (inputs.new ≡ inputs.old ++ inputs_in_part part.now) }
{
    if let PartTree::Input(input) = part {
        add_input(alloc, inputs, input)?;
    }
    Ok(())
}

fn add_input(
    alloc: Global,
    inputs: &mut Items<InputOutline>,
    input: &InputTree,
) -> Result<(), NoMemory>
    ensures { OnOk result (inputs.new ≡ inputs.old ++ input_of input.now) }
{
    if let Some(next) = next_of(alloc, &input.transition)? {
        let steps = steps_of(alloc, &input.transition)?;
        add_received(
            alloc,
            inputs,
            input.inputs.as_slice(),
            input.place,
            steps,
            next,
        )?;
    }
    Ok(())
}

/// Adds the input of an INPUT that has one signal.
fn add_received(
    alloc: Global,
    inputs: &mut Items<InputOutline>,
    signals: &[InTree],
    place: Place,
    steps: Items<StepOutline>,
    next: NextOutline,
) -> Result<(), NoMemory>
    ensures { OnOk result (inputs.new ≡ inputs.old ++ received place signals.now steps next) }
{
    match signals {
        [tree] => {
            let signal = copy_name(alloc, &tree.signal)?;
            inputs.push(InputOutline {
                place,
                signal,
                steps,
                next,
            })?;
            Ok(())
        }
        _ => Ok(()),
    }
}

// ---- transitions

fn steps_of(alloc: Global, transition: &TransitionTree) -> Result<Items<StepOutline>, NoMemory>
    ensures { IfOk result (λ steps. steps ≡ steps_of transition.now) }
{
    let mut steps = Items::new(alloc);
    add_steps(alloc, &mut steps, transition.steps.as_slice())?;
    Ok(steps)
}

fn add_steps(
    alloc: Global,
    steps: &mut Items<StepOutline>,
    trees: &[StepTree],
) -> Result<(), NoMemory>
    ensures { OnOk result (steps.new ≡ steps.old ++ flat_map steps_in_step trees.now) }
{
    for tree in trees {
        add_step(alloc, steps, tree)?;
    }
    Ok(())
}

fn add_step(alloc: Global, steps: &mut Items<StepOutline>, tree: &StepTree) -> Result<(), NoMemory>
    ensures { OnOk result (steps.new ≡ steps.old ++ steps_in_step tree.now) }
{
    match &tree.action {
        ActionTree::Informal(_) => {
            steps.push(StepOutline::Nothing(tree.place))?;
            Ok(())
        }
        ActionTree::Task(_) => Ok(()),
        ActionTree::Output(outs) => {
            add_outputs(alloc, steps, outs.as_slice())?;
            Ok(())
        }
        ActionTree::Call(_) => Ok(()),
        ActionTree::Decision(_) => Ok(()),
    }
}

fn add_outputs(
    alloc: Global,
    steps: &mut Items<StepOutline>,
    outs: &[OutTree],
) -> Result<(), NoMemory>
    ensures { OnOk result (steps.new ≡ steps.old ++ map sent outs.now) }
{
    for out in outs {
        let signal = copy_name(alloc, &out.signal)?;
        steps.push(StepOutline::Output(signal))?;
    }
    Ok(())
}

/// NEXTSTATE with a name, where the transition ends in it.
fn next_of(alloc: Global, transition: &TransitionTree) -> Result<Option<NextOutline>, NoMemory>
    ensures { IfOk result (λ next. next ≡ next_of transition.now) }
{
    match &transition.terminator {
        None => Ok(None),
        Some(end) => {
            let next = next_by(alloc, end)?;
            Ok(next)
        }
    }
}

fn next_by(alloc: Global, end: &TerminatorTree) -> Result<Option<NextOutline>, NoMemory>
    ensures { IfOk result (λ next. next ≡ next_by end.now.place end.now.kind) }
{
    match &end.kind {
        TerminatorKind::Next(state, None) => Ok(Some(NextOutline {
            place: end.place,
            state: copy_name(alloc, state)?,
        })),
        _ => Ok(None),
    }
}

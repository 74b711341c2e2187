//! Makes flat code of a model: one function that carries out transitions, and for the start and for each signal a function
//! that chooses one.
//!
//! `transition` begins with a table over the slot `chosen`, which leads to the code of a body. A body ends by going to the
//! code that enters its next state. `start` and the functions of the signals set `chosen` and call `transition`.
#![tactic(auto, using(og_names::proofs::Loops::loops))]

ghost use Rattle.std.specs.Prelude.{◌≡◌, ◌^◌, ◌<◌, ◌++◌, map, IfOk, OnOk};
ghost use Rattle.og_names.specs.Table.{IsTable};
ghost use Rattle.og_model.specs.Forms.{UsesBasicStatesOnly};
ghost use Rattle.og_model.specs.WellFormed.{IsWellFormed};
ghost use Rattle.og_flatten.specs.Code.{IsCodeOf};
ghost use Rattle.og_flatten.specs.Units.{HasOwnUnits};
ghost use Rattle.og_model.specs.Regions.{regions as regions_of};
ghost use Rattle.og_flatten.specs.FlatCode.{event_word, end_place, function_if_incoming, functions_of, code_for};

mod chooser;
mod code;
pub mod examples;
mod labels;
mod slots;
mod transition;

use crate::chooser::{signal_function, start_function};
use crate::code::{Control, control_behind, joined, name_text, number_of};
use crate::slots::make_slots;
use crate::transition::transition_function;
use og_ir::{FlatFn, Ir};
use og_model::{Model, Region, Signal};
use og_names::{NoMemory, Word};
use og_regions::Regions;
use sqlite_items::Items;
use std::alloc::Global;

/// The flat code of a model of basic states. Its runs are cut into the units of the model: each unit has a place of its own,
/// no place is carried out twice between two units, and what belongs to a step serves nothing else.
pub fn flatten(alloc: Global, model: &Model, regions: &Regions) -> Result<Ir, NoMemory>
    requires formed { IsWellFormed model.now }
    requires basic { UsesBasicStatesOnly model.now }
    requires numbered { regions.now.list ≡ regions_of model.now }
    ensures code { IfOk result (IsCodeOf model.now) }
    ensures units { IfOk result (HasOwnUnits model.now) }
{
    make_code(alloc, model, regions.list.as_slice())
}

/// The code with what is known of a model once its code could be made.
fn make_code(alloc: Global, model: &Model, regions: &[Region]) -> Result<Ir, NoMemory>
    ensures made { IfOk result (λ ir. ir ≡ code_for model.now regions.now) }
    ensures few { IfOk result (λ ir. end_place model.now < 2 ^ 32) }
    ensures table { IsTable model.now.names }
{
    // With the number of names it is said that none of them stands twice.
    let _ = model.names.len();
    let control = control_behind(regions.len())?;
    Ok(Ir {
        slots: make_slots(alloc, model, regions)?,
        events: make_events(alloc, model)?,
        functions: make_functions(alloc, control, model)?,
    })
}

/// An event for each signal, by the interface's name of its output.
fn make_events(alloc: Global, model: &Model) -> Result<Items<Word>, NoMemory>
    ensures { IfOk result (λ events. events ≡ map (event_word model.now) model.now.signals) }
{
    let mut events = Items::new(alloc);
    for signal in model.signals.as_slice() {
        events.push(joined(alloc, b"o_", name_text(model, signal.name))?)?;
    }
    Ok(events)
}

fn make_functions(alloc: Global, control: Control, model: &Model) -> Result<Items<FlatFn>, NoMemory>
    ensures made { IfOk result (λ functions. functions ≡ functions_of control model.now) }
    ensures few { IfOk result (λ functions. end_place model.now < 2 ^ 32) }
{
    let mut functions = Items::new(alloc);
    functions.push(transition_function(alloc, control, model)?)?;
    functions.push(start_function(alloc, control, model)?)?;
    for (number, signal) in model.signals.as_slice().iter().enumerate() {
        put_if_incoming(alloc, control, &mut functions, model, number, signal)?;
    }
    Ok(functions)
}

/// An incoming signal has a function.
fn put_if_incoming(
    alloc: Global,
    control: Control,
    functions: &mut Items<FlatFn>,
    model: &Model,
    number: usize,
    signal: &Signal,
) -> Result<(), NoMemory>
    ensures { OnOk result (functions.new ≡ functions.old ++ function_if_incoming control model.now number signal.now) }
{
    if signal.incoming {
        let function = signal_function(alloc, control, model, number_of(number)?, signal)?;
        functions.push(function)?;
    }
    Ok(())
}

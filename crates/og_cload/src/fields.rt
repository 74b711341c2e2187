//! The names under which a program of a model is reached.
#![tactic(auto, using(og_names::proofs::Loops::loops, crate::proofs::Grown::grown))]

ghost use Rattle.std.specs.Prelude.{◌≡◌, ◌++◌, [], ◌∷◌, map, flat_map, codes, decimal, slice_get, IfOk, OnOk, ℕ};
ghost use Rattle.og_model.specs.declared.EventId.TheVariants as event;
ghost use Rattle.og_model.specs.Regions.{regions as regions_of};
ghost use Rattle.og_csubset.specs.Interface as interface;
ghost use Rattle.og_csubset.specs.Interface.{numbers_below, incoming_from};
ghost use Rattle.og_cload.specs.Fields.{shape_of, fields_in};

use itoa::Buffer;
use og_model::{EventId, Model, Region, Signal, Variable};
use og_names::{NameId, NoMemory, Word};
use og_types::TypeId;
use sqlite_items::Items;
use std::alloc::Global;

/// One number, or the cells of a value of a type.
#[derive(Clone, Copy, Debug, PartialEq, Eq)]
pub enum Shape {
    Number,
    Typed(TypeId),
}

/// A global of the interface.
#[derive(Drop)]
pub struct Field {
    pub name: Word,
    pub shape: Shape,
}

/// The bytes of one text and then those of another.
pub fn joined(alloc: Global, front: &[u8], name: &[u8]) -> Result<Word, NoMemory>
    ensures { IfOk result (λ word. word.bytes ≡ front.now ++ name.now) }
{
    let mut bytes = Vec::from_slice(alloc, front)?;
    bytes.extend_from_slice(name)?;
    Ok(Word {
        bytes: Items::from_vec(bytes),
    })
}

/// The folded name of a number.
pub fn name_of(model: &Model, id: NameId) -> &[u8]
    ensures { result.now ≡ interface.name_of model.now id }
{
    match model.names.text(id) {
        Some(name) => name,
        None => b"",
    }
}

pub fn signal_name(model: &Model, signal: u32) -> &[u8]
    ensures { result.now ≡ interface.signal_name model.now signal }
{
    match model.signals.get(signal as usize) {
        Some(signal) => name_of(model, signal.name),
        None => b"",
    }
}

fn signal_sorts(model: &Model, signal: u32) -> &[TypeId]
    ensures { result.now ≡ interface.signal_sorts model.now signal }
{
    match model.signals.get(signal as usize) {
        Some(signal) => signal.sorts.as_slice(),
        None => &[],
    }
}

pub fn timer_name(model: &Model, timer: u32) -> &[u8]
    ensures { result.now ≡ interface.timer_name model.now timer }
{
    match model.timers.get(timer as usize) {
        Some(name) => name_of(model, *name),
        None => b"",
    }
}

/// The name of a parameter, counted from 1.
fn parameter_name(alloc: Global, front: &[u8], place: usize) -> Result<Word, NoMemory>
    ensures { IfOk result (λ word. word.bytes ≡ front.now ++ codes "__" ++ decimal place) }
{
    let mut buffer = Buffer::new();
    let mut bytes = Vec::from_slice(alloc, front)?;
    bytes.extend_from_slice(b"__")?;
    bytes.extend_from_slice(buffer.format(place).as_bytes())?;
    Ok(Word {
        bytes: Items::from_vec(bytes),
    })
}

/// Adds the globals of parameters.
fn add_parameters(
    alloc: Global,
    fields: &mut Vec<Field>,
    front: &[u8],
    sorts: &[TypeId],
) -> Result<(), NoMemory>
    ensures { OnOk result (fields_in fields.new.items ≡ fields_in fields.old.items ++ interface.parameters_from 1 front.now sorts.now) }
{
    for (place, sort) in sorts.iter().enumerate() {
        let name = parameter_name(alloc, front, place + 1)?;
        add_field(fields, name, Shape::Typed(*sort))?;
    }
    Ok(())
}

fn add_field(fields: &mut Vec<Field>, name: Word, shape: Shape) -> Result<(), NoMemory>
    ensures { OnOk result (fields_in fields.new.items ≡ fields_in fields.old.items ++ record { name = name.bytes; shape = shape_of shape } ∷ []) }
{
    fields.push(Field { name, shape })?;
    Ok(())
}

/// Adds the globals of an incoming signal's parameters.
pub fn add_inputs(
    alloc: Global,
    model: &Model,
    fields: &mut Vec<Field>,
    signal: u32,
) -> Result<(), NoMemory>
    ensures { OnOk result (fields_in fields.new.items ≡ fields_in fields.old.items ++ interface.inputs_of model.now signal) }
{
    let front = joined(alloc, b"i_", signal_name(model, signal))?;
    add_parameters(
        alloc,
        fields,
        front.bytes.as_slice(),
        signal_sorts(model, signal),
    )?;
    Ok(())
}

/// The globals of an output's parameters.
pub fn outputs_of(alloc: Global, model: &Model, signal: u32) -> Result<Vec<Field>, NoMemory>
    ensures { IfOk result (λ fields. fields_in fields.items ≡ interface.outputs_of model.now signal) }
{
    let mut fields = Vec::new(alloc);
    let front = joined(alloc, b"o_", signal_name(model, signal))?;
    add_parameters(
        alloc,
        &mut fields,
        front.bytes.as_slice(),
        signal_sorts(model, signal),
    )?;
    Ok(fields)
}

/// The name of a timer's duration.
pub fn duration_name(alloc: Global, model: &Model, timer: u32) -> Result<Word, NoMemory>
    ensures { IfOk result (λ word. word.bytes ≡ (interface.duration_of model.now timer).name) }
{
    joined(alloc, b"d_", timer_name(model, timer))
}

/// The globals that an event's values are read from.
pub fn event_globals(alloc: Global, model: &Model, event: EventId) -> Result<Vec<Field>, NoMemory>
    ensures { IfOk result (λ fields. fields_in fields.items ≡ interface.event_globals model.now event) }
{
    match event {
        EventId::Output(signal) => outputs_of(alloc, model, signal),
        EventId::Set(timer) => {
            let mut fields = Vec::new(alloc);
            let name = duration_name(alloc, model, timer)?;
            add_field(&mut fields, name, Shape::Number)?;
            Ok(fields)
        }
        EventId::Reset(_) => Ok(Vec::new(alloc)),
    }
}

pub fn event_name(alloc: Global, model: &Model, event: EventId) -> Result<Word, NoMemory>
    ensures { IfOk result (λ word. word.bytes ≡ interface.event_name model.now event) }
{
    match event {
        EventId::Output(signal) => joined(alloc, b"o_", signal_name(model, signal)),
        EventId::Set(timer) => joined(alloc, b"s_", timer_name(model, timer)),
        EventId::Reset(timer) => joined(alloc, b"x_", timer_name(model, timer)),
    }
}

/// A number of 32 bits. A list of more signals or timers does not fit into memory.
pub fn count_of(length: usize) -> Result<u32, NoMemory>
    ensures { IfOk result (λ count. count ≡ length) }
{
    if length > u32::MAX as usize {
        return Err(NoMemory::past_numbers(length));
    }
    Ok(length as u32)
}

/// All events that a program of the model may show.
pub fn events_of(alloc: Global, model: &Model) -> Result<Items<EventId>, NoMemory>
    ensures { IfOk result (λ events. events ≡ interface.events_of model.now) }
{
    let signals = count_of(model.signals.len())?;
    let timers = count_of(model.timers.len())?;
    let mut events = Items::new(alloc);
    add_outputs(&mut events, signals)?;
    add_timers(&mut events, timers)?;
    Ok(events)
}

fn add_outputs(events: &mut Items<EventId>, count: u32) -> Result<(), NoMemory>
    ensures { OnOk result (events.new ≡ events.old ++ map event.Output (numbers_below count)) }
{
    for signal in 0..count {
        events.push(EventId::Output(signal))?;
    }
    Ok(())
}

fn add_timers(events: &mut Items<EventId>, count: u32) -> Result<(), NoMemory>
    ensures { OnOk result (events.new ≡ events.old ++ flat_map (λ k. event.Set k ∷ event.Reset k ∷ []) (numbers_below count)) }
{
    for timer in 0..count {
        events.push(EventId::Set(timer))?;
        events.push(EventId::Reset(timer))?;
    }
    Ok(())
}

/// The name of a region's active leaf.
pub fn region_name(alloc: Global, model: &Model, region: &Region) -> Result<Word, NoMemory>
    ensures { IfOk result (λ word. word.bytes ≡ (interface.region_field model.now region.now).name) }
{
    let mut bytes = Vec::from_slice(alloc, b"r")?;
    for id in region.path.as_slice() {
        bytes.extend_from_slice(b"__")?;
        bytes.extend_from_slice(name_of(model, *id))?;
    }
    Ok(Word {
        bytes: Items::from_vec(bytes),
    })
}

fn add_regions(
    alloc: Global,
    model: &Model,
    fields: &mut Vec<Field>,
    regions: &[Region],
) -> Result<(), NoMemory>
    ensures { OnOk result (fields_in fields.new.items ≡ fields_in fields.old.items ++ map (interface.region_field model.now) regions.now) }
{
    for region in regions {
        let name = region_name(alloc, model, region)?;
        add_field(fields, name, Shape::Number)?;
    }
    Ok(())
}

fn add_number(alloc: Global, fields: &mut Vec<Field>, name: &[u8]) -> Result<(), NoMemory>
    ensures { OnOk result (fields_in fields.new.items ≡ fields_in fields.old.items ++ interface.number_field name.now ∷ []) }
{
    let bytes = Items::from_slice(alloc, name)?;
    add_field(fields, Word { bytes }, Shape::Number)
}

/// The globals of the active states, of STOP and of a fault.
fn add_control(
    alloc: Global,
    model: &Model,
    fields: &mut Vec<Field>,
    regions: &[Region],
) -> Result<(), NoMemory>
    ensures { OnOk result (fields_in fields.new.items ≡ fields_in fields.old.items ++ (map (interface.region_field model.now) regions.now ++ map interface.number_field (interface.stopped_name ∷ interface.kind_name ∷ interface.file_name ∷ interface.line_name ∷ interface.column_name ∷ []))) }
{
    add_regions(alloc, model, fields, regions)?;
    add_number(alloc, fields, b"stopped")?;
    add_number(alloc, fields, b"f_kind")?;
    add_number(alloc, fields, b"f_file")?;
    add_number(alloc, fields, b"f_line")?;
    add_number(alloc, fields, b"f_column")?;
    Ok(())
}

/// Adds the globals of variables.
pub fn add_variables(
    alloc: Global,
    model: &Model,
    fields: &mut Vec<Field>,
    variables: &[Variable],
) -> Result<(), NoMemory>
    ensures { OnOk result (fields_in fields.new.items ≡ fields_in fields.old.items ++ map (interface.variable_field model.now) variables.now) }
{
    for variable in variables {
        let name = joined(alloc, b"v_", name_of(model, variable.name))?;
        add_field(fields, name, Shape::Typed(variable.sort))?;
    }
    Ok(())
}

/// Adds the globals that say which timers are active.
pub fn add_timer_fields(
    alloc: Global,
    model: &Model,
    fields: &mut Vec<Field>,
    timers: &[NameId],
) -> Result<(), NoMemory>
    ensures { OnOk result (fields_in fields.new.items ≡ fields_in fields.old.items ++ map (interface.timer_field model.now) timers.now) }
{
    for timer in timers {
        let name = joined(alloc, b"t_", name_of(model, *timer))?;
        add_field(fields, name, Shape::Number)?;
    }
    Ok(())
}

/// Adds the globals of all incoming signals' parameters.
fn add_all_inputs(
    alloc: Global,
    model: &Model,
    fields: &mut Vec<Field>,
    signals: &[Signal],
) -> Result<(), NoMemory>
    ensures { OnOk result (fields_in fields.new.items ≡ fields_in fields.old.items ++ flat_map (interface.inputs_of model.now) (incoming_from 0 signals.now)) }
{
    let count = count_of(signals.len())?;
    for signal in 0..count {
        if signals[signal as usize].incoming {
            add_inputs(alloc, model, fields, signal)?;
        }
    }
    Ok(())
}

/// The globals that each program of the model has.
pub fn fields_of(alloc: Global, model: &Model, regions: &[Region]) -> Result<Vec<Field>, NoMemory>
    requires { regions.now ≡ regions_of model.now }
    ensures { IfOk result (λ fields. fields_in fields.items ≡ interface.fields_of model.now) }
{
    let mut fields = Vec::new(alloc);
    add_control(alloc, model, &mut fields, regions)?;
    add_variables(alloc, model, &mut fields, model.variables.as_slice())?;
    add_timer_fields(alloc, model, &mut fields, model.timers.as_slice())?;
    add_all_inputs(alloc, model, &mut fields, model.signals.as_slice())?;
    Ok(fields)
}

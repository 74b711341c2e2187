//! A program has the interface of its model.
#![tactic(auto, using(og_names::proofs::Loops::loops, crate::proofs::Declared::declared))]

ghost use Rattle.std.specs.Prelude.{◌≡◌, ℕ, map, length, IfOk};
ghost use Rattle.std.specs.List.{list_all};
ghost use Rattle.og_model.specs.Regions.{regions as regions_of};
ghost use Rattle.og_csubset.specs.Interface as interface;
ghost use Rattle.og_csubset.specs.Interface.{incoming_from, numbers_below, signal_function, timer_function};
ghost use Rattle.og_csubset.specs.Kinds.{is_in as is_among, event_names as names_of_events};
ghost use Rattle.og_csubset.specs.Loading.{all_names as names_of_all, has_event as has_event_of, breaks_K9};
ghost use Rattle.og_csubset.specs.Reads.{event_named as event_of_name};
ghost use Rattle.og_cload.specs.Names.{names_in};
ghost use Rattle.og_cload.specs.Fields.{field_of, fields_in, has_field_over, free_or_has};

use crate::fields::{
    Field, count_of, event_globals, event_name, events_of, fields_of, joined, signal_name,
    timer_name,
};
use crate::kinds::global_kind;
use crate::names::{all_names, event_names, function_names, is_in};
use crate::shapes::is_shaped;
use og_csubset::CProgram;
use og_model::{EventId, Model, Region, Signal};
use og_names::{NoMemory, Word};
use og_types::Sort;
use std::alloc::Global;

/// An interface name missing or of another shape, or an event that is not the model's.
pub fn breaks_k9(
    alloc: Global,
    program: &CProgram,
    model: &Model,
    sorts: &[Sort],
    regions: &[Region],
) -> Result<bool, NoMemory>
    requires sorts { sorts.now ≡ model.now.types }
    requires regions { regions.now ≡ regions_of model.now }
    ensures { IfOk result (λ broken. broken ≡ breaks_K9 program.now model.now) }
{
    if !has_functions(alloc, program, model)? {
        return Ok(true);
    }
    let fields = fields_of(alloc, model, regions)?;
    if !has_fields(program, sorts, fields.as_slice()) {
        return Ok(true);
    }
    let events = events_of(alloc, model)?;
    if !has_events(alloc, program, model, sorts, events.as_slice())? {
        return Ok(true);
    }
    let known = are_events(alloc, model, program.events.as_slice(), events.as_slice())?;
    Ok(!known)
}

fn has_functions(alloc: Global, program: &CProgram, model: &Model) -> Result<bool, NoMemory>
    ensures { IfOk result (λ has. has ≡ list_all (λ name. is_among name (map (λ f. f.name.bytes) program.now.functions)) (interface.functions_of model.now)) }
{
    let names = function_names(alloc, program)?;
    if !is_in(b"start", names.as_slice()) {
        return Ok(false);
    }
    if !has_signals(alloc, model, model.signals.as_slice(), names.as_slice())? {
        return Ok(false);
    }
    has_timers(alloc, model, names.as_slice())
}

fn has_signals(
    alloc: Global,
    model: &Model,
    signals: &[Signal],
    names: &[&[u8]],
) -> Result<bool, NoMemory>
    ensures { IfOk result (λ has. has ≡ list_all (λ k. is_among (signal_function model.now k) (names_in names.now)) (incoming_from 0 signals.now)) }
{
    let count = count_of(signals.len())?;
    for signal in 0..count {
        if signals[signal as usize].incoming {
            let name = joined(alloc, b"on_", signal_name(model, signal))?;
            if !is_in(name.bytes.as_slice(), names) {
                return Ok(false);
            }
        }
    }
    Ok(true)
}

fn has_timers(alloc: Global, model: &Model, names: &[&[u8]]) -> Result<bool, NoMemory>
    ensures { IfOk result (λ has. has ≡ list_all (λ k. is_among (timer_function model.now k) (names_in names.now)) (numbers_below (length model.now.timers))) }
{
    let count = count_of(model.timers.len())?;
    for timer in 0..count {
        let has = has_timer(alloc, model, timer, names)?;
        if !has {
            return Ok(false);
        }
    }
    Ok(true)
}

fn has_timer(alloc: Global, model: &Model, timer: u32, names: &[&[u8]]) -> Result<bool, NoMemory>
    ensures { IfOk result (λ has. has ≡ is_among (timer_function model.now timer) (names_in names.now)) }
{
    let name = joined(alloc, b"at_", timer_name(model, timer))?;
    Ok(is_in(name.bytes.as_slice(), names))
}

/// The global is declared, with its shape.
fn has_field(program: &CProgram, sorts: &[Sort], field: &Field) -> bool
    ensures { result ≡ has_field_over program.now sorts.now (field_of field.now) }
{
    match global_kind(program, field.name.bytes.as_slice()) {
        None => false,
        Some(held) => is_shaped(program.structs.as_slice(), sorts, field.shape, held.of),
    }
}

fn has_fields(program: &CProgram, sorts: &[Sort], fields: &[Field]) -> bool
    ensures { result ≡ list_all (has_field_over program.now sorts.now) (fields_in fields.now) }
{
    for field in fields {
        if !has_field(program, sorts, field) {
            return false;
        }
    }
    true
}

/// Each of the globals is declared with its shape, or not at all.
fn are_free_or_fit(program: &CProgram, names: &[&[u8]], sorts: &[Sort], fields: &[Field]) -> bool
    ensures { result ≡ list_all (free_or_has program.now sorts.now (names_in names.now)) (fields_in fields.now) }
{
    for field in fields {
        if is_in(field.name.bytes.as_slice(), names) && !has_field(program, sorts, field) {
            return false;
        }
    }
    true
}

fn has_events(
    alloc: Global,
    program: &CProgram,
    model: &Model,
    sorts: &[Sort],
    events: &[EventId],
) -> Result<bool, NoMemory>
    requires { sorts.now ≡ model.now.types }
    ensures { IfOk result (λ has. has ≡ list_all (has_event_of program.now model.now) events.now) }
{
    let declared = event_names(alloc, program)?;
    let all = all_names(alloc, program)?;
    for event in events {
        let has = has_event(
            alloc,
            program,
            model,
            sorts,
            declared.as_slice(),
            all.as_slice(),
            *event,
        )?;
        if !has {
            return Ok(false);
        }
    }
    Ok(true)
}

/// What is declared under the names of an event is that event with its globals.
fn has_event(
    alloc: Global,
    program: &CProgram,
    model: &Model,
    sorts: &[Sort],
    declared: &[&[u8]],
    all: &[&[u8]],
    event: EventId,
) -> Result<bool, NoMemory>
    requires sorts { sorts.now ≡ model.now.types }
    requires declared { names_in declared.now ≡ names_of_events program.now }
    requires all { names_in all.now ≡ names_of_all program.now }
    ensures { IfOk result (λ has. has ≡ has_event_of program.now model.now event) }
{
    let name = event_name(alloc, model, event)?;
    let globals = event_globals(alloc, model, event)?;
    if is_in(name.bytes.as_slice(), declared) {
        return Ok(has_fields(program, sorts, globals.as_slice()));
    }
    if is_in(name.bytes.as_slice(), all) {
        return Ok(false);
    }
    Ok(are_free_or_fit(program, all, sorts, globals.as_slice()))
}

/// Each of the names is that of an event.
fn are_events(
    alloc: Global,
    model: &Model,
    names: &[Word],
    events: &[EventId],
) -> Result<bool, NoMemory>
    ensures { IfOk result (λ are. are ≡ list_all (λ name. is_among name (map (interface.event_name model.now) events.now)) (map (λ e. e.bytes) names.now)) }
{
    for name in names {
        if !is_event(alloc, model, name.bytes.as_slice(), events)? {
            return Ok(false);
        }
    }
    Ok(true)
}

fn is_event(alloc: Global, model: &Model, name: &[u8], events: &[EventId]) -> Result<bool, NoMemory>
    ensures { IfOk result (λ is. is ≡ is_among name.now (map (interface.event_name model.now) events.now)) }
{
    let found = event_named(alloc, model, name, events)?;
    Ok(found.is_some())
}

/// The event of a name.
pub fn event_named(
    alloc: Global,
    model: &Model,
    name: &[u8],
    events: &[EventId],
) -> Result<Option<EventId>, NoMemory>
    ensures { IfOk result (λ event. event ≡ event_of_name model.now name.now events.now) }
{
    for event in events {
        let other = event_name(alloc, model, *event)?;
        if name == other.bytes.as_slice() {
            return Ok(Some(*event));
        }
    }
    Ok(None)
}

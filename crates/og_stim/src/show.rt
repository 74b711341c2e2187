//! The lines of a trace.
ghost use Rattle.std.specs.Prelude.{◌≡◌, ◌++◌, IfOk, OnOk, codes, decimal, slice_get};
ghost use Rattle.std.specs.List.{flat_map};
ghost use Rattle.og_value.specs.Shows.{separated, comma_before};
ghost use Rattle.og_stim.specs.Trace.{end_lines, end_of, rest_lines, lines_of_process, leaf_path, path_of, dotted, state_line, leaf_line, var_line, var_lines, timer_line, timer_if, timer_lines, kind_text, stuck_text, stuck_line, fault_line, file_text, name_of, signal_name, timer_name, value_texts, arguments_text, name_of_stimulus, stimulus_text, stimulus_line, number_text, event_text, event_line, event_of};

use crate::stimuli::{Stimulus, sorts_of};
use itoa::Buffer;
use og_base::Place;
use og_model::{FaultKind, Model, Region, StimId, StuckRule, Variable};
use og_names::{NameId, NoMemory, Word};
use og_regions::Regions;
use og_types::{TypeId, Value};
use og_value::write_value;
use sqlite_items::{Items, at};
use std::alloc::Global;

/// An event: an output with its values, or a timer that is set, with its duration, or reset.
#[derive(Drop)]
pub enum Happening {
    Output { signal: u32, values: Items<Value> },
    Set { timer: u32, duration: i64 },
    Reset { timer: u32 },
}

/// The leaf at which a region rests, by their numbers.
#[derive(Clone, Copy, Debug, PartialEq, Eq)]
pub struct ActiveLeaf {
    pub region: u32,
    pub leaf: u32,
}

/// How a run has ended, with the values of the variables, and for each timer whether it is active.
#[derive(Drop)]
pub enum TraceEnd {
    Rest {
        leaves: Items<ActiveLeaf>,
        values: Items<Value>,
        timers: Items<bool>,
    },
    Fault {
        kind: FaultKind,
        place: Place,
        values: Items<Value>,
        timers: Items<bool>,
    },
    Stopped {
        values: Items<Value>,
    },
    Past,
    Stuck {
        rule: StuckRule,
    },
}

/// Appends the line of a stimulus with its values, or of the start.
pub fn show_stimulus(model: &Model, stimulus: &Stimulus, out: &mut Vec<u8>) -> Result<(), NoMemory>
    ensures { OnOk result (out.new.items ≡ out.old.items ++ stimulus_line model.now stimulus.now) }
{
    put(out, b"> ")?;
    put_stimulus(model, stimulus, out)?;
    put(out, b"\n")
}

/// Appends the line of an event, an output with its values.
pub fn show_event(model: &Model, event: &Happening, out: &mut Vec<u8>) -> Result<(), NoMemory>
    ensures { OnOk result (out.new.items ≡ out.old.items ++ event_line model.now (event_of event.now)) }
{
    put_event(model, event, out)?;
    put(out, b"\n")
}

/// Appends the lines of how a run has ended. The regions are those of the model, and the files are the words that its places
/// count.
pub fn show_end(
    alloc: Global,
    model: &Model,
    regions: &Regions,
    files: &[Word],
    end: &TraceEnd,
    out: &mut Vec<u8>,
) -> Result<(), NoMemory>
    ensures { OnOk result (out.new.items ≡ out.old.items ++ end_lines model.now files.now (end_of regions.now.list end.now)) }
{
    match end {
        TraceEnd::Rest {
            leaves,
            values,
            timers,
        } => put_rest(alloc, model, regions, leaves, values, timers, out),
        TraceEnd::Fault {
            kind,
            place,
            values,
            timers,
        } => {
            put_fault(files, *kind, *place, out)?;
            put_process(model, values, timers, out)
        }
        TraceEnd::Stopped { values } => {
            put(out, b"stopped\n")?;
            put_variables(model, model.variables.as_slice(), values.as_slice(), out)
        }
        TraceEnd::Past => put(out, b"past\n"),
        TraceEnd::Stuck { rule } => put_stuck(*rule, out),
    }
}

fn put_rest(
    alloc: Global,
    model: &Model,
    regions: &Regions,
    leaves: &Items<ActiveLeaf>,
    values: &Items<Value>,
    timers: &Items<bool>,
    out: &mut Vec<u8>,
) -> Result<(), NoMemory>
    ensures { OnOk result (out.new.items ≡ out.old.items ++ rest_lines model.now regions.now.list leaves.now values.now timers.now) }
{
    put(out, b"rest\n")?;
    put_leaves(
        alloc,
        model,
        regions.list.as_slice(),
        leaves.as_slice(),
        out,
    )?;
    put_process(model, values, timers, out)
}

/// Appends the lines of the variables and of the active timers.
fn put_process(
    model: &Model,
    values: &Items<Value>,
    timers: &Items<bool>,
    out: &mut Vec<u8>,
) -> Result<(), NoMemory>
    ensures { OnOk result (out.new.items ≡ out.old.items ++ lines_of_process model.now values.now timers.now) }
{
    put_variables(model, model.variables.as_slice(), values.as_slice(), out)?;
    put_timers(model, model.timers.as_slice(), timers.as_slice(), out)
}

/// Appends a line for each variable that has a value.
fn put_variables(
    model: &Model,
    variables: &[Variable],
    values: &[Value],
    out: &mut Vec<u8>,
) -> Result<(), NoMemory>
    ensures { OnOk result (out.new.items ≡ out.old.items ++ var_lines model.now variables.now values.now) }
{
    for (place, variable) in variables.iter().enumerate() {
        let Some(value) = at(values, place) else {
            return Ok(());
        };
        put_variable(model, variable, value, out)?;
    }
    Ok(())
}

fn put_variable(
    model: &Model,
    variable: &Variable,
    value: &Value,
    out: &mut Vec<u8>,
) -> Result<(), NoMemory>
    ensures { OnOk result (out.new.items ≡ out.old.items ++ var_line model.now variable.now value.now) }
{
    put(out, b"var ")?;
    put_name(model, variable.name, out)?;
    put(out, b" = ")?;
    write_value(&model.types, &model.names, variable.sort, value, out)?;
    put(out, b"\n")
}

fn put_leaves(
    alloc: Global,
    model: &Model,
    regions: &[Region],
    leaves: &[ActiveLeaf],
    out: &mut Vec<u8>,
) -> Result<(), NoMemory>
    ensures { OnOk result (out.new.items ≡ out.old.items ++ flat_map (leaf_line model.now regions.now) leaves.now) }
{
    for leaf in leaves {
        put_leaf(alloc, model, regions, *leaf, out)?;
    }
    Ok(())
}

fn put_leaf(
    alloc: Global,
    model: &Model,
    regions: &[Region],
    active: ActiveLeaf,
    out: &mut Vec<u8>,
) -> Result<(), NoMemory>
    ensures { OnOk result (out.new.items ≡ out.old.items ++ state_line model.now (path_of regions.now active)) }
{
    let path = path_to(alloc, regions, active)?;
    put(out, b"state ")?;
    put_dotted(model, path.as_slice(), out)?;
    put(out, b"\n")
}

/// The names from the process to a leaf.
fn path_to(alloc: Global, regions: &[Region], active: ActiveLeaf) -> Result<Vec<NameId>, NoMemory>
    ensures { IfOk result (λ path. path.items ≡ path_of regions.now active) }
{
    match regions.get(active.region as usize) {
        None => Ok(Vec::new(alloc)),
        Some(region) => {
            let mut path = Vec::from_slice(alloc, region.path.as_slice())?;
            path.extend_from_slice(path_of_leaf(region, active.leaf))?;
            Ok(path)
        }
    }
}

/// The names from a region to its leaf of this number.
fn path_of_leaf(region: &Region, number: u32) -> &[NameId]
    ensures { result.now ≡ leaf_path (slice_get region.now.leaves number) }
{
    match region.leaves.get(number as usize) {
        None => &[],
        Some(leaf) => leaf.path.as_slice(),
    }
}

/// Appends names with a dot between two of them. A path is no longer than states are nested.
fn put_dotted(model: &Model, names: &[NameId], out: &mut Vec<u8>) -> Result<(), NoMemory>
    ensures { OnOk result (out.new.items ≡ out.old.items ++ dotted model.now names.now) }
{
    match names {
        [] => Ok(()),
        [name] => put_name(model, *name, out),
        [name, more @ ..] => {
            put_name(model, *name, out)?;
            put(out, b".")?;
            put_dotted(model, more, out)
        }
    }
}

/// Appends a line for each timer that is active.
fn put_timers(
    model: &Model,
    timers: &[NameId],
    active: &[bool],
    out: &mut Vec<u8>,
) -> Result<(), NoMemory>
    ensures { OnOk result (out.new.items ≡ out.old.items ++ timer_lines model.now timers.now active.now) }
{
    match timers {
        [] => Ok(()),
        [timer, timers @ ..] => match active {
            [] => Ok(()),
            [runs, active @ ..] => {
                put_timer_if(model, *timer, *runs, out)?;
                put_timers(model, timers, active, out)
            }
        },
    }
}

fn put_timer_if(model: &Model, timer: NameId, runs: bool, out: &mut Vec<u8>) -> Result<(), NoMemory>
    ensures { OnOk result (out.new.items ≡ out.old.items ++ timer_if model.now timer runs) }
{
    if runs {
        return put_timer_line(model, timer, out);
    }
    Ok(())
}

fn put_timer_line(model: &Model, timer: NameId, out: &mut Vec<u8>) -> Result<(), NoMemory>
    ensures { OnOk result (out.new.items ≡ out.old.items ++ timer_line model.now timer) }
{
    put(out, b"timer ")?;
    put_name(model, timer, out)?;
    put(out, b"\n")
}

fn put_fault(
    files: &[Word],
    kind: FaultKind,
    place: Place,
    out: &mut Vec<u8>,
) -> Result<(), NoMemory>
    ensures { OnOk result (out.new.items ≡ out.old.items ++ fault_line files.now kind place) }
{
    put(out, b"fault ")?;
    put(out, kind_word(kind))?;
    put(out, b" ")?;
    put_file(files, place.file, out)?;
    put(out, b":")?;
    put_count(out, place.line)?;
    put(out, b":")?;
    put_count(out, place.column)?;
    put(out, b"\n")
}

fn put_file(files: &[Word], number: u32, out: &mut Vec<u8>) -> Result<(), NoMemory>
    ensures { OnOk result (out.new.items ≡ out.old.items ++ file_text files.now number) }
{
    match files.get(number as usize) {
        None => Ok(()),
        Some(word) => put(out, word.bytes.as_slice()),
    }
}

fn put_stuck(rule: StuckRule, out: &mut Vec<u8>) -> Result<(), NoMemory>
    ensures { OnOk result (out.new.items ≡ out.old.items ++ stuck_line rule) }
{
    put(out, b"stuck ")?;
    put(out, stuck_word(rule))?;
    put(out, b"\n")
}

/// The name of a kind of faults, as a trace has it.
fn kind_word(kind: FaultKind) -> &'static [u8]
    ensures { result.now ≡ kind_text kind }
{
    match kind {
        FaultKind::Range => b"Range",
        FaultKind::Index => b"Index",
        FaultKind::Division => b"Division",
        FaultKind::Alternative => b"Alternative",
        FaultKind::Size => b"Size",
    }
}

fn stuck_word(rule: StuckRule) -> &'static [u8]
    ensures { result.now ≡ stuck_text rule }
{
    match rule {
        StuckRule::Overflow => b"Overflow",
        StuckRule::Index => b"Index",
        StuckRule::Divide => b"Divide",
        StuckRule::Value => b"Value",
    }
}

fn put_count(out: &mut Vec<u8>, count: u32) -> Result<(), NoMemory>
    ensures { OnOk result (out.new.items ≡ out.old.items ++ decimal count) }
{
    let mut buffer = Buffer::new();
    put(out, buffer.format(count).as_bytes())
}

fn put_event(model: &Model, event: &Happening, out: &mut Vec<u8>) -> Result<(), NoMemory>
    ensures { OnOk result (out.new.items ≡ out.old.items ++ event_text model.now (event_of event.now)) }
{
    match event {
        Happening::Output { signal, values } => {
            put(out, b"output ")?;
            put_signal(model, *signal, out)?;
            let sorts = sorts_of(model, StimId::Signal(*signal));
            put_arguments(model, sorts, values.as_slice(), out)
        }
        Happening::Set { timer, duration } => {
            put(out, b"set ")?;
            put_timer(model, *timer, out)?;
            put(out, b"(")?;
            put_number(out, *duration)?;
            put(out, b")")
        }
        Happening::Reset { timer } => {
            put(out, b"reset ")?;
            put_timer(model, *timer, out)
        }
    }
}

fn put_stimulus(model: &Model, stimulus: &Stimulus, out: &mut Vec<u8>) -> Result<(), NoMemory>
    ensures { OnOk result (out.new.items ≡ out.old.items ++ stimulus_text model.now stimulus.now) }
{
    put_stimulus_name(model, stimulus.id, out)?;
    let sorts = sorts_of(model, stimulus.id);
    put_arguments(model, sorts, stimulus.values.as_slice(), out)
}

/// Appends values in brackets, where there are any.
fn put_arguments(
    model: &Model,
    sorts: &[TypeId],
    values: &[Value],
    out: &mut Vec<u8>,
) -> Result<(), NoMemory>
    ensures { OnOk result (out.new.items ≡ out.old.items ++ arguments_text model.now sorts.now values.now) }
{
    if sorts.is_empty() {
        return Ok(());
    }
    if values.is_empty() {
        return Ok(());
    }
    put_bracketed(model, sorts, values, out)
}

fn put_bracketed(
    model: &Model,
    sorts: &[TypeId],
    values: &[Value],
    out: &mut Vec<u8>,
) -> Result<(), NoMemory>
    ensures { OnOk result (out.new.items ≡ out.old.items ++ (codes "(" ++ separated (value_texts model.now sorts.now values.now) ++ codes ")")) }
{
    put(out, b"(")?;
    put_values(model, sorts, values, out)?;
    put(out, b")")
}

/// Appends values, as many as there are types, with a comma between two.
fn put_values(
    model: &Model,
    sorts: &[TypeId],
    values: &[Value],
    out: &mut Vec<u8>,
) -> Result<(), NoMemory>
    ensures { OnOk result (out.new.items ≡ out.old.items ++ separated (value_texts model.now sorts.now values.now)) }
{
    for (place, sort) in sorts.iter().enumerate() {
        let Some(value) = at(values, place) else {
            return Ok(());
        };
        put_comma(place, out)?;
        write_value(&model.types, &model.names, *sort, value, out)?;
    }
    Ok(())
}

/// What stands before the value that comes after so many others.
fn put_comma(before: usize, out: &mut Vec<u8>) -> Result<(), NoMemory>
    ensures { OnOk result (out.new.items ≡ out.old.items ++ comma_before before) }
{
    if before == 0 {
        return Ok(());
    }
    put(out, b", ")
}

fn put_stimulus_name(model: &Model, id: StimId, out: &mut Vec<u8>) -> Result<(), NoMemory>
    ensures { OnOk result (out.new.items ≡ out.old.items ++ name_of_stimulus model.now id) }
{
    match id {
        StimId::Start => put(out, b"start"),
        StimId::Signal(number) => put_signal(model, number, out),
        StimId::Timer(number) => put_timer(model, number, out),
    }
}

fn put_signal(model: &Model, number: u32, out: &mut Vec<u8>) -> Result<(), NoMemory>
    ensures { OnOk result (out.new.items ≡ out.old.items ++ signal_name model.now number) }
{
    match model.signals.get(number as usize) {
        None => Ok(()),
        Some(signal) => put_name(model, signal.name, out),
    }
}

fn put_timer(model: &Model, number: u32, out: &mut Vec<u8>) -> Result<(), NoMemory>
    ensures { OnOk result (out.new.items ≡ out.old.items ++ timer_name model.now number) }
{
    match model.timers.get(number as usize) {
        None => Ok(()),
        Some(name) => put_name(model, *name, out),
    }
}

fn put_name(model: &Model, name: NameId, out: &mut Vec<u8>) -> Result<(), NoMemory>
    ensures { OnOk result (out.new.items ≡ out.old.items ++ name_of model.now name) }
{
    match model.names.text(name) {
        None => Ok(()),
        Some(text) => put(out, text),
    }
}

fn put_number(out: &mut Vec<u8>, number: i64) -> Result<(), NoMemory>
    ensures { OnOk result (out.new.items ≡ out.old.items ++ number_text number) }
{
    let mut buffer = Buffer::new();
    put(out, buffer.format(number).as_bytes())
}

fn put(out: &mut Vec<u8>, bytes: &[u8]) -> Result<(), NoMemory>
    ensures { OnOk result (out.new.items ≡ out.old.items ++ bytes.now) }
{
    out.extend_from_slice(bytes)?;
    Ok(())
}

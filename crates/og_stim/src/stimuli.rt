//! The next stimulus of a file.
ghost use Rattle.std.specs.Prelude.{◌≡◌, ◌≤◌, ◌+◌, length, map, Some, IfOk, IfErr};
ghost use Rattle.og_stim.specs.Stimuli.{judged, known_or_unknown, counted as counted_by, values_read, value_read, sorts_of as sorts_of_stimulus, stimulus_named, numbered, signal_from, timer_from, line_at, IsNext, IsBadLine};

use crate::forms::form_in;
use crate::lines::{first_line, is_skipped};
use og_model::{Model, Signal, StimId};
use og_names::{NameId, NoMemory};
use og_types::{TypeId, Value};
use og_value::{ValueError, read_value};
use sqlite_items::{Items, at};
use std::alloc::Global;

/// A stimulus with the values of its parameters.
#[derive(Drop)]
pub struct Stimulus {
    pub id: StimId,
    pub values: Items<Value>,
}

/// Where the next line begins, and how many lines come before it.
#[derive(Clone, Copy, Debug, PartialEq, Eq)]
pub struct Cursor {
    pub offset: usize,
    pub line: u32,
}

/// The rules of stimuli files: Q1 a line of no form, Q2 a name that is no incoming signal and no timer, Q3 a wrong number of
/// values, Q4 a value outside its type, Q5 a line of more than 65,536 bytes, Q6 a line past 1,000,000.
#[derive(Clone, Copy, Debug, PartialEq, Eq)]
pub enum StimRule {
    Q1,
    Q2,
    Q3,
    Q4,
    Q5,
    Q6,
}

/// A line that breaks a rule, counted from 1, or want of memory.
#[derive(Clone, Copy, Debug, PartialEq, Eq)]
pub enum StimError {
    Bad { line: u32, rule: StimRule },
    NoMemory(NoMemory),
}

/// The most lines that a file may have, and the most bytes that a line may have.
const LINES: u32 = 1000000;

const BYTES: usize = 65536;

/// The next stimulus of the text, or nothing at its end, where the cursor then stands. Blank lines and comments are passed
/// over, and counted. After a bad line the cursor stays.
pub fn next_stimulus(
    alloc: Global,
    model: &Model,
    text: &[u8],
    cursor: &mut Cursor,
) -> Result<Option<Stimulus>, StimError>
    requires few_signals { length model.now.signals ≤ 200 }
    requires few_timers { length model.now.timers ≤ 200 }
    requires inside { cursor.old.offset ≤ length text.now }
    requires few_lines { cursor.old.line ≤ 1000000 }
    ensures next { IfOk result (IsNext model.now text.now cursor.old cursor.new) }
    ensures line { IfOk result (λ _. cursor.new.line ≡ line_at text.now cursor.old cursor.new.offset) }
    ensures bad { IfErr result (IsBadLine model.now text.now cursor.old cursor.new) }
    ensures inside { cursor.new.offset ≤ length text.now }
    ensures few_lines { cursor.new.line ≤ 1000000 }
{
    let mut offset = cursor.offset;
    let mut line = cursor.line;
    while offset < text.len() {
        let (_, rest) = text.split_at(offset);
        let first = first_line(rest);
        offset += first.taken;
        line += 1;
        match judge(alloc, model, first.bytes, line) {
            Err(met) => return Err(StimError::NoMemory(met)),
            Ok(Err(rule)) => return Err(StimError::Bad { line, rule }),
            Ok(Ok(None)) => {}
            Ok(Ok(Some(stimulus))) => {
                *cursor = Cursor { offset, line };
                return Ok(Some(stimulus));
            }
        }
    }
    let offset = text.len();
    *cursor = Cursor { offset, line };
    Ok(None)
}

/// The stimulus in the line of this number, none in a line that is passed over, or the first rule that the line breaks.
fn judge(
    alloc: Global,
    model: &Model,
    line: &[u8],
    number: u32,
) -> Result<Result<Option<Stimulus>, StimRule>, NoMemory>
    requires few_signals { length model.now.signals ≤ 200 }
    requires few_timers { length model.now.timers ≤ 200 }
    ensures { IfOk result (λ told. told ≡ judged model.now number line.now) }
{
    if number > LINES {
        return Ok(Err(StimRule::Q6));
    }
    if line.len() > BYTES {
        return Ok(Err(StimRule::Q5));
    }
    if is_skipped(line) {
        return Ok(Ok(None));
    }
    let Some(form) = form_in(alloc, line)? else {
        return Ok(Err(StimRule::Q1));
    };
    let told = known(alloc, model, form.name, form.texts.as_slice())?;
    Ok(told)
}

/// By the name and the texts of the values in a line.
fn known(
    alloc: Global,
    model: &Model,
    name: &[u8],
    texts: &[&[u8]],
) -> Result<Result<Option<Stimulus>, StimRule>, NoMemory>
    requires few_signals { length model.now.signals ≤ 200 }
    requires few_timers { length model.now.timers ≤ 200 }
    ensures { IfOk result (λ told. told ≡ known_or_unknown model.now (map (λ t. t.now) texts.now) (stimulus_named model.now name.now)) }
{
    match stimulus_of(model, name) {
        None => Ok(Err(StimRule::Q2)),
        Some(id) => counted(alloc, model, id, texts),
    }
}

/// A stimulus with the values of these texts.
fn counted(
    alloc: Global,
    model: &Model,
    id: StimId,
    texts: &[&[u8]],
) -> Result<Result<Option<Stimulus>, StimRule>, NoMemory>
    ensures { IfOk result (λ told. told ≡ counted_by model.now (map (λ t. t.now) texts.now) id) }
{
    let sorts = sorts_of(model, id);
    if texts.len() != sorts.len() {
        return Ok(Err(StimRule::Q3));
    }
    let Some(values) = values_of(alloc, model, sorts, texts)? else {
        return Ok(Err(StimRule::Q4));
    };
    Ok(Ok(Some(Stimulus { id, values })))
}

/// The types of the values of a stimulus.
pub fn sorts_of(model: &Model, id: StimId) -> &[TypeId]
    ensures { result.now ≡ sorts_of_stimulus model.now id }
{
    match id {
        StimId::Start | StimId::Timer(_) => &[],
        StimId::Signal(number) => match at(model.signals.as_slice(), number as usize) {
            None => &[],
            Some(signal) => signal.sorts.as_slice(),
        },
    }
}

/// The values of the types that as many texts read as, if each reads as one.
fn values_of(
    alloc: Global,
    model: &Model,
    sorts: &[TypeId],
    texts: &[&[u8]],
) -> Result<Option<Items<Value>>, NoMemory>
    ensures { IfOk result (λ values. values ≡ values_read model.now sorts.now (map (λ t. t.now) texts.now)) }
{
    let mut values = Items::new(alloc);
    for (place, sort) in sorts.iter().enumerate() {
        let Some(text) = at(texts, place) else {
            return Ok(None);
        };
        let Some(value) = value_of(alloc, model, *sort, *text)? else {
            return Ok(None);
        };
        values.push(value)?;
    }
    Ok(Some(values))
}

/// The value of the type that a text reads as.
fn value_of(
    alloc: Global,
    model: &Model,
    sort: TypeId,
    text: &[u8],
) -> Result<Option<Value>, NoMemory>
    ensures { IfOk result (λ value. value ≡ value_read model.now sort text.now) }
{
    match read_value(alloc, &model.types, &model.names, sort, text, 0) {
        Ok(read) => Ok(Some(read.value)),
        Err(ValueError::Bad) => Ok(None),
        Err(ValueError::NoMemory(met)) => Err(met),
    }
}

/// The incoming signal or the timer of this name.
fn stimulus_of(model: &Model, name: &[u8]) -> Option<StimId>
    requires few_signals { length model.now.signals ≤ 200 }
    requires few_timers { length model.now.timers ≤ 200 }
    ensures { result ≡ stimulus_named model.now name.now }
{
    match model.names.find(name) {
        None => None,
        Some(id) => stimulus_numbered(model, id),
    }
}

fn stimulus_numbered(model: &Model, name: NameId) -> Option<StimId>
    requires few_signals { length model.now.signals ≤ 200 }
    requires few_timers { length model.now.timers ≤ 200 }
    ensures { result ≡ numbered model.now (Some name.0) }
{
    match signal_of(model.signals.as_slice(), 0, name) {
        None => timer_of(model.timers.as_slice(), 0, name),
        Some(id) => Some(id),
    }
}

/// The first incoming signal of this name. The signals are those from this number on.
fn signal_of(signals: &[Signal], number: u32, name: NameId) -> Option<StimId>
    requires { number + length signals.now ≤ 200 }
    ensures { result ≡ signal_from number name.0 signals.now }
{
    match signals {
        [] => None,
        [first, more @ ..] => {
            if first.incoming && first.name.0 == name.0 {
                Some(StimId::Signal(number))
            } else {
                signal_of(more, number + 1, name)
            }
        }
    }
}

/// The first timer of this name. The timers are those from this number on.
fn timer_of(timers: &[NameId], number: u32, name: NameId) -> Option<StimId>
    requires { number + length timers.now ≤ 200 }
    ensures { result ≡ timer_from number name.0 timers.now }
{
    match timers {
        [] => None,
        [first, more @ ..] => {
            if first.0 == name.0 {
                Some(StimId::Timer(number))
            } else {
                timer_of(more, number + 1, name)
            }
        }
    }
}

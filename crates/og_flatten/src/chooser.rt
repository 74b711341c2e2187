//! The functions of the interface: they choose a transition and call for it.
ghost use Rattle.std.specs.Prelude.{◌≡◌, ◌++◌, IfOk, OnOk};
ghost use Rattle.std.specs.Option.{option_copied};
ghost use Rattle.og_flatten.specs.FlatCode.{start_function as start_function_of, signal_function as signal_function_of, start_body, start_code as start_code_of, start_labels as labels_of_start, choice_code, handler_in, is_input, handled_code, choices_code as choices_code_of, choice_cases as choice_cases_of, signal_code as signal_code_of, handled_labels, choices_labels as choices_labels_of, signal_labels as signal_labels_of, states_of};

use crate::code::{
    Control, REGION, TRANSITION, joined, leave_if_stopped, name_text, no_label, number_of, read,
    set, sum_of, word_of,
};
use crate::labels::handler_label;
use og_ir::{Case, FlatFn, Instr};
use og_model::{Handler, Model, Signal, Start, StateDef, Trigger};
use og_names::{NoMemory, Word};
use sqlite_items::Items;
use std::alloc::Global;

/// The function of the start: no state is active, and the start transition is chosen.
pub fn start_function(alloc: Global, control: Control, model: &Model) -> Result<FlatFn, NoMemory>
    ensures { IfOk result (λ function. function ≡ start_function_of control model.now) }
{
    Ok(FlatFn {
        name: word_of(alloc, b"start")?,
        code: start_code(alloc, control, model)?,
        labels: start_labels(alloc)?,
    })
}

fn start_code(alloc: Global, control: Control, model: &Model) -> Result<Items<Instr>, NoMemory>
    ensures { IfOk result (λ code. code ≡ start_code_of control model.now) }
{
    let mut code = Items::new(alloc);
    code.push(set(alloc, REGION, -1))?;
    let body = first_body(model.root.starts.as_slice());
    put_choice(alloc, control, &mut code, body)?;
    Ok(code)
}

/// The body of the first start.
fn first_body(starts: &[Start]) -> u32
    ensures { result ≡ start_body starts.now }
{
    match starts {
        [first, ..] => first.body,
        [] => 0,
    }
}

fn start_labels(alloc: Global) -> Result<Items<Word>, NoMemory>
    ensures { IfOk result (λ labels. labels ≡ labels_of_start) }
{
    let mut labels = Items::new(alloc);
    labels.push(no_label(alloc))?;
    labels.push(no_label(alloc))?;
    labels.push(no_label(alloc))?;
    labels.push(no_label(alloc))?;
    Ok(labels)
}

/// The function of an incoming signal: it chooses the handler of the active state, where there is one.
pub fn signal_function(
    alloc: Global,
    control: Control,
    model: &Model,
    number: u32,
    signal: &Signal,
) -> Result<FlatFn, NoMemory>
    ensures { IfOk result (λ function. function ≡ signal_function_of control model.now number signal.now) }
{
    Ok(FlatFn {
        name: joined(alloc, b"on_", name_text(model, signal.name))?,
        code: signal_code(alloc, control, model, number)?,
        labels: signal_labels(alloc, model, number)?,
    })
}

fn signal_code(
    alloc: Global,
    control: Control,
    model: &Model,
    signal: u32,
) -> Result<Items<Instr>, NoMemory>
    ensures { IfOk result (λ code. code ≡ signal_code_of control model.now signal) }
{
    let states = model.root.states.as_slice();
    let choices = choices_code(alloc, control, states, signal)?;
    let end = number_of(sum_of(2, choices.len())?)?;
    let cases = choice_cases(alloc, states, signal)?;
    let mut code = Items::new(alloc);
    code.push(leave_if_stopped(alloc, control, end))?;
    code.push(Instr::Table(read(alloc, REGION), cases, end))?;
    code.append(choices)?;
    code.push(Instr::Back)?;
    Ok(code)
}

/// What the states do with the signal, one after the other.
fn choices_code(
    alloc: Global,
    control: Control,
    states: &[StateDef],
    signal: u32,
) -> Result<Items<Instr>, NoMemory>
    ensures { IfOk result (λ code. code ≡ choices_code_of control signal states.now) }
{
    let mut code = Items::new(alloc);
    for state in states {
        put_handled(alloc, control, &mut code, state, signal)?;
    }
    Ok(code)
}

fn put_handled(
    alloc: Global,
    control: Control,
    code: &mut Items<Instr>,
    state: &StateDef,
    signal: u32,
) -> Result<(), NoMemory>
    ensures { OnOk result (code.new ≡ code.old ++ handled_code control (handler_in signal state.now.handlers)) }
{
    match handler_of(state, signal) {
        Some(handler) => {
            put_choice(alloc, control, code, handler.body)?;
            Ok(())
        }
        None => Ok(()),
    }
}

/// For each state with a handler of the signal, where its code stands.
fn choice_cases(alloc: Global, states: &[StateDef], signal: u32) -> Result<Items<Case>, NoMemory>
    ensures { IfOk result (λ cases. cases ≡ choice_cases_of signal 0 2 states.now) }
{
    let mut cases = Items::new(alloc);
    let mut place = 2;
    for (number, state) in states.iter().enumerate() {
        if handler_of(state, signal).is_some() {
            let case = Case {
                value: number_of(number)? as i64,
                to: number_of(place)?,
            };
            cases.push(case)?;
            place = sum_of(place, 3)?;
        }
    }
    Ok(cases)
}

/// The first handler of the signal in the state.
fn handler_of(state: &StateDef, signal: u32) -> Option<&Handler>
    ensures { option_copied result ≡ handler_in signal state.now.handlers }
{
    for handler in state.handlers.as_slice() {
        if takes(handler, signal) {
            return Some(handler);
        }
    }
    None
}

fn takes(handler: &Handler, number: u32) -> bool
    ensures { result ≡ is_input number handler.now.trigger }
{
    match &handler.trigger {
        Trigger::Input { signal, .. } => number == *signal,
        _ => false,
    }
}

/// Chooses the body and calls for it, then returns.
fn put_choice(
    alloc: Global,
    control: Control,
    code: &mut Items<Instr>,
    body: u32,
) -> Result<(), NoMemory>
    ensures { OnOk result (code.new ≡ code.old ++ choice_code control body) }
{
    code.push(set(alloc, control.chosen, body as i64))?;
    code.push(Instr::Call(TRANSITION))?;
    code.push(Instr::Back)?;
    Ok(())
}

fn signal_labels(alloc: Global, model: &Model, signal: u32) -> Result<Items<Word>, NoMemory>
    ensures { IfOk result (λ labels. labels ≡ signal_labels_of model.now signal) }
{
    let mut labels = Items::new(alloc);
    labels.push(no_label(alloc))?;
    labels.push(no_label(alloc))?;
    labels.append(choices_labels(alloc, model, signal)?)?;
    labels.push(word_of(alloc, b"end")?)?;
    Ok(labels)
}

fn choices_labels(alloc: Global, model: &Model, signal: u32) -> Result<Items<Word>, NoMemory>
    ensures { IfOk result (λ labels. labels ≡ choices_labels_of model.now signal (states_of model.now)) }
{
    let mut labels = Items::new(alloc);
    for state in model.root.states.as_slice() {
        put_handled_labels(alloc, &mut labels, model, state, signal)?;
    }
    Ok(labels)
}

/// The first instruction of a choice has a label.
fn put_handled_labels(
    alloc: Global,
    labels: &mut Items<Word>,
    model: &Model,
    state: &StateDef,
    signal: u32,
) -> Result<(), NoMemory>
    ensures { OnOk result (labels.new ≡ labels.old ++ handled_labels model.now state.now (handler_in signal state.now.handlers)) }
{
    match handler_of(state, signal) {
        Some(handler) => {
            labels.push(handler_label(alloc, model, state, handler)?)?;
            labels.push(no_label(alloc))?;
            labels.push(no_label(alloc))?;
            Ok(())
        }
        None => Ok(()),
    }
}

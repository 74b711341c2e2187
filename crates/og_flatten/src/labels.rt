//! The labels of the code that carries out transitions: they tell a reader of the printed text what the code is for.
ghost use Rattle.std.specs.Prelude.{◌≡◌, ◌++◌, slice_set, IfOk, OnOk};
ghost use Rattle.og_csubset.specs.Interface.{signal_name};
ghost use Rattle.og_flatten.specs.FlatCode.{states_of, handler_label as handler_label_of, trigger_name, with_handlers, body_labels as body_labels_of, start_words, word_at, labels_of_body, labels_of_bodies, entering_labels, transition_labels as transition_labels_of};

use crate::code::{label_of, name_text, no_label, word_of};
use og_model::{Body, Handler, Model, StateDef, Trigger};
use og_names::{NoMemory, Word};
use sqlite_items::Items;
use std::alloc::Global;

/// A label for each instruction of `transition`.
pub fn transition_labels(alloc: Global, model: &Model) -> Result<Items<Word>, NoMemory>
    ensures { IfOk result (λ labels. labels ≡ transition_labels_of model.now) }
{
    let mut labels = Items::new(alloc);
    labels.push(no_label(alloc))?;
    let words = body_labels(alloc, model)?;
    put_labels_of_bodies(
        alloc,
        &mut labels,
        words.as_slice(),
        model.root.bodies.as_slice(),
    )?;
    put_entering_labels(alloc, &mut labels, model)?;
    labels.push(word_of(alloc, b"end")?)?;
    Ok(labels)
}

fn put_labels_of_bodies(
    alloc: Global,
    labels: &mut Items<Word>,
    words: &[Word],
    bodies: &[Body],
) -> Result<(), NoMemory>
    ensures { OnOk result (labels.new ≡ labels.old ++ labels_of_bodies words.now 0 bodies.now) }
{
    for (number, body) in bodies.iter().enumerate() {
        put_labels_of_body(alloc, labels, label_at(alloc, words, number)?, body)?;
    }
    Ok(())
}

fn label_at(alloc: Global, words: &[Word], number: usize) -> Result<Word, NoMemory>
    ensures { IfOk result (λ label. label ≡ word_at words.now number) }
{
    match words.get(number) {
        Some(label) => label.copy(alloc),
        None => word_of(alloc, b"body"),
    }
}

/// The label stands at the first instruction of the body.
fn put_labels_of_body(
    alloc: Global,
    labels: &mut Items<Word>,
    label: Word,
    body: &Body,
) -> Result<(), NoMemory>
    ensures { OnOk result (labels.new ≡ labels.old ++ labels_of_body label body.now) }
{
    labels.push(label)?;
    for _ in body.block.steps.as_slice() {
        labels.push(no_label(alloc))?;
    }
    Ok(())
}

fn put_entering_labels(
    alloc: Global,
    labels: &mut Items<Word>,
    model: &Model,
) -> Result<(), NoMemory>
    ensures { OnOk result (labels.new ≡ labels.old ++ entering_labels model.now (states_of model.now)) }
{
    for state in model.root.states.as_slice() {
        labels.push(label_of(alloc, b"enter", name_text(model, state.name))?)?;
        labels.push(no_label(alloc))?;
    }
    Ok(())
}

/// For each body what it is for: the start, or a state and a signal.
fn body_labels(alloc: Global, model: &Model) -> Result<Items<Word>, NoMemory>
    ensures { IfOk result (λ labels. labels ≡ body_labels_of model.now) }
{
    let mut labels = start_labels(alloc, model.root.bodies.as_slice())?;
    for state in model.root.states.as_slice() {
        set_handler_labels(alloc, &mut labels, model, state)?;
    }
    Ok(labels)
}

fn start_labels(alloc: Global, bodies: &[Body]) -> Result<Items<Word>, NoMemory>
    ensures { IfOk result (λ labels. labels ≡ start_words bodies.now) }
{
    let mut labels = Items::new(alloc);
    for _ in bodies {
        labels.push(word_of(alloc, b"start")?)?;
    }
    Ok(labels)
}

/// The bodies of the state's handlers get labels of their own.
fn set_handler_labels(
    alloc: Global,
    labels: &mut Items<Word>,
    model: &Model,
    state: &StateDef,
) -> Result<(), NoMemory>
    ensures { OnOk result (labels.new ≡ with_handlers model.now state.now state.now.handlers labels.old) }
{
    for handler in state.handlers.as_slice() {
        let label = handler_label(alloc, model, state, handler)?;
        set_label(labels, handler.body as usize, label);
    }
    Ok(())
}

fn set_label(labels: &mut Items<Word>, number: usize, label: Word)
    ensures { labels.new ≡ slice_set labels.old number label }
{
    if number < labels.len() {
        labels.set(number, label);
    }
}

/// The names of the state and of the signal, as of the handler of a signal in a state.
pub fn handler_label(
    alloc: Global,
    model: &Model,
    state: &StateDef,
    handler: &Handler,
) -> Result<Word, NoMemory>
    ensures { IfOk result (λ label. label ≡ handler_label_of model.now state.now handler.now) }
{
    label_of(
        alloc,
        name_text(model, state.name),
        trigger_text(model, &handler.trigger),
    )
}

fn trigger_text<'a>(model: &'a Model, trigger: &Trigger) -> &'a [u8]
    ensures { result.now ≡ trigger_name model.now trigger.now }
{
    match trigger {
        Trigger::Input { signal, .. } => signal_text(model, *signal as usize),
        _ => &[],
    }
}

fn signal_text(model: &Model, number: usize) -> &[u8]
    ensures { result.now ≡ signal_name model.now number }
{
    match model.signals.get(number) {
        Some(signal) => name_text(model, signal.name),
        None => &[],
    }
}

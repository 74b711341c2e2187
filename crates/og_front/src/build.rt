//! The model of a file that keeps the rules.
ghost use Rattle.std.specs.Prelude.{◌≡◌, ◌+◌, [], ◌∷◌, ◌++◌, IfOk, OnOk, length, map};
ghost use Rattle.std.specs.List.{flat_map};
ghost use Rattle.og_front.specs.Building.{bare_state, handlers_from, given, all_given};
ghost use Rattle.og_front.specs.ModelOf.{Transition, name_table, id_in, signal_of, ending_of, step_of, start_body, input_body, bodies_of, handler_at, state_of, firsts_from, first_headers, scope_of, model_of_tree};
ghost use Rattle.og_names.specs.Folding.{with_name};
ghost use Rattle.og_front.specs.Names.{IsShort, AreShort, HasShortNames, declared_by, input_names, state_names};
ghost use Rattle.og_front.specs.Rules.{key, number_in, with_names};
ghost use Rattle.og_front.specs.Tables.{AreTables};

use crate::rules::{Tables, add_declared, add_name, add_names, is_in, number_in};
use crate::syntax::{Ident, InputText, NextText, SignalText, StartText, StateText, SystemText};
use og_model::{
    Action, Block, Body, EndKind, Ending, Handler, Model, Scope, Signal, Start, StateDef,
    StateKind, Step, Trigger,
};
use og_names::{NameId, Names, NoMemory};
use og_types::TypeTable;
use sqlite_items::Items;
use std::alloc::Global;

/// The model of a file, by the numbers that its tables give to signals and states.
pub fn model_of(alloc: Global, system: &SystemText, tables: &Tables) -> Result<Model, NoMemory>
    requires short { HasShortNames system.now }
    requires tables { AreTables system.now tables.now }
    ensures { IfOk result (λ model. model ≡ model_of_tree system.now) }
{
    let names = names_of(alloc, system)?;
    let signals = signals_of(alloc, system.signals.as_slice(), &names)?;
    let root = scope_of(alloc, system, tables, &names)?;
    Ok(Model {
        name: id_of(&names, &system.process),
        signals,
        root,
        names,
        types: TypeTable::new(alloc),
        timers: Items::new(alloc),
        variables: Items::new(alloc),
        procs: Items::new(alloc),
    })
}

/// Numbers the names in the order of the tokens.
#[tactic(auto, using(crate::proofs::ShortNames::shorts, crate::proofs::ShortParts::parts))]
fn names_of(alloc: Global, system: &SystemText) -> Result<Names, NoMemory>
    requires { HasShortNames system.now }
    ensures { IfOk result (λ names. names ≡ name_table system.now) }
{
    let mut names = Names::new(alloc);
    add_name(&mut names, &system.system)?;
    add_all_declared(&mut names, system.signals.as_slice())?;
    add_name(&mut names, &system.block)?;
    add_name(&mut names, &system.process)?;
    add_name(&mut names, &system.start.next.state)?;
    add_all_in_states(&mut names, system.states.as_slice())?;
    Ok(names)
}

#[tactic(auto, using(crate::proofs::ShortNames::shorts, crate::proofs::ShortParts::parts))]
fn add_all_declared(names: &mut Names, signals: &[SignalText]) -> Result<(), NoMemory>
    requires { AreShort (flat_map declared_by signals.now) }
    ensures { OnOk result (names.new ≡ with_names names.old (map key (flat_map declared_by signals.now))) }
{
    for signal in signals {
        add_declared(names, signal)?;
    }
    Ok(())
}

#[tactic(auto, using(crate::proofs::ShortNames::shorts, crate::proofs::ShortParts::parts))]
fn add_all_in_states(names: &mut Names, states: &[StateText]) -> Result<(), NoMemory>
    requires { AreShort (flat_map state_names states.now) }
    ensures { OnOk result (names.new ≡ with_names names.old (map key (flat_map state_names states.now))) }
{
    for state in states {
        add_name(names, &state.name)?;
        add_all_in_inputs(names, state.inputs.as_slice())?;
    }
    Ok(())
}

#[tactic(auto, using(crate::proofs::ShortNames::shorts, crate::proofs::ShortParts::parts))]
fn add_all_in_inputs(names: &mut Names, inputs: &[InputText]) -> Result<(), NoMemory>
    requires { AreShort (flat_map input_names inputs.now) }
    ensures { OnOk result (names.new ≡ with_names names.old (map key (flat_map input_names inputs.now))) }
{
    for input in inputs {
        add_name(names, &input.signal)?;
        add_names(names, input.outputs.as_slice())?;
        add_name(names, &input.next.state)?;
    }
    Ok(())
}

fn id_of(names: &Names, name: &Ident) -> NameId
    ensures { result ≡ id_in names.now name.now }
{
    NameId(number_in(names, name))
}

/// Until routes are read each signal goes both ways.
fn signals_of(alloc: Global, texts: &[SignalText], names: &Names) -> Result<Items<Signal>, NoMemory>
    ensures { IfOk result (λ signals. signals ≡ map (signal_of names.now) (flat_map declared_by texts.now)) }
{
    let mut signals = Items::new(alloc);
    for text in texts {
        push_signal(alloc, &mut signals, names, &text.first)?;
        push_signals(alloc, &mut signals, names, text.others.as_slice())?;
    }
    Ok(signals)
}

fn push_signals(
    alloc: Global,
    signals: &mut Items<Signal>,
    names: &Names,
    more: &[Ident],
) -> Result<(), NoMemory>
    ensures { OnOk result (signals.new ≡ signals.old ++ map (signal_of names.now) more.now) }
{
    for name in more {
        push_signal(alloc, signals, names, name)?;
    }
    Ok(())
}

fn push_signal(
    alloc: Global,
    signals: &mut Items<Signal>,
    names: &Names,
    name: &Ident,
) -> Result<(), NoMemory>
    ensures { OnOk result (signals.new ≡ signals.old ++ signal_of names.now name.now ∷ []) }
{
    let signal = Signal {
        name: id_of(names, name),
        sorts: Items::new(alloc),
        incoming: true,
        outgoing: true,
    };
    signals.push(signal)?;
    Ok(())
}

/// The states in the order of their first headers, the start, and the transitions in the order of the text.
fn scope_of(
    alloc: Global,
    system: &SystemText,
    tables: &Tables,
    names: &Names,
) -> Result<Scope, NoMemory>
    requires short { HasShortNames system.now }
    requires tables { AreTables system.now tables.now }
    requires names { names.now ≡ name_table system.now }
    ensures { IfOk result (λ scope. scope ≡ scope_of tables.now system.now) }
{
    let mut starts = Items::new(alloc);
    starts.push(Start {
        entry: None,
        body: 0,
    })?;
    let bodies = bodies_of(alloc, system, tables)?;
    let states = states_of(alloc, system, tables, names)?;
    Ok(Scope {
        states,
        starts,
        bodies,
    })
}

fn bodies_of(alloc: Global, system: &SystemText, tables: &Tables) -> Result<Items<Body>, NoMemory>
    ensures { IfOk result (λ bodies. bodies ≡ bodies_of tables.now system.now) }
{
    let mut bodies = Items::new(alloc);
    bodies.push(start_body(alloc, &system.start, tables))?;
    add_bodies(alloc, &mut bodies, system.states.as_slice(), tables)?;
    Ok(bodies)
}

fn add_bodies(
    alloc: Global,
    bodies: &mut Items<Body>,
    states: &[StateText],
    tables: &Tables,
) -> Result<(), NoMemory>
    ensures { OnOk result (bodies.new ≡ bodies.old ++ flat_map (λ state. map (input_body tables.now) state.inputs) states.now) }
{
    for state in states {
        add_bodies_of(alloc, bodies, state.inputs.as_slice(), tables)?;
    }
    Ok(())
}

fn add_bodies_of(
    alloc: Global,
    bodies: &mut Items<Body>,
    inputs: &[InputText],
    tables: &Tables,
) -> Result<(), NoMemory>
    ensures { OnOk result (bodies.new ≡ bodies.old ++ map (input_body tables.now) inputs.now) }
{
    for input in inputs {
        bodies.push(input_body(alloc, input, tables)?)?;
    }
    Ok(())
}

fn start_body(alloc: Global, start: &StartText, tables: &Tables) -> Body
    ensures { result ≡ start_body tables.now start.now }
{
    let block = Block {
        steps: Items::new(alloc),
        end: Some(ending_of(&start.next, tables)),
    };
    Body {
        place: start.place,
        label: None,
        block,
    }
}

fn ending_of(next: &NextText, tables: &Tables) -> Ending
    ensures { result ≡ ending_of tables.now next.now }
{
    Ending {
        label: None,
        place: next.place,
        kind: EndKind::Next {
            state: number_in(&tables.states, &next.state),
            entry: None,
        },
    }
}

fn input_body(alloc: Global, input: &InputText, tables: &Tables) -> Result<Body, NoMemory>
    ensures { IfOk result (λ body. body ≡ input_body tables.now input.now) }
{
    let steps = steps_of(alloc, input.outputs.as_slice(), tables)?;
    let block = Block {
        steps,
        end: Some(ending_of(&input.next, tables)),
    };
    Ok(Body {
        place: input.place,
        label: None,
        block,
    })
}

fn steps_of(alloc: Global, outputs: &[Ident], tables: &Tables) -> Result<Items<Step>, NoMemory>
    ensures { IfOk result (λ steps. steps ≡ map (step_of tables.now) outputs.now) }
{
    let mut steps = Items::new(alloc);
    for output in outputs {
        steps.push(output_step(alloc, output, tables))?;
    }
    Ok(steps)
}

fn output_step(alloc: Global, output: &Ident, tables: &Tables) -> Step
    ensures { result ≡ step_of tables.now output.now }
{
    Step {
        label: None,
        place: output.place,
        action: Action::Output {
            signal: number_in(&tables.signals, output),
            values: Items::new(alloc),
        },
    }
}

/// The states with the handlers of all their headers.
#[tactic(auto, using(crate::proofs::ShortNames::shorts))]
fn states_of(
    alloc: Global,
    system: &SystemText,
    tables: &Tables,
    names: &Names,
) -> Result<Items<StateDef>, NoMemory>
    requires { HasShortNames system.now }
    ensures { IfOk result (λ states. states ≡ all_given tables.now 1 system.now.states (map (bare_state names.now) (first_headers system.now))) }
{
    let mut states = bare_states(alloc, system.states.as_slice(), names)?;
    add_handlers(alloc, &mut states, system.states.as_slice(), tables)?;
    Ok(Items::from_vec(states))
}

/// A state for each name, in the order of the first headers, without handlers.
#[tactic(auto, using(crate::proofs::ShortNames::shorts))]
fn bare_states(alloc: Global, texts: &[StateText], names: &Names) -> Result<Vec<StateDef>, NoMemory>
    requires { AreShort (map (λ state. state.name) texts.now) }
    ensures { IfOk result (λ states. states.items ≡ map (bare_state names.now) (firsts_from [] (map (λ state. state.name) texts.now))) }
{
    let mut seen = Names::new(alloc);
    let mut states = Vec::new(alloc);
    for text in texts {
        add_state(alloc, &mut states, &mut seen, &text.name, names)?;
    }
    Ok(states)
}

/// Adds a state where its name is new.
fn add_state(
    alloc: Global,
    states: &mut Vec<StateDef>,
    seen: &mut Names,
    name: &Ident,
    names: &Names,
) -> Result<(), NoMemory>
    requires { IsShort name.now }
    ensures seen { OnOk result (seen.new ≡ with_name seen.old (key name.now)) }
    ensures states { OnOk result (states.new.items ≡ states.old.items ++ map (bare_state names.now) (firsts_from seen.old (name.now ∷ []))) }
{
    if is_in(seen, name) {
        return Ok(());
    }
    add_name(seen, name)?;
    states.push(bare_state(alloc, name, names))?;
    Ok(())
}

fn bare_state(alloc: Global, name: &Ident, names: &Names) -> StateDef
    ensures { result ≡ bare_state names.now name.now }
{
    StateDef {
        name: id_of(names, name),
        place: name.place,
        kind: StateKind::Basic,
        handlers: Items::new(alloc),
    }
}

/// Gives each state its handlers. The bodies of the inputs are numbered from 1.
fn add_handlers(
    alloc: Global,
    states: &mut Vec<StateDef>,
    texts: &[StateText],
    tables: &Tables,
) -> Result<(), NoMemory>
    ensures { OnOk result (states.new.items ≡ all_given tables.now 1 texts.now states.old.items) }
{
    let mut body = 1;
    for text in texts {
        body = add_handlers_of(alloc, states, text, tables, body)?;
    }
    Ok(())
}

/// Gives the state of one STATE its handlers, and answers the number behind those of their bodies.
fn add_handlers_of(
    alloc: Global,
    states: &mut Vec<StateDef>,
    text: &StateText,
    tables: &Tables,
    first: u32,
) -> Result<u32, NoMemory>
    ensures given { OnOk result (states.new.items ≡ given (number_in tables.now.states text.now.name) (handlers_from tables.now text.now.name first text.now.inputs) states.old.items) }
    ensures number { IfOk result (λ number. number ≡ first + length text.now.inputs) }
{
    let state = number_in(&tables.states, &text.name) as usize;
    let mut body = first;
    for input in text.inputs.as_slice() {
        add_handler(states, state, handler_of(alloc, input, tables, body))?;
        body = number_behind(body)?;
    }
    Ok(body)
}

fn handler_of(alloc: Global, input: &InputText, tables: &Tables, body: u32) -> Handler
    ensures { (state : Ident) → result ≡ handler_at tables.now (body, record { state = state; input = input.now }) }
{
    Handler {
        place: input.signal.place,
        trigger: Trigger::Input {
            signal: number_in(&tables.signals, &input.signal),
            into: Items::new(alloc),
        },
        body,
    }
}

/// Gives the handler to the state of this number.
fn add_handler(states: &mut Vec<StateDef>, state: usize, handler: Handler) -> Result<(), NoMemory>
    ensures { OnOk result (states.new.items ≡ given state (handler ∷ []) states.old.items) }
{
    if state < states.len() {
        states[state].handlers.push(handler)?;
    }
    Ok(())
}

/// The next number. More transitions than 32 bits can count do not fit into memory.
fn number_behind(number: u32) -> Result<u32, NoMemory>
    ensures { IfOk result (λ next. next ≡ number + 1) }
{
    match number.checked_add(1) {
        Some(next) => Ok(next),
        None => Err(NoMemory::past_numbers(number as usize)),
    }
}

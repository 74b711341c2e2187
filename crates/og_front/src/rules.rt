//! The rules that a model file keeps, and the first violation of them.
ghost use Rattle.std.specs.Prelude.{◌≡◌, [], ◌∷◌, ◌++◌, IfOk, IsTrue, OnOk, OnErr, Some, map, length, nat_le, ◌≤◌};
ghost use Rattle.std.specs.List.{flat_map, list_all};
ghost use Rattle.og_base.specs.Order.{first_from, first_of};
ghost use Rattle.og_names.specs.Folding.{folded, place_of, with_name};
ghost use Rattle.og_front.specs.Names.{IsShort, AreShort, HasShortNames, declared_by};
ghost use Rattle.og_front.specs.Rules.{key, table_of, outer_table, with_names, predeclared, is_in, looked_up, as_signal, as_state, used_by_input, used_by_state, unknown_names, violated_if, repeated_from, repeated_signals, has_double_underline, double_underline, double_underlines_of, double_underlines, name_violations, number_in, handler_of, handlers_in, handlers_of, is_handled, with_handler, with_handlers, repeated_handlers_from, repeated_handlers, limit_violations, first_by, first_of_rules};
ghost use Rattle.og_front.specs.Tables.{AreTables};

use crate::syntax::{Ident, InputText, SignalText, StateText, SystemText};
use indexmap::IndexSet;
use og_base::{Rule, Violation, sooner};
use og_names::{NameId, Names, NoMemory};
use std::alloc::Global;

/// The folded names of a file: its signals, its states, and what stands around them.
#[derive(Drop)]
pub struct Tables {
    pub signals: Names,
    pub states: Names,
    pub outer: Names,
}

/// The most states of a model.
const STATES: usize = 1000;

/// The most signals of a model.
const SIGNALS: usize = 200;

/// The names that stand outside all scopes: two types, procedures and operators.
const PREDECLARED: [&[u8]; 9] = [
    b"boolean",
    b"integer",
    b"set_timer",
    b"reset_timer",
    b"append",
    b"write",
    b"writeln",
    b"length",
    b"present",
];

/// The first violation of a rule on names, or else on states, or else on limits.
pub fn first_violation(
    alloc: Global,
    system: &SystemText,
    tables: &Tables,
) -> Result<Option<Violation>, NoMemory>
    requires short { HasShortNames system.now }
    requires tables { AreTables system.now tables.now }
    ensures { IfOk result (λ first. first ≡ first_of_rules system.now) }
{
    first_by(alloc, system, tables)
}

/// The first violation of the file, by any three tables.
fn first_by(
    alloc: Global,
    system: &SystemText,
    tables: &Tables,
) -> Result<Option<Violation>, NoMemory>
    requires { HasShortNames system.now }
    ensures { IfOk result (λ first. first ≡ first_by tables.now system.now) }
{
    let first = first_on_names(alloc, system, tables)?;
    if first.is_some() {
        return Ok(first);
    }
    let first = first_on_states(alloc, system.states.as_slice(), tables)?;
    if first.is_some() {
        return Ok(first);
    }
    Ok(first_on_limits(system, tables))
}

/// The tables of a file.
#[tactic(auto, using(crate::proofs::ShortNames::shorts))]
pub fn tables_of(alloc: Global, system: &SystemText) -> Result<Tables, NoMemory>
    requires { HasShortNames system.now }
    ensures { IfOk result (λ tables. AreTables system.now tables) }
{
    let signals = signal_table(alloc, system.signals.as_slice())?;
    let states = state_table(alloc, system.states.as_slice())?;
    let outer = outer_table(alloc, system)?;
    Ok(Tables {
        signals,
        states,
        outer,
    })
}

#[tactic(auto, using(crate::proofs::ShortNames::shorts))]
fn signal_table(alloc: Global, signals: &[SignalText]) -> Result<Names, NoMemory>
    requires { AreShort (flat_map declared_by signals.now) }
    ensures { IfOk result (λ table. table ≡ table_of (flat_map declared_by signals.now)) }
{
    let mut table = Names::new(alloc);
    for signal in signals {
        add_declared(&mut table, signal)?;
    }
    Ok(table)
}

#[tactic(auto, using(crate::proofs::ShortNames::shorts))]
fn state_table(alloc: Global, states: &[StateText]) -> Result<Names, NoMemory>
    requires { AreShort (map (λ state. state.name) states.now) }
    ensures { IfOk result (λ table. table ≡ table_of (map (λ state. state.name) states.now)) }
{
    let mut table = Names::new(alloc);
    for state in states {
        add_name(&mut table, &state.name)?;
    }
    Ok(table)
}

#[tactic(auto, using(crate::proofs::ShortNames::shorts))]
fn outer_table(alloc: Global, system: &SystemText) -> Result<Names, NoMemory>
    requires { HasShortNames system.now }
    ensures { IfOk result (λ table. table ≡ outer_table system.now) }
{
    let mut table = Names::new(alloc);
    add_name(&mut table, &system.block)?;
    add_name(&mut table, &system.process)?;
    add_each(&mut table, &PREDECLARED)?;
    Ok(table)
}

fn add_each(table: &mut Names, names: &[&[u8]]) -> Result<(), NoMemory>
    requires { IsTrue (list_all (λ name. nat_le (length name.now) 64) names.now) }
    ensures { OnOk result (table.new ≡ with_names table.old (map (λ name. folded name.now) names.now)) }
{
    for name in names {
        add_bytes(table, name)?;
    }
    Ok(())
}

#[tactic(auto, using(crate::proofs::ShortNames::shorts))]
pub fn add_declared(table: &mut Names, signal: &SignalText) -> Result<(), NoMemory>
    requires { AreShort (declared_by signal.now) }
    ensures { OnOk result (table.new ≡ with_names table.old (map key (declared_by signal.now))) }
{
    add_name(table, &signal.first)?;
    add_names(table, signal.others.as_slice())
}

#[tactic(auto, using(crate::proofs::ShortNames::shorts))]
pub fn add_names(table: &mut Names, names: &[Ident]) -> Result<(), NoMemory>
    requires { AreShort names.now }
    ensures { OnOk result (table.new ≡ with_names table.old (map key names.now)) }
{
    for name in names {
        add_name(table, name)?;
    }
    Ok(())
}

/// Gives a name its number in the table: a new one the next, a known one its own.
pub fn add_name(table: &mut Names, name: &Ident) -> Result<NameId, NoMemory>
    requires { IsShort name.now }
    ensures added { IfOk result (λ id. table.new ≡ with_name table.old (key name.now)) }
    ensures number { IfOk result (λ id. place_of table.new (key name.now) ≡ Some id.0) }
    ensures refused { OnErr result (table.new ≡ table.old) }
{
    add_bytes(table, name.word.bytes.as_slice())
}

/// Adds a name. More names than numbers of 32 bits can count do not fit into memory.
fn add_bytes(table: &mut Names, name: &[u8]) -> Result<NameId, NoMemory>
    requires { length name.now ≤ 64 }
    ensures added { IfOk result (λ id. table.new ≡ with_name table.old (folded name.now)) }
    ensures number { IfOk result (λ id. place_of table.new (folded name.now) ≡ Some id.0) }
    ensures refused { OnErr result (table.new ≡ table.old) }
{
    let count = table.len();
    if count >= u32::MAX as usize {
        return Err(NoMemory::past_numbers(count));
    }
    table.add(name)
}

pub fn is_in(table: &Names, name: &Ident) -> bool
    ensures { result ≡ is_in table.now (key name.now) }
{
    table.find(name.word.bytes.as_slice()).is_some()
}

/// Keeps the violation in mind where the rule is broken at the name, unless an earlier one is known.
fn note_if(broken: bool, rule: Rule, name: &Ident, first: &mut Option<Violation>)
    ensures { first.new ≡ first_from first.old (violated_if broken rule name.now) }
{
    if broken {
        *first = sooner(
            *first,
            Violation {
                rule,
                place: name.place,
            },
        );
    }
}

/// The first violation of a rule on names.
#[tactic(auto, using(crate::proofs::ShortNames::shorts))]
fn first_on_names(
    alloc: Global,
    system: &SystemText,
    tables: &Tables,
) -> Result<Option<Violation>, NoMemory>
    requires { HasShortNames system.now }
    ensures { IfOk result (λ first. first ≡ first_of (name_violations tables.now system.now)) }
{
    let mut first = None;
    note_unknown_names(system, tables, &mut first);
    note_repeated_signals(alloc, system.signals.as_slice(), &mut first)?;
    note_double_underlines(system, &mut first);
    Ok(first)
}

/// N1 and N3 at a name that its own space does not have.
fn note_unknown(
    own: &Names,
    other: &Names,
    outer: &Names,
    name: &Ident,
    first: &mut Option<Violation>,
)
    ensures { first.new ≡ first_from first.old (looked_up own.now other.now outer.now name.now) }
{
    if is_in(own, name) {
        return;
    }
    if is_in(other, name) || is_in(outer, name) {
        note_if(true, Rule::N3, name, first);
    } else {
        note_if(true, Rule::N1, name, first);
    }
}

fn note_unknown_signal(tables: &Tables, name: &Ident, first: &mut Option<Violation>)
    ensures { first.new ≡ first_from first.old (as_signal tables.now name.now) }
{
    note_unknown(&tables.signals, &tables.states, &tables.outer, name, first);
}

fn note_unknown_state(tables: &Tables, name: &Ident, first: &mut Option<Violation>)
    ensures { first.new ≡ first_from first.old (as_state tables.now name.now) }
{
    note_unknown(&tables.states, &tables.signals, &tables.outer, name, first);
}

#[tactic(auto, using(crate::proofs::Loops::notes))]
fn note_unknown_names(system: &SystemText, tables: &Tables, first: &mut Option<Violation>)
    ensures { first.new ≡ first_from first.old (unknown_names tables.now system.now) }
{
    note_unknown_state(tables, &system.start.next.state, first);
    note_unknown_in_states(tables, system.states.as_slice(), first);
}

#[tactic(auto, using(crate::proofs::Loops::notes))]
fn note_unknown_in_states(tables: &Tables, states: &[StateText], first: &mut Option<Violation>)
    ensures { first.new ≡ first_from first.old (flat_map (used_by_state tables.now) states.now) }
{
    for state in states {
        note_unknown_in_inputs(tables, state.inputs.as_slice(), first);
    }
}

#[tactic(auto, using(crate::proofs::Loops::notes))]
fn note_unknown_in_inputs(tables: &Tables, inputs: &[InputText], first: &mut Option<Violation>)
    ensures { first.new ≡ first_from first.old (flat_map (used_by_input tables.now) inputs.now) }
{
    for input in inputs {
        note_unknown_in_input(tables, input, first);
    }
}

#[tactic(auto, using(crate::proofs::Loops::notes))]
fn note_unknown_in_input(tables: &Tables, input: &InputText, first: &mut Option<Violation>)
    ensures { first.new ≡ first_from first.old (used_by_input tables.now input.now) }
{
    note_unknown_signal(tables, &input.signal, first);
    note_unknown_signals(tables, input.outputs.as_slice(), first);
    note_unknown_state(tables, &input.next.state, first);
}

#[tactic(auto, using(crate::proofs::Loops::notes))]
fn note_unknown_signals(tables: &Tables, names: &[Ident], first: &mut Option<Violation>)
    ensures { first.new ≡ first_from first.old (flat_map (as_signal tables.now) names.now) }
{
    for name in names {
        note_unknown_signal(tables, name, first);
    }
}

/// N2 at a signal that is declared a second time.
#[tactic(auto, using(crate::proofs::ShortNames::shorts))]
fn note_repeated_signals(
    alloc: Global,
    signals: &[SignalText],
    first: &mut Option<Violation>,
) -> Result<(), NoMemory>
    requires { AreShort (flat_map declared_by signals.now) }
    ensures { OnOk result (first.new ≡ first_from first.old (repeated_from [] (flat_map declared_by signals.now))) }
{
    let mut table = Names::new(alloc);
    for signal in signals {
        note_repeated_in(&mut table, signal, first)?;
    }
    Ok(())
}

#[tactic(auto, using(crate::proofs::Loops::first_from_both, crate::proofs::ShortNames::shorts))]
fn note_repeated_in(
    table: &mut Names,
    signal: &SignalText,
    first: &mut Option<Violation>,
) -> Result<(), NoMemory>
    requires { AreShort (declared_by signal.now) }
    ensures table { OnOk result (table.new ≡ with_names table.old (map key (declared_by signal.now))) }
    ensures first { OnOk result (first.new ≡ first_from first.old (repeated_from table.old (declared_by signal.now))) }
{
    note_repeated(table, &signal.first, first)?;
    note_repeated_among(table, signal.others.as_slice(), first)
}

#[tactic(auto, using(crate::proofs::ShortNames::shorts))]
fn note_repeated_among(
    table: &mut Names,
    names: &[Ident],
    first: &mut Option<Violation>,
) -> Result<(), NoMemory>
    requires { AreShort names.now }
    ensures table { OnOk result (table.new ≡ with_names table.old (map key names.now)) }
    ensures first { OnOk result (first.new ≡ first_from first.old (repeated_from table.old names.now)) }
{
    for name in names {
        note_repeated(table, name, first)?;
    }
    Ok(())
}

fn note_repeated(
    table: &mut Names,
    name: &Ident,
    first: &mut Option<Violation>,
) -> Result<(), NoMemory>
    requires { IsShort name.now }
    ensures table { OnOk result (table.new ≡ with_name table.old (key name.now)) }
    ensures first { OnOk result (first.new ≡ first_from first.old (violated_if (is_in table.old (key name.now)) Rule.N2 name.now)) }
{
    note_if(is_in(table, name), Rule::N2, name, first);
    add_name(table, name)?;
    Ok(())
}

/// N4 at a declared name with two underlines side by side.
#[tactic(auto, using(crate::proofs::Loops::notes))]
fn note_double_underlines(system: &SystemText, first: &mut Option<Violation>)
    ensures { first.new ≡ first_from first.old (double_underlines system.now) }
{
    note_double_underlines_of_signals(system.signals.as_slice(), first);
    note_double_underline(&system.block, first);
    note_double_underline(&system.process, first);
    note_double_underlines_of_states(system.states.as_slice(), first);
}

#[tactic(auto, using(crate::proofs::Loops::notes))]
fn note_double_underlines_of_signals(signals: &[SignalText], first: &mut Option<Violation>)
    ensures { first.new ≡ first_from first.old (flat_map double_underlines_of signals.now) }
{
    for signal in signals {
        note_double_underlines_of(signal, first);
    }
}

#[tactic(auto, using(crate::proofs::Loops::notes))]
fn note_double_underlines_of(signal: &SignalText, first: &mut Option<Violation>)
    ensures { first.new ≡ first_from first.old (double_underlines_of signal.now) }
{
    note_double_underline(&signal.first, first);
    note_double_underline_among(signal.others.as_slice(), first);
}

#[tactic(auto, using(crate::proofs::Loops::notes))]
fn note_double_underlines_of_states(states: &[StateText], first: &mut Option<Violation>)
    ensures { first.new ≡ first_from first.old (flat_map (λ state. double_underline state.name) states.now) }
{
    for state in states {
        note_double_underline(&state.name, first);
    }
}

#[tactic(auto, using(crate::proofs::Loops::notes))]
fn note_double_underline_among(names: &[Ident], first: &mut Option<Violation>)
    ensures { first.new ≡ first_from first.old (flat_map double_underline names.now) }
{
    for name in names {
        note_double_underline(name, first);
    }
}

fn note_double_underline(name: &Ident, first: &mut Option<Violation>)
    ensures { first.new ≡ first_from first.old (double_underline name.now) }
{
    note_if(
        has_double_underline(name.word.bytes.as_slice()),
        Rule::N4,
        name,
        first,
    );
}

fn has_double_underline(bytes: &[u8]) -> bool
    ensures { result ≡ has_double_underline bytes.now }
{
    let mut before = false;
    for byte in bytes {
        let underline = *byte == b'_';
        if underline && before {
            return true;
        }
        before = underline;
    }
    false
}

/// The number of a name that the table has.
pub fn number_in(table: &Names, name: &Ident) -> u32
    ensures { result ≡ number_in table.now name.now }
{
    match table.find(name.word.bytes.as_slice()) {
        Some(id) => id.0,
        None => 0,
    }
}

/// A2 at a second handler of one signal in one state, the first of them.
fn first_on_states(
    alloc: Global,
    states: &[StateText],
    tables: &Tables,
) -> Result<Option<Violation>, NoMemory>
    ensures { IfOk result (λ first. first ≡ first_of (repeated_handlers_from [] (flat_map (handlers_of tables.now) states.now))) }
{
    let mut first = None;
    let mut handled = IndexSet::new(alloc);
    for state in states {
        note_repeated_in_state(tables, state, &mut handled, &mut first)?;
    }
    Ok(first)
}

/// The handlers so far, each by the numbers of its state and of its signal.
type Handled = IndexSet<(u32, u32)>;

fn note_repeated_in_state(
    tables: &Tables,
    state: &StateText,
    handled: &mut Handled,
    first: &mut Option<Violation>,
) -> Result<(), NoMemory>
    ensures handled { OnOk result (handled.new.keys ≡ with_handlers handled.old.keys (handlers_of tables.now state.now)) }
    ensures first { OnOk result (first.new ≡ first_from first.old (repeated_handlers_from handled.old.keys (handlers_of tables.now state.now))) }
{
    note_repeated_in_inputs(tables, state, state.inputs.as_slice(), handled, first)
}

fn note_repeated_in_inputs(
    tables: &Tables,
    state: &StateText,
    inputs: &[InputText],
    handled: &mut Handled,
    first: &mut Option<Violation>,
) -> Result<(), NoMemory>
    ensures handled { OnOk result (handled.new.keys ≡ with_handlers handled.old.keys (handlers_in tables.now state.now inputs.now)) }
    ensures first { OnOk result (first.new ≡ first_from first.old (repeated_handlers_from handled.old.keys (handlers_in tables.now state.now inputs.now))) }
{
    for input in inputs {
        note_repeated_handler(tables, state, input, handled, first)?;
    }
    Ok(())
}

fn note_repeated_handler(
    tables: &Tables,
    state: &StateText,
    input: &InputText,
    handled: &mut Handled,
    first: &mut Option<Violation>,
) -> Result<(), NoMemory>
    ensures handled { OnOk result (handled.new.keys ≡ with_handler handled.old.keys (handler_of tables.now state.now input.now)) }
    ensures first { OnOk result (first.new ≡ first_from first.old (violated_if (is_handled handled.old.keys (handler_of tables.now state.now input.now)) Rule.A2 input.now.signal)) }
{
    let of_state = number_in(&tables.states, &state.name);
    let of_signal = number_in(&tables.signals, &input.signal);
    let (_, new) = handled.insert_full((of_state, of_signal))?;
    note_if(!new, Rule::A2, &input.signal, first);
    Ok(())
}

/// M1 and M2 at the name of the process.
#[tactic(auto, using(crate::proofs::Loops::notes))]
fn first_on_limits(system: &SystemText, tables: &Tables) -> Option<Violation>
    ensures { result ≡ first_of (limit_violations tables.now system.now) }
{
    let mut first = None;
    note_if(
        tables.states.len() > STATES,
        Rule::M1,
        &system.process,
        &mut first,
    );
    note_if(
        tables.signals.len() > SIGNALS,
        Rule::M2,
        &system.process,
        &mut first,
    );
    first
}

//! The functions that stimuli call, by their numbers in a program.
#![tactic(auto, using(og_names::proofs::Loops::loops, og_cload::proofs::Places::places, og_cload::proofs::Grown::grown))]

ghost use Rattle.std.specs.Prelude.{◌≡◌, ◌<◌, IfOk, IfSome, List, length, map};
ghost use Rattle.og_csubset.specs.Interface.{numbers_below, start_function, signal_function, timer_function};
ghost use Rattle.og_csubset.specs.Kinds.{place_in as place_among};
ghost use Rattle.og_csubset.specs.Run.{entered as entered_at};
ghost use Rattle.og_cstatement.specs.Positions.{config_of};
ghost use Rattle.og_cstep.specs.Entries.{entries_of, entry_at, number_in, signal_entry, timer_entry};
ghost use Rattle.og_ir.specs.Cells.{Cells};

use og_cload::fields::{count_of, joined, signal_name, timer_name};
use og_cstatement::Position;
use og_csubset::{CFunction, CProgram};
use og_model::{Model, StimId, StuckRule};
use og_names::NoMemory;
use sqlite_items::{Items, at};
use std::alloc::Global;

/// The number of the function of the start, and of that of each signal and timer, where the program has it. Signals and timers
/// stand in the order of the model.
#[derive(Drop)]
pub struct Entries {
    pub start: Option<usize>,
    pub signals: Items<Option<usize>>,
    pub timers: Items<Option<usize>>,
}

/// Looks up the functions of stimuli.
pub fn find_entries(alloc: Global, program: &CProgram, model: &Model) -> Result<Entries, NoMemory>
    ensures { IfOk result (λ entries. entries ≡ entries_of program.now model.now) }
{
    let functions = program.functions.as_slice();
    let signals = signal_entries(alloc, model, functions)?;
    let timers = timer_entries(alloc, model, functions)?;
    Ok(Entries {
        start: place_in(b"start", functions),
        signals,
        timers,
    })
}

fn signal_entries(
    alloc: Global,
    model: &Model,
    functions: &[CFunction],
) -> Result<Items<Option<usize>>, NoMemory>
    ensures { IfOk result (λ entries. entries ≡ map (signal_entry (map (λ f. f.name.bytes) functions.now) model.now) (numbers_below (length model.now.signals))) }
{
    let count = count_of(model.signals.len())?;
    let mut entries = Items::new(alloc);
    for signal in 0..count {
        let name = joined(alloc, b"on_", signal_name(model, signal))?;
        entries.push(place_in(name.bytes.as_slice(), functions))?;
    }
    Ok(entries)
}

fn timer_entries(
    alloc: Global,
    model: &Model,
    functions: &[CFunction],
) -> Result<Items<Option<usize>>, NoMemory>
    ensures { IfOk result (λ entries. entries ≡ map (timer_entry (map (λ f. f.name.bytes) functions.now) model.now) (numbers_below (length model.now.timers))) }
{
    let count = count_of(model.timers.len())?;
    let mut entries = Items::new(alloc);
    for timer in 0..count {
        let name = joined(alloc, b"at_", timer_name(model, timer))?;
        entries.push(place_in(name.bytes.as_slice(), functions))?;
    }
    Ok(entries)
}

/// The number of a function.
fn place_in(name: &[u8], functions: &[CFunction]) -> Option<usize>
    ensures { result ≡ place_among name.now (map (λ f. f.name.bytes) functions.now) }
{
    for (place, function) in functions.iter().enumerate() {
        if name == function.name.bytes.as_slice() {
            return Some(place);
        }
    }
    None
}

/// The number of the function that a stimulus calls.
pub fn entry_of(entries: &Entries, stimulus: StimId) -> Option<usize>
    ensures { result ≡ entry_at entries.now stimulus }
{
    match stimulus {
        StimId::Start => entries.start,
        StimId::Signal(signal) => number_at(entries.signals.as_slice(), signal),
        StimId::Timer(timer) => number_at(entries.timers.as_slice(), timer),
    }
}

fn number_at(entries: &[Option<usize>], place: u32) -> Option<usize>
    ensures { result ≡ number_in entries.now place }
{
    match at(entries, place as usize) {
        None => None,
        Some(number) => *number,
    }
}

/// A call of a function from outside, where it is there.
pub fn enter(position: &mut Position, function: Option<usize>)
    requires { IfSome function (λ k. k < position.old.functions) }
    ensures begun { (globals : List Cells) → config_of globals position.new ≡ entered_at function globals }
    ensures functions { position.new.functions ≡ position.old.functions }
{
    match function {
        None => position.stop(StuckRule::Value),
        Some(function) => position.begin(function),
    }
}

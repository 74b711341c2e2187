//! The events of a run.
ghost use Rattle.std.specs.Prelude.{◌≡◌, ◌++◌, IfOk, OnOk};
ghost use Rattle.std.specs.List.{flat_map};
ghost use Rattle.og_csubset.specs.Run.{c_machine};
ghost use Rattle.og_cstep.specs.Answered.{answer_at_end};
ghost use Rattle.og_cstep.specs.Machines.{run_of, advanced, answer_of, argument_in, next_step};
ghost use Rattle.og_ir.specs.Steps.{exec};
ghost use Rattle.og_stim.specs.Trace.{event_line, event_of};
ghost use Rattle.og_trace.specs.Entries.{answer_lines, arguments_from, value_list, end_at, event_seen, is_end, pause_answer, IsLive, StandsAt};

use og_cstep::{Advance, EventId, Machine};
use og_model::{Model, StimId};
use og_names::NoMemory;
use og_stim::{Happening, show_event, sorts_of};
use og_types::{TypeId, Value};
use sqlite_items::Items;
use std::alloc::Global;

/// Carries out at most so many statements, up to the end of the run, and appends the lines of its events. The answer tells
/// how the run has ended; `Moved` says that the statements are used up.
pub fn show_events(
    alloc: Global,
    machine: &mut Machine,
    model: &Model,
    steps: u32,
    out: &mut Vec<u8>,
) -> Result<Advance, NoMemory>
    requires model { (run_of machine.old).model ≡ model.now }
    requires live { IsLive (run_of machine.old).config }
    ensures events { OnOk result (out.new.items ≡ out.old.items ++ flat_map (event_line model.now)
        (exec (c_machine (run_of machine.old).program model.now).step steps (run_of machine.old).config).events) }
    ensures answer { IfOk result (λ answer. answer ≡ answer_at_end (end_at (c_machine (run_of machine.old).program model.now).ending
        (exec (c_machine (run_of machine.old).program model.now).step steps (run_of machine.old).config).config)) }
    ensures stands { IfOk result (λ answer. StandsAt (run_of machine.old).program model.now
        (exec (c_machine (run_of machine.old).program model.now).step steps (run_of machine.old).config).config
        answer (run_of machine.new)) }
{
    let mut left = steps;
    while left > 0 {
        left -= 1;
        let answer = show_step(alloc, machine, model, out)?;
        if has_ended(answer) {
            return Ok(answer);
        }
    }
    Ok(pause(machine))
}

/// Whether the answer says how the run has ended.
fn has_ended(answer: Advance) -> bool
    ensures { result ≡ is_end answer }
{
    match answer {
        Advance::Moved | Advance::Event(_) => false,
        Advance::Rest | Advance::Fault(..) | Advance::Stopped | Advance::Stuck(_) => true,
    }
}

/// The answer where the statements are used up.
fn pause(machine: &Machine) -> Advance
    ensures { result ≡ pause_answer (run_of machine.now).config }
{
    match machine.stuck() {
        Some(rule) => Advance::Stuck(rule),
        None => Advance::Moved,
    }
}

/// Carries out one statement, and appends the line of its event, if it shows one.
fn show_step(
    alloc: Global,
    machine: &mut Machine,
    model: &Model,
    out: &mut Vec<u8>,
) -> Result<Advance, NoMemory>
    requires model { (run_of machine.old).model ≡ model.now }
    ensures run { OnOk result (run_of machine.new ≡ advanced (run_of machine.old)) }
    ensures answer { IfOk result (λ answer. answer ≡ answer_of (run_of machine.old)) }
    ensures events { OnOk result (out.new.items ≡ out.old.items ++ flat_map (event_line model.now) (next_step (run_of machine.old)).events) }
{
    let answer = machine.advance();
    show_answer(alloc, machine, model, answer, out)?;
    Ok(answer)
}

/// Appends the line of an event, where the answer is one.
fn show_answer(
    alloc: Global,
    machine: &Machine,
    model: &Model,
    answer: Advance,
    out: &mut Vec<u8>,
) -> Result<(), NoMemory>
    requires { (run_of machine.now).model ≡ model.now }
    ensures { OnOk result (out.new.items ≡ out.old.items ++ answer_lines model.now (run_of machine.now) answer) }
{
    match answer {
        Advance::Event(id) => {
            let event = happening(alloc, machine, model, id)?;
            show_event(model, &event, out)
        }
        Advance::Moved
        | Advance::Rest
        | Advance::Fault(..)
        | Advance::Stopped
        | Advance::Stuck(_) => Ok(()),
    }
}

/// The event of this number, as a machine has just shown it.
fn happening(
    alloc: Global,
    machine: &Machine,
    model: &Model,
    id: EventId,
) -> Result<Happening, NoMemory>
    requires { (run_of machine.now).model ≡ model.now }
    ensures { IfOk result (λ event. event_of event ≡ event_seen (run_of machine.now) id) }
{
    match id {
        EventId::Output(signal) => {
            let sorts = sorts_of(model, StimId::Signal(signal));
            let values = arguments(alloc, machine, signal, sorts)?;
            Ok(Happening::Output { signal, values })
        }
        EventId::Set(timer) => Ok(Happening::Set {
            timer,
            duration: machine.duration(timer),
        }),
        EventId::Reset(timer) => Ok(Happening::Reset { timer }),
    }
}

/// The values of an output's parameters, of which there are as many as types.
fn arguments(
    alloc: Global,
    machine: &Machine,
    signal: u32,
    sorts: &[TypeId],
) -> Result<Items<Value>, NoMemory>
    ensures { IfOk result (λ values. values ≡ arguments_from (run_of machine.now) signal 0 sorts.now) }
{
    let mut values = Items::new(alloc);
    for (place, _) in sorts.iter().enumerate() {
        if place > u32::MAX as usize {
            return Err(NoMemory::past_numbers(place));
        }
        add_argument(alloc, machine, signal, place as u32, &mut values)?;
    }
    Ok(values)
}

/// Adds the value of a parameter, where its cells hold one.
fn add_argument(
    alloc: Global,
    machine: &Machine,
    signal: u32,
    parameter: u32,
    values: &mut Items<Value>,
) -> Result<(), NoMemory>
    ensures { OnOk result (values.new ≡ values.old ++ value_list (argument_in (run_of machine.now) signal parameter)) }
{
    match machine.argument(alloc, signal, parameter)? {
        None => Ok(()),
        Some(value) => {
            values.push(value)?;
            Ok(())
        }
    }
}

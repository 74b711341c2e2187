//! Programs that are loaded, and their start.
ghost use Rattle.std.specs.Prelude.{◌≡◌};
ghost use Rattle.og_model.specs.Regions.{regions as regions_of};

use crate::case::{Case, Wrong, number_of};
use crate::models::small_model;
use crate::tree::show_error;
use og_base::Place;
use og_cread::read_c;
use og_cstep::{Advance, EventId, LoadError, Machine, StimId};
use og_csubset::CProgram;
use og_model::Model;
use og_regions::{Regions, number};
use std::alloc::{AllocError, Global};

/// Appends the rule for which a program is not loaded, or what so many statements of its start show, and what its globals then say.
pub fn show_machine(alloc: Global, case: &Case, out: &mut String) -> Result<(), Wrong> {
    let [name, count] = case.words.as_slice() else {
        return Err(Wrong::Words);
    };
    let text = case.file(name.as_str()).ok_or(Wrong::File)?;
    let count = number_of(count.as_str())?;
    match read_c(alloc, text) {
        Err(error) => show_error(error, out)?,
        Ok(program) => show_loaded(alloc, &program, count, out)?,
    }
    Ok(())
}

fn show_loaded(
    alloc: Global,
    program: &CProgram,
    count: u64,
    out: &mut String,
) -> Result<(), AllocError> {
    let Ok(model) = small_model(alloc) else {
        return out.push_str("no memory\n");
    };
    let Ok(regions) = number(alloc, &model) else {
        return out.push_str("no memory\n");
    };
    match started(alloc, program, &model, &regions) {
        Ok(machine) => show_start(machine, count, out),
        Err(LoadError::BadProgram(rule)) => write!(out, "bad {rule:?}\n"),
        Err(_) => out.push_str("no memory\n"),
    }
}

/// The machine of a program that is loaded and begins its start.
fn started(
    alloc: Global,
    program: &CProgram,
    model: &Model,
    regions: &Regions,
) -> Result<Machine, LoadError>
    requires { regions.now.list ≡ regions_of model.now }
{
    let mut machine = Machine::load(alloc, program, model, regions)?;
    machine.begin(StimId::Start);
    Ok(machine)
}

fn show_start(mut machine: Machine, count: u64, out: &mut String) -> Result<(), AllocError> {
    show_run(&mut machine, count, out)?;
    show_read(&machine, out)
}

/// Carries out so many statements, or those up to the end.
fn show_run(machine: &mut Machine, count: u64, out: &mut String) -> Result<(), AllocError> {
    for _ in 0..count {
        match machine.advance() {
            Advance::Moved => {}
            Advance::Event(event) => show_event(event, out)?,
            answer => return show_end(answer, out),
        }
    }
    out.push_str("past\n")
}

fn show_event(event: EventId, out: &mut String) -> Result<(), AllocError> {
    match event {
        EventId::Output(number) => write!(out, "output {number}\n"),
        EventId::Set(number) => write!(out, "set {number}\n"),
        EventId::Reset(number) => write!(out, "reset {number}\n"),
    }
}

fn show_end(answer: Advance, out: &mut String) -> Result<(), AllocError> {
    match answer {
        Advance::Fault(kind, Place { file, line, column }) => {
            write!(out, "fault {kind:?} {file}:{line}:{column}\n")
        }
        Advance::Stuck(rule) => write!(out, "stuck {rule:?}\n"),
        Advance::Stopped => out.push_str("stopped\n"),
        _ => out.push_str("rest\n"),
    }
}

/// Appends the active leaves of two regions, the timer, and the cells that are not 0.
fn show_read(machine: &Machine, out: &mut String) -> Result<(), AllocError> {
    for region in 0..2 {
        match machine.active(region) {
            None => write!(out, "region {region} at none\n")?,
            Some(leaf) => write!(out, "region {region} at {leaf}\n")?,
        }
    }
    if machine.running(0) {
        out.push_str("the timer runs\n")?;
    }
    let duration = machine.duration(0);
    if duration != 0 {
        write!(out, "the duration is {duration}\n")?;
    }
    for global in 0..12 {
        show_cells(machine, global, out)?;
    }
    Ok(())
}

/// Appends those of the first cells of a global that are not 0, by their offsets.
fn show_cells(machine: &Machine, global: u32, out: &mut String) -> Result<(), AllocError> {
    for offset in 0..12 {
        match machine.cell(global, offset) {
            None | Some(0) => {}
            Some(cell) => write!(out, "cell {global}.{offset} is {cell}\n")?,
        }
    }
    Ok(())
}

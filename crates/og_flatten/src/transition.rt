//! The function that carries out transitions.
ghost use Rattle.std.specs.Prelude.{◌≡◌, ◌+◌, ◌*◌, ◌^◌, ◌<◌, ◌++◌, map, IfOk, OnOk};
ghost use Rattle.og_ir.specs.declared.Instr.TheVariants as instr;
ghost use Rattle.og_flatten.specs.FlatCode.{transition_function as transition_function_of, transition_code as transition_code_of, body_length as length_of_body, length_of_bodies, body_cases, end_place, read as reading, bodies_at, body_at, step_at, kind_at, entering_code};

use crate::code::{Control, REGION, number_of, read, set, sum_of, word_of};
use crate::labels::transition_labels;
use og_ir::{Case, FlatFn, Instr};
use og_model::{Action, Body, EndKind, Ending, Model, StateDef, Step};
use og_names::NoMemory;
use sqlite_items::Items;
use std::alloc::Global;

/// A table that leads to the body that was chosen; the bodies; for each state what enters it; and the end.
pub fn transition_function(
    alloc: Global,
    control: Control,
    model: &Model,
) -> Result<FlatFn, NoMemory>
    ensures made { IfOk result (λ function. function ≡ transition_function_of control model.now) }
    ensures few { IfOk result (λ function. end_place model.now < 2 ^ 32) }
{
    Ok(FlatFn {
        name: word_of(alloc, b"transition")?,
        code: transition_code(alloc, control, model)?,
        labels: transition_labels(alloc, model)?,
    })
}

fn transition_code(alloc: Global, control: Control, model: &Model) -> Result<Items<Instr>, NoMemory>
    ensures made { IfOk result (λ code. code ≡ transition_code_of control model.now) }
    ensures few { IfOk result (λ code. end_place model.now < 2 ^ 32) }
{
    let bodies = model.root.bodies.as_slice();
    let states = model.root.states.as_slice();
    let entering = entering_place(bodies)?;
    let end = number_of(entering_of(entering, states.len())?)?;
    let mut code = Items::new(alloc);
    code.push(choice(alloc, control, bodies, end)?)?;
    put_bodies(&mut code, bodies, entering, end)?;
    put_entering(alloc, &mut code, states)?;
    code.push(Instr::Back)?;
    Ok(code)
}

/// The number of instructions of a body: one for each step and one for its ending.
fn body_length(body: &Body) -> Result<usize, NoMemory>
    ensures { IfOk result (λ count. count ≡ length_of_body body.now) }
{
    sum_of(body.block.steps.len(), 1)
}

/// Where the code that enters the first state stands: behind the table and the bodies.
fn entering_place(bodies: &[Body]) -> Result<usize, NoMemory>
    ensures { IfOk result (λ place. place ≡ 1 + length_of_bodies bodies.now) }
{
    let mut place = 1;
    for body in bodies {
        place = sum_of(place, body_length(body)?)?;
    }
    Ok(place)
}

/// Where the code that enters the state of this number stands: two instructions for each state before it.
fn entering_of(entering: usize, number: usize) -> Result<usize, NoMemory>
    ensures { IfOk result (λ place. place ≡ entering + 2 * number) }
{
    sum_of(entering, sum_of(number, number)?)
}

/// The table that leads from the number of a body to its code.
fn choice(alloc: Global, control: Control, bodies: &[Body], end: u32) -> Result<Instr, NoMemory>
    ensures { IfOk result (λ made. made ≡ instr.Table (reading control.chosen) (body_cases 0 1 bodies.now) end) }
{
    let cases = choice_cases(alloc, bodies)?;
    Ok(Instr::Table(read(alloc, control.chosen), cases, end))
}

fn choice_cases(alloc: Global, bodies: &[Body]) -> Result<Items<Case>, NoMemory>
    ensures { IfOk result (λ cases. cases ≡ body_cases 0 1 bodies.now) }
{
    let mut cases = Items::new(alloc);
    let mut place = 1;
    for (number, body) in bodies.iter().enumerate() {
        let case = Case {
            value: number_of(number)? as i64,
            to: number_of(place)?,
        };
        cases.push(case)?;
        place = sum_of(place, body_length(body)?)?;
    }
    Ok(cases)
}

fn put_bodies(
    code: &mut Items<Instr>,
    bodies: &[Body],
    entering: usize,
    end: u32,
) -> Result<(), NoMemory>
    ensures { OnOk result (code.new ≡ code.old ++ bodies_at entering end bodies.now) }
{
    for body in bodies {
        put_body(code, body, entering, end)?;
    }
    Ok(())
}

/// The steps of a body and its ending.
fn put_body(code: &mut Items<Instr>, body: &Body, entering: usize, end: u32) -> Result<(), NoMemory>
    ensures { OnOk result (code.new ≡ code.old ++ body_at entering end body.now) }
{
    let to = match &body.block.end {
        Some(ending) => ending_place(ending, entering, end)?,
        None => end,
    };
    put_steps(code, body.block.steps.as_slice(), end)?;
    code.push(Instr::Goto(to))?;
    Ok(())
}

fn put_steps(code: &mut Items<Instr>, steps: &[Step], end: u32) -> Result<(), NoMemory>
    ensures { OnOk result (code.new ≡ code.old ++ map (step_at end) steps.now) }
{
    for step in steps {
        code.push(step_code(step, end))?;
    }
    Ok(())
}

/// An output shows its event. No other action stands in a model of basic states.
fn step_code(step: &Step, end: u32) -> Instr
    ensures { result ≡ step_at end step.now }
{
    match &step.action {
        Action::Output { signal, .. } => Instr::Emit(*signal),
        _ => Instr::Goto(end),
    }
}

/// NEXTSTATE leads to the code that enters the state. No other terminator stands in a model of basic states.
fn ending_place(ending: &Ending, entering: usize, end: u32) -> Result<u32, NoMemory>
    ensures { IfOk result (λ place. place ≡ kind_at entering end ending.now.kind) }
{
    match &ending.kind {
        EndKind::Next { state, .. } => number_of(entering_of(entering, *state as usize)?),
        _ => Ok(end),
    }
}

/// Makes each state the active one.
fn put_entering(alloc: Global, code: &mut Items<Instr>, states: &[StateDef]) -> Result<(), NoMemory>
    ensures { OnOk result (code.new ≡ code.old ++ entering_code 0 states.now) }
{
    for (number, _) in states.iter().enumerate() {
        code.push(set(alloc, REGION, number_of(number)? as i64))?;
        code.push(Instr::Back)?;
    }
    Ok(())
}

//! The numbers of names in statements. Names are looked up once, at load.
#![tactic(auto, using(og_names::proofs::Loops::loops, og_cload::proofs::Places::places, og_cload::proofs::Grown::grown, crate::proofs::Numbered::numbered))]

ghost use Rattle.std.specs.Prelude.{◌≡◌, IfOk, map};
ghost use Rattle.std.specs.Option.{option_copied};
ghost use Rattle.og_csubset.specs.declared.CExpr.{out-CExpr};
ghost use Rattle.og_csubset.specs.Interface.{events_of};
ghost use Rattle.og_csubset.specs.Kinds.{is_in, place_in};
ghost use Rattle.og_csubset.specs.Step.{label_in};
ghost use Rattle.og_ccells.specs.Layouts.{layout_of};
ghost use Rattle.og_cstatement.specs.Resolved.{place_read as place_read_in, case_of, assignment_of, call_of as call_in, statement_of as statement_in, body_of as body_in};

use crate::code::{Body, Case, Statement};
use crate::places::{expression, place_of, test_of, width_at};
use og_ccells::Layout;
use og_cload::event_named;
use og_csubset::{CCase, CExpr, CFunction, CPlace, CProgram, CStmt};
use og_model::{EventId, Model};
use og_names::{NoMemory, Word};
use sqlite_items::Items;
use std::alloc::Global;

/// The body of a function.
pub fn body(
    alloc: Global,
    program: &CProgram,
    layout: &Layout,
    model: &Model,
    events: &[EventId],
    function: &CFunction,
) -> Result<Body, NoMemory>
    requires laid { layout.now ≡ layout_of program.now }
    requires events { events.now ≡ events_of model.now }
    ensures { IfOk result (λ made. made ≡ body_in program.now model.now function.now) }
{
    let mut statements = Items::new(alloc);
    let body = function.body.as_slice();
    for one in body {
        statements.push(statement(alloc, program, layout, model, events, body, one)?)?;
    }
    Ok(Body { statements })
}

/// A statement of a body. The events are those that a program of the model may show.
fn statement(
    alloc: Global,
    program: &CProgram,
    layout: &Layout,
    model: &Model,
    events: &[EventId],
    body: &[CStmt],
    statement: &CStmt,
) -> Result<Statement, NoMemory>
    requires laid { layout.now ≡ layout_of program.now }
    requires events { events.now ≡ events_of model.now }
    ensures { IfOk result (λ made. made ≡ statement_in program.now model.now body.now statement.now) }
{
    match statement {
        CStmt::Assign(place, number) => {
            let made = assignment(alloc, program, layout, place, number)?;
            Ok(made)
        }
        CStmt::IfGoto(test, label) => {
            let test = test_of(alloc, test, program, layout)?;
            Ok(Statement::Branch(test, place_of_label(label.bytes.as_slice(), body)))
        }
        CStmt::Goto(label) => Ok(Statement::Goto(place_of_label(label.bytes.as_slice(), body))),
        CStmt::Label(_) => Ok(Statement::Label),
        CStmt::Switch(number, cases, otherwise) => {
            let number = expression(alloc, number, program, layout)?;
            let cases = cases_of(alloc, body, cases.as_slice())?;
            Ok(Statement::Switch(
                number,
                cases,
                place_of_label(otherwise.bytes.as_slice(), body),
            ))
        }
        CStmt::Call(name) => {
            let made = call(alloc, program, model, events, name.bytes.as_slice())?;
            Ok(made)
        }
        CStmt::Return => Ok(Statement::Return),
    }
}

/// A number is assigned, or the cells of a place are copied.
fn assignment(
    alloc: Global,
    program: &CProgram,
    layout: &Layout,
    place: &CPlace,
    number: &CExpr,
) -> Result<Statement, NoMemory>
    requires { layout.now ≡ layout_of program.now }
    ensures { IfOk result (λ made. made ≡ assignment_of program.now place.now number.now (place_read_in (out-CExpr number.now))) }
{
    let to = place_of(alloc, place, program, layout)?;
    match place_read(number) {
        None => {
            let number = expression(alloc, number, program, layout)?;
            Ok(Statement::Assign(to, number))
        }
        Some(from) => {
            let from = place_of(alloc, from, program, layout)?;
            Ok(Statement::Copy(to, from, width_at(program, layout, place)))
        }
    }
}

/// The place that is read, where the expression is one.
fn place_read(number: &CExpr) -> Option<&CPlace>
    ensures { option_copied result ≡ place_read_in (out-CExpr number.now) }
{
    match number {
        CExpr::Number(_) => None,
        CExpr::Read(place) => Some(place),
        CExpr::Minus(_) => None,
        CExpr::Op(_, _, _) => None,
        CExpr::Pick(_, _, _) => None,
    }
}

fn cases_of(alloc: Global, body: &[CStmt], cases: &[CCase]) -> Result<Items<Case>, NoMemory>
    ensures { IfOk result (λ made. made ≡ map (case_of body.now) cases.now) }
{
    let mut made = Items::new(alloc);
    for case in cases {
        made.push(Case {
            value: case.value,
            place: place_of_label(case.label.bytes.as_slice(), body),
        })?;
    }
    Ok(made)
}

/// A call of an event, where the name is declared as one, and otherwise of a function.
fn call(
    alloc: Global,
    program: &CProgram,
    model: &Model,
    events: &[EventId],
    name: &[u8],
) -> Result<Statement, NoMemory>
    requires { events.now ≡ events_of model.now }
    ensures { IfOk result (λ made. made ≡ call_in program.now model.now name.now) }
{
    if is_event(name, program.events.as_slice()) {
        let event = event_named(alloc, model, name, events)?;
        return Ok(Statement::Event(event));
    }
    Ok(Statement::Call(place_of_function(name, program.functions.as_slice())))
}

/// The name is declared as an event.
fn is_event(name: &[u8], events: &[Word]) -> bool
    ensures { result ≡ is_in name.now (map (λ e. e.bytes) events.now) }
{
    for event in events {
        if name == event.bytes.as_slice() {
            return true;
        }
    }
    false
}

/// The number of a function.
fn place_of_function(name: &[u8], functions: &[CFunction]) -> Option<usize>
    ensures { result ≡ place_in name.now (map (λ f. f.name.bytes) functions.now) }
{
    for (place, function) in functions.iter().enumerate() {
        if name == function.name.bytes.as_slice() {
            return Some(place);
        }
    }
    None
}

/// The first place of a label in a body.
fn place_of_label(name: &[u8], body: &[CStmt]) -> Option<usize>
    ensures { result ≡ label_in name.now body.now }
{
    for (at, statement) in body.iter().enumerate() {
        if let CStmt::Label(other) = statement {
            if name == other.bytes.as_slice() {
                return Some(at);
            }
        }
    }
    None
}

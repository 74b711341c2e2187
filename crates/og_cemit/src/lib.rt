//! Writes flat code as a program of the C subset: a struct for each structured type that slots need, a global for each slot,
//! a function for each function, and for each instruction a statement, behind a label where something jumps to it.
#![tactic(auto)]

ghost use Rattle.std.specs.Prelude.{◌≡◌, ◌++◌, ◌<◌, ◌^◌, IfOk, OnOk, map, length};
ghost use Rattle.og_csubset.specs.Fair.{Fair};
ghost use Rattle.og_cemit.specs.Emitted.{statements_at, statements_from, body_of as body_at, function_of, global_of, event_if, events_from, used, program_of, AreShort};
ghost use Rattle.og_cemit.specs.Structs.{member_words, prefix_of as prefix_at, AreFew};
ghost use Rattle.og_cemit.specs.Program.{IsProgramOf};

mod examples;
mod marks;
mod standing;
mod statement;
mod structs;
mod words;

pub use crate::examples::structs_are_made;
use crate::marks::{is_marked, targets_of, used_of};
use crate::statement::{label_of, statement_of};
use crate::structs::{structs_of, type_of_slot};
use crate::words::{prefix_of, words_of};
use og_csubset::{CFunction, CGlobal, CProgram, CStmt};
use og_ir::{FlatFn, Instr, Ir};
use og_model::Model;
use og_names::{NoMemory, Word};
use sqlite_items::Items;
use std::alloc::Global;

/// The program of flat code. It declares the events that the code shows.
pub fn emit(alloc: Global, ir: &Ir, model: &Model) -> Result<CProgram, NoMemory>
    requires fair { Fair ir.now model.now }
    ensures { IfOk result (IsProgramOf ir.now model.now) }
{
    let program = written(alloc, ir, model)?;
    Ok(program)
}

fn written(alloc: Global, ir: &Ir, model: &Model) -> Result<CProgram, NoMemory>
    ensures program { IfOk result (λ program. program ≡ program_of ir.now model.now) }
    ensures short { OnOk result (AreShort ir.now.functions) }
    ensures few { OnOk result (AreFew model.now.types) }
{
    let prefix = prefix_of(alloc, ir)?;
    let words = words_of(alloc, model)?;
    let (prefix, words) = (prefix.as_slice(), words.as_slice());
    Ok(CProgram {
        structs: structs_of(alloc, ir, model, prefix, words)?,
        globals: globals_of(alloc, ir, model, prefix)?,
        events: events_of(alloc, ir)?,
        functions: functions_of(alloc, ir, model, words, ir.functions.as_slice())?,
    })
}

fn globals_of(
    alloc: Global,
    ir: &Ir,
    model: &Model,
    prefix: &[u8],
) -> Result<Items<CGlobal>, NoMemory>
    ensures { IfOk result (λ globals. globals ≡ map (global_of prefix.now model.now.types) ir.now.slots) }
{
    let mut globals = Items::new(alloc);
    for slot in ir.slots.as_slice() {
        globals.push(CGlobal {
            kind: type_of_slot(alloc, model.types.as_slice(), prefix, slot.sort)?,
            name: slot.name.copy(alloc)?,
        })?;
    }
    Ok(globals)
}

fn events_of(alloc: Global, ir: &Ir) -> Result<Items<Word>, NoMemory>
    ensures { IfOk result (λ events. events ≡ events_from (used ir.now) 0 ir.now.events) }
{
    let marks = used_of(alloc, ir)?;
    marked_events(alloc, marks.as_slice(), ir.events.as_slice())
}

fn marked_events(alloc: Global, marks: &[bool], names: &[Word]) -> Result<Items<Word>, NoMemory>
    ensures { IfOk result (λ events. events ≡ events_from marks.now 0 names.now) }
{
    let mut events = Items::new(alloc);
    for (number, name) in names.iter().enumerate() {
        push_event(alloc, &mut events, is_marked(marks, number), name)?;
    }
    Ok(events)
}

fn push_event(
    alloc: Global,
    events: &mut Items<Word>,
    shown: bool,
    name: &Word,
) -> Result<(), NoMemory>
    ensures { OnOk result (events.new ≡ events.old ++ event_if shown name.now) }
{
    if shown {
        events.push(name.copy(alloc)?)?;
    }
    Ok(())
}

fn functions_of(
    alloc: Global,
    ir: &Ir,
    model: &Model,
    words: &[Items<Word>],
    code: &[FlatFn],
) -> Result<Items<CFunction>, NoMemory>
    requires words { words.now ≡ member_words model.now }
    ensures functions { IfOk result (λ functions. functions ≡ map (function_of ir.now model.now) code.now) }
    ensures short { OnOk result (AreShort code.now) }
{
    let mut functions = Items::new(alloc);
    for function in code {
        functions.push(CFunction {
            name: function.name.copy(alloc)?,
            body: body_of(alloc, ir, model, words, function)?,
        })?;
    }
    Ok(functions)
}

fn body_of(
    alloc: Global,
    ir: &Ir,
    model: &Model,
    words: &[Items<Word>],
    function: &FlatFn,
) -> Result<Items<CStmt>, NoMemory>
    requires words { words.now ≡ member_words model.now }
    ensures body { IfOk result (λ body. body ≡ body_at ir.now model.now function.now) }
    ensures short { OnOk result (length function.now.code < 2 ^ 64) }
{
    let marks = targets_of(alloc, function.code.as_slice())?;
    statements_of(
        alloc,
        ir,
        model,
        words,
        function,
        marks.as_slice(),
        function.code.as_slice(),
    )
}

/// The statements of the code of a function, where marks say which places something jumps to.
fn statements_of(
    alloc: Global,
    ir: &Ir,
    model: &Model,
    words: &[Items<Word>],
    function: &FlatFn,
    marks: &[bool],
    code: &[Instr],
) -> Result<Items<CStmt>, NoMemory>
    requires words { words.now ≡ member_words model.now }
    ensures { IfOk result (λ body. body ≡ statements_from ir.now model.now function.now marks.now 0 code.now) }
{
    let mut body = Items::new(alloc);
    for (place, instruction) in code.iter().enumerate() {
        push_statements(
            alloc,
            &mut body,
            ir,
            model,
            words,
            function,
            marks,
            place,
            instruction,
        )?;
    }
    Ok(body)
}

/// The statement of an instruction, behind a label where something jumps to it.
fn push_statements(
    alloc: Global,
    body: &mut Items<CStmt>,
    ir: &Ir,
    model: &Model,
    words: &[Items<Word>],
    function: &FlatFn,
    marks: &[bool],
    place: usize,
    instruction: &Instr,
) -> Result<(), NoMemory>
    requires words { words.now ≡ member_words model.now }
    ensures { OnOk result (body.new ≡ body.old ++ statements_at ir.now model.now function.now marks.now place instruction.now) }
{
    if is_marked(marks, place) {
        body.push(CStmt::Label(label_of(alloc, function, place)?))?;
    }
    body.push(statement_of(alloc, ir, model, words, function, instruction)?)?;
    Ok(())
}

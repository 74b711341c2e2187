//! Prints programs of the C subset and their statements (C99 6.8): the heading, each struct behind a blank line, the globals and
//! the events each as a group behind a blank line, and each function behind a blank line.
ghost use Rattle.std.specs.Prelude.{◌≡◌, ◌≤◌, ◌++◌, IfOk, OnOk};
ghost use Rattle.std.specs.List.{flat_map};
ghost use Rattle.og_csubset.specs.Spelling.{CSpells};
ghost use Rattle.og_csubset.specs.Nesting.{nesting, IsWithinNesting};
ghost use Rattle.og_csubset.specs.Plain.{plain_tokens, IsWellMade};
ghost use Rattle.og_cprint.specs.Heading.{BeginsWithHeading};
ghost use Rattle.og_cprint.specs.Printed.{goto_bytes, case_bytes, default_bytes, statement_bytes, type_bytes, size_bytes, member_bytes, struct_bytes, global_bytes, event_bytes, function_bytes, gap, globals_bytes, events_bytes, body_bytes, printed_text};

use crate::expression::{put, put_number, put_place, put_sum, put_test, put_word};
use itoa::Buffer;
use og_csubset::{CCase, CFunction, CGlobal, CMember, CProgram, CStmt, CStruct, CType};
use og_names::{NoMemory, Word};
use std::alloc::Global;

/// The line that brings in `int64_t` (C99 7.18).
const HEADING: &[u8] = b"#include <stdint.h>\n";

/// The text of a program, without a bracket beyond need. What is asked of the program is what has to hold for such a text to be
/// there: C names, sizes from 1 to 65,536, a member in each struct type, and a text that nests at most 256 deep. The one error is
/// want of memory.
pub fn print_c(alloc: Global, program: &CProgram) -> Result<Vec<u8>, NoMemory>
    requires made { IsWellMade program.now }
    requires within { nesting (plain_tokens program.now) ≤ 256 }
    ensures heading { IfOk result (λ text. BeginsWithHeading text.items) }
    ensures printed { IfOk result (λ text. text.items ≡ printed_text program.now) }
    ensures spelt { IfOk result (λ text. CSpells program.now text.items) }
    ensures nests { IfOk result (λ text. IsWithinNesting 256 text.items) }
{
    let mut out = Vec::from_slice(alloc, HEADING)?;
    put_body(&mut out, program)?;
    Ok(out)
}

/// All but the first line.
fn put_body(out: &mut Vec<u8>, program: &CProgram) -> Result<(), NoMemory>
    ensures { OnOk result (out.new.items ≡ out.old.items ++ body_bytes program.now) }
{
    put_structs(out, program.structs.as_slice())?;
    put_globals(out, program.globals.as_slice())?;
    put_events(out, program.events.as_slice())?;
    put_functions(out, program.functions.as_slice())?;
    Ok(())
}

/// Appends each struct type.
fn put_structs(out: &mut Vec<u8>, structs: &[CStruct]) -> Result<(), NoMemory>
    ensures { OnOk result (out.new.items ≡ out.old.items ++ flat_map struct_bytes structs.now) }
{
    for shape in structs {
        put_struct(out, shape)?;
    }
    Ok(())
}

/// Appends a blank line and a struct type with its `typedef`, a member a line (C99 6.7.2.1).
#[tactic(auto, unfolding(crate::specs::Printed::struct_bytes))]
fn put_struct(out: &mut Vec<u8>, shape: &CStruct) -> Result<(), NoMemory>
    ensures { OnOk result (out.new.items ≡ out.old.items ++ struct_bytes shape.now) }
{
    put(out, b"\ntypedef struct {\n")?;
    put_members(out, shape.members.as_slice())?;
    put(out, b"} ")?;
    put_word(out, &shape.name)?;
    put(out, b";\n")?;
    Ok(())
}

/// Appends the members of a struct type.
fn put_members(out: &mut Vec<u8>, members: &[CMember]) -> Result<(), NoMemory>
    ensures { OnOk result (out.new.items ≡ out.old.items ++ flat_map member_bytes members.now) }
{
    for member in members {
        put_member(out, member)?;
    }
    Ok(())
}

/// Appends a member with its type, its name and, for an array, its size.
fn put_member(out: &mut Vec<u8>, member: &CMember) -> Result<(), NoMemory>
    ensures { OnOk result (out.new.items ≡ out.old.items ++ member_bytes member.now) }
{
    put(out, b"    ")?;
    put_type(out, &member.kind)?;
    put(out, b" ")?;
    put_word(out, &member.name)?;
    put_size(out, member.size)?;
    put(out, b";\n")?;
    Ok(())
}

/// Appends the size of an array, where there is one.
fn put_size(out: &mut Vec<u8>, size: Option<u32>) -> Result<(), NoMemory>
    ensures { OnOk result (out.new.items ≡ out.old.items ++ size_bytes size) }
{
    match size {
        None => Ok(()),
        Some(number) => {
            let mut buffer = Buffer::new();
            put(out, b"[")?;
            put(out, buffer.format(number).as_bytes())?;
            put(out, b"]")?;
            Ok(())
        }
    }
}

/// Appends `int64_t` or the name of a struct type.
fn put_type(out: &mut Vec<u8>, kind: &CType) -> Result<(), NoMemory>
    ensures { OnOk result (out.new.items ≡ out.old.items ++ type_bytes kind.now) }
{
    match kind {
        CType::Int64 => {
            put(out, b"int64_t")?;
            Ok(())
        }
        CType::Struct(name) => {
            put_word(out, name)?;
            Ok(())
        }
    }
}

/// Appends the globals behind a blank line, or nothing where there are none.
fn put_globals(out: &mut Vec<u8>, globals: &[CGlobal]) -> Result<(), NoMemory>
    ensures { OnOk result (out.new.items ≡ out.old.items ++ globals_bytes globals.now) }
{
    put_gap(out, globals.is_empty())?;
    put_each_global(out, globals)?;
    Ok(())
}

/// Appends the globals alone.
fn put_each_global(out: &mut Vec<u8>, globals: &[CGlobal]) -> Result<(), NoMemory>
    ensures { OnOk result (out.new.items ≡ out.old.items ++ flat_map global_bytes globals.now) }
{
    for global in globals {
        put_global(out, global)?;
    }
    Ok(())
}

/// Appends a global with its type (C99 6.7).
fn put_global(out: &mut Vec<u8>, global: &CGlobal) -> Result<(), NoMemory>
    ensures { OnOk result (out.new.items ≡ out.old.items ++ global_bytes global.now) }
{
    put_type(out, &global.kind)?;
    put(out, b" ")?;
    put_word(out, &global.name)?;
    put(out, b";\n")?;
    Ok(())
}

/// Appends the events behind a blank line, or nothing where there are none.
fn put_events(out: &mut Vec<u8>, events: &[Word]) -> Result<(), NoMemory>
    ensures { OnOk result (out.new.items ≡ out.old.items ++ events_bytes events.now) }
{
    put_gap(out, events.is_empty())?;
    put_each_event(out, events)?;
    Ok(())
}

/// Appends the events alone.
fn put_each_event(out: &mut Vec<u8>, events: &[Word]) -> Result<(), NoMemory>
    ensures { OnOk result (out.new.items ≡ out.old.items ++ flat_map event_bytes events.now) }
{
    for event in events {
        put_event(out, event)?;
    }
    Ok(())
}

/// Appends an event, which is declared and not defined here.
fn put_event(out: &mut Vec<u8>, event: &Word) -> Result<(), NoMemory>
    ensures { OnOk result (out.new.items ≡ out.old.items ++ event_bytes event.now) }
{
    put(out, b"void ")?;
    put_word(out, event)?;
    put(out, b"(void);\n")?;
    Ok(())
}

/// Appends a blank line before a group that has something.
fn put_gap(out: &mut Vec<u8>, nothing: bool) -> Result<(), NoMemory>
    ensures { OnOk result (out.new.items ≡ out.old.items ++ gap nothing) }
{
    if nothing {
        return Ok(());
    }
    put(out, b"\n")?;
    Ok(())
}

/// Appends each function.
fn put_functions(out: &mut Vec<u8>, functions: &[CFunction]) -> Result<(), NoMemory>
    ensures { OnOk result (out.new.items ≡ out.old.items ++ flat_map function_bytes functions.now) }
{
    for function in functions {
        put_function(out, function)?;
    }
    Ok(())
}

/// Appends a blank line and a function, with its braces on lines of their own.
#[tactic(auto, unfolding(crate::specs::Printed::function_bytes))]
fn put_function(out: &mut Vec<u8>, function: &CFunction) -> Result<(), NoMemory>
    ensures { OnOk result (out.new.items ≡ out.old.items ++ function_bytes function.now) }
{
    put(out, b"\nvoid ")?;
    put_word(out, &function.name)?;
    put(out, b"(void)\n{\n")?;
    put_statements(out, function.body.as_slice())?;
    put(out, b"}\n")?;
    Ok(())
}

/// Appends the body of a function.
fn put_statements(out: &mut Vec<u8>, statements: &[CStmt]) -> Result<(), NoMemory>
    ensures { OnOk result (out.new.items ≡ out.old.items ++ flat_map statement_bytes statements.now) }
{
    for statement in statements {
        put_statement(out, statement)?;
    }
    Ok(())
}

/// Appends a statement: a label at the margin, any other one four spaces from it.
#[tactic(auto, unfolding(crate::specs::Printed::statement_bytes))]
fn put_statement(out: &mut Vec<u8>, statement: &CStmt) -> Result<(), NoMemory>
    ensures { OnOk result (out.new.items ≡ out.old.items ++ statement_bytes statement.now) }
{
    match statement {
        CStmt::Label(target) => {
            put_word(out, target)?;
            put(out, b":;\n")?;
            Ok(())
        }
        CStmt::Assign(place, value) => {
            put(out, b"    ")?;
            put_place(out, place)?;
            put(out, b" = ")?;
            put_sum(out, value)?;
            put(out, b";\n")?;
            Ok(())
        }
        CStmt::IfGoto(test, label) => {
            put(out, b"    if (")?;
            put_test(out, test)?;
            put_goto(out, b") goto ", label)?;
            Ok(())
        }
        CStmt::Goto(label) => {
            put_goto(out, b"    goto ", label)?;
            Ok(())
        }
        CStmt::Switch(value, cases, otherwise) => {
            put(out, b"    switch (")?;
            put_sum(out, value)?;
            put(out, b") {\n")?;
            put_cases(out, cases.as_slice())?;
            put_default(out, otherwise)?;
            Ok(())
        }
        CStmt::Call(name) => {
            put(out, b"    ")?;
            put_word(out, name)?;
            put(out, b"();\n")?;
            Ok(())
        }
        CStmt::Return => {
            put(out, b"    return;\n")?;
            Ok(())
        }
    }
}

/// Appends where a switch leads otherwise, and its end.
fn put_default(out: &mut Vec<u8>, label: &Word) -> Result<(), NoMemory>
    ensures { OnOk result (out.new.items ≡ out.old.items ++ default_bytes label.now) }
{
    put_goto(out, b"    default: goto ", label)?;
    put(out, b"    }\n")?;
    Ok(())
}

/// Appends the cases of a switch.
fn put_cases(out: &mut Vec<u8>, cases: &[CCase]) -> Result<(), NoMemory>
    ensures { OnOk result (out.new.items ≡ out.old.items ++ flat_map case_bytes cases.now) }
{
    for case in cases {
        put_case(out, case)?;
    }
    Ok(())
}

/// Appends a case, which leads to its label (C99 6.8.1).
fn put_case(out: &mut Vec<u8>, case: &CCase) -> Result<(), NoMemory>
    ensures { OnOk result (out.new.items ≡ out.old.items ++ case_bytes case.now) }
{
    put(out, b"    case ")?;
    put_number(out, case.value)?;
    put_goto(out, b": goto ", &case.label)?;
    Ok(())
}

/// Appends what leads to the label, the label and the end of the line.
fn put_goto(out: &mut Vec<u8>, before: &[u8], label: &Word) -> Result<(), NoMemory>
    ensures { OnOk result (out.new.items ≡ out.old.items ++ goto_bytes before.now label.now) }
{
    put(out, before)?;
    put_word(out, label)?;
    put(out, b";\n")?;
    Ok(())
}

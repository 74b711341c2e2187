//! Texts of the C subset, and the programs that they spell, with every bracket.

use crate::escape::show_bytes;
use og_base::Place;
use og_cread::{CReadError, read_c};
use og_csubset::{
    CCase, CExpr, CFunction, CMember, COp, CPlace, CProgram, CRel, CStep, CStmt, CTest, CType,
};
use og_names::Word;
use std::alloc::{AllocError, Global};

/// Appends whether a text is one of the C subset, or where it is none.
pub fn show_place(alloc: Global, text: &[u8], out: &mut String) -> Result<(), AllocError> {
    match read_c(alloc, text) {
        Ok(_) => out.push_str("ok\n"),
        Err(error) => show_error(error, out),
    }
}

/// Appends the program that a text spells, or where it spells none.
pub fn show_tree(alloc: Global, text: &[u8], out: &mut String) -> Result<(), AllocError> {
    match read_c(alloc, text) {
        Ok(program) => show_program(&program, out),
        Err(error) => show_error(error, out),
    }
}

pub fn show_error(error: CReadError, out: &mut String) -> Result<(), AllocError> {
    match error {
        CReadError::Bad(Place { line, column, .. }) => write!(out, "bad K1 {line}:{column}\n"),
        CReadError::TooDeep(Place { line, column, .. }) => {
            write!(out, "too deep {line}:{column}\n")
        }
        _ => out.push_str("no memory\n"),
    }
}

fn show_program(program: &CProgram, out: &mut String) -> Result<(), AllocError> {
    for one in program.structs.as_slice() {
        show_named("struct ", &one.name, " {", out)?;
        show_members(one.members.as_slice(), out)?;
        out.push_str(" }\n")?;
    }
    for global in program.globals.as_slice() {
        out.push_str("global ")?;
        show_kind(&global.kind, out)?;
        show_named(" ", &global.name, "\n", out)?;
    }
    for event in program.events.as_slice() {
        show_named("event ", event, "\n", out)?;
    }
    for function in program.functions.as_slice() {
        show_function(function, out)?;
    }
    Ok(())
}

fn show_members(members: &[CMember], out: &mut String) -> Result<(), AllocError> {
    for member in members {
        out.push_str(" ")?;
        show_kind(&member.kind, out)?;
        show_named(" ", &member.name, "", out)?;
        if let Some(size) = member.size {
            write!(out, "[{size}]")?;
        }
        out.push_str(";")?;
    }
    Ok(())
}

fn show_kind(kind: &CType, out: &mut String) -> Result<(), AllocError> {
    match kind {
        CType::Int64 => out.push_str("int64_t"),
        CType::Struct(name) => show_bytes(name.bytes.as_slice(), out),
    }
}

/// A name between two texts.
fn show_named(before: &str, name: &Word, behind: &str, out: &mut String) -> Result<(), AllocError> {
    out.push_str(before)?;
    show_bytes(name.bytes.as_slice(), out)?;
    out.push_str(behind)
}

fn show_function(function: &CFunction, out: &mut String) -> Result<(), AllocError> {
    show_named("function ", &function.name, "\n", out)?;
    for statement in function.body.as_slice() {
        out.push_str("  ")?;
        show_statement(statement, out)?;
        out.push_str("\n")?;
    }
    Ok(())
}

fn show_statement(statement: &CStmt, out: &mut String) -> Result<(), AllocError> {
    match statement {
        CStmt::Assign(place, number) => {
            show_target(out, place)?;
            out.push_str(" = ")?;
            show_expression(out, number)
        }
        CStmt::IfGoto(test, label) => {
            out.push_str("if (")?;
            show_test(out, test)?;
            show_named(") goto ", label, "", out)
        }
        CStmt::Goto(label) => show_named("goto ", label, "", out),
        CStmt::Label(label) => show_named("", label, ":", out),
        CStmt::Switch(number, cases, otherwise) => {
            out.push_str("switch (")?;
            show_expression(out, number)?;
            out.push_str(") {")?;
            show_choices(cases.as_slice(), out)?;
            show_named(" default: ", otherwise, " }", out)
        }
        CStmt::Call(name) => show_named("", name, "()", out),
        CStmt::Return => out.push_str("return"),
    }
}

fn show_choices(cases: &[CCase], out: &mut String) -> Result<(), AllocError> {
    for case in cases {
        let value = case.value;
        write!(out, " {value}: ")?;
        show_named("", &case.label, ";", out)?;
    }
    Ok(())
}

fn relation_text(op: CRel) -> &'static str {
    match op {
        CRel::Eq => " == ",
        CRel::Ne => " != ",
        CRel::Lt => " < ",
        CRel::Le => " <= ",
        CRel::Gt => " > ",
        CRel::Ge => " >= ",
    }
}

fn operator_text(op: COp) -> &'static str {
    match op {
        COp::Add => " + ",
        COp::Sub => " - ",
        COp::Mul => " * ",
        COp::Div => " / ",
        COp::Rem => " % ",
    }
}

#[cycle(showing)]
fn show_expression(out: &mut String, expression: &CExpr) -> Result<(), AllocError> {
    match expression {
        CExpr::Number(number) => {
            let number = *number;
            write!(out, "{number}")
        }
        CExpr::Read(place) => show_target(out, place),
        CExpr::Minus(inner) => {
            out.push_str("(- ")?;
            show_expression(out, inner.get())?;
            out.push_str(")")
        }
        CExpr::Op(op, left, right) => {
            out.push_str("(")?;
            show_expression(out, left.get())?;
            out.push_str(operator_text(*op))?;
            show_expression(out, right.get())?;
            out.push_str(")")
        }
        CExpr::Pick(test, first, second) => {
            out.push_str("(")?;
            show_test(out, test)?;
            out.push_str(" ? ")?;
            show_expression(out, first.get())?;
            out.push_str(" : ")?;
            show_expression(out, second.get())?;
            out.push_str(")")
        }
    }
}

#[cycle(showing)]
fn show_test(out: &mut String, test: &CTest) -> Result<(), AllocError> {
    show_expression(out, test.left.get())?;
    out.push_str(relation_text(test.op))?;
    show_expression(out, test.right.get())
}

#[cycle(showing)]
fn show_target(out: &mut String, place: &CPlace) -> Result<(), AllocError> {
    show_bytes(place.name.bytes.as_slice(), out)?;
    show_steps(out, place.path.as_slice())
}

#[cycle(showing)]
fn show_steps(out: &mut String, steps: &[CStep]) -> Result<(), AllocError> {
    for step in steps {
        show_step(out, step)?;
    }
    Ok(())
}

#[cycle(showing)]
fn show_step(out: &mut String, step: &CStep) -> Result<(), AllocError> {
    match step {
        CStep::Member(name) => show_named(".", name, "", out),
        CStep::At(index) => {
            out.push_str("[")?;
            show_expression(out, index)?;
            out.push_str("]")
        }
    }
}

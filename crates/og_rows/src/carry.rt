//! A case is carried out, and what it gives is shown.

use crate::action::Action;
use crate::case::{Case, Wrong};
use crate::command::show_command;
use crate::escape::put_bytes;
use crate::files::{show_read, show_write};
use crate::machine::show_machine;
use crate::names::show_names;
use crate::section::{Line, Opening, Section};
use crate::stimuli::show_stimuli;
use crate::tokens::show_tokens;
use crate::tree::{show_place, show_tree};
use crate::values::show_values;
use crate::view::show_view;
use og_lexer::Language;
use std::alloc::{AllocError, Global};

/// Appends the name of a case and what it gives, with a blank line behind it.
pub fn show_case(
    alloc: Global,
    head: &Section<'_>,
    one: &Section<'_>,
    out: &mut String,
) -> Result<(), AllocError> {
    let (name, with) = match &one.opening {
        Opening::With(text) => (*text, *text),
        Opening::Case(name) => (*name, ""),
        Opening::Head => ("", ""),
    };
    write!(out, "== {name}\n")?;
    let mut bytes = Vec::new(alloc);
    match put_bytes(with, &[], 0, &mut bytes) {
        Err(wrong) => write!(out, "error: {wrong}\n")?,
        Ok(()) => show_lines_of(alloc, Case::new(alloc, bytes), head, one, out)?,
    }
    out.push_str("\n")
}

/// The case takes its lines, those of its head first.
fn show_lines_of(
    alloc: Global,
    mut case: Case,
    head: &Section<'_>,
    one: &Section<'_>,
    out: &mut String,
) -> Result<(), AllocError> {
    let mut found = take_lines(alloc, &mut case, &head.lines);
    if found.is_none() {
        found = take_lines(alloc, &mut case, &one.lines);
    }
    if let Some((number, wrong)) = found {
        return write!(out, "error in line {number}: {wrong}\n");
    }
    match show_action(alloc, &mut case, out) {
        Ok(()) => Ok(()),
        Err(wrong) => write!(out, "error: {wrong}\n"),
    }
}

/// The first line that is wrong, by its number.
fn take_lines(alloc: Global, case: &mut Case, lines: &[Line<'_>]) -> Option<(usize, Wrong)> {
    for line in lines {
        if let Err(wrong) = case.take(alloc, line.text) {
            return Some((line.number, wrong));
        }
    }
    None
}

fn show_action(alloc: Global, case: &mut Case, out: &mut String) -> Result<(), Wrong> {
    match case.action {
        Action::Words => show_command(alloc, case, out)?,
        Action::Tokens => show_tokens(alloc, Language::Sdl, one_file(case)?, out)?,
        Action::AsnTokens => show_tokens(alloc, Language::Asn, one_file(case)?, out)?,
        Action::Text => show_place(alloc, one_file(case)?, out)?,
        Action::Tree => show_tree(alloc, one_file(case)?, out)?,
        Action::Names => show_names(alloc, one_file(case)?, out)?,
        Action::Stimuli => show_stimuli(alloc, one_file(case)?, out)?,
        Action::Write => show_write(alloc, case, one_file(case)?, out)?,
        Action::Read => return show_read(alloc, case, out),
        Action::Machine => return show_machine(alloc, case, out),
        Action::View => return show_view(alloc, case, out),
        Action::Value => return show_values(alloc, case, out),
    }
    Ok(())
}

/// The file of an action with one.
fn one_file(case: &Case) -> Result<&[u8], Wrong> {
    match case.words.as_slice() {
        [name] => case.file(name.as_str()).ok_or(Wrong::File),
        _ => Err(Wrong::Words),
    }
}

//! The data that modules of ASN.1 declare.
ghost use Rattle.std.specs.Prelude.{IfOk};
ghost use Rattle.og_lexer.specs.Texts.{EndsOnce};

use crate::case::{Case, Wrong};
use crate::escape::show_bytes;
use og_asn1::{ModuleTree, parse_modules};
use og_base::{ModelError, Place, Violation};
use og_data::read_modules;
use og_dataview::DataView;
use og_lexer::{Lexed, lex_asn};
use og_names::{NameId, Names, NoMemory};
use og_types::{Part, Sort, TypeId};
use sqlite_items::Items;
use std::alloc::{AllocError, Global};

/// Why files show no data: one is too long, a rule is violated, or memory could not be had.
#[derive(Drop)]
pub enum NoView {
    Long,
    Model(ModelError),
}

impl From<ModelError> for NoView {
    fn from(error: ModelError) -> NoView {
        NoView::Model(error)
    }
}

impl From<AllocError> for NoView {
    fn from(error: AllocError) -> NoView {
        NoView::Model(ModelError::NoMemory(NoMemory::from(error)))
    }
}

/// Appends the types of files of ASN.1 in the order of their numbers, the types with names, and the constants; or the rule
/// that the files violate.
pub fn show_view(alloc: Global, case: &Case, out: &mut String) -> Result<(), Wrong> {
    let mut files = Vec::new(alloc);
    for name in &case.words {
        files.push(case.file(name.as_str()).ok_or(Wrong::File)?)?;
    }
    let mut names = Names::new(alloc);
    match view_of(alloc, files.as_slice(), &mut names) {
        Ok(view) => show_data(&view, &names, out)?,
        Err(error) => show_error(error, out)?,
    }
    Ok(())
}

/// The types and constants of files of ASN.1, which are numbered from 0. All are cut into tokens before one is read further.
pub fn view_of(alloc: Global, files: &[&[u8]], names: &mut Names) -> Result<DataView, NoView> {
    let mut number = 0;
    for file in files {
        lexed_in(alloc, number, file)?;
        number = number.saturating_add(1);
    }
    let mut modules = Items::new(alloc);
    number = 0;
    for file in files {
        modules.append(modules_in(alloc, number, file)?)?;
        number = number.saturating_add(1);
    }
    Ok(read_modules(alloc, modules.as_slice(), names)?)
}

/// The tokens of a file.
fn lexed_in(alloc: Global, number: u32, file: &[u8]) -> Result<Lexed, NoView>
    ensures { IfOk result (λ lexed. EndsOnce lexed.tokens) }
{
    if file.len() > 1000000 {
        return Err(NoView::Long);
    }
    Ok(lex_asn(alloc, number, file)?)
}

fn modules_in(alloc: Global, number: u32, file: &[u8]) -> Result<Items<ModuleTree>, NoView> {
    let lexed = lexed_in(alloc, number, file)?;
    Ok(parse_modules(alloc, lexed.tokens.as_slice())?)
}

/// Appends why files show no data, and where.
pub fn show_error(error: NoView, out: &mut String) -> Result<(), AllocError> {
    match error {
        NoView::Long => out.push_str("too long\n"),
        NoView::Model(ModelError::Broken(Violation { rule, place })) => {
            write!(out, "{rule:?} ")?;
            show_place(place, out)
        }
        NoView::Model(ModelError::NoMemory(_)) => out.push_str("no memory\n"),
    }
}

fn show_place(place: Place, out: &mut String) -> Result<(), AllocError> {
    let Place { file, line, column } = place;
    write!(out, "{file}:{line}:{column}\n")
}

fn show_data(view: &DataView, names: &Names, out: &mut String) -> Result<(), AllocError> {
    for (number, sort) in view.types.as_slice().iter().enumerate() {
        write!(out, "{number} ")?;
        show_sort(names, sort, out)?;
        out.push_str("\n")?;
    }
    for one in view.named.as_slice() {
        let TypeId(number) = one.sort;
        show_name("type ", names, one.name, out)?;
        write!(out, " {number} ")?;
        show_place(one.place, out)?;
    }
    for one in view.constants.as_slice() {
        show_name("constant ", names, one.name, out)?;
        match one.value {
            None => out.push_str(" none ")?,
            Some(number) => write!(out, " {number} ")?,
        }
        show_place(one.place, out)?;
    }
    Ok(())
}

fn show_sort(names: &Names, sort: &Sort, out: &mut String) -> Result<(), AllocError> {
    match sort {
        Sort::Int { lo, hi } => {
            let lo = *lo;
            let hi = *hi;
            write!(out, "integer {lo} .. {hi}")
        }
        Sort::Bool => out.push_str("boolean"),
        Sort::Enumerated {
            names: ids,
            numbers,
        } => { show_enumerators(names, ids.as_slice(), numbers.as_slice(), out) }
        Sort::Sequence { parts } => show_parts("sequence", names, parts.as_slice(), out),
        Sort::Choice { parts } => show_parts("choice", names, parts.as_slice(), out),
        Sort::SeqOf { lo, hi, item } => {
            let lo = *lo;
            let hi = *hi;
            let TypeId(item) = *item;
            write!(out, "{lo} .. {hi} of {item}")
        }
        Sort::Opaque => out.push_str("opaque"),
    }
}

/// The enumerators in the order of the text, each with its number.
fn show_enumerators(
    names: &Names,
    ids: &[NameId],
    numbers: &[i64],
    out: &mut String,
) -> Result<(), AllocError> {
    out.push_str("enumerated")?;
    for (place, id) in ids.iter().enumerate() {
        show_name(comma_before(place), names, *id, out)?;
        match numbers.get(place) {
            None => out.push_str(" none")?,
            Some(number) => {
                let number = *number;
                write!(out, " {number}")?;
            }
        }
    }
    Ok(())
}

/// Parts, each with the number of its type.
fn show_parts(
    word: &str,
    names: &Names,
    parts: &[Part],
    out: &mut String,
) -> Result<(), AllocError> {
    out.push_str(word)?;
    for (place, part) in parts.iter().enumerate() {
        let TypeId(number) = part.sort;
        show_name(comma_before(place), names, part.name, out)?;
        write!(out, " {number}")?;
    }
    Ok(())
}

/// What stands before what comes behind so many others.
fn comma_before(place: usize) -> &'static str {
    if place == 0 { " " } else { ", " }
}

fn show_name(before: &str, names: &Names, id: NameId, out: &mut String) -> Result<(), AllocError> {
    out.push_str(before)?;
    match names.text(id) {
        None => out.push_str("no name"),
        Some(text) => show_bytes(text, out),
    }
}

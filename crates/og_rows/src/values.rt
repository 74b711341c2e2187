//! Texts of values of a type that a file of ASN.1 declares.

use crate::case::{Case, Wrong};
use crate::escape::{lines_of, show_bytes};
use crate::view::{show_error, view_of};
use og_dataview::DataView;
use og_names::Names;
use og_types::{TypeId, TypeTable};
use og_value::{ReadValue, ValueError, fits, read_value, value_end, write_value};
use std::alloc::{AllocError, Global};

/// Appends what each line of a file reads as, where it is a text of a value of this type.
pub fn show_values(alloc: Global, case: &Case, out: &mut String) -> Result<(), Wrong> {
    let [file, kind, texts] = case.words.as_slice() else {
        return Err(Wrong::Words);
    };
    let file = case.file(file.as_str()).ok_or(Wrong::File)?;
    let texts = case.file(texts.as_str()).ok_or(Wrong::File)?;
    let mut names = Names::new(alloc);
    match view_of(alloc, &[file], &mut names) {
        Err(error) => show_error(error, out)?,
        Ok(view) => match type_of(&view, &names, kind.as_bytes()) {
            None => out.push_str("no such type\n")?,
            Some(id) => show_texts(alloc, &view.types, &names, id, texts, out)?,
        },
    }
    Ok(())
}

/// The type with this name.
fn type_of(view: &DataView, names: &Names, kind: &[u8]) -> Option<TypeId> {
    let name = names.find(kind)?;
    for one in view.named.as_slice() {
        if one.name == name {
            return Some(one.sort);
        }
    }
    None
}

fn show_texts(
    alloc: Global,
    types: &TypeTable,
    names: &Names,
    id: TypeId,
    texts: &[u8],
    out: &mut String,
) -> Result<(), AllocError> {
    for line in lines_of(alloc, texts)? {
        let text = match line {
            [text @ .., b'\n'] => text,
            _ => line,
        };
        show_bytes(text, out)?;
        out.push_str(" => ")?;
        match read_value(alloc, types, names, id, text, 0) {
            Ok(read) => show_value(alloc, types, names, id, &read, out)?,
            Err(ValueError::Bad) => out.push_str("none")?,
            Err(_) => out.push_str("no memory")?,
        }
        show_end(text, out)?;
    }
    Ok(())
}

/// Appends a value as it is written anew.
fn show_value(
    alloc: Global,
    types: &TypeTable,
    names: &Names,
    id: TypeId,
    read: &ReadValue,
    out: &mut String,
) -> Result<(), AllocError> {
    let mut bytes = Vec::new(alloc);
    match write_value(types, names, id, &read.value, &mut bytes) {
        Err(_) => out.push_str("no memory")?,
        Ok(()) => show_bytes(bytes.as_slice(), out)?,
    }
    if !fits(types, id, &read.value) {
        out.push_str(" that does not fit")?;
    }
    let next = read.next;
    write!(out, " to {next}")
}

/// Appends where the longest text of a value ends, whatever its type.
fn show_end(text: &[u8], out: &mut String) -> Result<(), AllocError> {
    match value_end(text, 0) {
        None => out.push_str(", no form\n"),
        Some(end) => write!(out, ", form to {end}\n"),
    }
}

//! Names and their numbers.

use crate::escape::{show_line, texts_of};
use og_names::{NameId, Names};
use std::alloc::{AllocError, Global};

/// Appends the number that each line gets in one table, and what a copy of the table has.
pub fn show_names(alloc: Global, text: &[u8], out: &mut String) -> Result<(), AllocError> {
    let mut names = Names::new(alloc);
    for line in texts_of(alloc, text)? {
        show_found("before ", names.find(line), out)?;
        if line.len() <= 64 && names.len() < 1000 {
            if let Ok(NameId(number)) = names.add(line) {
                write!(out, "added {number}, ")?;
            }
        }
        show_found("after ", names.find(line), out)?;
        show_line("", line, out)?;
    }
    match names.copy(alloc) {
        Err(_) => out.push_str("no memory\n"),
        Ok(copy) => show_table(&copy, out),
    }
}

/// Appends the first five names of a table, and how many it has.
fn show_table(names: &Names, out: &mut String) -> Result<(), AllocError> {
    for number in 0..5 {
        match names.text(NameId(number)) {
            None => out.push_str("none\n")?,
            Some(text) => show_line("", text, out)?,
        }
    }
    let size = names.len();
    write!(out, "{size} in a copy\n")
}

fn show_found(when: &str, found: Option<NameId>, out: &mut String) -> Result<(), AllocError> {
    match found {
        None => write!(out, "{when}none, "),
        Some(NameId(number)) => write!(out, "{when}{number}, "),
    }
}

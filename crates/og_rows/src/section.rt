//! A file of cases is cut into sections: heads, with what the cases behind them share, and cases.

use std::alloc::{AllocError, Global};

/// A line of a section, counted from 1 in its file.
#[derive(Drop)]
pub struct Line<'a> {
    pub number: usize,
    pub text: &'a str,
}

/// What a section is: the head of cases, a case with a name, or a case that is named by the text that `\=` stands for in it.
#[derive(Drop)]
pub enum Opening<'a> {
    Head,
    Case(&'a str),
    With(&'a str),
}

#[derive(Drop)]
pub struct Section<'a> {
    pub opening: Opening<'a>,
    pub lines: Vec<Line<'a>>,
}

/// The sections of a file. What stands before the first opening line is a head.
pub fn sections_of(alloc: Global, text: &str) -> Result<Vec<Section<'_>>, AllocError> {
    let mut sections = Vec::new(alloc);
    let mut lines = Vec::new(alloc);
    let mut opening = Opening::Head;
    for (before, text) in text.lines().enumerate() {
        match opening_of(text) {
            None => lines.push(Line {
                number: before.saturating_add(1),
                text,
            })?,
            Some(next) => {
                sections.push(Section { opening, lines })?;
                opening = next;
                lines = Vec::new(alloc);
            }
        }
    }
    sections.push(Section { opening, lines })?;
    Ok(sections)
}

/// The section that a line opens.
fn opening_of(line: &str) -> Option<Opening<'_>> {
    if line == "head" {
        return Some(Opening::Head);
    }
    match line.split_once(' ') {
        Some(("case", name)) => Some(Opening::Case(name)),
        Some(("with", text)) => Some(Opening::With(text)),
        _ => None,
    }
}

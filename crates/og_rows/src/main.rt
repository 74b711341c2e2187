//! Cases as data: each case of the files that `index` names is carried out, and what it gives is printed.
#![tactic(auto)]

mod action;
mod carry;
mod case;
mod command;
mod escape;
mod files;
mod machine;
mod models;
mod names;
mod section;
mod stimuli;
mod tokens;
mod tree;
mod values;
mod view;

use crate::section::{Opening, sections_of};
use std::alloc::{AllocError, Global};
use std::{fs, io};

fn main(rt: HostRuntime) -> io::Result<()> {
    let index = fs::read_to_string(&rt, "index")?;
    for name in index.lines() {
        let text = fs::read_to_string(&rt, name)?;
        let shown = shown_cases(rt.alloc(), text.as_str())?;
        print!(rt; "## {name}\n\n{shown}")?;
    }
    Ok(())
}

/// What the cases of a file give, one behind the other.
fn shown_cases(alloc: Global, text: &str) -> Result<String, AllocError> {
    let mut out = String::new(alloc);
    let sections = sections_of(alloc, text)?;
    let mut head = 0;
    for (number, one) in sections.iter().enumerate() {
        match (&one.opening, sections.get(head)) {
            (Opening::Head, _) => head = number,
            (_, Some(shared)) => carry::show_case(alloc, shared, one, &mut out)?,
            _ => {}
        }
    }
    Ok(out)
}

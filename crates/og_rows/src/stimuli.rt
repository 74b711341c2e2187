//! Stimuli of a text, over a model with a timer.
ghost use Rattle.std.specs.Prelude.{◌≤◌, length};

use crate::models::small_model;
use og_model::{Model, StimId};
use og_stim::{Cursor, StimError, next_stimulus};
use std::alloc::{AllocError, Global};

/// Appends a line for each stimulus, with the number of its line, and how the text ends, twice.
pub fn show_stimuli(alloc: Global, text: &[u8], out: &mut String) -> Result<(), AllocError> {
    let Ok(model) = small_model(alloc) else {
        return out.push_str("no memory\n");
    };
    let mut cursor = Cursor { offset: 0, line: 0 };
    for _ in 0..=text.len() {
        if !show_next(alloc, &model, text, &mut cursor, out)? {
            break;
        }
    }
    show_next(alloc, &model, text, &mut cursor, out)?;
    Ok(())
}

/// Appends what the next call tells, and answers whether it tells a stimulus.
fn show_next(
    alloc: Global,
    model: &Model,
    text: &[u8],
    cursor: &mut Cursor,
    out: &mut String,
) -> Result<bool, AllocError>
    requires few_signals { length model.now.signals ≤ 200 }
    requires few_timers { length model.now.timers ≤ 200 }
{
    if cursor.offset > text.len() || cursor.line > 1000000 {
        out.push_str("the cursor stands outside\n")?;
        return Ok(false);
    }
    match next_stimulus(alloc, model, text, cursor) {
        Ok(Some(stimulus)) => {
            let line = cursor.line;
            write!(out, "{line} ")?;
            show_id(stimulus.id, out)?;
            Ok(true)
        }
        Ok(None) => {
            out.push_str("end\n")?;
            Ok(false)
        }
        Err(StimError::Bad { line, rule }) => {
            write!(out, "bad {rule:?} {line}\n")?;
            Ok(false)
        }
        Err(_) => {
            out.push_str("no memory\n")?;
            Ok(false)
        }
    }
}

fn show_id(id: StimId, out: &mut String) -> Result<(), AllocError> {
    match id {
        StimId::Start => out.push_str("start\n"),
        StimId::Signal(number) => write!(out, "signal {number}\n"),
        StimId::Timer(number) => write!(out, "timer {number}\n"),
    }
}

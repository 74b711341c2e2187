//! All stimuli of a file.
ghost use Rattle.std.specs.Prelude.{◌≡◌, ◌≤◌, ◌∷◌, length, IfOk, IfErr};
ghost use Rattle.std.specs.Option.{option_map};
ghost use Rattle.og_trace.specs.Stims.{stims_of, start};
ghost use Rattle.og_trace.specs.Listed.{bad_of};

use og_model::{Model, StimId};
use og_names::NoMemory;
use og_stim::{Cursor, StimError, StimRule, Stimulus, next_stimulus};
use sqlite_items::Items;
use std::alloc::Global;

/// A line that breaks a rule, counted from 1.
#[derive(Clone, Copy, Debug, PartialEq, Eq)]
pub struct Bad {
    pub line: u32,
    pub rule: StimRule,
}

/// The start and the stimuli of a file up to its first bad line, and that line.
#[derive(Drop)]
pub struct Listed {
    pub stimuli: Vec<Stimulus>,
    pub bad: Option<Bad>,
}

/// Reads all stimuli of a file, and puts the start before them.
pub fn stimuli_of(alloc: Global, model: &Model, text: &[u8]) -> Result<Listed, NoMemory>
    requires few_signals { length model.now.signals ≤ 200 }
    requires few_timers { length model.now.timers ≤ 200 }
    ensures stimuli { IfOk result (λ listed. listed.stimuli.items ≡ start ∷ (stims_of model.now text.now).list) }
    ensures bad { IfOk result (λ listed. option_map bad_of listed.bad ≡ (stims_of model.now text.now).bad) }
{
    let mut stimuli = Vec::new(alloc);
    stimuli.push(Stimulus {
        id: StimId::Start,
        values: Items::new(alloc),
    })?;
    let mut cursor = Cursor { offset: 0, line: 0 };
    'lines: loop {
        match next_stimulus(alloc, model, text, &mut cursor) {
            Ok(None) => return Ok(Listed { stimuli, bad: None }),
            Ok(Some(stimulus)) => stimuli.push(stimulus)?,
            Err(error) => {
                let bad = bad_line(error)?;
                return Ok(Listed {
                    stimuli,
                    bad: Some(bad),
                });
            }
        }
    }
}

/// The line that breaks a rule, or that memory could not be had.
fn bad_line(error: StimError) -> Result<Bad, NoMemory>
    ensures bad { IfOk result (λ bad. error ≡ StimError.Bad bad.line bad.rule) }
    ensures no_memory { IfErr result (λ met. error ≡ StimError.NoMemory met) }
{
    match error {
        StimError::Bad { line, rule } => Ok(Bad { line, rule }),
        StimError::NoMemory(met) => Err(met),
    }
}

//! Runs a program over a file of stimuli, and writes what it shows.
#![tactic(auto)]

ghost use Rattle.std.specs.Prelude.{◌≡◌, ◌≤◌, ◌++◌, length, unwrap_or, decimal, IfOk, OnOk};
ghost use Rattle.std.specs.Option.{option_map};
ghost use Rattle.og_model.specs.Regions.{regions as regions_of};
ghost use Rattle.og_cstep.specs.Machines.{run_of, loaded as loaded_run};
ghost use Rattle.og_trace.specs.Entries.{IsPlain};
ghost use Rattle.og_trace.specs.Listed.{bad_of};
ghost use Rattle.og_trace.specs.Traces.{run_text, run_outcome, at_file_end, line_if_bad, bad_line, rule_text};

mod ending;
mod events;
mod examples;
mod listing;
mod runs;

pub use examples::traces_are_as_worked_out;
use itoa::Buffer;
use listing::{Bad, stimuli_of};
use og_cstep::Machine;
use og_model::Model;
use og_names::{NoMemory, Word};
use og_regions::Regions;
use og_stim::StimRule;
use runs::{Scene, show_stimuli};
use std::alloc::Global;

/// How a run over a file of stimuli has ended: at the end of the file, at a bad line that it came to, with its statements used up,
/// with a fault, or where the program cannot go on.
#[derive(Clone, Copy, Debug, PartialEq, Eq)]
pub enum Outcome {
    Done,
    BadFile,
    Past,
    Faulted,
    Stuck,
}

/// What was written, and how the run has ended.
#[derive(Drop)]
pub struct Traced {
    pub text: Vec<u8>,
    pub outcome: Outcome,
}

/// Runs a machine that was just loaded over a file of stimuli, with at most so many statements for the start and for each
/// stimulus, over a model of basic states without timers and variables. The regions are those of the model. `files` are the words of the model files, by which places count, and `name`
/// is the word of the file of stimuli.
pub fn trace(
    alloc: Global,
    machine: &mut Machine,
    model: &Model,
    regions: &Regions,
    files: &[Word],
    name: &[u8],
    stimuli: &[u8],
    steps: u32,
) -> Result<Traced, NoMemory>
    requires loaded { run_of machine.old ≡ loaded_run (run_of machine.old).program model.now }
    requires regions { regions.now.list ≡ regions_of model.now }
    requires plain { IsPlain model.now }
    requires few_signals { length model.now.signals ≤ 200 }
    ensures text { IfOk result (λ traced. traced.text.items ≡ run_text model.now (run_of machine.old).program files.now name.now stimuli.now steps) }
    ensures outcome { IfOk result (λ traced. traced.outcome ≡ run_outcome model.now (run_of machine.old).program stimuli.now steps) }
{
    // With the number of types it is said that they are a table.
    let _ = model.types.len();
    let listed = stimuli_of(alloc, model, stimuli)?;
    let scene = Scene {
        model,
        regions,
        files,
    };
    let mut text = Vec::new(alloc);
    let ended = show_stimuli(
        alloc,
        machine,
        &scene,
        listed.stimuli.as_slice(),
        steps,
        &mut text,
    )?;
    let outcome = outcome_at(ended, listed.bad);
    show_bad(outcome, name, listed.bad, &mut text)?;
    Ok(Traced { text, outcome })
}

/// How a run over a file has ended: by a stimulus, or behind the last one.
fn outcome_at(ended: Option<Outcome>, bad: Option<Bad>) -> Outcome
    ensures { result ≡ unwrap_or ended (at_file_end (option_map bad_of bad)) }
{
    match ended {
        Some(outcome) => outcome,
        None => match bad {
            None => Outcome::Done,
            Some(_) => Outcome::BadFile,
        },
    }
}

/// Appends the line of the bad line, where the run has come to it.
fn show_bad(
    outcome: Outcome,
    name: &[u8],
    bad: Option<Bad>,
    out: &mut Vec<u8>,
) -> Result<(), NoMemory>
    ensures { OnOk result (out.new.items ≡ out.old.items ++ line_if_bad outcome name.now (option_map bad_of bad)) }
{
    match outcome {
        Outcome::BadFile => match bad {
            None => Ok(()),
            Some(bad) => show_bad_line(name, bad, out),
        },
        Outcome::Done | Outcome::Past | Outcome::Faulted | Outcome::Stuck => Ok(()),
    }
}

fn show_bad_line(name: &[u8], bad: Bad, out: &mut Vec<u8>) -> Result<(), NoMemory>
    ensures { OnOk result (out.new.items ≡ out.old.items ++ bad_line name.now (bad_of bad)) }
{
    put(out, b"bad ")?;
    put(out, rule_word(bad.rule))?;
    put(out, b" ")?;
    put(out, name)?;
    put(out, b":")?;
    put_count(out, bad.line)?;
    put(out, b"\n")
}

/// The name of a rule of stimuli files.
fn rule_word(rule: StimRule) -> &'static [u8]
    ensures { result.now ≡ rule_text rule }
{
    match rule {
        StimRule::Q1 => b"Q1",
        StimRule::Q2 => b"Q2",
        StimRule::Q3 => b"Q3",
        StimRule::Q4 => b"Q4",
        StimRule::Q5 => b"Q5",
        StimRule::Q6 => b"Q6",
    }
}

fn put_count(out: &mut Vec<u8>, count: u32) -> Result<(), NoMemory>
    ensures { OnOk result (out.new.items ≡ out.old.items ++ decimal count) }
{
    let mut buffer = Buffer::new();
    put(out, buffer.format(count).as_bytes())
}

fn put(out: &mut Vec<u8>, bytes: &[u8]) -> Result<(), NoMemory>
    ensures { OnOk result (out.new.items ≡ out.old.items ++ bytes.now) }
{
    out.extend_from_slice(bytes)?;
    Ok(())
}

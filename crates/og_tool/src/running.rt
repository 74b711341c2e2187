//! Runs of programs over models and files of stimuli.
ghost use Rattle.std.specs.Prelude.{◌≡◌, ℕ, ◌≤◌, List, map, length, IfOk, IsErrOf};
ghost use Rattle.og_base.specs.Store.{HoldsMore};
ghost use Rattle.og_cstep.specs.Machines.{run_of};
ghost use Rattle.og_trace.specs.Traces.{run_text, run_outcome};
ghost use Rattle.og_tool.specs.Answering.{IsReady};
ghost use Rattle.og_words.specs.Asked.{texts};
ghost use Rattle.og_tool.specs.Answers.{limit, as_word, IsTrace, IsOutputFor, FailedFor, IsTooLargeFor, RoseAt, status_of as status_for};
ghost use Rattle.og_tool.specs.Loading.{Runs};
ghost use Rattle.og_tool.specs.Programs.{bad_program_line as line_of};
ghost use Rattle.og_judge.specs.Ready.{CanRun};
ghost use Rattle.og_words.specs.Words.{Run, Simulate, AreModelFiles};

use crate::compile::compile;
use crate::program::{BadProgram, Loaded, load_compiled, load_text, reason_of};
use crate::reading::{Judgement, LIMIT, read_model};
use crate::report::bad_program_line;
use crate::status::Status;
use og_base::{ReadError, Store, read_all};
use og_model::Model;
use og_names::{NoMemory, Word};
use og_trace::{Outcome, trace};
use sqlite_items::Items;
use std::alloc::Global;

/// What a command calls for, with the status under which it is written.
#[derive(Drop)]
pub struct Output {
    pub status: Status,
    pub text: Vec<u8>,
}

/// `run`: the model files, the program's file and the stimuli are read whole, and the program runs over them.
pub fn run_program<S: Store>(
    alloc: Global,
    store: &mut S,
    files: &[String],
    program: &str,
    stimuli: &str,
    steps: u32,
) -> Result<Output, ReadError>
    requires { AreModelFiles (texts files.now) }
    ensures output { IfOk result (λ output. IsOutputFor (S.holds store.old) (Run (texts files.now) program.now stimuli.now steps) output.status output.text.items) }
    ensures fault { IsErrOf result ReadError.Fault → FailedFor (S.holds store.old) (Run (texts files.now) program.now stimuli.now steps) (S.faults store.old) (S.faults store.new) }
    ensures too_large { IsErrOf result ReadError.TooLarge → IsTooLargeFor (S.holds store.old) (Run (texts files.now) program.now stimuli.now steps) }
    ensures store_counts { (other : List ℕ) → S.faults store.old other ≤ S.faults store.new other }
    ensures kept { S.holds store.new ≡ S.holds store.old }
{
    match read_model(alloc, store, files)? {
        Judgement::Refused(text) => Ok(Output {
            status: Status::Refused,
            text,
        }),
        Judgement::Accepted(model) => {
            run_over_model(alloc, store, &model, files, program, stimuli, steps)
        }
    }
}

/// Runs the program of a file over a model that was read.
fn run_over_model<S: Store>(
    alloc: Global,
    store: &mut S,
    model: &Model,
    files: &[String],
    program: &str,
    stimuli: &str,
    steps: u32,
) -> Result<Output, ReadError>
    requires { IsReady (S.holds store.old) (texts files.now) model.now }
    ensures output { IfOk result (λ output. IsOutputFor (S.holds store.old) (Run (texts files.now) program.now stimuli.now steps) output.status output.text.items) }
    ensures fault { IsErrOf result ReadError.Fault → FailedFor (S.holds store.old) (Run (texts files.now) program.now stimuli.now steps) (S.faults store.old) (S.faults store.new) }
    ensures too_large { IsErrOf result ReadError.TooLarge → IsTooLargeFor (S.holds store.old) (Run (texts files.now) program.now stimuli.now steps) }
    ensures store_counts { (other : List ℕ) → S.faults store.old other ≤ S.faults store.new other }
    ensures kept { S.holds store.new ≡ S.holds store.old }
{
    let bytes = read_all(alloc, store, program, LIMIT)?;
    match load_text(alloc, &bytes, model) {
        Ok(loaded) => run_loaded(alloc, store, loaded, model, files, stimuli, steps),
        Err(error) => {
            let bad = reason_of(error)?;
            let output = bad_program(alloc, program.as_bytes(), bad)?;
            Ok(output)
        }
    }
}

/// The line that says what is wrong with the program's file.
fn bad_program(alloc: Global, file: &[u8], bad: BadProgram) -> Result<Output, NoMemory>
    ensures status { IfOk result (λ output. output.status ≡ Status.BadFile) }
    ensures line { IfOk result (λ output. output.text.items ≡ line_of file.now bad) }
{
    let text = bad_program_line(alloc, file, bad)?;
    Ok(Output {
        status: Status::BadFile,
        text,
    })
}

/// `sim`: the model files are read and compiled, and the program of its C runs over the stimuli, which are read whole.
pub fn simulate<S: Store>(
    alloc: Global,
    store: &mut S,
    files: &[String],
    stimuli: &str,
    steps: u32,
) -> Result<Output, ReadError>
    requires { AreModelFiles (texts files.now) }
    ensures output { IfOk result (λ output. IsOutputFor (S.holds store.old) (Simulate (texts files.now) stimuli.now steps) output.status output.text.items) }
    ensures fault { IsErrOf result ReadError.Fault → FailedFor (S.holds store.old) (Simulate (texts files.now) stimuli.now steps) (S.faults store.old) (S.faults store.new) }
    ensures too_large { IsErrOf result ReadError.TooLarge → IsTooLargeFor (S.holds store.old) (Simulate (texts files.now) stimuli.now steps) }
    ensures store_counts { (other : List ℕ) → S.faults store.old other ≤ S.faults store.new other }
    ensures kept { S.holds store.new ≡ S.holds store.old }
{
    match read_model(alloc, store, files)? {
        Judgement::Refused(text) => Ok(Output {
            status: Status::Refused,
            text,
        }),
        Judgement::Accepted(model) => {
            simulate_model(alloc, store, &model, files, stimuli, steps)
        }
    }
}

/// Compiles a model that was read, and runs the program of its C.
fn simulate_model<S: Store>(
    alloc: Global,
    store: &mut S,
    model: &Model,
    files: &[String],
    stimuli: &str,
    steps: u32,
) -> Result<Output, ReadError>
    requires { IsReady (S.holds store.old) (texts files.now) model.now }
    ensures output { IfOk result (λ output. IsOutputFor (S.holds store.old) (Simulate (texts files.now) stimuli.now steps) output.status output.text.items) }
    ensures fault { IsErrOf result ReadError.Fault → FailedFor (S.holds store.old) (Simulate (texts files.now) stimuli.now steps) (S.faults store.old) (S.faults store.new) }
    ensures too_large { IsErrOf result ReadError.TooLarge → IsTooLargeFor (S.holds store.old) (Simulate (texts files.now) stimuli.now steps) }
    ensures store_counts { (other : List ℕ) → S.faults store.old other ≤ S.faults store.new other }
    ensures kept { S.holds store.new ≡ S.holds store.old }
{
    let text = compile(alloc, model)?;
    let loaded = load_compiled(alloc, &text, model)?;
    run_loaded(alloc, store, loaded, model, files, stimuli, steps)
}

/// Runs a loaded program over a file of stimuli.
fn run_loaded<S: Store>(
    alloc: Global,
    store: &mut S,
    loaded: Loaded,
    model: &Model,
    files: &[String],
    stimuli: &str,
    steps: u32,
) -> Result<Output, ReadError>
    requires can { CanRun model.now }
    requires runs { Runs (run_of loaded.machine).program model.now loaded }
    ensures output { IfOk result (λ output. IsTrace (S.holds store.old) model.now (run_of loaded.machine).program (texts files.now) stimuli.now steps output.status output.text.items) }
    ensures fault { IsErrOf result ReadError.Fault → RoseAt stimuli.now (S.faults store.old) (S.faults store.new) }
    ensures too_large { IsErrOf result ReadError.TooLarge → HoldsMore (S.holds store.old) stimuli.now limit }
    ensures store_counts { (other : List ℕ) → S.faults store.old other ≤ S.faults store.new other }
    ensures kept { S.holds store.new ≡ S.holds store.old }
{
    let bytes = read_all(alloc, store, stimuli, LIMIT)?;
    match traced(
        alloc,
        loaded,
        model,
        files,
        stimuli.as_bytes(),
        &bytes,
        steps,
    ) {
        Ok(output) => Ok(output),
        Err(met) => Err(ReadError::NoMemory(met)),
    }
}

/// What a loaded program writes over these bytes of a file of stimuli.
fn traced(
    alloc: Global,
    loaded: Loaded,
    model: &Model,
    files: &[String],
    name: &[u8],
    bytes: &[u8],
    steps: u32,
) -> Result<Output, NoMemory>
    requires can { CanRun model.now }
    requires runs { Runs (run_of loaded.machine).program model.now loaded }
    ensures text { IfOk result (λ output. output.text.items ≡ run_text model.now (run_of loaded.machine).program (map as_word (texts files.now)) name.now bytes.now steps) }
    ensures status { IfOk result (λ output. output.status ≡ status_for (run_outcome model.now (run_of loaded.machine).program bytes.now steps)) }
{
    let mut machine = loaded.machine;
    let words = words_of(alloc, files)?;
    let traced = trace(
        alloc,
        &mut machine,
        model,
        &loaded.regions,
        &words,
        name,
        bytes,
        steps,
    )?;
    Ok(Output {
        status: status_of(traced.outcome),
        text: traced.text,
    })
}

/// The words of files.
fn words_of(alloc: Global, files: &[String]) -> Result<Vec<Word>, NoMemory>
    ensures { IfOk result (λ words. words.items ≡ map as_word (texts files.now)) }
{
    let mut words = Vec::new(alloc);
    for file in files {
        let bytes = Items::from_slice(alloc, file.as_bytes())?;
        words.push(Word { bytes })?;
    }
    Ok(words)
}

/// The status of a run that has ended so.
fn status_of(outcome: Outcome) -> Status
    ensures { result ≡ status_for outcome }
{
    match outcome {
        Outcome::Done => Status::Done,
        Outcome::BadFile => Status::BadFile,
        Outcome::Past => Status::Past,
        Outcome::Faulted => Status::Faulted,
        Outcome::Stuck => Status::Stuck,
    }
}

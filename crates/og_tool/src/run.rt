//! The top call.
ghost use Rattle.std.specs.Prelude.{◌≡◌, ◌≤◌, ◌↔◌, ℕ, List, map, string_bytes, IfOk, IsErrOf};
ghost use Rattle.og_base.specs.Store.{Rose};
ghost use Rattle.og_tool.specs.Answering.{CommandAnswer, unread_status};
ghost use Rattle.og_tool.specs.Answers.{IsOutputFor, FailedFor, IsTooLargeFor, Wrote, WroteSome, FailedToRead, IsTooLarge};
ghost use Rattle.og_words.specs.Asked.{texts, asked};
ghost use Rattle.og_words.specs.Words.{Check, Compile, AreModelFiles, files_of, IsNoCommand, AskForRun};

use crate::compile::compile;
use crate::reading::{Judgement, read_model};
use crate::report::accepted_line;
use crate::running::{Output, run_program, simulate};
use crate::status::Status;
use og_base::{ReadError, Sink, Store, write_all};
use og_words::{Command, command_of};
use std::alloc::Global;

/// Carries out the command that the words ask for. `check FILES` writes that the model files are accepted. `cc FILES` writes the C
/// text of their model. `run FILES CFILE STIM` runs the program in CFILE over the model and the stimuli in STIM, and writes its
/// trace. `sim FILES STIM` does the same with the C of the model. Where a file violates a rule, the line that names the rule is
/// written instead, or last.
pub fn run_tool<S: Store, K: Sink>(
    alloc: Global,
    words: &Vec<String>,
    store: &mut S,
    out: &mut K,
) -> Status
    // The words have no form of a command, and nothing is written.
    ensures usage { (result ≡ Status.Usage) ↔ IsNoCommand (map string_bytes words.now.items) }
    ensures usage_writes_nothing { result ≡ Status.Usage → K.written out.new ≡ K.written out.old }

    // What the command calls for is written whole, and has this status.
    ensures done { result ≡ Status.Done → Wrote (map string_bytes words.now.items) (S.holds store.old) Status.Done (K.written out.old) (K.written out.new) }
    ensures refused { result ≡ Status.Refused → Wrote (map string_bytes words.now.items) (S.holds store.old) Status.Refused (K.written out.old) (K.written out.new) }
    ensures bad_file { result ≡ Status.BadFile → Wrote (map string_bytes words.now.items) (S.holds store.old) Status.BadFile (K.written out.old) (K.written out.new) }
    ensures past { result ≡ Status.Past → Wrote (map string_bytes words.now.items) (S.holds store.old) Status.Past (K.written out.old) (K.written out.new) }
    ensures faulted { result ≡ Status.Faulted → Wrote (map string_bytes words.now.items) (S.holds store.old) Status.Faulted (K.written out.old) (K.written out.new) }
    ensures stuck { result ≡ Status.Stuck → Wrote (map string_bytes words.now.items) (S.holds store.old) Status.Stuck (K.written out.old) (K.written out.new) }

    // The C of a model is never stuck: only the words of `run` can give this status.
    ensures never_stuck { result ≡ Status.Stuck → AskForRun (map string_bytes words.now.items) }

    // Reading a file of the words failed, or one has too many bytes, and nothing is written. The files before it were read, and
    // as far as the store tells what they hold, the model is accepted and the program can be run.
    ensures read_fault { result ≡ Status.ReadFault → FailedToRead (map string_bytes words.now.items) (S.holds store.old) (S.faults store.old) (S.faults store.new) }
    ensures read_fault_writes_nothing { result ≡ Status.ReadFault → K.written out.new ≡ K.written out.old }
    ensures too_large { result ≡ Status.TooLarge → IsTooLarge (map string_bytes words.now.items) (S.holds store.old) }
    ensures too_large_writes_nothing { result ≡ Status.TooLarge → K.written out.new ≡ K.written out.old }

    // Writing failed, and a front of what the command calls for is written.
    ensures write_fault { result ≡ Status.WriteFault → Rose (K.faults out.old) (K.faults out.new) }
    ensures write_fault_writes_a_front { result ≡ Status.WriteFault → WroteSome (map string_bytes words.now.items) (S.holds store.old) (K.written out.old) (K.written out.new) }

    // Want of memory is free, and nothing is written.
    ensures no_memory { result ≡ Status.NoMemory → K.written out.new ≡ K.written out.old }

    // What the store holds stays, and no count falls.
    ensures kept { S.holds store.new ≡ S.holds store.old }
    ensures store_counts { (other : List ℕ) → S.faults store.old other ≤ S.faults store.new other }
    ensures sink_counts { K.faults out.old ≤ K.faults out.new }
{
    match command_of(words) {
        None => Status::Usage,
        Some(command) => carry_out(alloc, command, store, out),
    }
}

/// Carries out a command. What it calls for is written by one call.
fn carry_out<S: Store, K: Sink>(
    alloc: Global,
    command: Command<'_>,
    store: &mut S,
    out: &mut K,
) -> Status
    requires { AreModelFiles (files_of (asked command)) }
    ensures answer { CommandAnswer result (S.holds store.old) (asked command.entry) (S.faults store.old) (S.faults store.new) (K.written out.old) (K.written out.new) (K.faults out.old) (K.faults out.new) }
    ensures kept { S.holds store.new ≡ S.holds store.old }
    ensures store_counts { (other : List ℕ) → S.faults store.old other ≤ S.faults store.new other }
    ensures sink_counts { K.faults out.old ≤ K.faults out.new }
{
    match output_of(alloc, command, store) {
        Err(error) => unread(error),
        Ok(output) => match write_all(out, &output.text) {
            Ok(()) => output.status,
            Err(_) => Status::WriteFault,
        },
    }
}

/// The status where no output was made.
fn unread(error: ReadError) -> Status
    ensures { result ≡ unread_status error }
{
    match error {
        ReadError::Fault => Status::ReadFault,
        ReadError::TooLarge => Status::TooLarge,
        ReadError::NoMemory(_) => Status::NoMemory,
    }
}

/// What a command calls for.
fn output_of<S: Store>(
    alloc: Global,
    command: Command<'_>,
    store: &mut S,
) -> Result<Output, ReadError>
    requires { AreModelFiles (files_of (asked command)) }
    ensures output { IfOk result (λ output. IsOutputFor (S.holds store.old) (asked command.entry) output.status output.text.items) }
    ensures fault { IsErrOf result ReadError.Fault → FailedFor (S.holds store.old) (asked command.entry) (S.faults store.old) (S.faults store.new) }
    ensures too_large { IsErrOf result ReadError.TooLarge → IsTooLargeFor (S.holds store.old) (asked command.entry) }
    ensures store_counts { (other : List ℕ) → S.faults store.old other ≤ S.faults store.new other }
    ensures kept { S.holds store.new ≡ S.holds store.old }
{
    match command {
        Command::Check(files) => check_files(alloc, store, files),
        Command::Compile(files) => compile_files(alloc, store, files),
        Command::Run(files, program, stimuli, steps) => {
            run_program(alloc, store, files, program, stimuli, steps)
        }
        Command::Simulate(files, stimuli, steps) => simulate(alloc, store, files, stimuli, steps),
    }
}

/// `check`: that the model files are accepted.
fn check_files<S: Store>(
    alloc: Global,
    store: &mut S,
    files: &[String],
) -> Result<Output, ReadError>
    requires { AreModelFiles (texts files.now) }
    ensures output { IfOk result (λ output. IsOutputFor (S.holds store.old) (Check (texts files.now)) output.status output.text.items) }
    ensures fault { IsErrOf result ReadError.Fault → FailedFor (S.holds store.old) (Check (texts files.now)) (S.faults store.old) (S.faults store.new) }
    ensures too_large { IsErrOf result ReadError.TooLarge → IsTooLargeFor (S.holds store.old) (Check (texts files.now)) }
    ensures store_counts { (other : List ℕ) → S.faults store.old other ≤ S.faults store.new other }
    ensures kept { S.holds store.new ≡ S.holds store.old }
{
    match read_model(alloc, store, files)? {
        Judgement::Refused(text) => Ok(Output {
            status: Status::Refused,
            text,
        }),
        Judgement::Accepted(model) => {
            let text = accepted_line(alloc, &model)?;
            Ok(Output {
                status: Status::Done,
                text,
            })
        }
    }
}

/// `cc`: the C of the model of the files.
fn compile_files<S: Store>(
    alloc: Global,
    store: &mut S,
    files: &[String],
) -> Result<Output, ReadError>
    requires { AreModelFiles (texts files.now) }
    ensures output { IfOk result (λ output. IsOutputFor (S.holds store.old) (Compile (texts files.now)) output.status output.text.items) }
    ensures fault { IsErrOf result ReadError.Fault → FailedFor (S.holds store.old) (Compile (texts files.now)) (S.faults store.old) (S.faults store.new) }
    ensures too_large { IsErrOf result ReadError.TooLarge → IsTooLargeFor (S.holds store.old) (Compile (texts files.now)) }
    ensures store_counts { (other : List ℕ) → S.faults store.old other ≤ S.faults store.new other }
    ensures kept { S.holds store.new ≡ S.holds store.old }
{
    match read_model(alloc, store, files)? {
        Judgement::Refused(text) => Ok(Output {
            status: Status::Refused,
            text,
        }),
        Judgement::Accepted(model) => {
            let text = compile(alloc, &model)?;
            Ok(Output {
                status: Status::Done,
                text,
            })
        }
    }
}

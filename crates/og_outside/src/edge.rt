//! The body of the program, from the words of the command line to the exit status.
ghost use Rattle.std.specs.Prelude.{◌≡◌, ◌≢◌, drop, map, string_bytes, IfOk, IfErr, OnErr};
ghost use Rattle.std.specs.IoError.{error_kind};
ghost use Rattle.std.specs.Process.{exit_status};
ghost use Rattle.std.specs.Vec.Iter.{into_iter_items};
ghost use Rattle.og_tool.specs.Statuses.{code_of};
ghost use Rattle.og_outside.specs.Ends.{Ends, Says};

use crate::{Disk, FileStore, WriterSink, words_after_name};
use og_base::{Sink, Store};
use og_tool::{Status, run_tool};
use std::alloc::Global;
use std::env::Args;
use std::io::ErrorKind;
use std::process::ExitCode;
use std::rt::{Env, Files};
use std::{env, io};

/// The whole program: the words of the command line, the files of the file system and the standard output.
pub fn run<R: Env + Files + Print + AllocGlobal>(rt: &R) -> ExitCode {
    let mut store = FileStore::new(Disk::new(rt));
    let mut sink = WriterSink::new(io::writer(rt));
    carry_out(rt.alloc(), env::args(rt), &mut store, &mut sink)
}

/// Carries out the command of the words after the first, which is the program's own name. A command line with a word that is
/// no text is a faulty one.
pub fn carry_out<S: Store, K: Sink>(
    alloc: Global,
    args: io::Result<Args>,
    store: &mut S,
    out: &mut K,
) -> ExitCode
    ensures words { IfOk args (λ all. Ends (exit_status result) (map string_bytes (drop 1 (into_iter_items all))) (S.holds store.old) (S.faults store.old) (S.faults store.new) (K.written out.old) (K.written out.new) (K.faults out.old) (K.faults out.new)) }
    ensures faulty { IfErr args (λ error. error_kind error ≢ ErrorKind.OutOfMemory → exit_status result ≡ code_of Status.Usage) }
    ensures no_memory { IfErr args (λ error. error_kind error ≡ ErrorKind.OutOfMemory → exit_status result ≡ code_of Status.NoMemory) }
    ensures faulty_writes_nothing { OnErr args (K.written out.new ≡ K.written out.old) }
{
    let status = match args {
        Ok(args) => answer(alloc, args, store, out),
        Err(error) => refused(&error),
    };
    ExitCode::from(status.code())
}

/// How the words could not be read.
fn refused(error: &io::Error) -> Status
    ensures faulty { error_kind error.now ≢ ErrorKind.OutOfMemory → result ≡ Status.Usage }
    ensures no_memory { error_kind error.now ≡ ErrorKind.OutOfMemory → result ≡ Status.NoMemory }
{
    match error.kind() {
        ErrorKind::OutOfMemory => Status::NoMemory,
        _ => Status::Usage,
    }
}

/// The answer of the top call to the words after the first.
fn answer<S: Store, K: Sink>(alloc: Global, args: Args, store: &mut S, out: &mut K) -> Status
    ensures { Says result (map string_bytes (drop 1 (into_iter_items args))) (S.holds store.old) (S.faults store.old) (S.faults store.new) (K.written out.old) (K.written out.new) (K.faults out.old) (K.faults out.new) }
{
    match words_after_name(alloc, args) {
        Ok(words) => run_words(alloc, &words, store, out),
        Err(_) => Status::NoMemory,
    }
}

/// The answer of the top call, whose clauses are put into one.
fn run_words<S: Store, K: Sink>(
    alloc: Global,
    words: &Vec<String>,
    store: &mut S,
    out: &mut K,
) -> Status
    ensures { Says result (map string_bytes words.now.items) (S.holds store.old) (S.faults store.old) (S.faults store.new) (K.written out.old) (K.written out.new) (K.faults out.old) (K.faults out.new) }
{
    run_tool(alloc, words, store, out)
}

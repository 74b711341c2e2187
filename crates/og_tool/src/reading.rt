//! Model files that are read and judged.
ghost use Rattle.std.specs.Prelude.{◌≡◌, ℕ, ◌≤◌, [], ◌∷◌, ◌++◌, ◌<◌, List, length, IfOk, IfErr, OnOk, IsErrOf};
ghost use Rattle.std.specs.List.{AllByRecursion};
ghost use Rattle.og_judge.specs.Judging.{AreShort, sources};
ghost use Rattle.og_tool.specs.Answering.{TellsModel, IsRefusalOf};
ghost use Rattle.og_tool.specs.Answers.{limit, FailedAmong, IsLargeAmong, AreRead, IsNamedAs};
ghost use Rattle.og_words.specs.Asked.{texts};
ghost use Rattle.og_words.specs.Words.{AreModelFiles, IsModelFile};

use og_base::{ModelError, ReadError, Store, Violation, read_all};
use og_judge::{ModelFile, judge};
use og_lexer::Language;
use og_model::Model;
use og_names::NoMemory;
use og_report::{report_line, report_of};
use og_words::is_sdl_file;
use std::alloc::Global;

/// The most bytes that a file may have.
pub const LIMIT: u64 = 67108864;

/// The model of accepted files, or the line that names their first violation.
#[derive(Drop)]
pub enum Judgement {
    Accepted(Model),
    Refused(Vec<u8>),
}

/// Reads the model files of these names, in their order, and then judges them.
pub fn read_model<S: Store>(
    alloc: Global,
    store: &mut S,
    files: &[String],
) -> Result<Judgement, ReadError>
    requires { AreModelFiles (texts files.now) }
    ensures read { IfOk result (TellsModel (S.holds store.old) (texts files.now)) }
    ensures fault { IsErrOf result ReadError.Fault → FailedAmong (S.holds store.old) (texts files.now) (S.faults store.old) (S.faults store.new) }
    ensures too_large { IsErrOf result ReadError.TooLarge → IsLargeAmong (S.holds store.old) (texts files.now) }
    ensures store_counts { (other : List ℕ) → S.faults store.old other ≤ S.faults store.new other }
    ensures kept { S.holds store.new ≡ S.holds store.old }
{
    let contents = read_files(alloc, store, files)?;
    let read = contents.as_slice();
    match judge(alloc, read) {
        Ok(model) => Ok(Judgement::Accepted(model)),
        Err(error) => {
            let violation = violation_of(error)?;
            Ok(refused(alloc, files, read, violation)?)
        }
    }
}

/// Reads the files of these names whole, in their order.
fn read_files<S: Store>(
    alloc: Global,
    store: &mut S,
    names: &[String],
) -> Result<Vec<ModelFile>, ReadError>
    requires { AllByRecursion IsModelFile (texts names.now) }
    ensures read { IfOk result (λ contents. AreRead (S.holds store.old) (texts names.now) (sources contents.items)) }
    ensures fault { IsErrOf result ReadError.Fault → FailedAmong (S.holds store.old) (texts names.now) (S.faults store.old) (S.faults store.new) }
    ensures too_large { IsErrOf result ReadError.TooLarge → IsLargeAmong (S.holds store.old) (texts names.now) }
    ensures store_counts { (other : List ℕ) → S.faults store.old other ≤ S.faults store.new other }
    ensures kept { S.holds store.new ≡ S.holds store.old }
{
    let mut contents = Vec::new(alloc);
    for name in names {
        let file = name.as_str();
        let bytes = read_all(alloc, store, file, LIMIT)?;
        let language = language_of(file);
        keep(&mut contents, ModelFile { language, bytes })?;
    }
    Ok(contents)
}

/// The language of a model file, by its name.
fn language_of(name: &str) -> Language
    requires { IsModelFile name.now }
    ensures { IsNamedAs result name.now }
{
    if is_sdl_file(name) {
        Language::Sdl
    } else {
        Language::Asn
    }
}

/// Puts a file behind those before it.
fn keep(contents: &mut Vec<ModelFile>, file: ModelFile) -> Result<(), NoMemory>
    ensures { OnOk result (contents.new.items ≡ contents.old.items ++ file ∷ []) }
{
    contents.push(file)?;
    Ok(())
}

/// The violation of a file, or that memory could not be had.
fn violation_of(error: ModelError) -> Result<Violation, NoMemory>
    ensures broken { IfOk result (λ violation. error ≡ ModelError.Broken violation) }
    ensures no_memory { IfErr result (λ met. error ≡ ModelError.NoMemory met) }
{
    match error {
        ModelError::Broken(violation) => Ok(violation),
        ModelError::NoMemory(met) => Err(met),
    }
}

/// The line that reports the violation, with the name of the file in which it is.
fn refused(
    alloc: Global,
    names: &[String],
    files: &[ModelFile],
    violation: Violation,
) -> Result<Judgement, NoMemory>
    requires named { violation.place.file < length names.now }
    requires stands { violation.place.file < length files.now }
    requires short { AreShort (sources files.now) }
    ensures { IfOk result (IsRefusalOf (texts names.now) (sources files.now) violation) }
{
    let number = violation.place.file as usize;
    let file = &files[number];
    let report = report_of(alloc, file.language, file.bytes.as_slice(), violation)?;
    let mut line = Vec::new(alloc);
    report_line(&report, names[number].as_str().as_bytes(), &mut line)?;
    Ok(Judgement::Refused(line))
}

//! The words of the command line.
ghost use Rattle.std.specs.Prelude.{◌≡◌, ◌≢◌, ℕ, List, ◌∷◌, ◌++◌, ◌↔◌, IfSome, IfNone, IsTrue, length, string_bytes, codes, decimal};
ghost use Rattle.std.specs.List.{AllByRecursion};
ghost use Rattle.og_words.specs.Asked.{texts, asked, BeginsNoFile, Fits, FitsNone, IsStimuliWith};
ghost use Rattle.og_words.specs.Words.{AsksFor, IsNoCommand, HasEnding, IsSdlFile, IsAsnFile, IsModelFile, IsProgramFile, IsStimuliFile, AreDifferent, HasOneSdlFile, AreModelFiles, IsSteps, GivesSteps};

use itoa::Buffer;

/// The most model files of a command.
const MOST_FILES: usize = 64;

/// The statements that a stimulus may take where the words do not say it.
const DEFAULT_STEPS: u32 = 1000000;

/// The most statements that a stimulus may be given.
const MOST_STEPS: u32 = 1000000000;

/// What words ask for, with the words of its model files.
#[derive(Clone, Copy, Debug, Drop)]
pub enum Command<'a> {
    /// `check FILES`.
    Check(&'a [String]),
    /// `cc FILES`.
    Compile(&'a [String]),
    /// `run FILES CFILE STIM`, with the most statements for the start and for each stimulus.
    Run(&'a [String], &'a str, &'a str, u32),
    /// `sim FILES STIM`, with the most statements for the start and for each stimulus.
    Simulate(&'a [String], &'a str, u32),
}

/// The command that the words have the form of.
pub fn command_of(words: &Vec<String>) -> Option<Command<'_>>
    ensures found { IfSome result (λ command. AsksFor (texts words.now.items) (asked command)) }
    ensures none { IfNone result (IsNoCommand (texts words.now.items)) }
{
    let (name, rest) = words.as_slice().split_first()?;
    let (files, behind) = split_files(rest);
    if are_model_files(files) {
        command_with(name.as_str(), files, behind)
    } else {
        None
    }
}

/// The words in front that name model files, and the words behind them.
fn split_files(words: &[String]) -> (&[String], &[String])
    ensures joined { words.now ≡ result.0.now ++ result.1.now }
    ensures files { AllByRecursion IsModelFile (texts result.0.now) }
    ensures stops { BeginsNoFile (texts result.1.now) }
{
    for (count, word) in words.iter().enumerate() {
        if !is_model_file(word.as_str()) {
            return words.split_at(count);
        }
    }
    words.split_at(words.len())
}

/// The command of this name over these model files, with what stands behind them.
fn command_with<'a>(name: &str, files: &'a [String], behind: &'a [String]) -> Option<Command<'a>>
    ensures found { IfSome result (λ command. Fits name.now (texts files.now) (texts behind.now) (asked command)) }
    ensures none { IfNone result (FitsNone name.now (texts files.now) (texts behind.now)) }
{
    if is_word(name, b"check") {
        check_asked(files, behind)
    } else if is_word(name, b"cc") {
        compile_asked(files, behind)
    } else if is_word(name, b"run") {
        run_asked(files, behind)
    } else if is_word(name, b"sim") {
        simulation_asked(files, behind)
    } else {
        None
    }
}

/// Nothing behind the model files of `check`.
fn check_asked<'a>(files: &'a [String], behind: &[String]) -> Option<Command<'a>>
    ensures found { IfSome result (λ command. Fits (codes "check") (texts files.now) (texts behind.now) (asked command)) }
    ensures none { IfNone result (FitsNone (codes "check") (texts files.now) (texts behind.now)) }
{
    if behind.is_empty() {
        Some(Command::Check(files))
    } else {
        None
    }
}

/// Nothing behind the model files of `cc`.
fn compile_asked<'a>(files: &'a [String], behind: &[String]) -> Option<Command<'a>>
    ensures found { IfSome result (λ command. Fits (codes "cc") (texts files.now) (texts behind.now) (asked command)) }
    ensures none { IfNone result (FitsNone (codes "cc") (texts files.now) (texts behind.now)) }
{
    if behind.is_empty() {
        Some(Command::Compile(files))
    } else {
        None
    }
}

/// `CFILE STIM [--steps N]` behind the model files of `run`.
fn run_asked<'a>(files: &'a [String], behind: &'a [String]) -> Option<Command<'a>>
    ensures found { IfSome result (λ command. Fits (codes "run") (texts files.now) (texts behind.now) (asked command)) }
    ensures none { IfNone result (FitsNone (codes "run") (texts files.now) (texts behind.now)) }
{
    let (program, rest) = behind.split_first()?;
    if !is_program_file(program.as_str()) {
        return None;
    }
    let (stimuli, steps) = stimuli_behind(rest)?;
    Some(Command::Run(files, program.as_str(), stimuli, steps))
}

/// `STIM [--steps N]` behind the model files of `sim`.
fn simulation_asked<'a>(files: &'a [String], behind: &'a [String]) -> Option<Command<'a>>
    ensures found { IfSome result (λ command. Fits (codes "sim") (texts files.now) (texts behind.now) (asked command)) }
    ensures none { IfNone result (FitsNone (codes "sim") (texts files.now) (texts behind.now)) }
{
    let (stimuli, steps) = stimuli_behind(behind)?;
    Some(Command::Simulate(files, stimuli, steps))
}

/// `STIM [--steps N]`.
fn stimuli_behind(words: &[String]) -> Option<(&str, u32)>
    ensures found { IfSome result (λ given. IsStimuliWith given.0.now given.1 (texts words.now)) }
    ensures none { IfNone result ((stimuli : List ℕ) (n : ℕ) → IsStimuliWith stimuli n (texts words.now) → ⊥) }
{
    let (stimuli, last) = words.split_first()?;
    if !is_stimuli_file(stimuli.as_str()) {
        return None;
    }
    let steps = steps_given(last)?;
    Some((stimuli.as_str(), steps))
}

/// The number of statements that the last words give.
fn steps_given(last: &[String]) -> Option<u32>
    ensures found { IfSome result (λ n. GivesSteps n (texts last.now)) }
    ensures none { IfNone result ((n : ℕ) → GivesSteps n (texts last.now) → ⊥) }
{
    match last.split_first() {
        None => Some(DEFAULT_STEPS),
        Some((option, rest)) => {
            let (number, more) = rest.split_first()?;
            if more.is_empty() {
                steps_of(option.as_str(), number.as_str())
            } else {
                None
            }
        }
    }
}

/// Whether these files, each of which is a model file, are the model files of a command.
fn are_model_files(files: &[String]) -> bool
    requires { AllByRecursion IsModelFile (texts files.now) }
    ensures { IsTrue result ↔ AreModelFiles (texts files.now) }
{
    files.len() <= MOST_FILES && are_different(files) && has_one_sdl_file(files)
}

/// Whether no word stands twice.
fn are_different(words: &[String]) -> bool
    ensures { IsTrue result ↔ AreDifferent (texts words.now) }
{
    let mut rest = words;
    while let Some((word, others)) = rest.split_first() {
        if !differs_from(word.as_str(), others) {
            return false;
        }
        rest = others;
    }
    true
}

/// Whether the word is none of these.
fn differs_from(word: &str, words: &[String]) -> bool
    ensures { IsTrue result ↔ AllByRecursion (λ other. other ≢ word.now) (texts words.now) }
{
    for other in words {
        if is_word(other.as_str(), word.as_bytes()) {
            return false;
        }
    }
    true
}

/// Whether one of these files, each of which is a model file, is one of SDL/PR, and all others are of ASN.1.
fn has_one_sdl_file(files: &[String]) -> bool
    requires { AllByRecursion IsModelFile (texts files.now) }
    ensures { IsTrue result ↔ HasOneSdlFile (texts files.now) }
{
    let mut rest = files;
    while let Some((file, others)) = rest.split_first() {
        if is_sdl_file(file.as_str()) {
            return are_asn_files(others);
        }
        rest = others;
    }
    false
}

/// Whether all of the files are of ASN.1.
fn are_asn_files(files: &[String]) -> bool
    ensures { IsTrue result ↔ AllByRecursion IsAsnFile (texts files.now) }
{
    for file in files {
        if !is_asn_file(file.as_str()) {
            return false;
        }
    }
    true
}

/// The number of `--steps N`.
fn steps_of(option: &str, number: &str) -> Option<u32>
    ensures found { IfSome result (λ n. (option.now ≡ codes "--steps") × (number.now ≡ decimal n) × IsSteps n) }
    ensures none { IfNone result ((n : ℕ) → option.now ≡ codes "--steps" → number.now ≡ decimal n → IsSteps n → ⊥) }
{
    if is_word(option, b"--steps") {
        number_of_steps(number)
    } else {
        None
    }
}

/// A decimal number of statements, without a sign or a zero in front.
fn number_of_steps(number: &str) -> Option<u32>
    ensures found { IfSome result (λ n. (number.now ≡ decimal n) × IsSteps n) }
    ensures none { IfNone result ((n : ℕ) → number.now ≡ decimal n → IsSteps n → ⊥) }
{
    match number.parse::<u32>() {
        Err(_) => None,
        Ok(steps) => {
            if is_number_of_steps(number, steps) {
                Some(steps)
            } else {
                None
            }
        }
    }
}

/// Whether the word is this number, and the number is one of statements.
fn is_number_of_steps(word: &str, steps: u32) -> bool
    ensures { IsTrue result ↔ ((word.now ≡ decimal steps) × IsSteps steps) }
{
    is_decimal(word, steps) && 1 <= steps && steps <= MOST_STEPS
}

/// Whether the word is the number, as it is printed.
fn is_decimal(word: &str, number: u32) -> bool
    ensures { IsTrue result ↔ (word.now ≡ decimal number) }
{
    let mut buffer = Buffer::new();
    buffer.format(number).as_bytes() == word.as_bytes()
}

fn is_word(word: &str, wanted: &[u8]) -> bool
    ensures { IsTrue result ↔ (word.now ≡ wanted.now) }
{
    word.as_bytes() == wanted
}

fn is_model_file(name: &str) -> bool
    ensures { IsTrue result ↔ IsModelFile name.now }
{
    is_sdl_file(name) || is_asn_file(name)
}

pub fn is_sdl_file(name: &str) -> bool
    ensures { IsTrue result ↔ IsSdlFile name.now }
{
    has_ending(name, b".pr")
}

fn is_asn_file(name: &str) -> bool
    ensures { IsTrue result ↔ IsAsnFile name.now }
{
    has_ending(name, b".asn") || has_ending(name, b".asn1")
}

fn is_program_file(name: &str) -> bool
    ensures { IsTrue result ↔ IsProgramFile name.now }
{
    has_ending(name, b".c")
}

fn is_stimuli_file(name: &str) -> bool
    ensures { IsTrue result ↔ IsStimuliFile name.now }
{
    has_ending(name, b".stim")
}

/// Whether the name ends so, with something before it.
fn has_ending(name: &str, ending: &[u8]) -> bool
    ensures { IsTrue result ↔ HasEnding ending.now name.now }
{
    let name = name.as_bytes();
    if name.len() <= ending.len() {
        return false;
    }
    let (_, end) = name.split_at(name.len() - ending.len());
    end == ending
}

//! Programs of the C subset that are run over a model.
ghost use Rattle.std.specs.Prelude.{◌≡◌, IfOk, IfErr};
ghost use Rattle.og_tool.specs.Loading.{IsLoaded, IsLoadedWith, Agrees, TellsProgram, TellsForm, TellsRule, unread_as, unloaded_as};
ghost use Rattle.og_tool.specs.Compiled.{IsCompiled};
ghost use Rattle.og_tool.specs.Programs.{IsTextOfProgram};
ghost use Rattle.og_tool.specs.declared.program.ProgramError.TheVariants.{NoMemory as OutOfMemory};

use og_base::Place;
use og_cread::{CReadError, read_c};
use og_cstep::{LoadError, LoadRule, Machine};
use og_csubset::{CProgram, one_answer, one_program};
use og_model::Model;
use og_names::NoMemory;
use og_regions::{Regions, number};
use std::alloc::Global;

/// A machine that was just loaded with a program of a model, with the regions of the model.
#[derive(Drop)]
pub struct Loaded {
    pub machine: Machine,
    pub regions: Regions,
}

/// Why no program of a file can be run over a model.
#[derive(Clone, Copy, Debug, PartialEq, Eq)]
pub enum BadProgram {
    /// K1: no program goes on with what stands at this place.
    NoForm(Place),
    /// K2: the token at this place nests more than 256 deep.
    TooDeep(Place),
    /// K3 to K9: the first rule that the program breaks.
    Breaks(LoadRule),
}

/// Why a file gave no program that is loaded.
#[derive(Clone, Copy, Debug, PartialEq, Eq)]
pub enum ProgramError {
    Bad(BadProgram),
    NoMemory(NoMemory),
}

impl From<NoMemory> for ProgramError {
    ghost from_gives = { λ met error. error ≡ OutOfMemory met };

    fn from(met: NoMemory) -> ProgramError {
        ProgramError::NoMemory(met)
    }
}

/// Loads the program that the bytes spell with the model.
pub fn load_text(alloc: Global, bytes: &[u8], model: &Model) -> Result<Loaded, ProgramError>
    ensures loads { IfOk result (IsLoaded model.now bytes.now) }
    ensures bad { IfErr result (TellsProgram model.now bytes.now) }
{
    match read_program(alloc, bytes) {
        Ok(program) => load(alloc, &program, model),
        Err(error) => Err(error),
    }
}

/// The program that the bytes spell.
fn read_program(alloc: Global, bytes: &[u8]) -> Result<CProgram, ProgramError>
    ensures read { IfOk result (IsTextOfProgram bytes.now) }
    ensures bad { IfErr result (TellsForm bytes.now) }
{
    match read_c(alloc, bytes) {
        Ok(program) => Ok(program),
        Err(error) => Err(unread(error)),
    }
}

/// What is wrong with a text that gave no program.
fn unread(error: CReadError) -> ProgramError
    ensures { result ≡ unread_as error }
{
    match error {
        CReadError::Bad(place) => ProgramError::Bad(BadProgram::NoForm(place)),
        CReadError::TooDeep(place) => ProgramError::Bad(BadProgram::TooDeep(place)),
        CReadError::NoMemory(met) => ProgramError::NoMemory(met),
    }
}

/// Loads a program with a model.
fn load(alloc: Global, program: &CProgram, model: &Model) -> Result<Loaded, ProgramError>
    ensures loads { IfOk result (IsLoadedWith program.now model.now) }
    ensures bad { IfErr result (TellsRule program.now model.now) }
{
    let regions = number(alloc, model)?;
    match Machine::load(alloc, program, model, &regions) {
        Ok(machine) => Ok(Loaded { machine, regions }),
        Err(error) => Err(unloaded(error)),
    }
}

/// What is wrong with a program that could not be loaded.
fn unloaded(error: LoadError) -> ProgramError
    ensures { result ≡ unloaded_as error }
{
    match error {
        LoadError::BadProgram(rule) => ProgramError::Bad(BadProgram::Breaks(rule)),
        LoadError::NoMemory(met) => ProgramError::NoMemory(met),
    }
}

/// What is wrong with a program's file, or that memory could not be had.
pub fn reason_of(error: ProgramError) -> Result<BadProgram, NoMemory>
    ensures bad { IfOk result (λ bad. error ≡ ProgramError.Bad bad) }
    ensures no_memory { IfErr result (λ met. error ≡ ProgramError.NoMemory met) }
{
    match error {
        ProgramError::Bad(bad) => Ok(bad),
        ProgramError::NoMemory(met) => Err(met),
    }
}

/// Loads the program that the text of a model's C spells. It always can be loaded.
pub fn load_compiled(alloc: Global, text: &[u8], model: &Model) -> Result<Loaded, NoMemory>
    requires { IsCompiled model.now text.now }
    ensures { IfOk result (Agrees model.now) }
{
    one_program();
    one_answer();
    match load_text(alloc, text, model) {
        Ok(loaded) => Ok(loaded),
        Err(ProgramError::NoMemory(met)) => Err(met),
        Err(ProgramError::Bad(_)) => unreachable!(),
    }
}

//! The tokens of model files.
ghost use Rattle.std.specs.Prelude.{◌≡◌, ◌∷◌, ◌++◌, [], ◌<◌, ◌≤◌, ◌^◌, ◌-◌, IfOk, IfErr, OnOk, length};
ghost use Rattle.og_lexer.specs.Texts.{RefusesIn};
ghost use Rattle.og_trees.specs.Reading.{AreShort, BreakTrees, most_files, sources};
ghost use Rattle.og_trees.specs.Answers.{HasTokens, AreLexed};

use crate::ModelFile;
use og_base::ModelError;
use og_lexer::{Language, Lexed, lex_asn, lex_sdl};
use og_names::NoMemory;
use std::alloc::Global;

/// The tokens of all files, file by file.
pub fn lex_files(alloc: Global, files: &[ModelFile]) -> Result<Vec<Lexed>, ModelError>
    requires few { length files.now ≤ most_files }
    requires short { AreShort (sources files.now) }
    ensures lexed { IfOk result (λ texts. AreLexed 0 (sources files.now) texts.items) }
    ensures broken { IfErr result (BreakTrees (sources files.now)) }
{
    let mut texts = Vec::new(alloc);
    for (number, file) in files.iter().enumerate() {
        match lex_file(alloc, number as u32, file) {
            Err(error) => return Err(error),
            Ok(text) => keep(&mut texts, text)?,
        }
    }
    Ok(texts)
}

/// The tokens of a file.
fn lex_file(alloc: Global, number: u32, file: &ModelFile) -> Result<Lexed, ModelError>
    requires { length file.now.bytes.items < 2 ^ 32 - 1 }
    ensures found { IfOk result (HasTokens file.now.language number file.now.bytes.items) }
    ensures broken { IfErr result (RefusesIn file.now.language number file.now.bytes.items) }
{
    match file.language {
        Language::Sdl => lex_sdl(alloc, number, file.bytes.as_slice()),
        Language::Asn => lex_asn(alloc, number, file.bytes.as_slice()),
    }
}

/// Puts the tokens of a file behind those of the files before it.
fn keep(texts: &mut Vec<Lexed>, text: Lexed) -> Result<(), NoMemory>
    ensures { OnOk result (texts.new.items ≡ texts.old.items ++ text ∷ []) }
{
    texts.push(text)?;
    Ok(())
}

//! The trees of model files, from their tokens.
ghost use Rattle.std.specs.Prelude.{◌≡◌, ◌++◌, IfOk, IfErr, OnOk};
ghost use Rattle.og_lexer.specs.Texts.{EndsOnce};
ghost use Rattle.og_lexer.specs.declared.Language.TheVariants.{Sdl, Asn};
ghost use Rattle.og_trees.specs.Reading.{AreTreesOf, BreakTrees, sources};
ghost use Rattle.og_trees.specs.Answers.{AreLexed, AreTreesIn, AreNoTrees};

use crate::{ModelFile, Trees};
use og_asn1::parse_modules;
use og_base::ModelError;
use og_lexer::{Language, Lexed, Spanned};
use og_names::NoMemory;
use og_parse::parse_units;
use sqlite_items::Items;
use std::alloc::Global;

/// The trees of all files, in the order of the files.
pub fn trees_of(alloc: Global, files: &[ModelFile], texts: &[Lexed]) -> Result<Trees, ModelError>
    requires { AreLexed 0 (sources files.now) texts.now }
    ensures read { IfOk result (AreTreesOf (sources files.now)) }
    ensures broken { IfErr result (BreakTrees (sources files.now)) }
{
    let mut trees = Trees {
        modules: Items::new(alloc),
        units: Items::new(alloc),
    };
    for (number, file) in files.iter().enumerate() {
        match trees_in(alloc, file.language, texts[number].tokens.as_slice()) {
            Err(error) => return Err(error),
            Ok(own) => add(&mut trees, own)?,
        }
    }
    Ok(trees)
}

/// Puts the trees of a file behind those of the files before it.
fn add(trees: &mut Trees, own: Trees) -> Result<(), NoMemory>
    ensures modules { OnOk result (trees.new.modules ≡ trees.old.modules ++ own.modules) }
    ensures units { OnOk result (trees.new.units ≡ trees.old.units ++ own.units) }
{
    trees.modules.append(own.modules)?;
    trees.units.append(own.units)?;
    Ok(())
}

/// The trees of a file: units in one of SDL/PR, modules in one of ASN.1.
fn trees_in(alloc: Global, language: Language, tokens: &[Spanned]) -> Result<Trees, ModelError>
    requires { EndsOnce tokens.now }
    ensures found { IfOk result (AreTreesIn language tokens.now) }
    ensures broken { IfErr result (AreNoTrees language tokens.now) }
{
    match language {
        Language::Sdl => units_in(alloc, tokens),
        Language::Asn => modules_in(alloc, tokens),
    }
}

/// The trees of a file of SDL/PR.
fn units_in(alloc: Global, tokens: &[Spanned]) -> Result<Trees, ModelError>
    requires { EndsOnce tokens.now }
    ensures found { IfOk result (AreTreesIn Sdl tokens.now) }
    ensures broken { IfErr result (AreNoTrees Sdl tokens.now) }
{
    match parse_units(alloc, tokens) {
        Err(error) => Err(error),
        Ok(units) => Ok(Trees {
            modules: Items::new(alloc),
            units,
        }),
    }
}

/// The trees of a file of ASN.1.
fn modules_in(alloc: Global, tokens: &[Spanned]) -> Result<Trees, ModelError>
    requires { EndsOnce tokens.now }
    ensures found { IfOk result (AreTreesIn Asn tokens.now) }
    ensures broken { IfErr result (AreNoTrees Asn tokens.now) }
{
    match parse_modules(alloc, tokens) {
        Err(error) => Err(error),
        Ok(modules) => Ok(Trees {
            modules,
            units: Items::new(alloc),
        }),
    }
}

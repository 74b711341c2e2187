//! The trees of model files.
ghost use Rattle.std.specs.Prelude.{◌≡◌, ◌∷◌, ◌++◌, ◌<◌, ◌≤◌, ℕ, List, IfOk, IfErr, OnOk, length};
ghost use Rattle.og_asn1.specs.declared.syntax.ModuleTree.{ModuleTree};
ghost use Rattle.og_front.specs.declared.syntax.SystemText.{SystemText};
ghost use Rattle.og_front.specs.Grammar.{Spells};
ghost use Rattle.og_lexer.specs.Texts.{EndsOnce};
ghost use Rattle.og_lexer.specs.declared.Spanned.{Spanned};
ghost use Rattle.og_base.specs.declared.Rule.TheVariants as rule;
ghost use Rattle.og_judge.specs.Judging.{HasOneProcess, AreModulesOf, most_files, sources};
ghost use Rattle.og_judge.specs.Answers.{AreLexed, BreakSyntax, BreakForms, IsTreeOf, IsNoText, AreModulesIn, AreNoModules};

use crate::ModelFile;
use og_asn1::{ModuleTree, parse_modules};
use og_base::{ModelError, Rule, Violation};
use og_front::{ParseError, SystemText, parse_system};
use og_lexer::{Language, Lexed, Spanned};
use og_names::NoMemory;
use sqlite_items::Items;
use std::alloc::Global;

/// The modules of all files of ASN.1, in the order of the files.
pub fn modules_of(
    alloc: Global,
    files: &[ModelFile],
    texts: &[Lexed],
) -> Result<Items<ModuleTree>, ModelError>
    requires { AreLexed 0 (sources files.now) texts.now }
    ensures parsed { IfOk result (λ modules. AreModulesOf 0 (sources files.now) modules) }
    ensures broken { IfErr result (BreakSyntax (sources files.now)) }
{
    let mut modules = Items::new(alloc);
    for (number, file) in files.iter().enumerate() {
        match modules_in(alloc, file.language, texts[number].tokens.as_slice()) {
            Err(error) => return Err(error),
            Ok(own) => add(&mut modules, own)?,
        }
    }
    Ok(modules)
}

/// Puts the modules of a file behind those of the files before it.
fn add(modules: &mut Items<ModuleTree>, own: Items<ModuleTree>) -> Result<(), NoMemory>
    ensures { OnOk result (modules.new ≡ modules.old ++ own) }
{
    modules.append(own)?;
    Ok(())
}

/// The modules of a file, of which one of SDL/PR has none.
fn modules_in(
    alloc: Global,
    language: Language,
    tokens: &[Spanned],
) -> Result<Items<ModuleTree>, ModelError>
    requires { EndsOnce tokens.now }
    ensures found { IfOk result (AreModulesIn language tokens.now) }
    ensures broken { IfErr result (AreNoModules language tokens.now) }
{
    match language {
        Language::Sdl => Ok(Items::new(alloc)),
        Language::Asn => parse_modules(alloc, tokens),
    }
}

/// The tree of the one file of SDL/PR.
pub fn tree_of(
    alloc: Global,
    files: &[ModelFile],
    texts: &[Lexed],
) -> Result<SystemText, ModelError>
    requires few { length files.now ≤ most_files }
    requires one { HasOneProcess (sources files.now) }
    requires lexed { AreLexed 0 (sources files.now) texts.now }
    ensures found { IfOk result (IsTreeOf (sources files.now)) }
    ensures broken { IfErr result (BreakForms (sources files.now)) }
{
    for (number, file) in files.iter().enumerate() {
        if let Language::Sdl = file.language {
            return system_of(alloc, texts[number].tokens.as_slice());
        }
    }
    unreachable!()
}

/// The tree of the tokens of a file of SDL/PR.
fn system_of(alloc: Global, tokens: &[Spanned]) -> Result<SystemText, ModelError>
    requires { EndsOnce tokens.now }
    ensures found { IfOk result (λ system. Spells system tokens.now) }
    ensures broken { IfErr result (IsNoText tokens.now) }
{
    match parse_system(alloc, tokens) {
        Ok(system) => Ok(system),
        Err(error) => {
            no_sentence_in(error)?;
            Err(no_sentence(tokens))
        }
    }
}

/// The tokens are no sentence, or memory could not be had.
fn no_sentence_in(error: ParseError) -> Result<(), NoMemory>
    ensures no_sentence { OnOk result (error ≡ ParseError.NoSentence) }
    ensures no_memory { IfErr result (λ met. error ≡ ParseError.NoMemory met) }
{
    match error {
        ParseError::NoSentence => Ok(()),
        ParseError::NoMemory(met) => Err(met),
    }
}

/// F1 at the first token.
fn no_sentence(tokens: &[Spanned]) -> ModelError
    requires { 0 < length tokens.now }
    ensures { (first : Spanned) × (more : List Spanned) × (tokens.now ≡ first ∷ more) × (result ≡ ModelError.Broken (record { rule = rule.F1; place = first.place })) }
{
    ModelError::Broken(Violation {
        rule: Rule::F1,
        place: tokens[0].place,
    })
}

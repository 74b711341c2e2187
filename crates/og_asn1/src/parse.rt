//! The public call: the modules of a file from its tokens.
ghost use Rattle.std.specs.Prelude.{◌≡◌, ◌<◌, ℕ, List, IfOk, IfErr, length};
ghost use Rattle.og_lexer.specs.declared.Spanned.{Spanned};
ghost use Rattle.og_lexer.specs.Texts.{EndsOnce};
ghost use Rattle.og_asn1.specs.declared.syntax.ModuleTree.{ModuleTree};
ghost use Rattle.og_asn1.specs.Kinds.{kinds_of};
ghost use Rattle.og_grammar.specs.Answers.{IsFirstWrong, IsFirstTooDeep, IsCutOff};
ghost use Rattle.og_asn1.specs.Trees.{trees_of};
ghost use Rattle.og_asn1.specs.Grammar.{AreModules, StandsAt, Refuses};

use crate::grammar::{GRAMMAR, LAST, LIMIT, PARTS};
use crate::kind::kind_of;
use crate::left::Left;
use crate::module::modules_of;
use crate::syntax::ModuleTree;
use og_base::{ModelError, Rule, Violation};
use og_grammar::{Refusal, derive};
use og_lexer::Spanned;
use og_names::NoMemory;
use sqlite_items::Items;
use std::alloc::Global;

/// The modules of the tokens of a file, in time linear in their number. A violation is the first of class S: S1 at the
/// first token that no file has there, S2 at the first that nests more than 64 deep. At one token S1 comes first.
pub fn parse_modules(alloc: Global, tokens: &[Spanned]) -> Result<Items<ModuleTree>, ModelError>
    requires { EndsOnce tokens.now }
    // The tokens are those of these modules.
    ensures found { IfOk result (λ modules. AreModules modules tokens.now) }
    // They are those of no others.
    ensures only { IfOk result (λ modules. (others : List ModuleTree) → AreModules others tokens.now → others ≡ modules) }
    // A violation is the first of class S, and then they are those of none.
    ensures broken { IfErr result (Refuses tokens.now) }
{
    let kinds = kinds_of(alloc, tokens)?;
    match derive(alloc, &GRAMMAR, &PARTS, LAST, LIMIT, kinds.as_slice()) {
        Ok(choices) => {
            let modules = modules_by(alloc, choices.as_slice(), tokens)?;
            Ok(modules)
        }
        Err(refusal) => Err(refused(tokens, refusal)),
    }
}

/// The modules by the choices of a derivation.
fn modules_by(
    alloc: Global,
    choices: &[u8],
    tokens: &[Spanned],
) -> Result<Items<ModuleTree>, NoMemory>
    ensures { IfOk result (λ modules. modules ≡ trees_of choices.now tokens.now) }
{
    let (modules, _) = modules_of(alloc, Left { choices, tokens })?;
    Ok(modules)
}

/// Why tokens are those of no modules, where they have no derivation.
fn refused(tokens: &[Spanned], refusal: Refusal) -> ModelError
    requires ends { EndsOnce tokens.now }
    requires wrong { (number : ℕ) → refusal ≡ Refusal.Wrong number → IsFirstWrong GRAMMAR LAST LIMIT (kinds_of tokens.now) number }
    requires deep { (number : ℕ) → refusal ≡ Refusal.TooDeep number → IsFirstTooDeep GRAMMAR LAST LIMIT (kinds_of tokens.now) number }
    requires cut { refusal ≡ Refusal.CutOff → IsCutOff GRAMMAR LAST LIMIT (kinds_of tokens.now) }
    ensures { Refuses tokens.now result }
{
    match refusal {
        Refusal::Wrong(at) => ModelError::Broken(violation_at(Rule::S1, tokens, at)),
        Refusal::TooDeep(at) => ModelError::Broken(violation_at(Rule::S2, tokens, at)),
        Refusal::CutOff => unreachable!(),
        Refusal::NoMemory(met) => ModelError::NoMemory(NoMemory::from(met)),
    }
}

/// The violation of the rule at the token of this number.
fn violation_at(rule: Rule, tokens: &[Spanned], at: usize) -> Violation
    requires { at < length tokens.now }
    ensures rule { result.rule ≡ rule }
    ensures place { StandsAt tokens.now at result }
{
    Violation {
        rule,
        place: tokens[at].place,
    }
}

/// The kinds of the tokens.
fn kinds_of(alloc: Global, tokens: &[Spanned]) -> Result<Vec<u8>, NoMemory>
    ensures { IfOk result (λ kinds. kinds.items ≡ kinds_of tokens.now) }
{
    let mut kinds = Vec::new(alloc);
    for token in tokens {
        kinds.push(kind_of(&token.token))?;
    }
    Ok(kinds)
}

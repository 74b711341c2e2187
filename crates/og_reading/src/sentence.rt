//! The derivation of a whole text, or the first violation of class S.
ghost use Rattle.std.specs.Prelude.{◌≡◌, ◌<◌, ℕ, List, IfOk, IfErr, IsTrue, length};
ghost use Rattle.og_lexer.specs.Texts.{EndsOnce};
ghost use Rattle.og_grammar.specs.Predictive.{is_predictive};
ghost use Rattle.og_grammar.specs.Sentence.{Spells};
ghost use Rattle.og_grammar.specs.Answers.{IsDerivation, IsFirstWrong, IsFirstTooDeep, IsCutOff};
ghost use Rattle.og_reading.specs.declared.kind.TheConstants.{LAST};
ghost use Rattle.og_reading.specs.declared.sentence.TheConstants.{LIMIT};
ghost use Rattle.og_reading.specs.Kinds.{kinds_of};
ghost use Rattle.og_reading.specs.Sentences.{lacks, StandsAt, Breaks};

use crate::kind::{LAST, kind_of};
use og_base::{ModelError, Rule, Violation};
use og_grammar::{Part, Refusal, Symbol, derive};
use og_lexer::Spanned;
use og_names::NoMemory;
use sqlite_items::Items;
use std::alloc::Global;

/// How deep a text may nest.
pub const LIMIT: usize = 64;

/// The choices by which a table gives the tokens of a text, in time linear in their number. A violation is the first of
/// class S: S1 at the first token that no text has there, S2 at the first that nests more than 64 deep. At one token S1
/// comes first.
pub fn choices_of(
    alloc: Global,
    table: &[Symbol],
    parts: &[Part],
    tokens: &[Spanned],
) -> Result<Items<u8>, ModelError>
    requires predictive { IsTrue (is_predictive table.now parts.now LAST) }
    // The end of the file stands in no production.
    requires apart { IsTrue (lacks LAST table.now) }
    requires ends { EndsOnce tokens.now }
    // The tokens have this derivation, which nests nowhere past the limit.
    ensures found { IfOk result (λ choices. IsDerivation table.now LAST LIMIT (kinds_of tokens.now) choices) }
    // They have no other one.
    ensures only { IfOk result (λ choices. (other : List ℕ) → Spells table.now LAST (kinds_of tokens.now) other → other ≡ choices) }
    // A violation is the first of class S.
    ensures broken { IfErr result (Breaks table.now tokens.now) }
{
    let kinds = kinds_of(alloc, tokens)?;
    match derive(alloc, table, parts, LAST, LIMIT, kinds.as_slice()) {
        Ok(choices) => Ok(choices),
        Err(refusal) => Err(refused(table, tokens, refusal)),
    }
}

/// Why tokens have no derivation that nests within the limit.
fn refused(table: &[Symbol], tokens: &[Spanned], refusal: Refusal) -> ModelError
    requires apart { IsTrue (lacks LAST table.now) }
    requires ends { EndsOnce tokens.now }
    requires wrong { (number : ℕ) → refusal ≡ Refusal.Wrong number → IsFirstWrong table.now LAST LIMIT (kinds_of tokens.now) number }
    requires deep { (number : ℕ) → refusal ≡ Refusal.TooDeep number → IsFirstTooDeep table.now LAST LIMIT (kinds_of tokens.now) number }
    requires cut { refusal ≡ Refusal.CutOff → IsCutOff table.now LAST LIMIT (kinds_of tokens.now) }
    ensures { Breaks table.now tokens.now result }
{
    match refusal {
        Refusal::Wrong(at) => ModelError::Broken(violation_at(Rule::S1, tokens, at)),
        Refusal::TooDeep(at) => ModelError::Broken(violation_at(Rule::S2, tokens, at)),
        Refusal::CutOff => unreachable!(),
        Refusal::NoMemory(met) => ModelError::NoMemory(NoMemory::from(met)),
    }
}

/// The violation of the rule at the token of this number.
fn violation_at(rule: Rule, tokens: &[Spanned], at: usize) -> Violation
    requires { at < length tokens.now }
    ensures rule { result.rule ≡ rule }
    ensures place { StandsAt tokens.now at result }
{
    Violation {
        rule,
        place: tokens[at].place,
    }
}

/// The kinds of the tokens.
fn kinds_of(alloc: Global, tokens: &[Spanned]) -> Result<Vec<u8>, NoMemory>
    ensures { IfOk result (λ kinds. kinds.items ≡ kinds_of tokens.now) }
{
    let mut kinds = Vec::new(alloc);
    for token in tokens {
        kinds.push(kind_of(&token.token))?;
    }
    Ok(kinds)
}

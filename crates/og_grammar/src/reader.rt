//! The public call: the derivation of a list of tokens.
ghost use Rattle.std.specs.Prelude.{◌≡◌, ◌<◌, ◌≤◌, ◌*◌, ◌⊎◌, ℕ, List, IfOk, IfSome, IsNone, IsTrue, length, reverse};
ghost use Rattle.og_grammar.specs.Sentence.{Spells, nested, rises_within};
ghost use Rattle.og_grammar.specs.declared.Symbol.{Symbol};
ghost use Rattle.og_grammar.specs.declared.Part.{Part};
ghost use Rattle.og_grammar.specs.Predictive.{is_predictive};
ghost use Rattle.og_grammar.specs.Rows.{rows_below};
ghost use Rattle.og_grammar.specs.Answers.{IsDerivation, IsFirstWrong, IsFirstTooDeep, IsCutOff};
ghost use Rattle.og_grammar.specs.declared.reader.Refusal.TheVariants.{NoMemory};
ghost use Rattle.og_grammar.specs.Standing.{IsFirst};

use crate::rows::{Row, all_rows};
use crate::run::{Run, Step, reach};
use crate::{Due, Nesting, Part, Symbol};
use sqlite_items::Items;
use std::alloc::{AllocError, Global};

/// Why there is no derivation. A place counts tokens from 0.
#[derive(Clone, Copy, Debug, PartialEq, Eq)]
pub enum Refusal {
    /// No sentence begins with the tokens up to and including this one.
    Wrong(usize),
    /// The nesting passes the limit at this one.
    TooDeep(usize),
    /// The tokens begin a sentence but are none.
    CutOff,
    /// Memory could not be had, as this error of an allocation tells.
    NoMemory(AllocError),
}

impl From<AllocError> for Refusal {
    ghost from_gives = { λ met e. e ≡ NoMemory met };

    fn from(met: AllocError) -> Refusal {
        Refusal::NoMemory(met)
    }
}

/// The choices by which part 0 and a token of the kind `last` give tokens of these kinds, in time linear in their
/// number. Nothing in it recurses with the tokens.
pub fn derive(
    alloc: Global,
    table: &[Symbol],
    parts: &[Part],
    last: u8,
    limit: usize,
    kinds: &[u8],
) -> Result<Items<u8>, Refusal>
    requires { IsTrue (is_predictive table.now parts.now last) }
    // The tokens are a sentence that nests nowhere past the limit, with this derivation.
    ensures found { IfOk result (λ choices. IsDerivation table.now last limit kinds.now choices) }
    // They have no other one.
    ensures only { IfOk result (λ choices. (other : List ℕ) → Spells table.now last kinds.now other → other ≡ choices) }
    ensures wrong { (place : ℕ) → result ≡ Err (Refusal.Wrong place) → IsFirstWrong table.now last limit kinds.now place }
    ensures deep { (place : ℕ) → result ≡ Err (Refusal.TooDeep place) → IsFirstTooDeep table.now last limit kinds.now place }
    ensures cut { result ≡ Err Refusal.CutOff → IsCutOff table.now last limit kinds.now }
{
    let rows = all_rows(alloc, table, parts)?;
    let mut run = first_run(alloc, last)?;
    for (at, kind) in kinds.iter().enumerate() {
        match reach(table, rows.as_slice(), parts, last, *kind, &mut run)? {
            Step::Met(nesting) => match nested(nesting, run.count, limit) {
                None => return Err(Refusal::TooDeep(at)),
                Some(count) => run.count = count,
            },
            _ => return Err(Refusal::Wrong(at)),
        }
    }
    if run.due.is_empty() {
        Ok(run.choices)
    } else {
        Err(Refusal::CutOff)
    }
}

/// A sentence has one derivation.
#[tactic(auto, using(crate::proofs::Unique::one_derivation))]
pub fn one_derivation()
    ensures { (table : List Symbol) (parts : List Part) (last : ℕ) → IsTrue (is_predictive table parts last) → (tokens a b : List ℕ) →
        Spells table last tokens a → Spells table last tokens b → a ≡ b }
{}

/// Each list of tokens has a derivation or has none.
pub fn each_is_answered()
    ensures { (table : List Symbol) (parts : List Part) (last : ℕ) → IsTrue (is_predictive table parts last) → (tokens : List ℕ) →
        ((choices : List ℕ) × Spells table last tokens choices) ⊎ ((choices : List ℕ) → Spells table last tokens choices → ⊥) }
{}

/// A limit is never passed where a table rises by at most `most` at a token, and the limit is that often the tokens.
pub fn never_deeper()
    ensures { (table : List Symbol) (last most : ℕ) → IsTrue (rises_within most table) → (tokens : List ℕ) (place : ℕ) →
        IsFirstTooDeep table last (most * length tokens) tokens place → ⊥ }
{}

/// The nesting behind a token that does this to it, unless it passes the limit.
fn nested(nesting: Nesting, count: usize, limit: usize) -> Option<usize>
    requires { count ≤ limit }
    ensures some { IfSome result (λ new. (new ≡ nested nesting count) × (new ≤ limit)) }
    ensures none { IsNone result → limit < nested nesting count }
{
    match nesting {
        Nesting::Keeps => Some(count),
        Nesting::Rises(by) => {
            let by = usize::from(by);
            if by > limit - count {
                None
            } else {
                Some(count + by)
            }
        }
        Nesting::Falls(by) => Some(count.saturating_sub(usize::from(by))),
    }
}

/// At the first token part 0 is due, and then the last token.
fn first_run(alloc: Global, last: u8) -> Result<Run, AllocError>
    ensures { IfOk result (λ run. IsFirst last run) }
{
    let mut due = Items::new(alloc);
    due.push(Due::Expect(Symbol::Token(last, Nesting::Keeps)))?;
    due.push(Due::Expect(Symbol::Part(0)))?;
    let choices = Items::new(alloc);
    Ok(Run {
        due,
        count: 0,
        choices,
    })
}

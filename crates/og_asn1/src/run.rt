//! Runs of tokens in which brackets pair.
ghost use Rattle.std.specs.Prelude.{◌≡◌, suc, IfOk, MatchOption};
ghost use Rattle.og_asn1.specs.Reading.{rest_of, behind_item, behind_items, behind_one, behind_run, passed, tokens_to, run_in, bracket_in};

use crate::left::Left;
use crate::many::Production;
use crate::syntax::RunTree;
use og_lexer::Spanned;
use og_names::NoMemory;
use sqlite_items::Items;
use std::alloc::Global;

/// One less, where there is one.
pub fn one_less(n: usize) -> Option<usize>
    ensures { MatchOption result (n ≡ 0) (λ m. n ≡ suc m) }
{
    if n == 0 { None } else { Some(n - 1) }
}

/// Behind tokens in which brackets pair. `fuel` bounds how deep these nest.
#[cycle(items)]
#[tactic(auto, unfolding(crate::specs::Reading::behind_items))]
fn behind_items(fuel: usize, from: Left<'_>) -> Left<'_>
    ensures { rest_of result ≡ behind_items fuel (rest_of from.entry) }
{
    let Some(less) = one_less(fuel) else {
        return from;
    };
    behind_each(less, from)
}

/// Behind each token of a run.
#[cycle(items)]
fn behind_each(fuel: usize, from: Left<'_>) -> Left<'_>
    ensures { rest_of result ≡ passed (behind_item (behind_items fuel)) (rest_of from.entry) }
{
    let mut left = from;
    for _ in 0..from.choices.len() {
        if !left.goes_on() {
            return left.after();
        }
        left = behind_item(fuel, left.after());
    }
    left
}

/// Behind one token, or behind a bracket and its closing one.
#[cycle(items)]
fn behind_item(fuel: usize, from: Left<'_>) -> Left<'_>
    ensures { rest_of result ≡ behind_item (behind_items fuel) (rest_of from.entry) }
{
    if from.choice() < 3 {
        behind_items(fuel, from.after().behind()).behind()
    } else {
        from.after().behind()
    }
}

/// Behind tokens that are no semicolon.
pub fn behind_exported(from: Left<'_>) -> Left<'_>
    ensures { rest_of result ≡ passed behind_one (rest_of from.entry) }
{
    let mut left = from;
    for _ in 0..from.choices.len() {
        if !left.goes_on() {
            return left.after();
        }
        left = behind_one(left.after());
    }
    left
}

fn behind_one(from: Left<'_>) -> Left<'_>
    ensures { rest_of result ≡ behind_one (rest_of from.entry) }
{
    from.after().behind()
}

/// The tokens from one place up to another, copied.
pub fn tokens_to(alloc: Global, from: Left<'_>, to: Left<'_>) -> Result<Items<Spanned>, NoMemory>
    ensures { IfOk result (λ tokens. tokens ≡ tokens_to (rest_of from.entry) (rest_of to.entry)) }
{
    let len = from.tokens.len().saturating_sub(to.tokens.len());
    let (tokens, _) = from.tokens.split_at(len);
    copied(alloc, tokens)
}

fn copied(alloc: Global, tokens: &[Spanned]) -> Result<Items<Spanned>, NoMemory>
    ensures { IfOk result (λ copy. copy ≡ tokens.now) }
{
    let mut copy = Items::new(alloc);
    for token in tokens {
        copy.push(token.copy(alloc)?)?;
    }
    Ok(copy)
}

/// A bracket with its tokens and its closing one.
#[tactic(auto, unfolding(crate::specs::Reading::run_in))]
pub fn run_of<'a>(alloc: Global, from: Left<'a>) -> Result<(RunTree, Left<'a>), NoMemory>
    ensures { IfOk result (λ x. (x.0, rest_of x.1) ≡ run_in (rest_of from.entry)) }
{
    let place = from.place();
    let inside = from.behind();
    let end = behind_items(inside.choices.len(), inside);
    let tokens = tokens_to(alloc, inside, end)?;
    Ok((RunTree { place, tokens }, end.behind()))
}

/// `"(" any ")"`, `"{" any "}"` or `"[" any "]"`.
pub struct Bracket;

impl Production for Bracket {
    type Tree = RunTree;

    ghost at = { bracket_in };

    fn read<'a>(alloc: Global, from: Left<'a>) -> Result<(RunTree, Left<'a>), NoMemory> {
        run_of(alloc, from.after())
    }
}

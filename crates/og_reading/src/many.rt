//! Repetitions.
ghost use Rattle.std.specs.Prelude.{◌≡◌, ℕ, [], ◌∷◌, IfOk};
ghost use Rattle.og_reading.specs.Reading.{Rest, Take, rest_of, next, more_of, maybe, list_at, list_in_brackets, list_or_none};

use crate::Left;
use og_names::NoMemory;
use sqlite_items::Items;
use std::alloc::Global;
use std::marker::PhantomData;

/// A production.
pub trait Production {
    type Tree: Drop;

    ghost at: { ℕ → Rest → Self.Tree × Rest };

    /// Its tree.
    fn read<'a>(
        alloc: Global,
        fuel: usize,
        from: Left<'a>,
    ) -> Result<(Self::Tree, Left<'a>), NoMemory>
        ensures { IfOk result (λ x. (x.0, rest_of x.1) ≡ at fuel (rest_of from.entry)) };
}

/// These, and then the production as often as the choices say.
#[tactic(auto, using(crate::proofs::Turns::loop_turns))]
pub fn more_of<'a, P: Production>(
    alloc: Global,
    fuel: usize,
    first: Items<P::Tree>,
    from: Left<'a>,
) -> Result<(Items<P::Tree>, Left<'a>), NoMemory>
    ensures { IfOk result (λ x. (x.0, rest_of x.1) ≡ more_of (P.at fuel) first (rest_of from.entry)) }
{
    let mut trees = first;
    let mut left = from;
    for _ in 0..from.choices.len() {
        if !left.goes_on() {
            return Ok((trees, left.after()));
        }
        let (tree, more) = P::read(alloc, fuel, left.after())?;
        trees.push(tree)?;
        left = more;
    }
    Ok((trees, left))
}

/// The production behind a mark.
pub struct Next<P> {
    of: PhantomData<P>,
}

impl<P: Production> Production for Next<P> {
    type Tree = P::Tree;

    ghost at = { λ n. next (P.at n) };

    fn read<'a>(
        alloc: Global,
        fuel: usize,
        from: Left<'a>,
    ) -> Result<(P::Tree, Left<'a>), NoMemory> {
        P::read(alloc, fuel, from.after().behind())
    }
}

/// A part of its own that is a list: the production, and then others behind a mark each.
pub struct Listed<P> {
    of: PhantomData<P>,
}

impl<P: Production> Production for Listed<P> {
    type Tree = Items<P::Tree>;

    ghost at = { λ n. list_at (P.at n) };

    fn read<'a>(
        alloc: Global,
        fuel: usize,
        from: Left<'a>,
    ) -> Result<(Items<P::Tree>, Left<'a>), NoMemory> {
        let (first, from) = P::read(alloc, fuel, from.after())?;
        more_of::<Next<P>>(alloc, fuel, single(alloc, first)?, from)
    }
}

/// Such a list in brackets, or nothing.
pub fn list_in_brackets<'a, P: Production>(
    alloc: Global,
    fuel: usize,
    from: Left<'a>,
) -> Result<(Items<P::Tree>, Left<'a>), NoMemory>
    ensures { IfOk result (λ x. (x.0, rest_of x.1) ≡ list_in_brackets (P.at fuel) (rest_of from.entry)) }
{
    if !from.goes_on() {
        return Ok((Items::new(alloc), from.after()));
    }
    let start = from.after().after().behind();
    let (list, from) = Listed::<P>::read(alloc, fuel, start)?;
    Ok((list, from.behind()))
}

/// Such a list, or nothing.
pub fn list_or_none<'a, P: Production>(
    alloc: Global,
    fuel: usize,
    from: Left<'a>,
) -> Result<(Items<P::Tree>, Left<'a>), NoMemory>
    ensures { IfOk result (λ x. (x.0, rest_of x.1) ≡ list_or_none (P.at fuel) (rest_of from.entry)) }
{
    if !from.goes_on() {
        return Ok((Items::new(alloc), from.after()));
    }
    Listed::<P>::read(alloc, fuel, from.after())
}

/// The production where the choices have it.
pub fn maybe<'a, P: Production>(
    alloc: Global,
    fuel: usize,
    from: Left<'a>,
) -> Result<(Option<P::Tree>, Left<'a>), NoMemory>
    ensures { IfOk result (λ x. (x.0, rest_of x.1) ≡ maybe (P.at fuel) (rest_of from.entry)) }
{
    if !from.goes_on() {
        return Ok((None, from.after()));
    }
    let (tree, from) = P::read(alloc, fuel, from.after())?;
    Ok((Some(tree), from))
}

/// A list of one item.
pub fn single<T: Drop>(alloc: Global, item: T) -> Result<Items<T>, NoMemory>
    ensures { IfOk result (λ items. items ≡ item ∷ []) }
{
    let mut items = Items::new(alloc);
    items.push(item)?;
    Ok(items)
}

//! The trees of enumerators (X.680 clause 20).
ghost use Rattle.std.specs.Prelude.{◌≡◌, IfOk};
ghost use Rattle.og_asn1.specs.Reading.{rest_of};
ghost use Rattle.og_asn1.specs.Trees.{signed_at, enum_number_at, enum_at};

use crate::left::Left;
use crate::many::{Production, maybe};
use crate::syntax::{EnumTree, SignedTree};
use og_names::NoMemory;
use std::alloc::Global;

/// `[ "-" ] number`
#[tactic(auto, unfolding(crate::specs::Trees::signed_at))]
fn signed_of(from: Left<'_>) -> (SignedTree, Left<'_>)
    ensures { (result.0, rest_of result.1) ≡ signed_at (rest_of from.entry) }
{
    let place = from.place();
    let start = from.after();
    let is_negative = from.choice() == 0;
    let start = if is_negative { start.behind() } else { start };
    let digits = start.number();
    let signed = SignedTree {
        place,
        is_negative,
        digits,
    };
    (signed, start.behind())
}

/// `"(" [ "-" ] number ")"`
struct Number;

impl Production for Number {
    type Tree = SignedTree;

    ghost at = { enum_number_at };

    #[tactic(auto, unfolding(crate::specs::Trees::enum_number_at))]
    fn read<'a>(_alloc: Global, from: Left<'a>) -> Result<(SignedTree, Left<'a>), NoMemory> {
        let (number, from) = signed_of(from.after().behind());
        Ok((number, from.behind()))
    }
}

/// `ident [ "(" [ "-" ] number ")" ] | "..."`
pub struct Enumerator;

impl Production for Enumerator {
    type Tree = EnumTree;

    ghost at = { enum_at };

    #[tactic(auto, unfolding(crate::specs::Trees::enum_at))]
    fn read<'a>(alloc: Global, from: Left<'a>) -> Result<(EnumTree, Left<'a>), NoMemory> {
        let start = from.after();
        if from.choice() != 0 {
            let place = start.place();
            return Ok((EnumTree::Extension { place }, start.behind()));
        }
        let name = start.name(alloc)?;
        let (number, from) = maybe::<Number>(alloc, start.behind())?;
        Ok((EnumTree::Item { name, number }, from))
    }
}

//! Names and the ends of constructs.
ghost use Rattle.std.specs.Prelude.{◌≡◌, IfOk};
ghost use Rattle.og_reading.specs.Reading.{rest_of};
ghost use Rattle.og_parse_body.specs.Reading.{name_at, hname_at, comment_at, end_at, own_name_at, closing_at};

use og_ast::{ClosingTree, EndTree, HyphenedName, Name, TextTree};
use og_base::Place;
use og_names::NoMemory;
use og_reading::{Left, Listed, Production, maybe};
use std::alloc::Global;

/// A name.
pub struct NameReader;

impl Production for NameReader {
    type Tree = Name;

    ghost at = { λ n. name_at };

    fn read<'a>(alloc: Global, _fuel: usize, from: Left<'a>) -> Result<(Name, Left<'a>), NoMemory> {
        Ok((from.name(alloc)?, from.behind()))
    }
}

/// `hname = name { "-" name }`
#[tactic(auto, unfolding(crate::specs::Reading::hname_at))]
pub fn hname_of<'a>(alloc: Global, from: Left<'a>) -> Result<(HyphenedName, Left<'a>), NoMemory>
    ensures { IfOk result (λ x. (x.0, rest_of x.1) ≡ hname_at (rest_of from.entry)) }
{
    let (parts, from) = Listed::<NameReader>::read(alloc, 0, from)?;
    Ok((HyphenedName { parts }, from))
}

/// The same, as a production.
pub struct HnameReader;

impl Production for HnameReader {
    type Tree = HyphenedName;

    ghost at = { λ n. hname_at };

    fn read<'a>(
        alloc: Global,
        _fuel: usize,
        from: Left<'a>,
    ) -> Result<(HyphenedName, Left<'a>), NoMemory> {
        hname_of(alloc, from)
    }
}

/// `comment = COMMENT text`
struct CommentReader;

impl Production for CommentReader {
    type Tree = TextTree;

    ghost at = { λ n. comment_at };

    #[tactic(auto, unfolding(crate::specs::Reading::comment_at))]
    fn read<'a>(
        alloc: Global,
        _fuel: usize,
        from: Left<'a>,
    ) -> Result<(TextTree, Left<'a>), NoMemory> {
        let start = from.after().behind();
        Ok((start.text(alloc)?, start.behind()))
    }
}

/// `end = [ comment ] ";"`
#[tactic(auto, unfolding(crate::specs::Reading::end_at))]
pub fn end_of<'a>(alloc: Global, from: Left<'a>) -> Result<(EndTree, Left<'a>), NoMemory>
    ensures { IfOk result (λ x. (x.0, rest_of x.1) ≡ end_at (rest_of from.entry)) }
{
    let (comment, from) = maybe::<CommentReader>(alloc, 0, from.after())?;
    let place = from.place();
    Ok((EndTree { place, comment }, from.behind()))
}

/// A name as a part of its own.
pub struct OwnNameReader;

impl Production for OwnNameReader {
    type Tree = Name;

    ghost at = { λ n. own_name_at };

    #[tactic(auto, unfolding(crate::specs::Reading::own_name_at))]
    fn read<'a>(alloc: Global, fuel: usize, from: Left<'a>) -> Result<(Name, Left<'a>), NoMemory> {
        NameReader::read(alloc, fuel, from.after())
    }
}

/// `closing = [ name ] end`, behind an END keyword at this place.
#[tactic(auto, unfolding(crate::specs::Reading::closing_at))]
pub fn closing_of<'a>(
    alloc: Global,
    place: Place,
    from: Left<'a>,
) -> Result<(ClosingTree, Left<'a>), NoMemory>
    ensures { IfOk result (λ x. (x.0, rest_of x.1) ≡ closing_at place (rest_of from.entry)) }
{
    let (name, from) = maybe::<OwnNameReader>(alloc, 0, from.after())?;
    let (end, from) = end_of(alloc, from)?;
    Ok((ClosingTree { place, name, end }, from))
}

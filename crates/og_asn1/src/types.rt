//! The trees of types (X.680 clause 16 and those behind it). `fuel` bounds how many types stand one inside the other.
ghost use Rattle.std.specs.Prelude.{◌≡◌, ◌∷◌, [], length, IfOk};
ghost use Rattle.og_asn1.specs.declared.syntax.BaseTree.{Integer, Reference, Real, OctetString, BitString};
ghost use Rattle.og_asn1.specs.Reading.{rest_of, behind, name_in, more_of, next, listed};
ghost use Rattle.og_asn1.specs.Trees.{presence_at, part_at, comp_at, some_comps_at, size_at, of_at, sequence_at, set_at, two_runs, one_run, enumerated_at, choice_at, base_by, base_at, tag_mode_at, tag_at, type_by, type_within, type_at};

use crate::enumeration::Enumerator;
use crate::left::Left;
use crate::many::{Production, listed, maybe};
use crate::run::{Bracket, one_less, run_of};
use crate::syntax::{
    BaseTree, CompTree, OfTree, PresenceTree, SizeTree, TagMode, TagTree, TypeTree,
};
use crate::value::value_of;
use og_names::NoMemory;
use sqlite_items::{Boxed, Items};
use std::alloc::Global;

/// `OPTIONAL | DEFAULT value`
struct Presence;

impl Production for Presence {
    type Tree = PresenceTree;

    ghost at = { presence_at };

    #[tactic(auto, unfolding(crate::specs::Trees::presence_at))]
    fn read<'a>(alloc: Global, from: Left<'a>) -> Result<(PresenceTree, Left<'a>), NoMemory> {
        let start = from.after();
        let place = start.place();
        if from.choice() == 0 {
            return Ok((PresenceTree::Optional { place }, start.behind()));
        }
        let (value, from) = value_of(alloc, start.behind())?;
        Ok((PresenceTree::Default { place, value }, from))
    }
}

/// `"(" any ")" | SIZE "(" any ")"`
struct Size;

impl Production for Size {
    type Tree = SizeTree;

    ghost at = { size_at };

    #[tactic(auto, unfolding(crate::specs::Trees::size_at))]
    fn read<'a>(alloc: Global, from: Left<'a>) -> Result<(SizeTree, Left<'a>), NoMemory> {
        let start = from.after();
        if from.choice() == 0 {
            let (run, from) = Bracket::read(alloc, start)?;
            return Ok((SizeTree::Bracket { run }, from));
        }
        let place = start.place();
        let (run, from) = Bracket::read(alloc, start.behind())?;
        Ok((SizeTree::Size { place, run }, from))
    }
}

/// `IMPLICIT | EXPLICIT`
struct Mode;

impl Production for Mode {
    type Tree = TagMode;

    ghost at = { tag_mode_at };

    #[tactic(auto, unfolding(crate::specs::Trees::tag_mode_at))]
    fn read<'a>(_alloc: Global, from: Left<'a>) -> Result<(TagMode, Left<'a>), NoMemory> {
        let mode = if from.choice() == 0 {
            TagMode::Implicit
        } else {
            TagMode::Explicit
        };
        Ok((mode, from.after().behind()))
    }
}

/// `"[" any "]" [ IMPLICIT | EXPLICIT ]`
struct Tag;

impl Production for Tag {
    type Tree = TagTree;

    ghost at = { tag_at };

    #[tactic(auto, unfolding(crate::specs::Trees::tag_at))]
    fn read<'a>(alloc: Global, from: Left<'a>) -> Result<(TagTree, Left<'a>), NoMemory> {
        let (run, from) = Bracket::read(alloc, from)?;
        let (mode, from) = maybe::<Mode>(alloc, from)?;
        Ok((TagTree { run, mode }, from))
    }
}

/// `INTEGER [ "{" any "}" ] [ "(" any ")" ]`, behind its keyword.
fn integer_of<'a>(alloc: Global, from: Left<'a>) -> Result<(BaseTree, Left<'a>), NoMemory>
    ensures { IfOk result (λ x. (x.0, rest_of x.1) ≡ two_runs Integer (rest_of from.entry)) }
{
    let (names, from) = maybe::<Bracket>(alloc, from)?;
    let (limits, from) = maybe::<Bracket>(alloc, from)?;
    Ok((BaseTree::Integer { names, limits }, from))
}

/// `BIT STRING [ "{" any "}" ] [ "(" any ")" ]`, behind its keywords.
fn bit_string_of<'a>(alloc: Global, from: Left<'a>) -> Result<(BaseTree, Left<'a>), NoMemory>
    ensures { IfOk result (λ x. (x.0, rest_of x.1) ≡ two_runs BitString (rest_of from.entry)) }
{
    let (names, from) = maybe::<Bracket>(alloc, from)?;
    let (limits, from) = maybe::<Bracket>(alloc, from)?;
    Ok((BaseTree::BitString { names, limits }, from))
}

/// `Ref [ "(" any ")" ]`
fn reference_of<'a>(alloc: Global, from: Left<'a>) -> Result<(BaseTree, Left<'a>), NoMemory>
    ensures { IfOk result (λ x. (x.0, rest_of x.1) ≡ one_run (Reference (name_in (rest_of from.entry))) (behind (rest_of from.entry))) }
{
    let name = from.name(alloc)?;
    let (limits, from) = maybe::<Bracket>(alloc, from.behind())?;
    Ok((BaseTree::Reference { name, limits }, from))
}

/// `REAL [ "(" any ")" ]`, behind its keyword.
fn real_of<'a>(alloc: Global, from: Left<'a>) -> Result<(BaseTree, Left<'a>), NoMemory>
    ensures { IfOk result (λ x. (x.0, rest_of x.1) ≡ one_run Real (rest_of from.entry)) }
{
    let (limits, from) = maybe::<Bracket>(alloc, from)?;
    Ok((BaseTree::Real { limits }, from))
}

/// `OCTET STRING [ "(" any ")" ]`, behind its keywords.
fn octet_string_of<'a>(alloc: Global, from: Left<'a>) -> Result<(BaseTree, Left<'a>), NoMemory>
    ensures { IfOk result (λ x. (x.0, rest_of x.1) ≡ one_run OctetString (rest_of from.entry)) }
{
    let (limits, from) = maybe::<Bracket>(alloc, from)?;
    Ok((BaseTree::OctetString { limits }, from))
}

/// `"{" enum { "," enum } "}"`
#[tactic(auto, unfolding(crate::specs::Trees::enumerated_at))]
fn enumerated_of<'a>(alloc: Global, from: Left<'a>) -> Result<(BaseTree, Left<'a>), NoMemory>
    ensures { IfOk result (λ x. (x.0, rest_of x.1) ≡ enumerated_at (rest_of from.entry)) }
{
    let (items, from) = listed::<Enumerator>(alloc, from.behind())?;
    Ok((BaseTree::Enumerated { items }, from.behind()))
}

/// A type.
#[cycle(types)]
#[tactic(auto, unfolding(crate::specs::Trees::type_within, crate::specs::Trees::type_by))]
fn type_within<'a>(
    alloc: Global,
    fuel: usize,
    from: Left<'a>,
) -> Result<(TypeTree, Left<'a>), NoMemory>
    ensures { IfOk result (λ x. (x.0, rest_of x.1) ≡ type_within fuel (rest_of from.entry)) }
{
    let place = from.place();
    let Some(less) = one_less(fuel) else {
        let tree = TypeTree {
            place,
            tag: None,
            base: BaseTree::Null,
        };
        return Ok((tree, from));
    };
    let (tag, from) = maybe::<Tag>(alloc, from.after())?;
    let (base, from) = base_of(alloc, less, from)?;
    Ok((TypeTree { place, tag, base }, from))
}

/// A type without its tag.
#[cycle(types)]
#[tactic(auto, unfolding(crate::specs::Trees::base_by))]
fn base_of<'a>(alloc: Global, fuel: usize, from: Left<'a>) -> Result<(BaseTree, Left<'a>), NoMemory>
    ensures { IfOk result (λ x. (x.0, rest_of x.1) ≡ base_at (type_within fuel) (rest_of from.entry)) }
{
    let start = from.after();
    let more = start.behind();
    match from.choice() {
        0 => integer_of(alloc, more),
        1 => Ok((BaseTree::Boolean, more)),
        2 => reference_of(alloc, start),
        3 => enumerated_of(alloc, more),
        4 => choice_of(alloc, fuel, more),
        5 => sequence_of(alloc, fuel, more),
        6 => set_of(alloc, fuel, more),
        7 => real_of(alloc, more),
        8 => Ok((BaseTree::Null, more)),
        9 => octet_string_of(alloc, more.behind()),
        10 => Ok((BaseTree::ObjectIdentifier, more.behind())),
        _ => bit_string_of(alloc, more.behind()),
    }
}

/// `"{" comp { "," comp } "}"`
#[cycle(types)]
#[tactic(auto, unfolding(crate::specs::Trees::choice_at))]
fn choice_of<'a>(
    alloc: Global,
    fuel: usize,
    from: Left<'a>,
) -> Result<(BaseTree, Left<'a>), NoMemory>
    ensures { IfOk result (λ x. (x.0, rest_of x.1) ≡ choice_at (type_within fuel) (rest_of from.entry)) }
{
    let (comps, from) = comps_of(alloc, fuel, from.behind())?;
    Ok((BaseTree::Choice { comps }, from.behind()))
}

/// What stands behind SEQUENCE.
#[cycle(types)]
#[tactic(auto, unfolding(crate::specs::Trees::sequence_at))]
fn sequence_of<'a>(
    alloc: Global,
    fuel: usize,
    from: Left<'a>,
) -> Result<(BaseTree, Left<'a>), NoMemory>
    ensures { IfOk result (λ x. (x.0, rest_of x.1) ≡ sequence_at (type_within fuel) (rest_of from.entry)) }
{
    let start = from.after();
    if from.choice() == 0 {
        let (comps, from) = maybe_comps_of(alloc, fuel, start.behind())?;
        return Ok((BaseTree::Sequence { comps }, from.behind()));
    }
    let (of, from) = of_of(alloc, fuel, start)?;
    Ok((BaseTree::SequenceOf { of }, from))
}

/// What stands behind SET.
#[cycle(types)]
#[tactic(auto, unfolding(crate::specs::Trees::set_at))]
fn set_of<'a>(alloc: Global, fuel: usize, from: Left<'a>) -> Result<(BaseTree, Left<'a>), NoMemory>
    ensures { IfOk result (λ x. (x.0, rest_of x.1) ≡ set_at (type_within fuel) (rest_of from.entry)) }
{
    let start = from.after();
    if from.choice() == 0 {
        let (run, from) = run_of(alloc, start)?;
        return Ok((BaseTree::Set { run }, from));
    }
    let (of, from) = of_of(alloc, fuel, start)?;
    Ok((BaseTree::SetOf { of }, from))
}

/// `[ "(" any ")" | SIZE "(" any ")" ] OF type`
#[cycle(types)]
#[tactic(auto, unfolding(crate::specs::Trees::of_at))]
fn of_of<'a>(alloc: Global, fuel: usize, from: Left<'a>) -> Result<(OfTree, Left<'a>), NoMemory>
    ensures { IfOk result (λ x. (x.0, rest_of x.1) ≡ of_at (type_within fuel) (rest_of from.entry)) }
{
    let (size, from) = maybe::<Size>(alloc, from)?;
    let (item, from) = type_within(alloc, fuel, from.behind())?;
    let item = Boxed::new(alloc, item)?;
    Ok((OfTree { size, item }, from))
}

/// `[ comp { "," comp } ]`
#[cycle(types)]
fn maybe_comps_of<'a>(
    alloc: Global,
    fuel: usize,
    from: Left<'a>,
) -> Result<(Items<CompTree>, Left<'a>), NoMemory>
    ensures { IfOk result (λ x. (x.0, rest_of x.1) ≡ some_comps_at (type_within fuel) (rest_of from.entry)) }
{
    if !from.goes_on() {
        return Ok((Items::new(alloc), from.after()));
    }
    comps_of(alloc, fuel, from.after().after())
}

/// `comp { "," comp }`
#[cycle(types)]
fn comps_of<'a>(
    alloc: Global,
    fuel: usize,
    from: Left<'a>,
) -> Result<(Items<CompTree>, Left<'a>), NoMemory>
    ensures { IfOk result (λ x. (x.0, rest_of x.1) ≡ listed (comp_at (type_within fuel)) (rest_of from.entry)) }
{
    let (first, from) = comp_of(alloc, fuel, from)?;
    let mut comps = Items::new(alloc);
    comps.push(first)?;
    more_comps_of(alloc, fuel, comps, from)
}

/// `{ "," comp }`, behind these.
#[cycle(types)]
#[tactic(auto, using(crate::proofs::Turns::loop_turns))]
fn more_comps_of<'a>(
    alloc: Global,
    fuel: usize,
    first: Items<CompTree>,
    from: Left<'a>,
) -> Result<(Items<CompTree>, Left<'a>), NoMemory>
    ensures { IfOk result (λ x. (x.0, rest_of x.1) ≡ more_of (next (comp_at (type_within fuel))) first (rest_of from.entry)) }
{
    let mut comps = first;
    let mut left = from;
    for _ in 0..from.choices.len() {
        if !left.goes_on() {
            return Ok((comps, left.after()));
        }
        let (comp, more) = comp_of(alloc, fuel, left.after().after().behind())?;
        comps.push(comp)?;
        left = more;
    }
    Ok((comps, left))
}

/// `ident type [ OPTIONAL | DEFAULT value ] | "..."`
#[cycle(types)]
#[tactic(auto, unfolding(crate::specs::Trees::comp_at))]
fn comp_of<'a>(alloc: Global, fuel: usize, from: Left<'a>) -> Result<(CompTree, Left<'a>), NoMemory>
    ensures { IfOk result (λ x. (x.0, rest_of x.1) ≡ comp_at (type_within fuel) (rest_of from.entry)) }
{
    let start = from.after();
    if from.choice() == 0 {
        return part_of(alloc, fuel, start);
    }
    let place = start.place();
    Ok((CompTree::Extension { place }, start.behind()))
}

/// `ident type [ OPTIONAL | DEFAULT value ]`
#[cycle(types)]
#[tactic(auto, unfolding(crate::specs::Trees::part_at))]
fn part_of<'a>(alloc: Global, fuel: usize, from: Left<'a>) -> Result<(CompTree, Left<'a>), NoMemory>
    ensures { IfOk result (λ x. (x.0, rest_of x.1) ≡ part_at (type_within fuel) (rest_of from.entry)) }
{
    let name = from.name(alloc)?;
    let (of, from) = type_within(alloc, fuel, from.behind())?;
    let (presence, from) = maybe::<Presence>(alloc, from)?;
    Ok((CompTree::Part { name, of, presence }, from))
}

/// A type.
pub fn type_of<'a>(alloc: Global, from: Left<'a>) -> Result<(TypeTree, Left<'a>), NoMemory>
    ensures { IfOk result (λ x. (x.0, rest_of x.1) ≡ type_at (rest_of from.entry)) }
{
    type_within(alloc, from.choices.len(), from)
}

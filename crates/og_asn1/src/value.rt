//! The trees of values (X.680 clause 17 and those of its types).
ghost use Rattle.std.specs.Prelude.{◌≡◌, length, IfOk};
ghost use Rattle.og_asn1.specs.Reading.{rest_of, maybe};
ghost use Rattle.og_asn1.specs.Trees.{digits_at, fraction_at, number_value, chosen_at, named_value, braces_value, node_at, value_by, value_within, value_at, no_value};

use crate::left::Left;
use crate::many::{Production, maybe};
use crate::run::{one_less, run_of};
use crate::syntax::{FractionTree, ValueNode, ValueTree};
use og_names::NoMemory;
use sqlite_items::Boxed;
use std::alloc::Global;

/// The digits behind a full stop.
struct Digits;

impl Production for Digits {
    type Tree = u64;

    ghost at = { digits_at };

    #[tactic(auto, unfolding(crate::specs::Trees::digits_at))]
    fn read<'a>(_alloc: Global, from: Left<'a>) -> Result<(u64, Left<'a>), NoMemory> {
        Ok((from.number(), from.after().behind()))
    }
}

/// `"." [ number ]`
struct Fraction;

impl Production for Fraction {
    type Tree = FractionTree;

    ghost at = { fraction_at };

    #[tactic(auto, unfolding(crate::specs::Trees::fraction_at))]
    fn read<'a>(alloc: Global, from: Left<'a>) -> Result<(FractionTree, Left<'a>), NoMemory> {
        let place = from.place();
        let (digits, from) = maybe::<Digits>(alloc, from.after().behind())?;
        Ok((FractionTree { place, digits }, from))
    }
}

/// `number [ "." [ number ] ]`
#[tactic(auto, unfolding(crate::specs::Trees::number_value))]
fn number_of<'a>(
    alloc: Global,
    is_negative: bool,
    from: Left<'a>,
) -> Result<(ValueNode, Left<'a>), NoMemory>
    ensures { IfOk result (λ x. (x.0, rest_of x.1) ≡ number_value is_negative (rest_of from.entry)) }
{
    let digits = from.number();
    let (fraction, from) = maybe::<Fraction>(alloc, from.behind())?;
    let node = ValueNode::Number {
        is_negative,
        digits,
        fraction,
    };
    Ok((node, from))
}

/// `"{" any "}"`
#[tactic(auto, unfolding(crate::specs::Trees::braces_value))]
fn braces_of<'a>(alloc: Global, from: Left<'a>) -> Result<(ValueNode, Left<'a>), NoMemory>
    ensures { IfOk result (λ x. (x.0, rest_of x.1) ≡ braces_value (rest_of from.entry)) }
{
    let (run, from) = run_of(alloc, from)?;
    Ok((ValueNode::Braces { run }, from))
}

/// A value. `fuel` bounds how many values stand one inside the other.
#[cycle(values)]
#[tactic(auto, unfolding(crate::specs::Trees::value_within))]
fn value_within<'a>(
    alloc: Global,
    fuel: usize,
    from: Left<'a>,
) -> Result<(ValueTree, Left<'a>), NoMemory>
    ensures { IfOk result (λ x. (x.0, rest_of x.1) ≡ value_within fuel (rest_of from.entry)) }
{
    let place = from.place();
    let Some(less) = one_less(fuel) else {
        let node = ValueNode::Null;
        return Ok((ValueTree { place, node }, from));
    };
    let (node, from) = node_of(alloc, less, from)?;
    Ok((ValueTree { place, node }, from))
}

/// A value by its choice.
#[cycle(values)]
#[tactic(auto, unfolding(crate::specs::Trees::node_at))]
fn node_of<'a>(
    alloc: Global,
    fuel: usize,
    from: Left<'a>,
) -> Result<(ValueNode, Left<'a>), NoMemory>
    ensures { IfOk result (λ x. (x.0, rest_of x.1) ≡ node_at (value_within fuel) (rest_of from.entry)) }
{
    let start = from.after();
    match from.choice() {
        0 => number_of(alloc, true, start.behind()),
        1 => number_of(alloc, false, start),
        2 => {
            let text = start.word(alloc)?;
            Ok((ValueNode::Text { text }, start.behind()))
        }
        3 => Ok((ValueNode::Truth { value: true }, start.behind())),
        4 => Ok((ValueNode::Truth { value: false }, start.behind())),
        5 => Ok((ValueNode::Null, start.behind())),
        6 => named_of(alloc, fuel, start),
        _ => braces_of(alloc, start),
    }
}

/// `ident [ ":" value ]`
#[cycle(values)]
#[tactic(auto, unfolding(crate::specs::Trees::named_value))]
fn named_of<'a>(
    alloc: Global,
    fuel: usize,
    from: Left<'a>,
) -> Result<(ValueNode, Left<'a>), NoMemory>
    ensures { IfOk result (λ x. (x.0, rest_of x.1) ≡ named_value (value_within fuel) (rest_of from.entry)) }
{
    let name = from.name(alloc)?;
    let (value, from) = chosen_of(alloc, fuel, from.behind())?;
    Ok((ValueNode::Named { name, value }, from))
}

/// `[ ":" value ]`
#[cycle(values)]
fn chosen_of<'a>(
    alloc: Global,
    fuel: usize,
    from: Left<'a>,
) -> Result<(Option<Boxed<ValueTree>>, Left<'a>), NoMemory>
    ensures { IfOk result (λ x. (x.0, rest_of x.1) ≡ maybe (chosen_at (value_within fuel)) (rest_of from.entry)) }
{
    if !from.goes_on() {
        return Ok((None, from.after()));
    }
    let (value, from) = value_within(alloc, fuel, from.after().after().behind())?;
    Ok((Some(Boxed::new(alloc, value)?), from))
}

/// A value.
pub fn value_of<'a>(alloc: Global, from: Left<'a>) -> Result<(ValueTree, Left<'a>), NoMemory>
    ensures { IfOk result (λ x. (x.0, rest_of x.1) ≡ value_at (rest_of from.entry)) }
{
    value_within(alloc, from.choices.len(), from)
}

//! Values of a type in texts that have the form of a value.
#![tactic(auto, using(crate::proofs::Turns::turns))]

ghost use Rattle.std.specs.Prelude.{◌≡◌, [], ◌∷◌, ◌++◌, length, IfOk};
ghost use Rattle.og_value.specs.Bytes.{truth_of};
ghost use Rattle.og_value.specs.Scans.{Found, Reader, and_then, mark_here, mark_at, comma_by, each_by, component_by, components_by, sequence_by, items_by, entries_by, inside_by, chosen_by, named_by, worded_by, sorted_by, value_at, inner_value};
ghost use Rattle.og_value.specs.Reads.{alternative_of};
ghost use Rattle.og_value.specs.Answers.{Gives, with_front};

use crate::ValueError;
use crate::parts::{alternative_of, as_items, as_name, as_number, as_truth, is_called};
use crate::tokens::{
    digits_at, mark_at, mark_here, minus_digits_at, name_at, one_less, past_blanks, truth_of,
    word_at,
};
use og_names::Names;
use og_types::{Part, Sort, TypeId, Value};
use sqlite_items::{Boxed, Items, at};
use std::alloc::Global;

/// What stands behind the mark, where it stands in front, behind blanks.
fn mark_of(mark: u8, bytes: &[u8]) -> Result<&[u8], ValueError>
    ensures { Gives (λ rest. (tt, rest.now)) result (mark_at mark bytes.now) }
{
    match mark_at(mark, bytes) {
        Some(rest) => Ok(rest),
        None => Err(ValueError::Bad),
    }
}

/// A value of the type in front, in a text that nests at most so deep.
#[cycle(values)]
#[tactic(auto, using(crate::proofs::Steps::value_is))]
pub fn value_at<'t>(
    alloc: Global,
    depth: usize,
    sorts: &[Sort],
    names: &Names,
    id: TypeId,
    bytes: &'t [u8],
) -> Result<(Value, &'t [u8]), ValueError>
    ensures { Gives (λ x. (x.0, x.1.now)) result (value_at depth sorts.now names.now id bytes.now) }
{
    match at(sorts, id.0 as usize) {
        None => Err(ValueError::Bad),
        Some(sort) => sorted_at(alloc, depth, sorts, names, sort, bytes),
    }
}

#[cycle(values)]
#[tactic(auto, unfolding(crate::specs::Scans::sorted_by))]
fn sorted_at<'t>(
    alloc: Global,
    depth: usize,
    sorts: &[Sort],
    names: &Names,
    sort: &Sort,
    bytes: &'t [u8],
) -> Result<(Value, &'t [u8]), ValueError>
    ensures { Gives (λ x. (x.0, x.1.now)) result (sorted_by (inner_value depth sorts.now names.now) names.now sort.now bytes.now) }
{
    if let Some((digits, rest)) = digits_at(bytes) {
        return Ok((as_number(sort, false, digits)?, rest));
    }
    if let Some((digits, rest)) = minus_digits_at(bytes) {
        return Ok((as_number(sort, true, digits)?, rest));
    }
    if let Some((word, rest)) = word_at(bytes) {
        return worded_at(alloc, depth, sorts, names, sort, word, rest);
    }
    let Some(inner) = one_less(depth) else {
        return Err(ValueError::Bad);
    };
    let Some(more) = mark_here(b'{', bytes) else {
        return Err(ValueError::Bad);
    };
    inside_at(alloc, inner, sorts, names, sort, past_blanks(more))
}

/// A value that begins with a word.
#[cycle(values)]
#[tactic(auto, unfolding(crate::specs::Scans::named_by))]
fn worded_at<'t>(
    alloc: Global,
    depth: usize,
    sorts: &[Sort],
    names: &Names,
    sort: &Sort,
    word: &[u8],
    rest: &'t [u8],
) -> Result<(Value, &'t [u8]), ValueError>
    ensures { Gives (λ x. (x.0, x.1.now)) result (worded_by (inner_value depth sorts.now names.now) names.now sort.now word.now (truth_of word.now) rest.now) }
{
    if let Some(truth) = truth_of(word) {
        return Ok((as_truth(sort, truth)?, rest));
    }
    let Some(more) = mark_at(b':', rest) else {
        return Ok((as_name(names, sort, word)?, rest));
    };
    let Some(inner) = one_less(depth) else {
        return Err(ValueError::Bad);
    };
    alternative_at(alloc, inner, sorts, names, sort, word, past_blanks(more))
}

/// The value of an alternative of this name, behind the colon.
#[cycle(values)]
fn alternative_at<'t>(
    alloc: Global,
    depth: usize,
    sorts: &[Sort],
    names: &Names,
    sort: &Sort,
    word: &[u8],
    bytes: &'t [u8],
) -> Result<(Value, &'t [u8]), ValueError>
    ensures { Gives (λ x. (x.0, x.1.now)) result (chosen_by (Some (value_at depth sorts.now names.now)) (alternative_of names.now (Some sort.now) word.now) bytes.now) }
{
    let (place, inner) = alternative_of(names, sort, word)?;
    let (value, rest) = value_at(alloc, depth, sorts, names, inner, bytes)?;
    Ok((Value::Choice(place, Boxed::new(alloc, value)?), rest))
}

/// A value in braces, of which the first is passed.
#[cycle(values)]
#[tactic(auto, unfolding(crate::specs::Scans::inside_by, crate::specs::Scans::entries_by))]
fn inside_at<'t>(
    alloc: Global,
    depth: usize,
    sorts: &[Sort],
    names: &Names,
    sort: &Sort,
    bytes: &'t [u8],
) -> Result<(Value, &'t [u8]), ValueError>
    ensures { Gives (λ x. (x.0, x.1.now)) result (inside_by (value_at depth sorts.now names.now) names.now sort.now bytes.now) }
{
    if let Some(rest) = mark_here(b'}', bytes) {
        return Ok((as_items(sort, Items::new(alloc))?, rest));
    }
    match sort {
        Sort::Sequence { parts } => {
            sequence_at(alloc, depth, sorts, names, parts.as_slice(), bytes)
        }
        Sort::SeqOf { item, .. } => items_at(alloc, depth, sorts, names, sort, *item, bytes),
        _ => Err(ValueError::Bad),
    }
}

/// A sequence of these components, behind its first brace.
#[cycle(values)]
#[tactic(auto, unfolding(crate::specs::Scans::entries_by, crate::specs::Scans::sequence_by))]
fn sequence_at<'t>(
    alloc: Global,
    depth: usize,
    sorts: &[Sort],
    names: &Names,
    parts: &[Part],
    bytes: &'t [u8],
) -> Result<(Value, &'t [u8]), ValueError>
    ensures { Gives (λ x. (x.0, x.1.now)) result (entries_by (value_at depth sorts.now names.now) names.now (Sort.Sequence parts.now) bytes.now) }
{
    let [first, others @ ..] = parts else {
        return Err(ValueError::Bad);
    };
    let (value, rest) = component_at(alloc, depth, sorts, names, first, bytes)?;
    let mut values = Items::new(alloc);
    values.push(value)?;
    let (values, more) = components_at(alloc, depth, sorts, names, values, others, rest)?;
    let end = mark_of(b'}', more)?;
    Ok((Value::Sequence(values), end))
}

/// These components behind others, each with a comma before it.
#[cycle(values)]
fn components_at<'t>(
    alloc: Global,
    depth: usize,
    sorts: &[Sort],
    names: &Names,
    before: Items<Value>,
    parts: &[Part],
    bytes: &'t [u8],
) -> Result<(Items<Value>, &'t [u8]), ValueError>
    ensures { Gives (λ x. (x.0, x.1.now)) result (with_front before (components_by (value_at depth sorts.now names.now) names.now parts.now bytes.now)) }
{
    let mut values = before;
    let mut rest = bytes;
    for part in parts {
        let (value, behind) = comma_component(alloc, depth, sorts, names, part, rest)?;
        values.push(value)?;
        rest = behind;
    }
    Ok((values, rest))
}

#[cycle(values)]
#[tactic(auto, unfolding(crate::specs::Scans::comma_by))]
fn comma_component<'t>(
    alloc: Global,
    depth: usize,
    sorts: &[Sort],
    names: &Names,
    part: &Part,
    bytes: &'t [u8],
) -> Result<(Value, &'t [u8]), ValueError>
    ensures { Gives (λ x. (x.0, x.1.now)) result (comma_by (component_by (value_at depth sorts.now names.now) names.now part.now) bytes.now) }
{
    let more = mark_of(b',', bytes)?;
    component_at(alloc, depth, sorts, names, part, past_blanks(more))
}

/// A component: its name, and a value of its type.
#[cycle(values)]
#[tactic(auto, unfolding(crate::specs::Scans::component_by))]
fn component_at<'t>(
    alloc: Global,
    depth: usize,
    sorts: &[Sort],
    names: &Names,
    part: &Part,
    bytes: &'t [u8],
) -> Result<(Value, &'t [u8]), ValueError>
    ensures { Gives (λ x. (x.0, x.1.now)) result (component_by (value_at depth sorts.now names.now) names.now part.now bytes.now) }
{
    let Some((word, rest)) = name_at(bytes) else {
        return Err(ValueError::Bad);
    };
    if !is_called(names, word, part.name) {
        return Err(ValueError::Bad);
    }
    value_at(alloc, depth, sorts, names, part.sort, past_blanks(rest))
}

/// Items of a type, behind their first brace.
#[cycle(values)]
#[tactic(auto, unfolding(crate::specs::Scans::items_by))]
fn items_at<'t>(
    alloc: Global,
    depth: usize,
    sorts: &[Sort],
    names: &Names,
    sort: &Sort,
    item: TypeId,
    bytes: &'t [u8],
) -> Result<(Value, &'t [u8]), ValueError>
    ensures { Gives (λ x. (x.0, x.1.now)) result (items_by (value_at depth sorts.now names.now item) sort.now bytes.now) }
{
    let (value, rest) = value_at(alloc, depth, sorts, names, item, bytes)?;
    let mut values = Items::new(alloc);
    values.push(value)?;
    let (values, more) = further_items(alloc, depth, sorts, names, values, item, rest)?;
    let end = mark_of(b'}', more)?;
    Ok((as_items(sort, values)?, end))
}

/// Items behind others, each with a comma before it.
#[cycle(values)]
fn further_items<'t>(
    alloc: Global,
    depth: usize,
    sorts: &[Sort],
    names: &Names,
    before: Items<Value>,
    item: TypeId,
    bytes: &'t [u8],
) -> Result<(Items<Value>, &'t [u8]), ValueError>
    ensures { Gives (λ x. (x.0, x.1.now)) result (with_front before (each_by (comma_by (value_at depth sorts.now names.now item)) (length bytes.now) bytes.now)) }
{
    let mut values = before;
    let mut rest = bytes;
    for _ in 0..bytes.len() {
        match comma_item(alloc, depth, sorts, names, item, rest) {
            Ok((value, behind)) => {
                values.push(value)?;
                rest = behind;
            }
            Err(ValueError::Bad) => return Ok((values, rest)),
            Err(ValueError::NoMemory(met)) => return Err(ValueError::NoMemory(met)),
        }
    }
    Ok((values, rest))
}

#[cycle(values)]
#[tactic(auto, unfolding(crate::specs::Scans::comma_by))]
fn comma_item<'t>(
    alloc: Global,
    depth: usize,
    sorts: &[Sort],
    names: &Names,
    item: TypeId,
    bytes: &'t [u8],
) -> Result<(Value, &'t [u8]), ValueError>
    ensures { Gives (λ x. (x.0, x.1.now)) result (comma_by (value_at depth sorts.now names.now item) bytes.now) }
{
    let more = mark_of(b',', bytes)?;
    value_at(alloc, depth, sorts, names, item, past_blanks(more))
}

//! The first value of a type.
ghost use Rattle.std.specs.Prelude.{◌≡◌, IfOk, map, replicate, Some};
ghost use Rattle.og_types.specs.Values.{first_alternative as first_choice, first_of_sort as first_by_sort, first_within as first_value, no_value as none};

use crate::{Part, Sort, TypeId, Value};
use og_names::NoMemory;
use sqlite_items::{Boxed, Items, at};
use std::alloc::Global;

/// The first value of a type, going down at most so many times.
#[cycle(first)]
pub fn first_within(
    alloc: Global,
    depth: usize,
    sorts: &[Sort],
    id: TypeId,
) -> Result<Value, NoMemory>
    ensures { IfOk result (λ value. value ≡ first_value depth sorts.now id) }
{
    if depth == 0 {
        return Ok(no_value());
    }
    match at(sorts, id.0 as usize) {
        None => Ok(no_value()),
        Some(sort) => first_of_sort(alloc, depth - 1, sorts, sort),
    }
}

/// What stands for a value where there is none.
fn no_value() -> Value
    ensures { result ≡ none }
{
    Value::Int(0)
}

#[cycle(first)]
fn first_of_sort(
    alloc: Global,
    depth: usize,
    sorts: &[Sort],
    sort: &Sort,
) -> Result<Value, NoMemory>
    ensures { IfOk result (λ value. value ≡ first_by_sort (first_value depth sorts.now) (Some sort.now)) }
{
    match sort {
        Sort::Int { lo, .. } => Ok(Value::Int(*lo)),
        Sort::Bool => Ok(Value::Bool(false)),
        Sort::Enumerated { .. } => Ok(Value::Enumerated(0)),
        Sort::Sequence { parts } => {
            let values = first_of_parts(alloc, depth, sorts, parts.as_slice())?;
            Ok(Value::Sequence(values))
        }
        Sort::Choice { parts } => first_alternative(alloc, depth, sorts, parts.as_slice()),
        Sort::SeqOf { lo, item, .. } => {
            let values = first_items(alloc, depth, sorts, *lo, *item)?;
            Ok(Value::SeqOf(values))
        }
        Sort::Opaque => Ok(no_value()),
    }
}

#[cycle(first)]
fn first_of_parts(
    alloc: Global,
    depth: usize,
    sorts: &[Sort],
    parts: &[Part],
) -> Result<Items<Value>, NoMemory>
    ensures { IfOk result (λ values. values ≡ map (λ part. first_value depth sorts.now part.sort) parts.now) }
{
    let mut values = Items::new(alloc);
    for part in parts {
        values.push(first_within(alloc, depth, sorts, part.sort)?)?;
    }
    Ok(values)
}

#[cycle(first)]
fn first_alternative(
    alloc: Global,
    depth: usize,
    sorts: &[Sort],
    parts: &[Part],
) -> Result<Value, NoMemory>
    ensures { IfOk result (λ value. value ≡ first_choice (first_value depth sorts.now) parts.now) }
{
    match parts {
        [] => Ok(no_value()),
        [part, ..] => {
            let value = first_within(alloc, depth, sorts, part.sort)?;
            Ok(Value::Choice(0, Boxed::new(alloc, value)?))
        }
    }
}

/// So many first values of a type.
#[cycle(first)]
fn first_items(
    alloc: Global,
    depth: usize,
    sorts: &[Sort],
    count: u32,
    item: TypeId,
) -> Result<Items<Value>, NoMemory>
    ensures { IfOk result (λ values. values ≡ replicate count (first_value depth sorts.now item)) }
{
    let mut values = Items::new(alloc);
    for _place in 0..count {
        values.push(first_within(alloc, depth, sorts, item)?)?;
    }
    Ok(values)
}

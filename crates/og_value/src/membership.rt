//! Whether a value is one of a type (X.680).
#![tactic(auto, using(crate::proofs::Within::fitting, og_names::proofs::Loops::loops))]

ghost use Rattle.std.specs.Prelude.{◌≡◌, Some};
ghost use Rattle.std.specs.List.{list_all};
ghost use Rattle.og_types.specs.declared.Value.{out-Value};
ghost use Rattle.og_types.specs.Values.{is_in, in_within, in_sort, in_parts, in_part};

use crate::tokens::one_less;
use og_types::{Part, Sort, TypeId, TypeTable, Value};
use sqlite_items::at;

/// Whether the value is one of the type. It takes no memory.
pub fn fits(types: &TypeTable, id: TypeId, value: &Value) -> bool
    ensures { result ≡ is_in types.now id value.now }
{
    fits_within(id.0 as usize + 1, types.as_slice(), id, value)
}

/// The same, going down at most so many times.
#[cycle(fits)]
fn fits_within(depth: usize, sorts: &[Sort], id: TypeId, value: &Value) -> bool
    ensures { result ≡ in_within depth sorts.now id value.now }
{
    let Some(inner) = one_less(depth) else {
        return false;
    };
    match at(sorts, id.0 as usize) {
        None => false,
        Some(sort) => fits_sort(inner, sorts, sort, value),
    }
}

#[cycle(fits)]
fn fits_sort(depth: usize, sorts: &[Sort], sort: &Sort, value: &Value) -> bool
    ensures { result ≡ in_sort (in_within depth sorts.now) (Some sort.now) (out-Value value.now) }
{
    match value {
        Value::Int(number) => match sort {
            Sort::Int { lo, hi } => *lo <= *number && *number <= *hi,
            _ => false,
        },
        Value::Bool(_) => match sort {
            Sort::Bool => true,
            _ => false,
        },
        Value::Enumerated(place) => match sort {
            Sort::Enumerated { names, .. } => (*place as usize) < names.len(),
            _ => false,
        },
        Value::Sequence(values) => match sort {
            Sort::Sequence { parts } => {
                fit_parts(depth, sorts, parts.as_slice(), values.as_slice())
            }
            _ => false,
        },
        Value::Choice(place, value) => match sort {
            Sort::Choice { parts } => match at(parts.as_slice(), *place as usize) {
                None => false,
                Some(part) => fits_within(depth, sorts, part.sort, value.get()),
            },
            _ => false,
        },
        Value::SeqOf(values) => match sort {
            Sort::SeqOf { lo, hi, item } => {
                *lo as usize <= values.len()
                    && values.len() <= *hi as usize
                    && fit_items(depth, sorts, *item, values.as_slice())
            }
            _ => false,
        },
    }
}

/// One value for each component, each of its type.
#[cycle(fits)]
fn fit_parts(depth: usize, sorts: &[Sort], parts: &[Part], values: &[Value]) -> bool
    ensures { result ≡ in_parts (in_within depth sorts.now) parts.now values.now }
{
    for (place, part) in parts.iter().enumerate() {
        match at(values, place) {
            None => return false,
            Some(value) => {
                if !fits_within(depth, sorts, part.sort, value) {
                    return false;
                }
            }
        }
    }
    parts.len() == values.len()
}

#[cycle(fits)]
fn fit_items(depth: usize, sorts: &[Sort], item: TypeId, values: &[Value]) -> bool
    ensures { result ≡ list_all (in_within depth sorts.now item) values.now }
{
    for value in values {
        if !fits_within(depth, sorts, item, value) {
            return false;
        }
    }
    true
}

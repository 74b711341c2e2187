//! The value of a type that cells hold (X.680).
#![tactic(auto, using(og_names::proofs::Loops::loops, crate::proofs::Valued::valued))]

ghost use Rattle.std.specs.Prelude.{◌≡◌, ◌≤◌, map, IfOk};
ghost use Rattle.og_types.specs.declared.Value.TheVariants as made;
ghost use Rattle.og_ir.specs.Cells.{row, equal_parts};
ghost use Rattle.og_ir.specs.Reading.{value_in, read_within as value_within, read_sort as value_of_sort, read_sequence as sequence_in, read_parts as parts_in, read_choice as choice_in, read_seq_of as seq_of_in, read_items as items_in, blank_within, blank_sort, blank};
ghost use Rattle.og_ccells.specs.Vectors.{filled};
ghost use Rattle.og_ccells.specs.Views.{zero_sequence, zero_choice, zero_seq_of, integer_at, truth_at, enumerator_at};

use crate::numbers::{behind, natural, natural_at, number_at};
use crate::types::{width_parts, width_within};
use og_cload::fields::count_of;
use og_names::NoMemory;
use og_types::{Part, Sort, TypeId, Value};
use sqlite_items::{Boxed, Items, at};
use std::alloc::Global;

/// The value of the type that the cells from a place on hold, none where they hold none.
pub fn read_value(
    alloc: Global,
    sorts: &[Sort],
    sort: TypeId,
    cells: &[i64],
    place: usize,
) -> Result<Option<Value>, NoMemory>
    ensures { IfOk result (λ value. value ≡ value_in sorts.now sort (filled place (blank sorts.now sort) cells.now)) }
{
    let value = read_within(alloc, sort.0 as usize + 1, sorts, sort, cells, place)?;
    Ok(value)
}

/// The same, going down at most so many times.
#[cycle(read)]
fn read_within(
    alloc: Global,
    depth: usize,
    sorts: &[Sort],
    sort: TypeId,
    cells: &[i64],
    place: usize,
) -> Result<Option<Value>, NoMemory>
    ensures { IfOk result (λ value. value ≡ value_within depth sorts.now sort (filled place (blank_within depth sorts.now sort) cells.now)) }
{
    if depth == 0 {
        return Ok(None);
    }
    match at(sorts, sort.0 as usize) {
        None => Ok(None),
        Some(found) => {
            let value = read_sort(alloc, depth - 1, sorts, found, cells, place)?;
            Ok(value)
        }
    }
}

#[cycle(read)]
fn read_sort(
    alloc: Global,
    depth: usize,
    sorts: &[Sort],
    sort: &Sort,
    cells: &[i64],
    place: usize,
) -> Result<Option<Value>, NoMemory>
    ensures { IfOk result (λ value. value ≡ value_of_sort (value_within depth sorts.now) sort.now (filled place (blank_sort (blank_within depth sorts.now) sort.now) cells.now)) }
{
    match sort {
        Sort::Int { lo, hi } => Ok(integer(*lo, *hi, number_at(cells, place))),
        Sort::Bool => Ok(truth(number_at(cells, place))),
        Sort::Enumerated { names, .. } => enumerator(names.len(), number_at(cells, place)),
        Sort::Sequence { parts } => {
            read_sequence(alloc, depth, sorts, parts.as_slice(), cells, place)
        }
        Sort::Choice { parts } => read_choice(alloc, depth, sorts, parts.as_slice(), cells, place),
        Sort::SeqOf { lo, hi, item } => {
            read_seq_of(alloc, depth, sorts, *lo, *hi, *item, cells, place)
        }
        Sort::Opaque => Ok(None),
    }
}

/// An integer from `lo` to `hi`.
fn integer(lo: i64, hi: i64, number: i64) -> Option<Value>
    ensures { result ≡ integer_at lo hi number }
{
    if lo <= number && number <= hi {
        return Some(Value::Int(number));
    }
    None
}

/// FALSE is 0, and TRUE is 1.
fn truth(number: i64) -> Option<Value>
    ensures { result ≡ truth_at number }
{
    match number {
        0 => Some(Value::Bool(false)),
        1 => Some(Value::Bool(true)),
        _ => None,
    }
}

/// An enumerator by its place, of which there are so many.
fn enumerator(count: usize, number: i64) -> Result<Option<Value>, NoMemory>
    ensures { IfOk result (λ value. value ≡ enumerator_at count number) }
{
    let Some(place) = natural(number) else {
        return Ok(None);
    };
    if place >= count {
        return Ok(None);
    }
    let place = count_of(place)?;
    Ok(Some(Value::Enumerated(place)))
}

/// A value of each part, or any number where there is none.
#[cycle(read)]
fn read_sequence(
    alloc: Global,
    depth: usize,
    sorts: &[Sort],
    parts: &[Part],
    cells: &[i64],
    place: usize,
) -> Result<Option<Value>, NoMemory>
    ensures { IfOk result (λ value. value ≡ sequence_in (value_within depth sorts.now) parts.now (filled place (zero_sequence (blank_within depth sorts.now) parts.now) cells.now)) }
{
    if parts.is_empty() {
        return Ok(Some(Value::Sequence(Items::new(alloc))));
    }
    match read_parts(alloc, depth, sorts, parts, cells, place)? {
        None => Ok(None),
        Some(values) => Ok(Some(Value::Sequence(values))),
    }
}

#[cycle(read)]
fn read_parts(
    alloc: Global,
    depth: usize,
    sorts: &[Sort],
    parts: &[Part],
    cells: &[i64],
    place: usize,
) -> Result<Option<Items<Value>>, NoMemory>
    ensures { IfOk result (λ values. values ≡ parts_in (value_within depth sorts.now) parts.now (filled place (row (map (λ p. blank_within depth sorts.now p.sort) parts.now)) cells.now)) }
{
    let mut values = Items::new(alloc);
    let mut at = place;
    for part in parts {
        let Some(value) = read_within(alloc, depth, sorts, part.sort, cells, at)? else {
            return Ok(None);
        };
        values.push(value)?;
        at = behind(cells, at, width_within(depth, sorts, part.sort));
    }
    Ok(Some(values))
}

/// The number of an alternative, and the value of it among all alternatives.
#[cycle(read)]
fn read_choice(
    alloc: Global,
    depth: usize,
    sorts: &[Sort],
    parts: &[Part],
    cells: &[i64],
    place: usize,
) -> Result<Option<Value>, NoMemory>
    ensures { IfOk result (λ value. value ≡ choice_in (value_within depth sorts.now) parts.now (filled place (zero_choice (blank_within depth sorts.now) parts.now) cells.now)) }
{
    let Some(number) = natural_at(cells, place) else {
        return Ok(None);
    };
    let Some(part) = at(parts, number) else {
        return Ok(None);
    };
    let (front, _) = parts.split_at(number);
    let first = behind(cells, place, 1);
    let chosen = behind(cells, first, width_parts(depth, sorts, front));
    let Some(value) = read_within(alloc, depth, sorts, part.sort, cells, chosen)? else {
        return Ok(None);
    };
    let value = choice(alloc, number, value)?;
    Ok(Some(value))
}

fn choice(alloc: Global, number: usize, value: Value) -> Result<Value, NoMemory>
    ensures { IfOk result (λ chosen. chosen ≡ made.Choice number value) }
{
    let number = count_of(number)?;
    let value = Boxed::new(alloc, value)?;
    Ok(Value::Choice(number, value))
}

/// A length from `lo` to `hi`, and so many items.
#[cycle(read)]
fn read_seq_of(
    alloc: Global,
    depth: usize,
    sorts: &[Sort],
    lo: u32,
    hi: u32,
    item: TypeId,
    cells: &[i64],
    place: usize,
) -> Result<Option<Value>, NoMemory>
    ensures { IfOk result (λ value. value ≡ seq_of_in (value_within depth sorts.now item) lo hi (filled place (zero_seq_of (blank_within depth sorts.now) lo hi item) cells.now)) }
{
    let Some(count) = natural_at(cells, place) else {
        return Ok(None);
    };
    if count < lo as usize || count > hi as usize {
        return Ok(None);
    }
    let first = behind(cells, place, 1);
    match read_items(alloc, depth, sorts, item, count, hi as usize, cells, first)? {
        None => Ok(None),
        Some(values) => Ok(Some(Value::SeqOf(values))),
    }
}

/// The first items of an array.
#[cycle(read)]
fn read_items(
    alloc: Global,
    depth: usize,
    sorts: &[Sort],
    item: TypeId,
    count: usize,
    size: usize,
    cells: &[i64],
    place: usize,
) -> Result<Option<Items<Value>>, NoMemory>
    requires { count ≤ size }
    ensures { IfOk result (λ values. values ≡ items_in (value_within depth sorts.now item) count (filled place (equal_parts size (blank_within depth sorts.now item)) cells.now)) }
{
    let width = width_within(depth, sorts, item);
    let mut values = Items::new(alloc);
    let mut at = place;
    for number in 0..count {
        let Some(value) = read_within(alloc, depth, sorts, item, cells, at)? else {
            return Ok(None);
        };
        values.push(value)?;
        at = behind(cells, at, width);
    }
    Ok(Some(values))
}

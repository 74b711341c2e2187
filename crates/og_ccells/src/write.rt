//! The cells of a value (X.680), put into a vector.
#![tactic(auto, using(og_names::proofs::Loops::loops, crate::proofs::Writing::writing))]

ghost use Rattle.std.specs.Prelude.{◌≡◌, ◌+◌, ◌<◌, ◌^◌, min, length, pos, replicate, slice_get, slice_set, if◌then◌else◌};
ghost use Rattle.std.specs.Option.{option_copied};
ghost use Rattle.og_types.specs.declared.Value.{out-Value};
ghost use Rattle.og_ir.specs.Reading as reading;
ghost use Rattle.og_ccells.specs.Vectors.{overwritten, put_cells};
ghost use Rattle.og_ccells.specs.Views as view;

use crate::numbers::behind;
use crate::types::{width_parts, width_within};
use og_types::{Part, Sort, TypeId, Value};
use sqlite_items::at;

/// Puts the cells of a value of a type into a vector from a place on, with 0 in cells that the value does not use.
pub fn write_value(sorts: &[Sort], sort: TypeId, value: &Value, cells: &mut Vec<i64>, place: usize)
    ensures { cells.new.items ≡ put_cells place (reading.cells_of sorts.now sort value.now) cells.old.items }
{
    write_within(sort.0 as usize + 1, sorts, sort, value, cells, place);
}

/// The place behind so many cells, or the end of the vector.
fn place_behind(cells: &Vec<i64>, at: usize, width: usize) -> usize
    ensures place { result ≡ min (at + width) (length cells.now.items) }
    ensures fits { length cells.now.items < 2 ^ 64 }
{
    behind(cells.as_slice(), at, width)
}

/// Puts a number at a place, if the vector has it.
fn put_number(cells: &mut Vec<i64>, at: usize, number: i64)
    ensures { cells.new.items ≡ slice_set cells.old.items at number }
{
    if at < cells.len() {
        cells[at] = number;
    }
}

/// Puts 0 into so many cells.
fn clear(cells: &mut Vec<i64>, at: usize, width: usize)
    ensures cleared { cells.new.items ≡ overwritten at (replicate width (pos 0)) cells.old.items }
    ensures fits { length cells.old.items < 2 ^ 64 }
{
    let end = place_behind(cells, at, width);
    for place in at..end {
        cells[place] = 0;
    }
}

/// Puts 0 into the number and all alternatives of a choice.
fn clear_choice(depth: usize, sorts: &[Sort], parts: &[Part], cells: &mut Vec<i64>, place: usize)
    ensures { cells.new.items ≡ put_cells place (view.zero_choice (reading.blank_within depth sorts.now) parts.now) cells.old.items }
{
    let first = place_behind(cells, place, 1);
    put_number(cells, place, 0);
    clear(cells, first, width_parts(depth, sorts, parts));
}

/// Puts 0 into the length and all items of a sequence of one type.
fn clear_seq_of(
    depth: usize,
    sorts: &[Sort],
    hi: u32,
    item: TypeId,
    cells: &mut Vec<i64>,
    place: usize,
)
    ensures { cells.new.items ≡ put_cells place (view.zero_seq_of (reading.blank_within depth sorts.now) 0 hi item) cells.old.items }
{
    let first = place_behind(cells, place, 1);
    put_number(cells, place, 0);
    let width = width_within(depth, sorts, item);
    clear(cells, first, width.saturating_mul(hi as usize));
}

/// The number of an integer.
fn integer(value: &Value) -> i64
    ensures { result ≡ view.integer (out-Value value.now) }
{
    match value {
        Value::Int(number) => *number,
        Value::Bool(_) => 0,
        Value::Enumerated(_) => 0,
        Value::Sequence(_) => 0,
        Value::Choice(_, _) => 0,
        Value::SeqOf(_) => 0,
    }
}

/// FALSE is 0, and TRUE is 1.
fn truth(value: &Value) -> i64
    ensures { result ≡ view.truth (out-Value value.now) }
{
    match value {
        Value::Int(_) => 0,
        Value::Bool(holds) => { if *holds { 1 } else { 0 } }
        Value::Enumerated(_) => 0,
        Value::Sequence(_) => 0,
        Value::Choice(_, _) => 0,
        Value::SeqOf(_) => 0,
    }
}

/// The place of an enumerator.
fn enumerator(value: &Value) -> i64
    ensures { result ≡ view.enumerator (out-Value value.now) }
{
    match value {
        Value::Int(_) => 0,
        Value::Bool(_) => 0,
        Value::Enumerated(place) => i64::from(*place),
        Value::Sequence(_) => 0,
        Value::Choice(_, _) => 0,
        Value::SeqOf(_) => 0,
    }
}
/// The values of a sequence's parts.
fn parts_of(value: &Value) -> Option<&[Value]>
    ensures { option_copied result ≡ view.parts_of (out-Value value.now) }
{
    match value {
        Value::Int(_) => None,
        Value::Bool(_) => None,
        Value::Enumerated(_) => None,
        Value::Sequence(values) => Some(values.as_slice()),
        Value::Choice(_, _) => None,
        Value::SeqOf(_) => None,
    }
}

/// The number of an alternative.
fn number_of_choice(value: &Value) -> Option<u32>
    ensures { result ≡ view.number_of_choice (out-Value value.now) }
{
    match value {
        Value::Int(_) => None,
        Value::Bool(_) => None,
        Value::Enumerated(_) => None,
        Value::Sequence(_) => None,
        Value::Choice(number, _) => Some(*number),
        Value::SeqOf(_) => None,
    }
}

/// The value of an alternative.
fn chosen(value: &Value) -> Option<&Value>
    ensures { option_copied result ≡ view.chosen (out-Value value.now) }
{
    match value {
        Value::Int(_) => None,
        Value::Bool(_) => None,
        Value::Enumerated(_) => None,
        Value::Sequence(_) => None,
        Value::Choice(_, inner) => Some(inner.get()),
        Value::SeqOf(_) => None,
    }
}

/// The items of a sequence of one type.
fn items_of(value: &Value) -> Option<&[Value]>
    ensures { option_copied result ≡ view.items_of (out-Value value.now) }
{
    match value {
        Value::Int(_) => None,
        Value::Bool(_) => None,
        Value::Enumerated(_) => None,
        Value::Sequence(_) => None,
        Value::Choice(_, _) => None,
        Value::SeqOf(values) => Some(values.as_slice()),
    }
}

fn length_of(values: &[Value]) -> i64
    ensures { result ≡ pos (length values.now) }
{
    values.len() as i64
}

/// Puts the cells of a value, going down at most so many times.
#[cycle(write)]
fn write_within(
    depth: usize,
    sorts: &[Sort],
    sort: TypeId,
    value: &Value,
    cells: &mut Vec<i64>,
    place: usize,
)
    ensures { cells.new.items ≡ put_cells place (reading.write_within depth sorts.now sort value.now) cells.old.items }
{
    if depth == 0 {
        return;
    }
    if let Some(found) = at(sorts, sort.0 as usize) {
        write_sort(depth - 1, sorts, found, value, cells, place);
    }
}

#[cycle(write)]
fn write_sort(
    depth: usize,
    sorts: &[Sort],
    sort: &Sort,
    value: &Value,
    cells: &mut Vec<i64>,
    place: usize,
)
    ensures { cells.new.items ≡ put_cells place (reading.write_sort (reading.blank_within depth sorts.now) (reading.write_within depth sorts.now) sort.now (out-Value value.now)) cells.old.items }
{
    match sort {
        Sort::Int { .. } => put_number(cells, place, integer(value)),
        Sort::Bool => put_number(cells, place, truth(value)),
        Sort::Enumerated { .. } => put_number(cells, place, enumerator(value)),
        Sort::Sequence { parts } => {
            let values = parts_of(value);
            write_sequence(depth, sorts, parts.as_slice(), values, cells, place);
        }
        Sort::Choice { parts } => {
            let number = number_of_choice(value);
            let inner = chosen(value);
            write_choice(depth, sorts, parts.as_slice(), number, inner, cells, place);
        }
        Sort::SeqOf { hi, item, .. } => {
            let values = items_of(value);
            write_seq_of(depth, sorts, *hi, *item, values, cells, place);
        }
        Sort::Opaque => {}
    }
}

/// A sequence without parts is one number.
#[cycle(write)]
fn write_sequence(
    depth: usize,
    sorts: &[Sort],
    parts: &[Part],
    values: Option<&[Value]>,
    cells: &mut Vec<i64>,
    place: usize,
)
    ensures { cells.new.items ≡ put_cells place (view.sequence (reading.blank_within depth sorts.now) (reading.write_within depth sorts.now) parts.now (option_copied values.entry)) cells.old.items }
{
    if parts.is_empty() {
        return put_number(cells, place, 0);
    }
    match values {
        None => clear(cells, place, width_parts(depth, sorts, parts)),
        Some(values) => write_parts(depth, sorts, parts, values, cells, place),
    }
}

/// The value at a place, or 0 where there is none.
#[cycle(write)]
fn write_at(
    depth: usize,
    sorts: &[Sort],
    sort: TypeId,
    values: &[Value],
    number: usize,
    cells: &mut Vec<i64>,
    place: usize,
)
    ensures { cells.new.items ≡ put_cells place (view.written_or (reading.blank_within depth sorts.now sort) (reading.write_within depth sorts.now sort) (slice_get values.now number)) cells.old.items }
{
    match at(values, number) {
        None => clear(cells, place, width_within(depth, sorts, sort)),
        Some(value) => write_within(depth, sorts, sort, value, cells, place),
    }
}

#[cycle(write)]
fn write_parts(
    depth: usize,
    sorts: &[Sort],
    parts: &[Part],
    values: &[Value],
    cells: &mut Vec<i64>,
    place: usize,
)
    ensures { cells.new.items ≡ put_cells place (reading.write_parts (reading.blank_within depth sorts.now) (reading.write_within depth sorts.now) parts.now values.now) cells.old.items }
{
    let mut at = place;
    for (number, part) in parts.iter().enumerate() {
        write_at(depth, sorts, part.sort, values, number, cells, at);
        at = place_behind(cells, at, width_within(depth, sorts, part.sort));
    }
}

/// The number of an alternative, its value, and 0 in the others.
#[cycle(write)]
fn write_choice(
    depth: usize,
    sorts: &[Sort],
    parts: &[Part],
    number: Option<u32>,
    value: Option<&Value>,
    cells: &mut Vec<i64>,
    place: usize,
)
    ensures { cells.new.items ≡ put_cells place (view.choice (reading.blank_within depth sorts.now) (reading.write_within depth sorts.now) parts.now number (option_copied value.entry)) cells.old.items }
{
    match number {
        None => clear_choice(depth, sorts, parts, cells, place),
        Some(number) => match value {
            None => clear_choice(depth, sorts, parts, cells, place),
            Some(value) => {
                let first = place_behind(cells, place, 1);
                put_number(cells, place, i64::from(number));
                write_alternatives(depth, sorts, parts, number as usize, value, cells, first);
            }
        },
    }
}

#[cycle(write)]
fn write_alternatives(
    depth: usize,
    sorts: &[Sort],
    parts: &[Part],
    chosen: usize,
    value: &Value,
    cells: &mut Vec<i64>,
    place: usize,
)
    ensures { cells.new.items ≡ put_cells place (reading.write_alternatives (reading.blank_within depth sorts.now) (reading.write_within depth sorts.now) parts.now chosen value.now) cells.old.items }
{
    let mut at = place;
    for (number, part) in parts.iter().enumerate() {
        write_alternative(depth, sorts, part.sort, number == chosen, value, cells, at);
        at = place_behind(cells, at, width_within(depth, sorts, part.sort));
    }
}

/// The value of an alternative that is chosen, or 0.
#[cycle(write)]
fn write_alternative(
    depth: usize,
    sorts: &[Sort],
    sort: TypeId,
    is_chosen: bool,
    value: &Value,
    cells: &mut Vec<i64>,
    place: usize,
)
    ensures { cells.new.items ≡ put_cells place (if is_chosen then reading.write_within depth sorts.now sort value.now else reading.blank_within depth sorts.now sort) cells.old.items }
{
    if is_chosen {
        write_within(depth, sorts, sort, value, cells, place);
    } else {
        clear(cells, place, width_within(depth, sorts, sort));
    }
}

/// The length, and the items with 0 past them.
#[cycle(write)]
fn write_seq_of(
    depth: usize,
    sorts: &[Sort],
    hi: u32,
    item: TypeId,
    values: Option<&[Value]>,
    cells: &mut Vec<i64>,
    place: usize,
)
    ensures { cells.new.items ≡ put_cells place (view.seq_of (reading.blank_within depth sorts.now) (reading.write_within depth sorts.now) hi item (option_copied values.entry)) cells.old.items }
{
    match values {
        None => clear_seq_of(depth, sorts, hi, item, cells, place),
        Some(values) => {
            let first = place_behind(cells, place, 1);
            put_number(cells, place, length_of(values));
            write_items(depth, sorts, hi, item, values, cells, first);
        }
    }
}

#[cycle(write)]
fn write_items(
    depth: usize,
    sorts: &[Sort],
    hi: u32,
    item: TypeId,
    values: &[Value],
    cells: &mut Vec<i64>,
    place: usize,
)
    ensures { cells.new.items ≡ put_cells place (reading.write_items (reading.blank_within depth sorts.now item) (reading.write_within depth sorts.now item) hi values.now) cells.old.items }
{
    let width = width_within(depth, sorts, item);
    let mut at = place;
    for number in 0..hi {
        write_at(depth, sorts, item, values, number as usize, cells, at);
        at = place_behind(cells, at, width);
    }
}

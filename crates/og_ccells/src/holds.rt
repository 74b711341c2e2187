//! Whether cells hold a value of a type (X.680).
#![tactic(auto, using(og_names::proofs::Loops::loops, crate::proofs::Holding::holding))]

ghost use Rattle.std.specs.Prelude.{◌≡◌, ◌≤◌, ◌&&◌, int_le, map, is_some};
ghost use Rattle.og_ir.specs.Cells.{row, equal_parts};
ghost use Rattle.og_ir.specs.Reading.{value_in, below, read_within, read_sort, read_sequence, read_parts, read_choice, read_seq_of, read_items, blank_within, blank_sort, blank};
ghost use Rattle.og_ccells.specs.Vectors.{filled};
ghost use Rattle.og_ccells.specs.Views.{zero_sequence, zero_choice, zero_seq_of};

use crate::numbers::{behind, natural, natural_at, number_at};
use crate::types::{width_parts, width_within};
use og_types::{Part, Sort, TypeId};
use sqlite_items::at;

/// Whether the cells from a place on hold a value of the type.
pub fn holds_value(sorts: &[Sort], sort: TypeId, cells: &[i64], place: usize) -> bool
    ensures { result ≡ is_some (value_in sorts.now sort (filled place (blank sorts.now sort) cells.now)) }
{
    holds_within(sort.0 as usize + 1, sorts, sort, cells, place)
}

/// The same, going down at most so many times.
#[cycle(holds)]
fn holds_within(depth: usize, sorts: &[Sort], sort: TypeId, cells: &[i64], place: usize) -> bool
    ensures { result ≡ is_some (read_within depth sorts.now sort (filled place (blank_within depth sorts.now sort) cells.now)) }
{
    if depth == 0 {
        return false;
    }
    match at(sorts, sort.0 as usize) {
        None => false,
        Some(found) => holds_sort(depth - 1, sorts, found, cells, place),
    }
}

#[cycle(holds)]
fn holds_sort(depth: usize, sorts: &[Sort], sort: &Sort, cells: &[i64], place: usize) -> bool
    ensures { result ≡ is_some (read_sort (read_within depth sorts.now) sort.now (filled place (blank_sort (blank_within depth sorts.now) sort.now) cells.now)) }
{
    match sort {
        Sort::Int { lo, hi } => is_between(*lo, *hi, number_at(cells, place)),
        Sort::Bool => is_below(2, number_at(cells, place)),
        Sort::Enumerated { names, .. } => is_below(names.len(), number_at(cells, place)),
        Sort::Sequence { parts } => holds_sequence(depth, sorts, parts.as_slice(), cells, place),
        Sort::Choice { parts } => holds_choice(depth, sorts, parts.as_slice(), cells, place),
        Sort::SeqOf { lo, hi, item } => holds_seq_of(depth, sorts, *lo, *hi, *item, cells, place),
        Sort::Opaque => false,
    }
}

/// A number from `lo` to `hi`.
fn is_between(lo: i64, hi: i64, number: i64) -> bool
    ensures { result ≡ (int_le lo number && int_le number hi) }
{
    lo <= number && number <= hi
}

/// A number from 0 up that is below the bound.
fn is_below(bound: usize, number: i64) -> bool
    ensures { result ≡ is_some (below bound number) }
{
    match natural(number) {
        None => false,
        Some(number) => number < bound,
    }
}

/// A value of each part, or any number where there is none.
#[cycle(holds)]
fn holds_sequence(depth: usize, sorts: &[Sort], parts: &[Part], cells: &[i64], place: usize) -> bool
    ensures { result ≡ is_some (read_sequence (read_within depth sorts.now) parts.now (filled place (zero_sequence (blank_within depth sorts.now) parts.now) cells.now)) }
{
    if parts.is_empty() {
        return true;
    }
    holds_parts(depth, sorts, parts, cells, place)
}

#[cycle(holds)]
fn holds_parts(depth: usize, sorts: &[Sort], parts: &[Part], cells: &[i64], place: usize) -> bool
    ensures { result ≡ is_some (read_parts (read_within depth sorts.now) parts.now (filled place (row (map (λ p. blank_within depth sorts.now p.sort) parts.now)) cells.now)) }
{
    let mut at = place;
    for part in parts {
        if !holds_within(depth, sorts, part.sort, cells, at) {
            return false;
        }
        at = behind(cells, at, width_within(depth, sorts, part.sort));
    }
    true
}

/// The number of an alternative, and a value of it among all alternatives.
#[cycle(holds)]
fn holds_choice(depth: usize, sorts: &[Sort], parts: &[Part], cells: &[i64], place: usize) -> bool
    ensures { result ≡ is_some (read_choice (read_within depth sorts.now) parts.now (filled place (zero_choice (blank_within depth sorts.now) parts.now) cells.now)) }
{
    let Some(number) = natural_at(cells, place) else {
        return false;
    };
    let Some(part) = at(parts, number) else {
        return false;
    };
    let (front, _) = parts.split_at(number);
    let first = behind(cells, place, 1);
    let chosen = behind(cells, first, width_parts(depth, sorts, front));
    holds_within(depth, sorts, part.sort, cells, chosen)
}

/// A length from `lo` to `hi`, and so many items.
#[cycle(holds)]
fn holds_seq_of(
    depth: usize,
    sorts: &[Sort],
    lo: u32,
    hi: u32,
    item: TypeId,
    cells: &[i64],
    place: usize,
) -> bool
    ensures { result ≡ is_some (read_seq_of (read_within depth sorts.now item) lo hi (filled place (zero_seq_of (blank_within depth sorts.now) lo hi item) cells.now)) }
{
    let Some(count) = natural_at(cells, place) else {
        return false;
    };
    if count < lo as usize || count > hi as usize {
        return false;
    }
    let first = behind(cells, place, 1);
    holds_items(depth, sorts, item, count, hi as usize, cells, first)
}

/// The first items of an array.
#[cycle(holds)]
fn holds_items(
    depth: usize,
    sorts: &[Sort],
    item: TypeId,
    count: usize,
    size: usize,
    cells: &[i64],
    place: usize,
) -> bool
    requires { count ≤ size }
    ensures { result ≡ is_some (read_items (read_within depth sorts.now item) count (filled place (equal_parts size (blank_within depth sorts.now item)) cells.now)) }
{
    let width = width_within(depth, sorts, item);
    let mut at = place;
    for number in 0..count {
        if !holds_within(depth, sorts, item, cells, at) {
            return false;
        }
        at = behind(cells, at, width);
    }
    true
}

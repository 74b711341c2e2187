//! How many cells the values of a type take (X.680). Numbers of cells are counted no further than to 2^64 - 1.
#![tactic(auto, using(og_names::proofs::Loops::loops, crate::proofs::TypeWidths::type_widths))]

ghost use Rattle.std.specs.Prelude.{◌≡◌, map};
ghost use Rattle.og_ir.specs.Cells.{count, row};
ghost use Rattle.og_ir.specs.Reading.{blank_within, blank_sort};
ghost use Rattle.og_ccells.specs.Layouts.{counted};
ghost use Rattle.og_ccells.specs.Views.{zero_sequence};

use og_types::{Part, Sort, TypeId};
use sqlite_items::at;

/// How many cells a type takes, going down at most so many times.
#[cycle(width)]
pub fn width_within(depth: usize, sorts: &[Sort], sort: TypeId) -> usize
    ensures { result ≡ counted (count (blank_within depth sorts.now sort)) }
{
    if depth == 0 {
        return 0;
    }
    match at(sorts, sort.0 as usize) {
        None => 0,
        Some(found) => width_sort(depth - 1, sorts, found),
    }
}

#[cycle(width)]
fn width_sort(depth: usize, sorts: &[Sort], sort: &Sort) -> usize
    ensures { result ≡ counted (count (blank_sort (blank_within depth sorts.now) sort.now)) }
{
    match sort {
        Sort::Int { .. } | Sort::Bool | Sort::Enumerated { .. } => 1,
        Sort::Sequence { parts } => width_sequence(depth, sorts, parts.as_slice()),
        Sort::Choice { parts } => width_parts(depth, sorts, parts.as_slice()).saturating_add(1),
        Sort::SeqOf { hi, item, .. } => {
            let width = width_within(depth, sorts, *item);
            width.saturating_mul(*hi as usize).saturating_add(1)
        }
        Sort::Opaque => 0,
    }
}

/// A sequence without parts takes one cell.
#[cycle(width)]
fn width_sequence(depth: usize, sorts: &[Sort], parts: &[Part]) -> usize
    ensures { result ≡ counted (count (zero_sequence (blank_within depth sorts.now) parts.now)) }
{
    if parts.is_empty() {
        return 1;
    }
    width_parts(depth, sorts, parts)
}

#[cycle(width)]
pub fn width_parts(depth: usize, sorts: &[Sort], parts: &[Part]) -> usize
    ensures { result ≡ counted (count (row (map (λ p. blank_within depth sorts.now p.sort) parts.now))) }
{
    let mut width = 0usize;
    for part in parts {
        width = width.saturating_add(width_within(depth, sorts, part.sort));
    }
    width
}

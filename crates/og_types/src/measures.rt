//! How deep a type is, how many cells it takes, and whether it is supported, by the same of the types that it refers to.
ghost use Rattle.std.specs.Prelude.{◌≡◌, Some, min};
ghost use Rattle.std.specs.List.{list_all};
ghost use Rattle.og_types.specs.Values.{cells_of_parts as sum_of_cells, cells_of_sort, is_supported_sort, many_cells};
ghost use Rattle.og_types.specs.Table.{depth_of_parts, depth_of_sort};
ghost use Rattle.og_types.specs.Measures.{measure_in, depth_in, cells_in, supported_in};

use crate::{Part, Sort, TypeId};
use sqlite_items::at;

/// Cells are counted up to this number: one more than the variables of a model may take in all.
const MANY_CELLS: u64 = 65537;

/// What a table keeps of a type beside the type.
#[derive(Clone, Copy, Debug)]
pub struct Measure {
    pub depth: u8,
    pub cells: u32,
    pub supported: bool,
}

fn measure_at(measures: &[Measure], id: TypeId) -> Measure
    ensures { result ≡ measure_in measures.now id }
{
    match at(measures, id.0 as usize) {
        Some(measure) => *measure,
        None => Measure {
            depth: 0,
            cells: 0,
            supported: false,
        },
    }
}

pub fn depth_of(measures: &[Measure], sort: &Sort) -> u32
    ensures { result ≡ depth_of_sort (depth_in measures.now) (Some sort.now) }
{
    match sort {
        Sort::Sequence { parts } => 1 + u32::from(deepest(measures, parts.as_slice())),
        Sort::Choice { parts } => 1 + u32::from(deepest(measures, parts.as_slice())),
        Sort::SeqOf { item, .. } => 1 + u32::from(measure_at(measures, *item).depth),
        Sort::Int { .. } | Sort::Bool | Sort::Enumerated { .. } | Sort::Opaque => 1,
    }
}

fn deepest(measures: &[Measure], parts: &[Part]) -> u8
    ensures { result ≡ depth_of_parts (depth_in measures.now) parts.now }
{
    let mut deepest = 0;
    for part in parts {
        deepest = measure_at(measures, part.sort).depth.max(deepest);
    }
    deepest
}

pub fn cells_of(measures: &[Measure], sort: &Sort) -> u32
    ensures { result ≡ min (cells_of_sort (cells_in measures.now) (Some sort.now)) many_cells }
{
    let cells = match sort {
        Sort::Int { .. } | Sort::Bool | Sort::Enumerated { .. } => 1,
        Sort::Sequence { parts } => cells_of_sequence(measures, parts.as_slice()),
        Sort::Choice { parts } => 1 + cells_of_parts(measures, parts.as_slice()),
        Sort::SeqOf { hi, item, .. } => {
            let places = u64::from(*hi).max(1);
            1 + u64::from(measure_at(measures, *item).cells) * places
        }
        Sort::Opaque => 0,
    };
    cells.min(MANY_CELLS) as u32
}

/// A sequence without components takes one cell.
fn cells_of_sequence(measures: &[Measure], parts: &[Part]) -> u64
    ensures { min result many_cells ≡ min (cells_of_sort (cells_in measures.now) (Some (Sort.Sequence parts.now))) many_cells }
{
    if parts.is_empty() {
        return 1;
    }
    cells_of_parts(measures, parts)
}

/// The cells of all components together, counted up to the limit.
fn cells_of_parts(measures: &[Measure], parts: &[Part]) -> u64
    ensures { result ≡ min (sum_of_cells (cells_in measures.now) parts.now) many_cells }
{
    let mut cells: u64 = 0;
    for part in parts {
        cells = (cells + u64::from(measure_at(measures, part.sort).cells)).min(MANY_CELLS);
    }
    cells
}

pub fn is_supported(measures: &[Measure], sort: &Sort) -> bool
    ensures { result ≡ is_supported_sort (supported_in measures.now) (Some sort.now) }
{
    match sort {
        Sort::Int { .. } | Sort::Bool | Sort::Enumerated { .. } => true,
        Sort::Sequence { parts } => are_supported(measures, parts.as_slice()),
        Sort::Choice { parts } => are_supported(measures, parts.as_slice()),
        Sort::SeqOf { item, .. } => measure_at(measures, *item).supported,
        Sort::Opaque => false,
    }
}

fn are_supported(measures: &[Measure], parts: &[Part]) -> bool
    ensures { result ≡ list_all (λ part. supported_in measures.now part.sort) parts.now }
{
    for part in parts {
        if !measure_at(measures, part.sort).supported {
            return false;
        }
    }
    true
}

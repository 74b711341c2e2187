//! The numbers of integer types: those that all ranges on the way along references leave (X.680 clauses 49.2 and 51.4).
//! They are found for all types at once, by halving the number of steps.
ghost use Rattle.std.specs.Prelude.{◌≡◌, ℕ, IfOk, length};
ghost use Rattle.og_dataview.specs.Following.{greater, lesser, both, next_type, numbers_at, numbers_of};
ghost use Rattle.og_dataview.specs.Ways.{step_in, Leads};
ghost use Rattle.og_datatypes.specs.Kept.{range_at, Leaves, AreRanges};

use crate::values::{NOTHING, Valued};
use og_dataview::{Interval, counted, next_in, next_types, then, walked};
use og_names::NoMemory;
use std::alloc::Global;

/// The numbers that the list keeps of a type.
pub fn range_in(ranges: &[Interval], place: u32) -> Interval
    ensures { result ≡ range_at ranges.now place }
{
    ranges.get(place as usize).copied().unwrap_or(NOTHING)
}

fn greater(a: i128, b: i128) -> i128
    ensures { result ≡ greater a b }
{
    if a <= b { b } else { a }
}

fn lesser(a: i128, b: i128) -> i128
    ensures { result ≡ lesser a b }
{
    if a <= b { a } else { b }
}

/// The numbers that are in both.
fn both(a: Interval, b: Interval) -> Interval
    ensures { result ≡ both a b }
{
    Interval {
        lo: greater(a.lo, b.lo),
        hi: lesser(a.hi, b.hi),
    }
}

/// Where ways of so many steps lead, and the numbers that are left on them.
#[derive(Drop)]
struct Ways {
    ends: Vec<u32>,
    ranges: Vec<Interval>,
}

/// The numbers of all types.
#[tactic(auto, using(crate::proofs::Leaving::ranges_by))]
pub fn ranges_of(alloc: Global, valued: &Valued) -> Result<Vec<Interval>, NoMemory>
    ensures { IfOk result (λ ranges. AreRanges valued.now.scope.flat ranges.items) }
{
    let steps = counted(valued.scope.flat.types.len())?;
    let nexts = next_types(alloc, &valued.scope.flat, &valued.scope.types)?;
    let owns = own_ranges(alloc, valued)?;
    let walk = walk(alloc, nexts.as_slice(), owns.as_slice(), steps as usize)?;
    Ok(walk.ranges)
}

/// The numbers that are left by the own bracket of each type.
#[tactic(auto, using(crate::proofs::Lists::lists))]
fn own_ranges(alloc: Global, valued: &Valued) -> Result<Vec<Interval>, NoMemory>
    ensures each { IfOk result (λ owns. (p : ℕ) → range_at owns.items p ≡ numbers_at valued.now.scope.flat p) }
    ensures length { IfOk result (λ owns. length owns.items ≡ length valued.now.scope.flat.nodes) }
{
    let count = counted(valued.scope.flat.nodes.len())?;
    let mut owns = Vec::new(alloc);
    for place in 0..count {
        owns.push(valued.numbers_at(place))?;
    }
    Ok(owns)
}

/// The ways of so many steps from all places.
#[tactic(auto, using(crate::proofs::Leaving::walks))]
fn walk(alloc: Global, nexts: &[u32], owns: &[Interval], steps: usize) -> Result<Ways, NoMemory>
    requires { length nexts.now ≡ length owns.now }
    ensures leads { IfOk result (λ walk. Leads (step_in nexts.now) steps walk.ends.items) }
    ensures leaves { IfOk result (λ walk. Leaves (step_in nexts.now) (range_at owns.now) steps walk.ranges.items) }
    ensures ends { IfOk result (λ walk. length walk.ends.items ≡ length nexts.now) }
    ensures ranges { IfOk result (λ walk. length walk.ranges.items ≡ length nexts.now) }
{
    if steps == 0 {
        return standing(alloc, nexts, owns);
    }
    let half = walk(alloc, nexts, owns, steps / 2)?;
    let twice = joined(alloc, half.ends.as_slice(), half.ranges.as_slice(), &half)?;
    if steps % 2 == 0 {
        return Ok(twice);
    }
    let all = joined(alloc, nexts, owns, &twice)?;
    Ok(all)
}

/// Ways of no steps.
fn standing(alloc: Global, nexts: &[u32], owns: &[Interval]) -> Result<Ways, NoMemory>
    requires { length nexts.now ≡ length owns.now }
    ensures leads { IfOk result (λ walk. (p : ℕ) → step_in walk.ends.items p ≡ p) }
    ensures leaves { IfOk result (λ walk. walk.ranges.items ≡ owns.now) }
    ensures ends { IfOk result (λ walk. length walk.ends.items ≡ length nexts.now) }
{
    let ends = walked(alloc, nexts, 0)?;
    let ranges = Vec::from_slice(alloc, owns)?;
    Ok(Ways { ends, ranges })
}

/// Ways that go on where others end.
fn joined(
    alloc: Global,
    ends: &[u32],
    ranges: &[Interval],
    further: &Ways,
) -> Result<Ways, NoMemory>
    requires ends { length ends.now ≡ length ranges.now }
    requires ends_too { length ends.now ≡ length further.now.ends.items }
    requires ranges_too { length ends.now ≡ length further.now.ranges.items }
    ensures leads { IfOk result (λ walk. (p : ℕ) → step_in walk.ends.items p ≡ step_in further.now.ends.items (step_in ends.now p)) }
    ensures leaves { IfOk result (λ walk. (p : ℕ) → range_at walk.ranges.items p ≡ both (range_at ranges.now p) (range_at further.now.ranges.items (step_in ends.now p))) }
    ensures ends { IfOk result (λ walk. length walk.ends.items ≡ length ends.now) }
    ensures ranges { IfOk result (λ walk. length walk.ranges.items ≡ length ends.now) }
{
    let all_ends = then(alloc, ends, further.ends.as_slice())?;
    let all_ranges = both_ranges(alloc, ends, ranges, further.ranges.as_slice())?;
    Ok(Ways {
        ends: all_ends,
        ranges: all_ranges,
    })
}

/// The numbers that are left on the way to each end and behind it.
#[tactic(auto, using(crate::proofs::Lists::lists))]
fn both_ranges(
    alloc: Global,
    ends: &[u32],
    ranges: &[Interval],
    further: &[Interval],
) -> Result<Vec<Interval>, NoMemory>
    requires here { length ends.now ≡ length ranges.now }
    requires there { length ends.now ≡ length further.now }
    ensures each { IfOk result (λ list. (p : ℕ) → range_at list.items p ≡ both (range_at ranges.now p) (range_at further.now (step_in ends.now p))) }
    ensures length { IfOk result (λ list. length list.items ≡ length ends.now) }
{
    let count = counted(ends.len())?;
    let mut list = Vec::new(alloc);
    for place in 0..count {
        list.push(both_at(ends, ranges, further, place))?;
    }
    Ok(list)
}

/// The numbers that are left at one place and where its way ends.
fn both_at(ends: &[u32], ranges: &[Interval], further: &[Interval], place: u32) -> Interval
    ensures { result ≡ both (range_at ranges.now place) (range_at further.now (step_in ends.now place)) }
{
    let here = range_in(ranges, place);
    let there = range_in(further, next_in(ends, place));
    both(here, there)
}

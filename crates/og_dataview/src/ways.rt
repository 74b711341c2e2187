//! Ways along names, for all places at once: where each leads to in so many steps, found by halving the number of steps.
ghost use Rattle.std.specs.Prelude.{◌≡◌, ℕ, IfOk, length};
ghost use Rattle.og_dataview.specs.Ways.{step_in, Leads};

use og_names::NoMemory;
use std::alloc::Global;

/// Where a place leads to in a list of places.
pub fn next_in(nexts: &[u32], place: u32) -> u32
    ensures { result ≡ step_in nexts.now place }
{
    nexts.get(place as usize).copied().unwrap_or(place)
}

/// Where each place leads to in so many steps.
#[tactic(auto, using(crate::proofs::Tables::walks))]
pub fn walked(alloc: Global, nexts: &[u32], steps: usize) -> Result<Vec<u32>, NoMemory>
    ensures leads { IfOk result (λ list. Leads (step_in nexts.now) steps list.items) }
    ensures length { IfOk result (λ list. length list.items ≡ length nexts.now) }
{
    if steps == 0 {
        return standing(alloc, nexts.len());
    }
    let half = walked(alloc, nexts, steps / 2)?;
    let twice = then(alloc, half.as_slice(), half.as_slice())?;
    if steps % 2 == 0 {
        return Ok(twice);
    }
    let all = then(alloc, twice.as_slice(), nexts)?;
    Ok(all)
}

/// Each place leads to itself.
#[tactic(auto, using(crate::proofs::Tables::tables))]
fn standing(alloc: Global, count: usize) -> Result<Vec<u32>, NoMemory>
    ensures each { IfOk result (λ list. (p : ℕ) → step_in list.items p ≡ p) }
    ensures length { IfOk result (λ list. length list.items ≡ count) }
{
    if count > u32::MAX as usize {
        return Err(NoMemory::past_numbers(count));
    }
    let mut list = Vec::new(alloc);
    for place in 0..count {
        list.push(place as u32)?;
    }
    Ok(list)
}

/// Where each place leads to by the first list, and then by the second one.
#[tactic(auto, using(crate::proofs::Tables::tables))]
pub fn then(alloc: Global, first: &[u32], second: &[u32]) -> Result<Vec<u32>, NoMemory>
    requires { length first.now ≡ length second.now }
    ensures each { IfOk result (λ list. (p : ℕ) → step_in list.items p ≡ step_in second.now (step_in first.now p)) }
    ensures length { IfOk result (λ list. length list.items ≡ length first.now) }
{
    let mut list = Vec::new(alloc);
    for place in first {
        list.push(next_in(second, *place))?;
    }
    Ok(list)
}

//! References without a bracket, which share the number of the type that they name.
ghost use Rattle.std.specs.Prelude.{◌≡◌, ℕ, suc, IfOk, length};
ghost use Rattle.og_dataview.specs.View.{next_same, same_as};
ghost use Rattle.og_dataview.specs.Ways.{step_in, Leads};
ghost use Rattle.og_datatypes.specs.Kept.{ended_in, AreSame};

use og_dataview::{Scope, counted, next_in, node_of, walked};
use og_flat::{Limits, Node};
use og_names::NoMemory;
use std::alloc::Global;

/// The type with which each type shares its number.
pub fn sames_of(alloc: Global, scope: &Scope) -> Result<Vec<u32>, NoMemory>
    ensures { IfOk result (λ sames. AreSame scope.now.flat sames.items) }
{
    let steps = counted(scope.flat.types.len())?;
    let nexts = next_sames(alloc, scope)?;
    let ends = walked(alloc, nexts.as_slice(), steps as usize + 1)?;
    let sames = ended(alloc, nexts.as_slice(), ends.as_slice())?;
    Ok(sames)
}

/// Each end, or the place itself where the way does not end.
#[tactic(auto, using(crate::proofs::Lists::lists))]
fn ended(alloc: Global, nexts: &[u32], ends: &[u32]) -> Result<Vec<u32>, NoMemory>
    ensures { IfOk result (λ sames. (p : ℕ) → step_in sames.items p ≡ ended_in nexts.now ends.now p) }
{
    let count = counted(ends.len())?;
    let mut sames = Vec::new(alloc);
    for place in 0..count {
        sames.push(same_as(nexts, ends, place))?;
    }
    Ok(sames)
}

/// Where a way ends, or the place itself where it does not end.
fn same_as(nexts: &[u32], ends: &[u32], place: u32) -> u32
    ensures { result ≡ ended_in nexts.now ends.now place }
{
    let end = next_in(ends, place);
    if next_in(nexts, end) == end {
        end
    } else {
        place
    }
}

#[tactic(auto, using(crate::proofs::Lists::lists))]
fn next_sames(alloc: Global, scope: &Scope) -> Result<Vec<u32>, NoMemory>
    ensures { IfOk result (λ nexts. (p : ℕ) → step_in nexts.items p ≡ next_same scope.now.flat p) }
{
    let count = counted(scope.flat.nodes.len())?;
    let mut nexts = Vec::new(alloc);
    for place in 0..count {
        nexts.push(next_same(scope, place))?;
    }
    Ok(nexts)
}

/// The type that a reference without a bracket names. Each other type leads to itself.
fn next_same(scope: &Scope, place: u32) -> u32
    ensures { result ≡ next_same scope.now.flat place }
{
    match scope.flat.nodes.get(place as usize) {
        Some(
            Node::Reference {
                name,
                limits: Limits::Absent,
            },
        ) => node_of(&scope.flat, &scope.types, name).unwrap_or(place),
        _ => place,
    }
}

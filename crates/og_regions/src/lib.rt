//! The numbers of regions and of their leaves: the process and each partition of each state aggregation (Z.102 section 11.11).
#![tactic(auto)]

ghost use Rattle.std.specs.Prelude.{◌≡◌, IfOk};
ghost use Rattle.og_model.specs.Regions.{regions};

mod leaves;
mod partitions;

use leaves::scope_leaves;
use og_model::Model;
pub use og_model::{Leaf, Region};
use og_names::NoMemory;
use partitions::scope_regions;
use sqlite_items::Items;
use std::alloc::Global;

/// The regions of a process by their numbers, each with its leaves by theirs. Both count from 0.
#[derive(Drop)]
pub struct Regions {
    pub list: Items<Region>,
}

/// Region 0 is the process; each partition is a region, depth first in the order of the text. A region's leaves are the
/// paths through composite states to a basic state or an aggregation, depth first in the order of the text.
pub fn number(alloc: Global, model: &Model) -> Result<Regions, NoMemory>
    ensures { IfOk result (λ r. r.list ≡ regions model.now) }
{
    let path = Items::new(alloc);
    let mut leaves = Items::new(alloc);
    scope_leaves(alloc, &model.root, path.as_slice(), &mut leaves)?;
    let mut list = Items::new(alloc);
    scope_regions(alloc, &model.root, path.as_slice(), &mut list)?;
    let mut all = Items::new(alloc);
    all.push(Region { path, leaves })?;
    all.append(list)?;
    Ok(Regions { list: all })
}

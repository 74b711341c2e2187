//! The regions of the partitions inside a scope.

ghost use Rattle.std.specs.Prelude.{◌≡◌, ◌++◌, OnOk};
ghost use Rattle.og_model.specs.declared.Partition.{out-Partition};
ghost use Rattle.og_model.specs.Regions.{insides_of, partition_regions, state_insides};
ghost use Rattle.og_regions.specs.Placed.{regions_at};

use crate::leaves::{extended, scope_leaves};
use og_model::{Partition, Region, Scope, StateDef, StateKind};
use og_names::{NameId, NoMemory};
use sqlite_items::Items;
use std::alloc::Global;

/// Adds the regions inside a scope that stands at the end of `path`.
#[cycle(regions)]
pub fn scope_regions(
    alloc: Global,
    scope: &Scope,
    path: &[NameId],
    regions: &mut Items<Region>,
) -> Result<(), NoMemory>
    ensures { OnOk result (regions.new ≡ regions.old ++ regions_at path.now (insides_of scope.now).regions) }
{
    for state in scope.states.as_slice() {
        state_regions(alloc, state, path, regions)?;
    }
    Ok(())
}

/// Adds the regions inside a state of the scope at the end of `path`.
#[cycle(regions)]
fn state_regions(
    alloc: Global,
    state: &StateDef,
    path: &[NameId],
    regions: &mut Items<Region>,
) -> Result<(), NoMemory>
    ensures { OnOk result (regions.new ≡ regions.old ++ regions_at path.now (state_insides insides_of state.now).regions) }
{
    match &state.kind {
        StateKind::Basic => {}
        StateKind::Composite { inner, .. } => {
            let longer = extended(alloc, path, state.name)?;
            scope_regions(alloc, inner, longer.as_slice(), regions)?;
        }
        StateKind::Aggregation { partitions, .. } => {
            let longer = extended(alloc, path, state.name)?;
            for partition in partitions.as_slice() {
                one_partition(alloc, partition, longer.as_slice(), regions)?;
            }
        }
    }
    Ok(())
}

/// Adds the region of a partition of the aggregation at the end of `path`, and the regions inside it.
#[cycle(regions)]
fn one_partition(
    alloc: Global,
    partition: &Partition,
    path: &[NameId],
    regions: &mut Items<Region>,
) -> Result<(), NoMemory>
    ensures { OnOk result (regions.new ≡ regions.old ++ regions_at path.now (partition_regions partition.now (insides_of (out-Partition partition.now).inner))) }
{
    let outer = Items::new(alloc);
    let mut leaves = Items::new(alloc);
    scope_leaves(alloc, &partition.inner, outer.as_slice(), &mut leaves)?;
    let longer = extended(alloc, path, partition.name)?;
    let own = extended(alloc, path, partition.name)?;
    regions.push(Region { path: own, leaves })?;
    scope_regions(alloc, &partition.inner, longer.as_slice(), regions)?;
    Ok(())
}

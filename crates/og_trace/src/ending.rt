//! The lines of how a run has ended.
ghost use Rattle.std.specs.Prelude.{◌≡◌, ◌<◌, ◌^◌, ◌++◌, length, slice_get, IfOk, OnOk};
ghost use Rattle.og_csubset.specs.Run.{c_machine};
ghost use Rattle.og_cstep.specs.Answered.{answer_at_end};
ghost use Rattle.og_cstep.specs.Machines.{run_of, active_leaf};
ghost use Rattle.og_model.specs.Regions.{regions as regions_of};
ghost use Rattle.og_stim.specs.Trace.{end_lines, end_of as end_told};
ghost use Rattle.og_trace.specs.Entries.{end_at, HasCells, IsPlain};
ghost use Rattle.og_trace.specs.Leaves.{end_seen, if_basic, leaf_in, leaves_from};

use og_cstep::{Advance, Machine};
use og_model::{Model, Region};
use og_names::{NoMemory, Word};
use og_regions::Regions;
use og_stim::{ActiveLeaf, TraceEnd, show_end};
use sqlite_items::Items;
use std::alloc::Global;

/// Appends the lines of how a machine's run has ended, which the answer tells. The regions are those of the model.
pub fn show_ending(
    alloc: Global,
    machine: &Machine,
    model: &Model,
    regions: &Regions,
    files: &[Word],
    answer: Advance,
    out: &mut Vec<u8>,
) -> Result<(), NoMemory>
    requires model { (run_of machine.now).model ≡ model.now }
    requires regions { regions.now.list ≡ regions_of model.now }
    requires plain { IsPlain model.now }
    requires answer { answer ≡ answer_at_end (end_at (c_machine (run_of machine.now).program model.now).ending (run_of machine.now).config) }
    requires over { HasCells (run_of machine.now).config (run_of machine.now).cells }
    ensures { OnOk result (out.new.items ≡ out.old.items ++ end_lines model.now files.now
        (end_at (c_machine (run_of machine.now).program model.now).ending (run_of machine.now).config)) }
{
    let end = end_of(alloc, machine, regions.list.as_slice(), answer)?;
    show_end(alloc, model, regions, files, &end, out)?;
    Ok(())
}

/// How a run has ended that has given this answer last. In these models there are no variables and no timers.
fn end_of(
    alloc: Global,
    machine: &Machine,
    regions: &[Region],
    answer: Advance,
) -> Result<TraceEnd, NoMemory>
    requires { length regions.now < 2 ^ 32 }
    ensures { IfOk result (λ end. end_told regions.now end ≡ end_seen (run_of machine.now) regions.now answer) }
{
    match answer {
        Advance::Moved | Advance::Event(_) => Ok(TraceEnd::Past),
        Advance::Rest => Ok(TraceEnd::Rest {
            leaves: active_leaves(alloc, machine, regions)?,
            values: Items::new(alloc),
            timers: Items::new(alloc),
        }),
        Advance::Fault(kind, place) => Ok(TraceEnd::Fault {
            kind,
            place,
            values: Items::new(alloc),
            timers: Items::new(alloc),
        }),
        Advance::Stopped => Ok(TraceEnd::Stopped {
            values: Items::new(alloc),
        }),
        Advance::Stuck(rule) => Ok(TraceEnd::Stuck { rule }),
    }
}

/// The active leaves that are basic states, in the order of the regions.
fn active_leaves(
    alloc: Global,
    machine: &Machine,
    regions: &[Region],
) -> Result<Items<ActiveLeaf>, NoMemory>
    requires { length regions.now < 2 ^ 32 }
    ensures { IfOk result (λ leaves. leaves ≡ leaves_from (run_of machine.now) 0 regions.now) }
{
    let mut leaves = Items::new(alloc);
    let mut number = 0;
    for region in regions {
        add_leaf(machine, number, region, &mut leaves)?;
        number += 1;
    }
    Ok(leaves)
}

/// Adds the active leaf of the region of this number.
fn add_leaf(
    machine: &Machine,
    number: u32,
    region: &Region,
    leaves: &mut Items<ActiveLeaf>,
) -> Result<(), NoMemory>
    ensures { OnOk result (leaves.new ≡ leaves.old ++ leaf_in number region.now (active_leaf (run_of machine.now) number)) }
{
    match machine.active(number) {
        None => Ok(()),
        Some(leaf) => add_if_basic(number, leaf, region, leaves),
    }
}

fn add_if_basic(
    number: u32,
    leaf: u32,
    region: &Region,
    leaves: &mut Items<ActiveLeaf>,
) -> Result<(), NoMemory>
    ensures { OnOk result (leaves.new ≡ leaves.old ++ if_basic number leaf (slice_get region.now.leaves leaf)) }
{
    match region.leaves.get(leaf as usize) {
        None => Ok(()),
        Some(found) => {
            if found.basic {
                leaves.push(ActiveLeaf {
                    region: number,
                    leaf,
                })?;
            }
            Ok(())
        }
    }
}

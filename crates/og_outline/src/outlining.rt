//! The outline of a process in the block that it belongs to.
ghost use Rattle.std.specs.Prelude.{◌≡◌, IfOk};
ghost use Rattle.og_system.specs.Lent.{read_home};
ghost use Rattle.og_outline.specs.Outlines.{starts_of, states_of, outline_of};

use crate::copies::copy_name;
use crate::signals::{names_around, signals_of};
use crate::transitions::{add_starts, add_states};
use crate::{Outline, StartOutline, StateOutline};
use og_ast::{ProcessTree, Unit};
use og_names::NoMemory;
use og_system::Home;
use sqlite_items::Items;
use std::alloc::Global;

/// What a process says, with what stands around it in the units of all files, where it belongs to this block.
pub fn outline_of(
    alloc: Global,
    units: &[Unit],
    process: &ProcessTree,
    home: &Home<'_>,
) -> Result<Outline, NoMemory>
    ensures { IfOk result (λ outline. outline ≡ outline_of units.now process.now (read_home home.now)) }
{
    let around = names_around(alloc, units, home)?;
    let signals = signals_of(alloc, units, process, home)?;
    Ok(Outline {
        process: copy_name(alloc, &process.name)?,
        around,
        signals,
        starts: starts_of(alloc, process)?,
        states: states_of(alloc, process)?,
    })
}

fn starts_of(alloc: Global, process: &ProcessTree) -> Result<Items<StartOutline>, NoMemory>
    ensures { IfOk result (λ starts. starts ≡ starts_of process.now) }
{
    let mut starts = Items::new(alloc);
    add_starts(alloc, &mut starts, process.parts.as_slice())?;
    Ok(starts)
}

fn states_of(alloc: Global, process: &ProcessTree) -> Result<Items<StateOutline>, NoMemory>
    ensures { IfOk result (λ states. states ≡ states_of process.now) }
{
    let mut states = Items::new(alloc);
    add_states(alloc, &mut states, process.parts.as_slice())?;
    Ok(states)
}

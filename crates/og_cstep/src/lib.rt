//! Runs a program of the C subset over a model, one statement at a time.
#![tactic(auto)]

ghost use Rattle.std.specs.Prelude.{◌≡◌, length};
ghost use Rattle.og_ccells.specs.Layouts.{layout_of};
ghost use Rattle.og_csubset.specs.Loading.{Loads, cells_of_globals};
ghost use Rattle.og_cstatement.specs.Links.{linked_of};
ghost use Rattle.og_cstep.specs.Entries.{entries_of};
ghost use Rattle.og_cstep.specs.Interfaces.{interface_of};

mod ends;
mod entries;
mod halted;
mod inputs;
mod interface;
pub mod laws;
mod memory;
mod reading;
mod stepping;
mod values;

use entries::Entries;
use interface::Interface;
use og_base::Place;
use og_ccells::Layout;
use og_cstatement::{Linked, Position};
use og_csubset::CProgram;
pub use og_csubset::LoadRule;
use og_model::Model;
pub use og_model::{EventId, FaultKind, StimId, StuckRule};
use og_names::NoMemory;

/// Why a program is not loaded: the first rule that it breaks, or want of memory.
#[derive(Clone, Copy, Debug, PartialEq, Eq)]
pub enum LoadError {
    BadProgram(LoadRule),
    NoMemory(NoMemory),
}

/// What one statement shows: nothing, an event, how the run has ended, or why it cannot go on.
#[derive(Clone, Copy, Debug, PartialEq, Eq)]
pub enum Advance {
    Moved,
    Event(EventId),
    Rest,
    Fault(FaultKind, Place),
    Stopped,
    Stuck(StuckRule),
}

/// A program over a model, with the cells of its globals in one vector. What names stand for, where globals lie and the room for
/// calls were found at load.
#[derive(Drop)]
pub struct Machine {
    program: CProgram,
    model: Model,
    layout: Layout,
    linked: Linked,
    interface: Interface,
    entries: Entries,
    cells: Vec<i64>,
    position: Position,
    last: Option<Advance>,
    ghost loads: { Loads program model },
    ghost layout_is: { layout ≡ layout_of program },
    ghost linked_is: { linked ≡ linked_of program model },
    ghost interface_is: { interface ≡ interface_of program model },
    ghost entries_is: { entries ≡ entries_of program model },
    ghost whole: { length cells.items ≡ cells_of_globals program },
    ghost functions: { position.functions ≡ length program.functions },
}

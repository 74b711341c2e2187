//! A model that no file gives yet.
ghost use Rattle.std.specs.Prelude.{◌≡◌, ◌≤◌, length, IfOk};

use og_base::Place;
use og_model::{Model, Scope, Signal, StateDef, StateKind};
use og_names::{NameId, Names, NoMemory};
use og_types::TypeTable;
use sqlite_items::Items;
use std::alloc::Global;

/// A model with a state `idle`, incoming signals `go` and `true`, an outgoing signal `done`, and a timer `slow`.
pub fn small_model(alloc: Global) -> Result<Model, NoMemory>
    ensures signals { IfOk result (λ model. length model.signals ≤ 200) }
    ensures timers { IfOk result (λ model. length model.timers ≤ 200) }
{
    let names = names_of(alloc, "p idle go done true slow")?;
    let mut signals = Items::new(alloc);
    signals.push(signal(alloc, NameId(2), true))?;
    signals.push(signal(alloc, NameId(3), false))?;
    signals.push(signal(alloc, NameId(4), true))?;
    let mut timers = Items::new(alloc);
    timers.push(NameId(5))?;
    let states = one_state(alloc, NameId(1))?;
    Ok(Model {
        name: NameId(0),
        names,
        types: TypeTable::new(alloc),
        signals,
        timers,
        variables: Items::new(alloc),
        procs: Items::new(alloc),
        root: Scope {
            states,
            starts: Items::new(alloc),
            bodies: Items::new(alloc),
        },
    })
}

/// A table of names. Those that are too long, or too many, are left out.
fn names_of(alloc: Global, text: &str) -> Result<Names, NoMemory> {
    let mut names = Names::new(alloc);
    for word in text.split_whitespace() {
        if word.len() <= 64 && names.len() < 1000 {
            names.add(word.as_bytes())?;
        }
    }
    Ok(names)
}

fn signal(alloc: Global, name: NameId, incoming: bool) -> Signal {
    Signal {
        name,
        sorts: Items::new(alloc),
        incoming,
        outgoing: !incoming,
    }
}

fn one_state(alloc: Global, name: NameId) -> Result<Items<StateDef>, NoMemory> {
    let mut states = Items::new(alloc);
    states.push(StateDef {
        name,
        place: Place {
            file: 0,
            line: 1,
            column: 1,
        },
        kind: StateKind::Basic,
        handlers: Items::new(alloc),
    })?;
    Ok(states)
}

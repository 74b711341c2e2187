//! A trace with a timer, over a region with a state inside another.

use og_model::{Leaf, Model, Region, Scope, Signal, StimId};
use og_names::{NameId, Names, NoMemory};
use og_regions::Regions;
use og_stim::{ActiveLeaf, Happening, Stimulus, TraceEnd, show_end, show_event, show_stimulus};
use og_types::TypeTable;
use sqlite_items::Items;
use std::alloc::Global;
use std::test::Fail;

/// A model with a signal `go`, an outgoing one `done`, and a timer `slow`.
fn small_model(alloc: Global) -> Result<Model, NoMemory> {
    let mut names = Names::new(alloc);
    let go = names.add(b"go")?;
    let done = names.add(b"done")?;
    let slow = names.add(b"slow")?;
    let mut signals = Items::new(alloc);
    for name in [go, done] {
        signals.push(Signal {
            name,
            sorts: Items::new(alloc),
            incoming: true,
            outgoing: true,
        })?;
    }
    let mut timers = Items::new(alloc);
    timers.push(slow)?;
    Ok(Model {
        name: go,
        names,
        types: TypeTable::new(alloc),
        signals,
        timers,
        variables: Items::new(alloc),
        procs: Items::new(alloc),
        root: Scope {
            states: Items::new(alloc),
            starts: Items::new(alloc),
            bodies: Items::new(alloc),
        },
    })
}

fn leaf_at(alloc: Global, names: &[NameId]) -> Result<Leaf, NoMemory> {
    let path = Items::from_slice(alloc, names)?;
    Ok(Leaf { path, basic: true })
}

/// One region that rests at `done`, or at `go` in `done`.
fn small_regions(alloc: Global) -> Result<Regions, NoMemory> {
    let mut leaves = Items::new(alloc);
    leaves.push(leaf_at(alloc, &[NameId(1)])?)?;
    leaves.push(leaf_at(alloc, &[NameId(1), NameId(0)])?)?;
    let region = Region {
        path: Items::new(alloc),
        leaves,
    };
    let mut list = Items::new(alloc);
    list.push(region)?;
    Ok(Regions { list })
}

fn stimulus(alloc: Global, id: StimId) -> Stimulus {
    Stimulus {
        id,
        values: Items::new(alloc),
    }
}

fn output(alloc: Global, signal: u32) -> Happening {
    Happening::Output {
        signal,
        values: Items::new(alloc),
    }
}

fn rest_at(alloc: Global, leaf: u32, runs: bool) -> Result<TraceEnd, NoMemory> {
    let leaves = Items::from_slice(alloc, &[ActiveLeaf { region: 0, leaf }])?;
    let timers = Items::from_slice(alloc, &[runs])?;
    Ok(TraceEnd::Rest {
        leaves,
        values: Items::new(alloc),
        timers,
    })
}

/// A start that sets a timer and rests in `done`.
fn trace_of_start(alloc: Global, model: &Model, out: &mut Vec<u8>) -> Result<(), NoMemory> {
    show_stimulus(model, &stimulus(alloc, StimId::Start), out)?;
    let set = Happening::Set {
        timer: 0,
        duration: 1000,
    };
    show_event(model, &set, out)?;
    let regions = small_regions(alloc)?;
    let end = rest_at(alloc, 0, true)?;
    show_end(alloc, model, &regions, &[], &end, out)
}

/// An expiry that shows an output, resets the timer and rests at `go` in `done`.
fn trace_of_expiry(alloc: Global, model: &Model, out: &mut Vec<u8>) -> Result<(), NoMemory> {
    show_stimulus(model, &stimulus(alloc, StimId::Timer(0)), out)?;
    show_event(model, &output(alloc, 1), out)?;
    show_event(model, &Happening::Reset { timer: 0 }, out)?;
    let regions = small_regions(alloc)?;
    let end = rest_at(alloc, 1, false)?;
    show_end(alloc, model, &regions, &[], &end, out)
}

fn short_trace(alloc: Global) -> Result<Vec<u8>, NoMemory> {
    let model = small_model(alloc)?;
    let mut out = Vec::new(alloc);
    trace_of_start(alloc, &model, &mut out)?;
    trace_of_expiry(alloc, &model, &mut out)?;
    Ok(out)
}

#[test]
fn a_trace_is_written_line_by_line(rt: HostRuntime) -> Result<(), Fail> {
    let text = short_trace(rt.alloc())?;
    assert_eq!(rt;
        text.as_slice(),
        b"> start\nset slow(1000)\nrest\nstate done\ntimer slow\n> slow\noutput done\nreset slow\nrest\nstate done.go\n".as_slice()
    );
    Ok(())
}

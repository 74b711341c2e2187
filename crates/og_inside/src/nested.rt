use og_base::Place;
use og_model::{
    Block, Body, EndKind, Ending, Model, Partition, Region, Scope, Start, StateDef, StateKind,
};
use og_names::{NameId, Names, NoMemory};
use og_regions::number;
use og_types::TypeTable;
use sqlite_items::Items;
use std::alloc::Global;

const PLACE: Place = Place {
    file: 0,
    line: 1,
    column: 1,
};

fn state(alloc: Global, name: u32, kind: StateKind) -> StateDef {
    StateDef {
        name: NameId(name),
        place: PLACE,
        kind,
        handlers: Items::new(alloc),
    }
}

/// A scope that begins with its first state.
fn scope(alloc: Global, states: Vec<StateDef>) -> Result<Scope, NoMemory> {
    let mut starts = Items::new(alloc);
    starts.push(Start {
        entry: None,
        body: 0,
    })?;
    let mut bodies = Items::new(alloc);
    bodies.push(Body {
        place: PLACE,
        label: None,
        block: Block {
            steps: Items::new(alloc),
            end: Some(Ending {
                label: None,
                place: PLACE,
                kind: EndKind::Next {
                    state: 0,
                    entry: None,
                },
            }),
        },
    })?;
    Ok(Scope {
        states: Items::from_vec(states),
        starts,
        bodies,
    })
}

/// A scope of basic states.
fn basic(alloc: Global, names: &[u32]) -> Result<Scope, NoMemory> {
    let mut states = Vec::new(alloc);
    for name in names {
        states.push(state(alloc, *name, StateKind::Basic))?;
    }
    scope(alloc, states)
}

fn partition(alloc: Global, name: u32, names: &[u32]) -> Result<Partition, NoMemory> {
    Ok(Partition {
        name: NameId(name),
        entry: None,
        exit: None,
        inner: basic(alloc, names)?,
    })
}

/// Basic state 6; composite state 1 with basic state 2 and aggregation 3 inside; 3 has partition 4, with state 7, and partition 5, with
/// states 8 and 9.
fn nested(alloc: Global) -> Result<Model, NoMemory> {
    let mut partitions = Items::new(alloc);
    partitions.push(partition(alloc, 4, &[7])?)?;
    partitions.push(partition(alloc, 5, &[8, 9])?)?;
    let inner = vec![in alloc;
        state(alloc, 2, StateKind::Basic),
        state(
            alloc,
            3,
            StateKind::Aggregation {
                entry: None,
                exit: None,
                partitions
            }
        ),
    ]?;
    let outer = vec![in alloc;
        state(alloc, 6, StateKind::Basic),
        state(
            alloc,
            1,
            StateKind::Composite {
                entry: None,
                exit: None,
                inner: scope(alloc, inner)?
            }
        ),
    ]?;
    Ok(Model {
        name: NameId(0),
        names: Names::new(alloc),
        types: TypeTable::new(alloc),
        signals: Items::new(alloc),
        timers: Items::new(alloc),
        variables: Items::new(alloc),
        procs: Items::new(alloc),
        root: scope(alloc, outer)?,
    })
}

/// The leaf of this number has this path.
fn is_leaf(region: &Region, at: usize, path: &[NameId], basic: bool) -> bool {
    match region.leaves.get(at) {
        Some(leaf) => leaf.path.as_slice() == path && leaf.basic == basic,
        None => false,
    }
}

#[test]
fn partitions_of_a_copied_model_are_regions_and_states_are_leaves(
    rt: HostRuntime,
) -> Result<(), NoMemory> {
    let alloc = rt.alloc();
    let model = nested(alloc)?.copy(alloc)?;
    let regions = number(alloc, &model)?;
    let regions = regions.list.as_slice();
    assert_eq!(rt; regions.len(), 3);
    assert!(rt; regions[0].path.is_empty() && regions[0].leaves.len() == 3);
    assert!(rt; is_leaf(&regions[0], 0, &[NameId(6)], true));
    assert!(rt; is_leaf(&regions[0], 1, &[NameId(1), NameId(2)], true));
    assert!(rt; is_leaf(&regions[0], 2, &[NameId(1), NameId(3)], false));
    assert!(rt; regions[1].path.as_slice() == [NameId(1), NameId(3), NameId(4)].as_slice());
    assert!(rt; is_leaf(&regions[1], 0, &[NameId(7)], true) && regions[1].leaves.len() == 1);
    assert!(rt; regions[2].path.as_slice() == [NameId(1), NameId(3), NameId(5)].as_slice());
    assert!(rt; is_leaf(&regions[2], 0, &[NameId(8)], true));
    assert!(rt; is_leaf(&regions[2], 1, &[NameId(9)], true) && regions[2].leaves.len() == 2);
    Ok(())
}

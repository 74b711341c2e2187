//! The leaves of a scope.

ghost use Rattle.std.specs.Prelude.{◌≡◌, [], ◌∷◌, ◌++◌, IfOk, OnOk};
ghost use Rattle.og_model.specs.Regions.{insides_of, one_leaf, state_insides};
ghost use Rattle.og_regions.specs.Placed.{leaves_at};

use og_model::{Leaf, Scope, StateDef, StateKind};
use og_names::{NameId, NoMemory};
use sqlite_items::Items;
use std::alloc::Global;

/// A path with one more name at its end.
pub fn extended(alloc: Global, path: &[NameId], name: NameId) -> Result<Items<NameId>, NoMemory>
    ensures { IfOk result (λ longer. longer ≡ path.now ++ name ∷ []) }
{
    let mut longer = Items::from_slice(alloc, path)?;
    longer.push(name)?;
    Ok(longer)
}

/// Adds a leaf with its path.
fn add_leaf(path: Items<NameId>, basic: bool, leaves: &mut Items<Leaf>) -> Result<(), NoMemory>
    ensures { OnOk result (leaves.new ≡ leaves.old ++ leaves_at path (one_leaf basic)) }
{
    leaves.push(Leaf { path, basic })?;
    Ok(())
}

/// Adds the leaves of a scope that stands at the end of `path`.
#[cycle(leaves)]
pub fn scope_leaves(
    alloc: Global,
    scope: &Scope,
    path: &[NameId],
    leaves: &mut Items<Leaf>,
) -> Result<(), NoMemory>
    ensures { OnOk result (leaves.new ≡ leaves.old ++ leaves_at path.now (insides_of scope.now).leaves) }
{
    for state in scope.states.as_slice() {
        state_leaves(alloc, state, path, leaves)?;
    }
    Ok(())
}

/// Adds the leaves of a state of the scope at the end of `path`.
#[cycle(leaves)]
fn state_leaves(
    alloc: Global,
    state: &StateDef,
    path: &[NameId],
    leaves: &mut Items<Leaf>,
) -> Result<(), NoMemory>
    ensures { OnOk result (leaves.new ≡ leaves.old ++ leaves_at path.now (state_insides insides_of state.now).leaves) }
{
    let inner = extended(alloc, path, state.name)?;
    match &state.kind {
        StateKind::Basic => add_leaf(inner, true, leaves)?,
        StateKind::Composite { inner: scope, .. } => {
            scope_leaves(alloc, scope, inner.as_slice(), leaves)?;
        }
        StateKind::Aggregation { .. } => add_leaf(inner, false, leaves)?,
    }
    Ok(())
}

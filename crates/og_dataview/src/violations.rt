//! The rules on names: the first violation in modules.
ghost use Rattle.std.specs.Prelude.{◌≡◌, IfOk};
ghost use Rattle.og_flat.specs.Flattening.{flat_of as laid_out};
ghost use Rattle.og_dataview.specs.Violations.{first_violation};

use crate::imports::exported_of;
use crate::scope::Scope;
use og_asn1::ModuleTree;
use og_base::Violation;
use og_flat::flat_of;
use og_names::NoMemory;
use std::alloc::Global;

/// The first violation of the rules on names (N1, N2, N3 and N7) in the modules of all files, which stand in one list.
pub fn first_violation(alloc: Global, modules: &[ModuleTree]) -> Result<Option<Violation>, NoMemory>
    ensures { IfOk result (λ first. first ≡ first_violation modules.now) }
{
    let flat = flat_of(alloc, modules)?;
    let scope = Scope::new(alloc, flat)?;
    first_in(alloc, &scope, modules)
}

/// The first violation in modules whose scope is this one.
#[tactic(auto, using(crate::proofs::Noting::notes, crate::proofs::Exports::imports_are))]
pub fn first_in(
    alloc: Global,
    scope: &Scope,
    modules: &[ModuleTree],
) -> Result<Option<Violation>, NoMemory>
    requires { scope.now.flat ≡ laid_out modules.now }
    ensures { IfOk result (λ first. first ≡ first_violation modules.now) }
{
    let exported = exported_of(alloc, modules)?;
    let mut first = None;
    scope.note_all(alloc, &mut first)?;
    exported.note_modules(alloc, modules, &mut first)?;
    Ok(first)
}

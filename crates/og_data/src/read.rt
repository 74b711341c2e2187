//! The top call: the view of modules, or the first violation of the rules on names.
ghost use Rattle.std.specs.Prelude.{◌≡◌, None, IfOk, IfErr, OnOk, OnErr};
ghost use Rattle.og_flat.specs.Flattening.{flat_of as laid_out};
ghost use Rattle.og_dataview.specs.Violations.{first_violation};
ghost use Rattle.og_dataview.specs.View.{names_after, view_of};
ghost use Rattle.og_dataview.specs.Naming.{IsFront};
ghost use Rattle.og_data.specs.Answers.{BreaksFirst};

use crate::view::view_by;
use og_asn1::ModuleTree;
use og_base::ModelError;
use og_dataview::{DataView, Scope, add_names, first_in};
use og_flat::flat_of;
use og_names::Names;
use std::alloc::Global;

/// The types and constants of the modules of all files, which stand in one list. All names that they declare are added to the
/// table. Broken has the first violation of the rules on names (N1, N2, N3 and N7). After an error the table has its old names,
/// and may have further ones behind them.
#[tactic(auto, using(crate::proofs::Views::reading))]
pub fn read_modules(
    alloc: Global,
    modules: &[ModuleTree],
    names: &mut Names,
) -> Result<DataView, ModelError>
    ensures kept { OnOk result (first_violation modules.now ≡ None) }
    ensures view { IfOk result (λ view. view ≡ view_of names.old modules.now) }
    ensures names { OnOk result (names.new ≡ names_after names.old modules.now) }
    ensures broken { IfErr result (BreaksFirst modules.now) }
    ensures front { OnErr result (IsFront names.old names.new) }
{
    let scope = scope_of(alloc, modules)?;
    add_names(names, modules)?;
    let view = view_by(alloc, scope, names)?;
    Ok(view)
}

/// The scope of modules that violate no rule on names.
#[tactic(auto, using(crate::proofs::Views::reading))]
fn scope_of(alloc: Global, modules: &[ModuleTree]) -> Result<Scope, ModelError>
    ensures kept { OnOk result (first_violation modules.now ≡ None) }
    ensures scope { IfOk result (λ scope. scope.flat ≡ laid_out modules.now) }
    ensures broken { IfErr result (BreaksFirst modules.now) }
{
    let flat = flat_of(alloc, modules)?;
    let scope = Scope::new(alloc, flat)?;
    match first_in(alloc, &scope, modules)? {
        None => Ok(scope),
        Some(violation) => Err(ModelError::Broken(violation)),
    }
}

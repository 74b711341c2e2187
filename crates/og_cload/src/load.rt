//! Which programs can be run over a model.
ghost use Rattle.std.specs.Prelude.{◌≡◌, IfOk};
ghost use Rattle.og_model.specs.Regions.{regions as regions_of};
ghost use Rattle.og_csubset.specs.Loading.{first_load_rule};

use crate::interface::breaks_k9;
use crate::labels::{breaks_k6, breaks_k7};
use crate::repeats::breaks_k3;
use crate::types::breaks_k4;
use crate::typing::breaks_k5;
use crate::width::breaks_k8;
use og_csubset::{CProgram, LoadRule};
use og_model::{Model, Region};
use og_names::NoMemory;
use std::alloc::Global;

/// The first of the rules K3 to K9 that the program breaks. The regions are those of the model.
#[tactic(auto, unfolding(og_csubset::specs::Loading::first_load_rule))]
pub fn broken_rule(
    alloc: Global,
    program: &CProgram,
    model: &Model,
    regions: &[Region],
) -> Result<Option<LoadRule>, NoMemory>
    requires { regions.now ≡ regions_of model.now }
    ensures { IfOk result (λ rule. rule ≡ first_load_rule program.now model.now) }
{
    if breaks_k3(alloc, program)? {
        return Ok(Some(LoadRule::K3));
    }
    if breaks_k4(alloc, program)? {
        return Ok(Some(LoadRule::K4));
    }
    if breaks_k5(program) {
        return Ok(Some(LoadRule::K5));
    }
    if breaks_k6(alloc, program)? {
        return Ok(Some(LoadRule::K6));
    }
    if breaks_k7(alloc, program)? {
        return Ok(Some(LoadRule::K7));
    }
    if breaks_k8(program) {
        return Ok(Some(LoadRule::K8));
    }
    let sorts = model.types.as_slice();
    if breaks_k9(alloc, program, model, sorts, regions)? {
        return Ok(Some(LoadRule::K9));
    }
    Ok(None)
}

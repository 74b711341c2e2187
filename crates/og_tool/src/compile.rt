//! From a model to the text of its C.
ghost use Rattle.std.specs.Prelude.{IfOk};
ghost use Rattle.og_model.specs.Forms.{UsesBasicStatesOnly};
ghost use Rattle.og_model.specs.WellFormed.{IsWellFormed};
ghost use Rattle.og_tool.specs.Compiled.{IsCompiled};

use og_cemit::emit;
use og_cprint::print_c;
use og_flatten::flatten;
use og_model::Model;
use og_names::NoMemory;
use og_regions::number;
use std::alloc::Global;

/// The text of the C of a model, which one program spells that does what the model does.
pub fn compile(alloc: Global, model: &Model) -> Result<Vec<u8>, NoMemory>
    requires formed { IsWellFormed model.now }
    requires basic { UsesBasicStatesOnly model.now }
    ensures { IfOk result (λ text. IsCompiled model.now text.items) }
{
    let regions = number(alloc, model)?;
    let ir = flatten(alloc, model, &regions)?;
    let program = emit(alloc, &ir, model)?;
    print_c(alloc, &program)
}

//! The values that globals hold.
#![tactic(auto, using(crate::proofs::Slotted::slotted))]

ghost use Rattle.std.specs.Prelude.{◌≡◌, IfOk};
ghost use Rattle.std.specs.Option.{option_copied};
ghost use Rattle.og_cstep.specs.Machines.{run_of, argument_in, variable_in};
ghost use Rattle.og_cstep.specs.Slots as said;

use crate::Machine;
use crate::ends::{extent_at, number_there};
use crate::interface::{Interface, Slot};
use og_ccells::{Extent, read_value};
use og_cload::fields::Shape;
use og_names::NoMemory;
use og_types::{Sort, Value};
use sqlite_items::at;
use std::alloc::Global;

impl Machine {
    /// The value of an output's parameter, once the output was shown, and none where its cells hold none. Parameters count from 0.
    pub fn argument(
        &self,
        alloc: Global,
        signal: u32,
        parameter: u32,
    ) -> Result<Option<Value>, NoMemory>
        ensures { IfOk result (λ value. value ≡ argument_in (run_of self.now) signal parameter) }
    {
        let value = value_if(
            alloc,
            self.model.types.as_slice(),
            self.layout.extents.as_slice(),
            self.cells.as_slice(),
            output_slot(&self.interface, signal, parameter),
        )?;
        Ok(value)
    }

    /// The value of a variable, once the run has ended, and none where its cells hold none. Variables count from 0.
    pub fn variable(&self, alloc: Global, variable: u32) -> Result<Option<Value>, NoMemory>
        ensures { IfOk result (λ value. value ≡ variable_in (run_of self.now) variable) }
    {
        let value = value_if(
            alloc,
            self.model.types.as_slice(),
            self.layout.extents.as_slice(),
            self.cells.as_slice(),
            at(self.interface.variables.as_slice(), variable as usize),
        )?;
        Ok(value)
    }
}

fn output_slot(interface: &Interface, signal: u32, parameter: u32) -> Option<&Slot>
    ensures { option_copied result ≡ said.output_slot interface.now signal parameter }
{
    match at(interface.signals.as_slice(), signal as usize) {
        None => None,
        Some(slots) => at(slots.outputs.as_slice(), parameter as usize),
    }
}

/// The value of a global, where there is one.
fn value_if(
    alloc: Global,
    sorts: &[Sort],
    extents: &[Extent],
    cells: &[i64],
    slot: Option<&Slot>,
) -> Result<Option<Value>, NoMemory>
    ensures { IfOk result (λ value. value ≡ said.value_if sorts.now extents.now cells.now (option_copied slot.entry)) }
{
    let Some(slot) = slot else {
        return Ok(None);
    };
    let Some(extent) = extent_at(extents, slot.place) else {
        return Ok(None);
    };
    let value = value_there(alloc, sorts, cells, slot.shape, extent)?;
    Ok(value)
}

/// The value of a global that is there.
fn value_there(
    alloc: Global,
    sorts: &[Sort],
    cells: &[i64],
    shape: Shape,
    extent: &Extent,
) -> Result<Option<Value>, NoMemory>
    ensures { IfOk result (λ value. value ≡ said.value_there sorts.now cells.now shape extent.now) }
{
    match shape {
        Shape::Number => Ok(integer(number_there(cells, extent))),
        Shape::Typed(sort) => {
            let value = read_value(alloc, sorts, sort, cells, extent.offset as usize)?;
            Ok(value)
        }
    }
}

fn integer(number: Option<i64>) -> Option<Value>
    ensures { result ≡ said.integer_of number }
{
    let number = number?;
    Some(Value::Int(number))
}

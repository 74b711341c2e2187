//! The globals of a signal's parameters.
#![tactic(auto)]

ghost use Rattle.std.specs.Prelude.{◌≡◌, pos, slice_set};
ghost use Rattle.std.specs.Option.{option_copied};
ghost use Rattle.og_ccells.specs.Vectors.{put_cells};
ghost use Rattle.og_cstep.specs.Inputs as said;
ghost use Rattle.og_cstep.specs.Slots.{input_slot as slot_of_input, extent_at as extent_of};

use crate::ends::extent_at;
use crate::interface::{Interface, Slot};
use og_ccells::{Extent, write_value};
use og_cload::fields::Shape;
use og_types::{Sort, Value};
use sqlite_items::at;

/// The global of a parameter holds the value.
pub fn put_input(
    sorts: &[Sort],
    extents: &[Extent],
    interface: &Interface,
    cells: &mut Vec<i64>,
    signal: u32,
    parameter: u32,
    value: &Value,
)
    ensures { cells.new.items ≡ said.put_in_vector sorts.now extents.now (slot_of_input interface.now signal parameter) value.now cells.old.items }
{
    if let Some(slot) = input_slot(interface, signal, parameter) {
        put_slot(sorts, extents, slot, value, cells);
    }
}

fn input_slot(interface: &Interface, signal: u32, parameter: u32) -> Option<&Slot>
    ensures { option_copied result ≡ slot_of_input interface.now signal parameter }
{
    match at(interface.signals.as_slice(), signal as usize) {
        None => None,
        Some(slots) => at(slots.inputs.as_slice(), parameter as usize),
    }
}

/// Puts a value into a global, where it is there.
fn put_slot(sorts: &[Sort], extents: &[Extent], slot: &Slot, value: &Value, cells: &mut Vec<i64>)
    ensures { cells.new.items ≡ said.put_there sorts.now slot.now.shape value.now (extent_of extents.now slot.now.place) cells.old.items }
{
    if let Some(extent) = extent_at(extents, slot.place) {
        put_shape(sorts, slot.shape, value, cells, extent.offset as usize);
    }
}

fn put_shape(sorts: &[Sort], shape: Shape, value: &Value, cells: &mut Vec<i64>, place: usize)
    ensures { cells.new.items ≡ put_cells place (said.shape_cells sorts.now shape value.now) cells.old.items }
{
    match shape {
        Shape::Number => put_zero(cells, place),
        Shape::Typed(sort) => write_value(sorts, sort, value, cells, place),
    }
}

/// Puts 0 into a cell, if the vector has it.
fn put_zero(cells: &mut Vec<i64>, place: usize)
    ensures { cells.new.items ≡ slice_set cells.old.items place (pos 0) }
{
    if place < cells.len() {
        cells[place] = 0;
    }
}

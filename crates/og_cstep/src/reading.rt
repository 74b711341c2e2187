//! What the globals of a machine say, and the inputs that they are set to.
#![tactic(auto)]

ghost use Rattle.std.specs.Prelude.{◌≡◌, pos, slice_get, unwrap_or, IsTrue};
ghost use Rattle.og_cstep.specs.Inputs.{is_parameter_value};
ghost use Rattle.og_cstep.specs.Machines.{run_of, active_leaf, is_running, duration_of_timer, is_not_zero as differs_from_zero, is_signal, number_at, with_input};
ghost use Rattle.og_cstep.specs.Slots as said;

use crate::Machine;
use crate::ends::{duration_at, duration_slot, number_of};
use crate::inputs::put_input;
use crate::interface::Interface;
use og_ccells::{Extent, number_at as cell_at};
use og_types::Value;
use sqlite_items::at;

impl Machine {
    /// The active leaf of a region, none where no leaf is active.
    pub fn active(&self, region: u32) -> Option<u32>
        ensures { result ≡ active_leaf (run_of self.now) region }
    {
        let extents = self.layout.extents.as_slice();
        leaf_at(extents, self.cells.as_slice(), &self.interface, region)
    }

    /// Whether a timer is active.
    pub fn running(&self, timer: u32) -> bool
        ensures { result ≡ is_running (run_of self.now) timer }
    {
        let extents = self.layout.extents.as_slice();
        is_not_zero(timer_number(extents, self.cells.as_slice(), &self.interface, timer))
    }

    /// The duration to which a timer is set, once its setting was shown, and 0 where its global holds none.
    pub fn duration(&self, timer: u32) -> i64
        ensures { result ≡ duration_of_timer (run_of self.now) timer }
    {
        let extents = self.layout.extents.as_slice();
        duration_of(extents, self.cells.as_slice(), &self.interface, timer)
    }

    /// The number at an offset in the cells of a global. Both count from 0.
    pub fn cell(&self, global: u32, offset: u32) -> Option<i64>
        ensures { result ≡ number_at (run_of self.now) global offset }
    {
        let extents = self.layout.extents.as_slice();
        cell_of(extents, self.cells.as_slice(), global, offset)
    }

    /// A parameter of an incoming signal holds a value of its type, before the signal begins. Parameters count from 0.
    pub fn set_input(&mut self, signal: u32, parameter: u32, value: &Value)
        requires signal { IsTrue (is_signal (slice_get (run_of self.old).model.signals signal)) }
        requires value { IsTrue (is_parameter_value (run_of self.old).model signal parameter value.now) }
        ensures { run_of self.new ≡ with_input signal parameter value.now (run_of self.old) }
    {
        put_input(
            self.model.types.as_slice(),
            self.layout.extents.as_slice(),
            &self.interface,
            &mut self.cells,
            signal,
            parameter,
            value,
        );
    }
}

/// The active leaf of a region.
fn leaf_at(extents: &[Extent], cells: &[i64], interface: &Interface, region: u32) -> Option<u32>
    ensures { result ≡ said.leaf_at (said.number_of extents.now cells.now) interface.now region }
{
    let slot = at(interface.regions.as_slice(), region as usize)?;
    let number = number_of(extents, cells, slot.place)?;
    leaf_in(slot.leaves, number)
}

/// A negative number says that no leaf is active.
fn leaf_in(leaves: u32, number: i64) -> Option<u32>
    ensures { result ≡ said.leaf_in leaves number }
{
    if number < 0 || number >= i64::from(leaves) {
        return None;
    }
    Some(number as u32)
}

fn timer_number(extents: &[Extent], cells: &[i64], interface: &Interface, timer: u32) -> Option<i64>
    ensures { result ≡ said.timer_number (said.number_of extents.now cells.now) interface.now timer }
{
    let slot = at(interface.timers.as_slice(), timer as usize)?;
    number_of(extents, cells, slot.place)
}

fn is_not_zero(number: Option<i64>) -> bool
    ensures { result ≡ differs_from_zero number }
{
    let Some(number) = number else {
        return false;
    };
    if number == 0 {
        return false;
    }
    true
}

fn duration_of(extents: &[Extent], cells: &[i64], interface: &Interface, timer: u32) -> i64
    ensures { result ≡ unwrap_or (said.duration_at (said.number_of extents.now cells.now) (said.duration_slot interface.now timer)) (pos 0) }
{
    match duration_at(extents, cells, duration_slot(interface, timer)) {
        None => 0,
        Some(duration) => duration,
    }
}

/// The cell at an offset in the global of a number.
fn cell_of(extents: &[Extent], cells: &[i64], global: u32, offset: u32) -> Option<i64>
    ensures { result ≡ said.cell_of extents.now cells.now global offset }
{
    let extent = at(extents, global as usize)?;
    cell_in(extent, cells, offset)
}

/// The cell at an offset in a global.
fn cell_in(extent: &Extent, cells: &[i64], offset: u32) -> Option<i64>
    ensures { result ≡ said.cell_in extent.now cells.now offset }
{
    if offset < extent.width {
        let place = extent.offset as usize + offset as usize;
        return Some(cell_at(cells, place));
    }
    None
}

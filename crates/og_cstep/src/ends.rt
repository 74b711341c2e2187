//! What the globals of an interface say, by their numbers.
#![tactic(auto, using(og_names::proofs::Loops::loops, crate::proofs::Slotted::slotted))]

ghost use Rattle.std.specs.Prelude.{◌≡◌, ◌&&◌, Some, is_some};
ghost use Rattle.std.specs.List.{list_all};
ghost use Rattle.std.specs.Option.{option_copied};
ghost use Rattle.og_ir.specs.Reading.{below as number_below};
ghost use Rattle.og_csubset.specs.Reads.{kind_numbered as kind_of_number, counted_from_1 as counted};
ghost use Rattle.og_cstep.specs.Slots as said;
ghost use Rattle.og_cstep.specs.Slots.{in_vector};

use crate::Advance;
use crate::interface::{Interface, RegionSlot, Slot};
use og_base::Place;
use og_ccells::{Extent, holds_value, number_at};
use og_cload::fields::Shape;
use og_model::{EventId, FaultKind, StuckRule};
use og_types::Sort;
use sqlite_items::at;

/// How a run has ended whose last function has returned.
pub fn end_answer(
    sorts: &[Sort],
    extents: &[Extent],
    cells: &[i64],
    interface: &Interface,
) -> Advance
    ensures { result ≡ said.end_answer (in_vector sorts.now extents.now cells.now) interface.now }
{
    match number_of(extents, cells, interface.kind) {
        None => Advance::Stuck(StuckRule::Value),
        Some(0) => answer_without_fault(sorts, extents, cells, interface),
        Some(number) => fault_answer(sorts, extents, cells, interface, number),
    }
}

fn answer_without_fault(
    sorts: &[Sort],
    extents: &[Extent],
    cells: &[i64],
    interface: &Interface,
) -> Advance
    ensures { result ≡ said.by_stopped (in_vector sorts.now extents.now cells.now) interface.now (said.number_of extents.now cells.now interface.now.stopped) }
{
    match number_of(extents, cells, interface.stopped) {
        None => Advance::Stuck(StuckRule::Value),
        Some(0) => rest_answer(sorts, extents, cells, interface),
        Some(_) => stopped_answer(sorts, extents, cells, interface),
    }
}

fn rest_answer(sorts: &[Sort], extents: &[Extent], cells: &[i64], interface: &Interface) -> Advance
    ensures { result ≡ said.rest_answer (in_vector sorts.now extents.now cells.now) interface.now }
{
    if are_regions_held(extents, cells, interface.regions.as_slice())
        && are_held(sorts, extents, cells, interface.variables.as_slice())
        && are_timers_held(extents, cells, interface.timers.as_slice())
    {
        return Advance::Rest;
    }
    Advance::Stuck(StuckRule::Value)
}

fn stopped_answer(
    sorts: &[Sort],
    extents: &[Extent],
    cells: &[i64],
    interface: &Interface,
) -> Advance
    ensures { result ≡ said.stopped_answer (in_vector sorts.now extents.now cells.now) interface.now }
{
    if are_held(sorts, extents, cells, interface.variables.as_slice()) {
        return Advance::Stopped;
    }
    Advance::Stuck(StuckRule::Value)
}

/// A fault of this number, with its place.
fn fault_answer(
    sorts: &[Sort],
    extents: &[Extent],
    cells: &[i64],
    interface: &Interface,
    number: i64,
) -> Advance
    ensures { result ≡ said.fault_answer (in_vector sorts.now extents.now cells.now) interface.now number }
{
    let held = are_values_held(sorts, extents, cells, interface);
    fault_if(
        held,
        kind_numbered(number),
        fault_place(extents, cells, interface),
    )
}

/// The variables and the timers hold values of their types.
fn are_values_held(sorts: &[Sort], extents: &[Extent], cells: &[i64], interface: &Interface) -> bool
    ensures { result ≡ (said.variables_held (in_vector sorts.now extents.now cells.now) interface.now && said.timers_held (said.number_of extents.now cells.now) interface.now) }
{
    if are_held(sorts, extents, cells, interface.variables.as_slice()) {
        return are_timers_held(extents, cells, interface.timers.as_slice());
    }
    false
}

/// A fault that has a kind and a place, where all values are held.
fn fault_if(held: bool, kind: Option<FaultKind>, place: Option<Place>) -> Advance
    ensures { result ≡ said.fault_of held kind place }
{
    match kind {
        None => Advance::Stuck(StuckRule::Value),
        Some(kind) => match place {
            None => Advance::Stuck(StuckRule::Value),
            Some(place) => answer_if(held, Advance::Fault(kind, place)),
        },
    }
}

/// The answer, where all values are held.
fn answer_if(held: bool, answer: Advance) -> Advance
    ensures { result ≡ said.answer_if held answer }
{
    if held {
        return answer;
    }
    Advance::Stuck(StuckRule::Value)
}

/// The kinds of faults are numbered from 1.
fn kind_numbered(number: i64) -> Option<FaultKind>
    ensures { result ≡ kind_of_number number }
{
    match number {
        1 => Some(FaultKind::Range),
        2 => Some(FaultKind::Index),
        3 => Some(FaultKind::Division),
        4 => Some(FaultKind::Alternative),
        5 => Some(FaultKind::Size),
        _ => None,
    }
}

/// A number from 0 up that is below the bound.
fn below(bound: u32, number: i64) -> Option<u32>
    ensures { result ≡ number_below bound number }
{
    if number < 0 || number >= i64::from(bound) {
        return None;
    }
    Some(number as u32)
}

/// A line or a column.
fn counted_from_1(number: i64) -> Option<u32>
    ensures { result ≡ counted number }
{
    if number < 1 || number > 4_294_967_295 {
        return None;
    }
    Some(number as u32)
}

fn fault_place(extents: &[Extent], cells: &[i64], interface: &Interface) -> Option<Place>
    ensures { result ≡ said.fault_place (said.number_of extents.now cells.now) interface.now }
{
    let file = number_of(extents, cells, interface.file)?;
    let line = number_of(extents, cells, interface.line)?;
    let column = number_of(extents, cells, interface.column)?;
    place_numbered(file, line, column)
}

fn place_numbered(file: i64, line: i64, column: i64) -> Option<Place>
    ensures { result ≡ said.place_numbered (Some file) (Some line) (Some column) }
{
    let file = below(64, file)?;
    let line = counted_from_1(line)?;
    let column = counted_from_1(column)?;
    Some(Place { file, line, column })
}

/// Whether the values of an event can be read.
pub fn shows(
    sorts: &[Sort],
    extents: &[Extent],
    cells: &[i64],
    interface: &Interface,
    event: EventId,
) -> bool
    ensures { result ≡ said.shows (in_vector sorts.now extents.now cells.now) interface.now event }
{
    match event {
        EventId::Output(signal) => match at(interface.signals.as_slice(), signal as usize) {
            None => true,
            Some(slots) => are_held(sorts, extents, cells, slots.outputs.as_slice()),
        },
        EventId::Set(timer) => duration_at(
            extents,
            cells,
            duration_slot(interface, timer),
        ).is_some(),
        EventId::Reset(_) => true,
    }
}

/// The global of the duration to which a timer is set.
pub fn duration_slot(interface: &Interface, timer: u32) -> Option<usize>
    ensures { result ≡ said.duration_slot interface.now timer }
{
    match at(interface.durations.as_slice(), timer as usize) {
        None => interface.no_duration,
        Some(place) => *place,
    }
}

/// A duration of up to 2^31 - 1.
pub fn duration_at(extents: &[Extent], cells: &[i64], place: Option<usize>) -> Option<i64>
    ensures { result ≡ said.duration_at (said.number_of extents.now cells.now) place }
{
    let number = number_of(extents, cells, place)?;
    if number < 0 || number > 2_147_483_647 {
        return None;
    }
    Some(number)
}

/// The number that a global holds.
pub fn number_of(extents: &[Extent], cells: &[i64], place: Option<usize>) -> Option<i64>
    ensures { result ≡ said.number_of extents.now cells.now place }
{
    let extent = extent_at(extents, place)?;
    number_there(cells, extent)
}

/// Where a global lies.
pub fn extent_at(extents: &[Extent], place: Option<usize>) -> Option<&Extent>
    ensures { option_copied result ≡ said.extent_at extents.now place }
{
    match place {
        None => None,
        Some(place) => at(extents, place),
    }
}

/// The number of a global that is one.
pub fn number_there(cells: &[i64], extent: &Extent) -> Option<i64>
    ensures { result ≡ said.number_there cells.now extent.now }
{
    if extent.is_number {
        return Some(number_at(cells, extent.offset as usize));
    }
    None
}

/// Each of the globals holds a value of its shape.
fn are_held(sorts: &[Sort], extents: &[Extent], cells: &[i64], slots: &[Slot]) -> bool
    ensures { result ≡ said.are_held (in_vector sorts.now extents.now cells.now) slots.now }
{
    for slot in slots {
        if !holds_slot(sorts, extents, cells, slot) {
            return false;
        }
    }
    true
}

fn holds_slot(sorts: &[Sort], extents: &[Extent], cells: &[i64], slot: &Slot) -> bool
    ensures { result ≡ is_some (said.value_of sorts.now extents.now cells.now slot.now) }
{
    match extent_at(extents, slot.place) {
        None => false,
        Some(extent) => holds_shape(sorts, cells, slot.shape, extent),
    }
}

fn holds_shape(sorts: &[Sort], cells: &[i64], shape: Shape, extent: &Extent) -> bool
    ensures { result ≡ is_some (said.value_there sorts.now cells.now shape extent.now) }
{
    match shape {
        Shape::Number => extent.is_number,
        Shape::Typed(sort) => holds_value(sorts, sort, cells, extent.offset as usize),
    }
}

fn are_timers_held(extents: &[Extent], cells: &[i64], timers: &[Slot]) -> bool
    ensures { result ≡ list_all (said.holds_truth (said.number_of extents.now cells.now)) timers.now }
{
    for timer in timers {
        if !holds_truth(extents, cells, timer) {
            return false;
        }
    }
    true
}

/// FALSE is 0, and TRUE is 1.
fn holds_truth(extents: &[Extent], cells: &[i64], slot: &Slot) -> bool
    ensures { result ≡ said.holds_truth (said.number_of extents.now cells.now) slot.now }
{
    match number_of(extents, cells, slot.place) {
        None => false,
        Some(number) => is_truth(number),
    }
}

fn is_truth(number: i64) -> bool
    ensures { result ≡ said.is_truth number }
{
    number == 0 || number == 1
}

fn are_regions_held(extents: &[Extent], cells: &[i64], regions: &[RegionSlot]) -> bool
    ensures { result ≡ list_all (said.rests_in (said.number_of extents.now cells.now)) regions.now }
{
    for region in regions {
        if !rests_in(extents, cells, region) {
            return false;
        }
    }
    true
}

fn rests_in(extents: &[Extent], cells: &[i64], region: &RegionSlot) -> bool
    ensures { result ≡ said.rests_in (said.number_of extents.now cells.now) region.now }
{
    match number_of(extents, cells, region.place) {
        None => false,
        Some(number) => is_leaf(region.leaves, number),
    }
}

/// The number of one of so many leaves, or a negative number, which says that no leaf is active.
fn is_leaf(leaves: u32, number: i64) -> bool
    ensures { result ≡ said.is_leaf leaves number }
{
    number < i64::from(leaves)
}

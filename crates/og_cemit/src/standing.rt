//! What stands at a place of a slot: a number, a structured value of a type, the array of the items of one, or nothing.
ghost use Rattle.std.specs.Prelude.{◌≡◌, slice_get};
ghost use Rattle.og_csubset.specs.Fair.{held_as as held_as_at};
ghost use Rattle.og_cemit.specs.Emitted.{held_in_def, held_field, held_item, held_behind};
ghost use Rattle.og_cemit.specs.Standing.{held, held_part};

use og_ir::{Ir, SlotSort, Step2};
use og_model::Model;
use og_types::{Part, Sort, TypeId};

#[derive(Clone, Copy, Debug)]
pub enum Standing {
    Nothing,
    One,
    Whole(TypeId),
    Array(TypeId),
}

/// What a slot holds.
pub fn standing_in(ir: &Ir, model: &Model, base: u32) -> Standing
    ensures { held result ≡ held_in_def model.now.types (slice_get ir.now.slots base) }
{
    match ir.slots.get(base as usize) {
        None => Standing::Nothing,
        Some(slot) => match slot.sort {
            SlotSort::Cell => Standing::One,
            SlotSort::Shaped(id) => standing_as(model.types.as_slice(), id),
        },
    }
}

/// What stands behind a selector.
pub fn standing_after(model: &Model, standing: Standing, selector: &Step2) -> Standing
    ensures { held result ≡ held_behind model.now.types (held standing) selector.now }
{
    match selector {
        Step2::Field(field) => field_in(model.types.as_slice(), standing, *field),
        Step2::Index(_) => item_in(model.types.as_slice(), standing),
    }
}

/// What a value of the type is.
fn standing_as(sorts: &[Sort], id: TypeId) -> Standing
    ensures { held result ≡ held_as_at sorts.now id }
{
    match sorts.get(id.0 as usize) {
        None => Standing::Nothing,
        Some(sort) => match sort {
            Sort::Int { .. } => Standing::One,
            Sort::Bool => Standing::One,
            Sort::Enumerated { .. } => Standing::One,
            Sort::Sequence { parts } => {
                if parts.is_empty() {
                    Standing::One
                } else {
                    Standing::Whole(id)
                }
            }
            Sort::Choice { .. } => Standing::Whole(id),
            Sort::SeqOf { .. } => Standing::Whole(id),
            Sort::Opaque => Standing::Nothing,
        },
    }
}

/// A part of a structured value.
fn field_in(sorts: &[Sort], standing: Standing, field: u32) -> Standing
    ensures { held result ≡ held_field sorts.now field (held standing) }
{
    let Standing::Whole(id) = standing else {
        return Standing::Nothing;
    };
    match sorts.get(id.0 as usize) {
        None => Standing::Nothing,
        Some(sort) => match sort {
            Sort::Sequence { parts } => part_in(sorts, parts.as_slice(), field),
            Sort::Choice { parts } => {
                if field == 0 {
                    Standing::One
                } else {
                    part_in(sorts, parts.as_slice(), field - 1)
                }
            }
            Sort::SeqOf { hi, item, .. } => {
                if field == 0 {
                    Standing::One
                } else if field == 1 && *hi > 0 {
                    Standing::Array(*item)
                } else {
                    Standing::Nothing
                }
            }
            _ => Standing::Nothing,
        },
    }
}

fn part_in(sorts: &[Sort], parts: &[Part], number: u32) -> Standing
    ensures { held result ≡ held_part sorts.now (slice_get parts.now number) }
{
    match parts.get(number as usize) {
        None => Standing::Nothing,
        Some(part) => standing_as(sorts, part.sort),
    }
}

/// An item of an array.
fn item_in(sorts: &[Sort], standing: Standing) -> Standing
    ensures { held result ≡ held_item sorts.now (held standing) }
{
    match standing {
        Standing::Array(item) => standing_as(sorts, item),
        _ => Standing::Nothing,
    }
}

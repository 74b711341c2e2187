//! The slots of the code: those of the interface, and the body that was chosen.
ghost use Rattle.std.specs.Prelude.{◌≡◌, ◌++◌, map, codes, flat_map, IfOk, OnOk};
ghost use Rattle.std.specs.Fmt.{decimal};
ghost use Rattle.og_csubset.specs.Interface.{name_of, number_field, parameters_from, region_field, variable_fields};
ghost use Rattle.og_flatten.specs.Slots.{slot_of, slots_of, control_fields, inputs_of, outputs_of, slots_for};

use crate::code::{joined, name_text, sum_of, word_of};
use itoa::Buffer;
use og_ir::{SlotDef, SlotSort};
use og_model::{Model, Region, Signal};
use og_names::{NameId, NoMemory, Word};
use og_types::TypeId;
use sqlite_items::Items;
use std::alloc::Global;

/// The slots behind those of the regions: whether the process is stopped, the fault, and the choice.
const CONTROL: [&[u8]; 6] = [
    b"stopped",
    b"f_kind",
    b"f_file",
    b"f_line",
    b"f_column",
    b"chosen",
];

/// The slots of a model with these regions.
pub fn make_slots(
    alloc: Global,
    model: &Model,
    regions: &[Region],
) -> Result<Items<SlotDef>, NoMemory>
    ensures { IfOk result (λ slots. slots ≡ slots_for model.now regions.now) }
{
    let mut slots = Items::new(alloc);
    put_regions(alloc, &mut slots, model, regions)?;
    put_control(alloc, &mut slots)?;
    put_variables(alloc, &mut slots, model)?;
    put_timers(alloc, &mut slots, model, b"t_")?;
    put_timers(alloc, &mut slots, model, b"d_")?;
    put_inputs(alloc, &mut slots, model)?;
    put_outputs(alloc, &mut slots, model)?;
    Ok(slots)
}

/// The number of each region.
fn put_regions(
    alloc: Global,
    slots: &mut Items<SlotDef>,
    model: &Model,
    regions: &[Region],
) -> Result<(), NoMemory>
    ensures { OnOk result (slots.new ≡ slots.old ++ slots_of (map (region_field model.now) regions.now)) }
{
    for region in regions {
        slots.push(region_slot(alloc, model, region)?)?;
    }
    Ok(())
}

fn region_slot(alloc: Global, model: &Model, region: &Region) -> Result<SlotDef, NoMemory>
    ensures { IfOk result (λ slot. slot ≡ slot_of (region_field model.now region.now)) }
{
    let mut bytes = Items::from_slice(alloc, b"r")?;
    for name in region.path.as_slice() {
        put_part(alloc, &mut bytes, model, *name)?;
    }
    Ok(SlotDef {
        name: Word { bytes },
        sort: SlotSort::Cell,
    })
}

/// One more name of a path.
fn put_part(
    alloc: Global,
    bytes: &mut Items<u8>,
    model: &Model,
    name: NameId,
) -> Result<(), NoMemory>
    ensures { OnOk result (bytes.new ≡ bytes.old ++ (codes "__" ++ name_of model.now name)) }
{
    let part = joined(alloc, b"__", name_text(model, name))?;
    bytes.append(part.bytes)?;
    Ok(())
}

fn put_control(alloc: Global, slots: &mut Items<SlotDef>) -> Result<(), NoMemory>
    ensures { OnOk result (slots.new ≡ slots.old ++ slots_of control_fields) }
{
    for name in CONTROL {
        slots.push(SlotDef {
            name: word_of(alloc, name)?,
            sort: SlotSort::Cell,
        })?;
    }
    Ok(())
}

/// The value of each variable.
fn put_variables(alloc: Global, slots: &mut Items<SlotDef>, model: &Model) -> Result<(), NoMemory>
    ensures { OnOk result (slots.new ≡ slots.old ++ slots_of (variable_fields model.now)) }
{
    for variable in model.variables.as_slice() {
        slots.push(SlotDef {
            name: joined(alloc, b"v_", name_text(model, variable.name))?,
            sort: SlotSort::Shaped(variable.sort),
        })?;
    }
    Ok(())
}

/// A number for each timer: whether it is active, or the duration for which it is set.
fn put_timers(
    alloc: Global,
    slots: &mut Items<SlotDef>,
    model: &Model,
    prefix: &[u8],
) -> Result<(), NoMemory>
    ensures { OnOk result (slots.new ≡ slots.old ++ slots_of (map (λ id. number_field (prefix.now ++ name_of model.now id)) model.now.timers)) }
{
    for timer in model.timers.as_slice() {
        slots.push(SlotDef {
            name: joined(alloc, prefix, name_text(model, *timer))?,
            sort: SlotSort::Cell,
        })?;
    }
    Ok(())
}

/// The parameters of the incoming signals.
fn put_inputs(alloc: Global, slots: &mut Items<SlotDef>, model: &Model) -> Result<(), NoMemory>
    ensures { OnOk result (slots.new ≡ slots.old ++ flat_map (λ signal. slots_of (inputs_of model.now signal)) model.now.signals) }
{
    for signal in model.signals.as_slice() {
        put_inputs_of(alloc, slots, model, signal)?;
    }
    Ok(())
}

fn put_inputs_of(
    alloc: Global,
    slots: &mut Items<SlotDef>,
    model: &Model,
    signal: &Signal,
) -> Result<(), NoMemory>
    ensures { OnOk result (slots.new ≡ slots.old ++ slots_of (inputs_of model.now signal.now)) }
{
    if signal.incoming {
        let prefix = joined(alloc, b"i_", name_text(model, signal.name))?;
        put_parameters(
            alloc,
            slots,
            prefix.bytes.as_slice(),
            signal.sorts.as_slice(),
        )?;
    }
    Ok(())
}

/// The parameters of the outputs of all signals.
fn put_outputs(alloc: Global, slots: &mut Items<SlotDef>, model: &Model) -> Result<(), NoMemory>
    ensures { OnOk result (slots.new ≡ slots.old ++ flat_map (λ signal. slots_of (outputs_of model.now signal)) model.now.signals) }
{
    for signal in model.signals.as_slice() {
        let prefix = joined(alloc, b"o_", name_text(model, signal.name))?;
        put_parameters(
            alloc,
            slots,
            prefix.bytes.as_slice(),
            signal.sorts.as_slice(),
        )?;
    }
    Ok(())
}

/// A value of each of these types, numbered from 1.
fn put_parameters(
    alloc: Global,
    slots: &mut Items<SlotDef>,
    prefix: &[u8],
    sorts: &[TypeId],
) -> Result<(), NoMemory>
    ensures { OnOk result (slots.new ≡ slots.old ++ slots_of (parameters_from 1 prefix.now sorts.now)) }
{
    for (number, sort) in sorts.iter().enumerate() {
        slots.push(SlotDef {
            name: parameter_name(alloc, prefix, sum_of(number, 1)?)?,
            sort: SlotSort::Shaped(*sort),
        })?;
    }
    Ok(())
}

fn parameter_name(alloc: Global, prefix: &[u8], number: usize) -> Result<Word, NoMemory>
    ensures { IfOk result (λ word. word ≡ record { bytes = prefix.now ++ codes "__" ++ decimal number }) }
{
    let mut buffer = Buffer::new();
    let mut text = Vec::from_slice(alloc, prefix)?;
    text.extend_from_slice(b"__")?;
    text.extend_from_slice(buffer.format(number).as_bytes())?;
    Ok(Word {
        bytes: Items::from_vec(text),
    })
}

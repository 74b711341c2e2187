//! The globals of a model's interface among those of a program, and what they say.
#![tactic(auto, using(og_names::proofs::Loops::loops, og_cload::proofs::Places::places, og_cload::proofs::Grown::grown, crate::proofs::Slotted::slotted))]

ghost use Rattle.std.specs.Prelude.{◌≡◌, IfOk, map, length};
ghost use Rattle.std.specs.Option.{is_some};
ghost use Rattle.og_model.specs.Regions.{regions as regions_of};
ghost use Rattle.og_ccells.specs.Layouts.{layout_of};
ghost use Rattle.og_ccells.specs.Vectors.{trees_of};
ghost use Rattle.og_cstep.specs.Answered.{answer_at_end, globals_in};
ghost use Rattle.og_csubset.specs.Interface.{numbers_below, variable_fields, timer_fields};
ghost use Rattle.og_csubset.specs.Kinds.{global_names, place_in as place_among};
ghost use Rattle.og_csubset.specs.Loading.{Loads};
ghost use Rattle.og_csubset.specs.Reads.{end_of, event_shown};
ghost use Rattle.og_cload.specs.Fields.{field_of, fields_in};
ghost use Rattle.og_cstep.specs.Interfaces.{interface_of, interface_among, slot_named, slots_named, region_slot as slot_of_region, signal_slots as slots_of_signal, duration_place as place_of_duration};

use crate::Advance;
use crate::ends::{end_answer, shows};
use og_ccells::Layout;
use og_cload::fields::{
    Field, Shape, add_inputs, add_timer_fields, add_variables, count_of, duration_name, outputs_of,
    region_name,
};
use og_csubset::{CGlobal, CProgram};
use og_model::{EventId, Model, Region};
use og_names::NoMemory;
use sqlite_items::Items;
use std::alloc::Global;

/// The number of a global, where the program has it, and what its cells hold.
#[derive(Drop)]
pub struct Slot {
    pub place: Option<usize>,
    pub shape: Shape,
}

/// The number of the global of a region's active leaf, and how many leaves the region has.
#[derive(Drop)]
pub struct RegionSlot {
    pub place: Option<usize>,
    pub leaves: u32,
}

/// The globals of a signal's parameters: those that an input sets, and those that an output is read from.
#[derive(Drop)]
pub struct SignalSlots {
    pub inputs: Items<Slot>,
    pub outputs: Items<Slot>,
}

/// The numbers of the globals of an interface. Regions, variables, timers and signals stand in the order of the model.
#[derive(Drop)]
pub struct Interface {
    pub kind: Option<usize>,
    pub stopped: Option<usize>,
    pub file: Option<usize>,
    pub line: Option<usize>,
    pub column: Option<usize>,
    pub regions: Items<RegionSlot>,
    pub variables: Items<Slot>,
    /// Whether each timer is active.
    pub timers: Items<Slot>,
    /// The duration to which each timer is set.
    pub durations: Items<Option<usize>>,
    /// What is read as the duration of a number that is no timer's.
    pub no_duration: Option<usize>,
    pub signals: Items<SignalSlots>,
}

/// Looks up the globals of the interface. The regions are those of the model.
pub fn find_interface(
    alloc: Global,
    program: &CProgram,
    model: &Model,
    regions: &[Region],
) -> Result<Interface, NoMemory>
    requires { regions.now ≡ regions_of model.now }
    ensures { IfOk result (λ interface. interface ≡ interface_of program.now model.now) }
{
    let globals = program.globals.as_slice();
    let regions = region_slots(alloc, model, globals, regions)?;
    let variables = variable_slots(alloc, model, globals)?;
    let timers = timer_slots(alloc, model, globals)?;
    let durations = duration_places(alloc, model, globals)?;
    let signals = signal_slots(alloc, model, globals)?;
    Ok(Interface {
        kind: place_of(b"f_kind", globals),
        stopped: place_of(b"stopped", globals),
        file: place_of(b"f_file", globals),
        line: place_of(b"f_line", globals),
        column: place_of(b"f_column", globals),
        regions,
        variables,
        timers,
        durations,
        no_duration: place_of(b"d_", globals),
        signals,
    })
}

/// The number of a global.
fn place_of(name: &[u8], globals: &[CGlobal]) -> Option<usize>
    ensures { result ≡ place_among name.now (map (λ g. g.name.bytes) globals.now) }
{
    for (place, global) in globals.iter().enumerate() {
        if name == global.name.bytes.as_slice() {
            return Some(place);
        }
    }
    None
}

fn slot_of(field: &Field, globals: &[CGlobal]) -> Slot
    ensures { result ≡ slot_named (map (λ g. g.name.bytes) globals.now) (field_of field.now) }
{
    Slot {
        place: place_of(field.name.bytes.as_slice(), globals),
        shape: field.shape,
    }
}

fn slots_of(alloc: Global, fields: &[Field], globals: &[CGlobal]) -> Result<Items<Slot>, NoMemory>
    ensures { IfOk result (λ slots. slots ≡ slots_named (map (λ g. g.name.bytes) globals.now) (fields_in fields.now)) }
{
    let mut slots = Items::new(alloc);
    for field in fields {
        slots.push(slot_of(field, globals))?;
    }
    Ok(slots)
}

fn region_slot(
    alloc: Global,
    model: &Model,
    globals: &[CGlobal],
    region: &Region,
) -> Result<RegionSlot, NoMemory>
    ensures { IfOk result (λ slot. slot ≡ slot_of_region (map (λ g. g.name.bytes) globals.now) model.now region.now) }
{
    let name = region_name(alloc, model, region)?;
    let leaves = count_of(region.leaves.len())?;
    Ok(RegionSlot {
        place: place_of(name.bytes.as_slice(), globals),
        leaves,
    })
}

fn region_slots(
    alloc: Global,
    model: &Model,
    globals: &[CGlobal],
    regions: &[Region],
) -> Result<Items<RegionSlot>, NoMemory>
    ensures { IfOk result (λ slots. slots ≡ map (slot_of_region (map (λ g. g.name.bytes) globals.now) model.now) regions.now) }
{
    let mut slots = Items::new(alloc);
    for region in regions {
        let slot = region_slot(alloc, model, globals, region)?;
        slots.push(slot)?;
    }
    Ok(slots)
}

fn variable_slots(
    alloc: Global,
    model: &Model,
    globals: &[CGlobal],
) -> Result<Items<Slot>, NoMemory>
    ensures { IfOk result (λ slots. slots ≡ slots_named (map (λ g. g.name.bytes) globals.now) (variable_fields model.now)) }
{
    let mut fields = Vec::new(alloc);
    add_variables(alloc, model, &mut fields, model.variables.as_slice())?;
    let slots = slots_of(alloc, fields.as_slice(), globals)?;
    Ok(slots)
}

fn timer_slots(alloc: Global, model: &Model, globals: &[CGlobal]) -> Result<Items<Slot>, NoMemory>
    ensures { IfOk result (λ slots. slots ≡ slots_named (map (λ g. g.name.bytes) globals.now) (timer_fields model.now)) }
{
    let mut fields = Vec::new(alloc);
    add_timer_fields(alloc, model, &mut fields, model.timers.as_slice())?;
    let slots = slots_of(alloc, fields.as_slice(), globals)?;
    Ok(slots)
}

fn duration_places(
    alloc: Global,
    model: &Model,
    globals: &[CGlobal],
) -> Result<Items<Option<usize>>, NoMemory>
    ensures { IfOk result (λ places. places ≡ map (place_of_duration (map (λ g. g.name.bytes) globals.now) model.now) (numbers_below (length model.now.timers))) }
{
    let count = count_of(model.timers.len())?;
    let mut places = Items::new(alloc);
    for timer in 0..count {
        let name = duration_name(alloc, model, timer)?;
        places.push(place_of(name.bytes.as_slice(), globals))?;
    }
    Ok(places)
}

/// The globals of one signal's parameters.
fn slots_of_one(
    alloc: Global,
    model: &Model,
    globals: &[CGlobal],
    signal: u32,
) -> Result<SignalSlots, NoMemory>
    ensures { IfOk result (λ slots. slots ≡ slots_of_signal (map (λ g. g.name.bytes) globals.now) model.now signal) }
{
    let mut inputs = Vec::new(alloc);
    add_inputs(alloc, model, &mut inputs, signal)?;
    let outputs = outputs_of(alloc, model, signal)?;
    let inputs = slots_of(alloc, inputs.as_slice(), globals)?;
    let outputs = slots_of(alloc, outputs.as_slice(), globals)?;
    Ok(SignalSlots { inputs, outputs })
}

fn signal_slots(
    alloc: Global,
    model: &Model,
    globals: &[CGlobal],
) -> Result<Items<SignalSlots>, NoMemory>
    ensures { IfOk result (λ slots. slots ≡ map (slots_of_signal (map (λ g. g.name.bytes) globals.now) model.now) (numbers_below (length model.now.signals))) }
{
    let count = count_of(model.signals.len())?;
    let mut slots = Items::new(alloc);
    for signal in 0..count {
        let one = slots_of_one(alloc, model, globals, signal)?;
        slots.push(one)?;
    }
    Ok(slots)
}

/// How a run has ended whose last function has returned.
pub fn answer_of_end(
    program: &CProgram,
    model: &Model,
    layout: &Layout,
    interface: &Interface,
    cells: &[i64],
) -> Advance
    requires loads { Loads program.now model.now }
    requires layout { layout.now ≡ layout_of program.now }
    requires interface { interface.now ≡ interface_of program.now model.now }
    ensures { result ≡ answer_at_end (end_of model.now (global_names program.now) (trees_of program.now cells.now)) }
{
    let extents = layout.extents.as_slice();
    end_answer(model.types.as_slice(), extents, cells, interface)
}

/// Whether the values of an event can be read.
pub fn can_show(
    program: &CProgram,
    model: &Model,
    layout: &Layout,
    interface: &Interface,
    cells: &[i64],
    event: EventId,
) -> bool
    requires loads { Loads program.now model.now }
    requires layout { layout.now ≡ layout_of program.now }
    requires interface { interface.now ≡ interface_of program.now model.now }
    ensures { result ≡ is_some (event_shown model.now (globals_in program.now cells.now) event) }
{
    let extents = layout.extents.as_slice();
    shows(model.types.as_slice(), extents, cells, interface, event)
}

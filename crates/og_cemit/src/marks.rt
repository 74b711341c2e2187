//! Marks: which places of a function something jumps to, which events something shows, and which types are needed.
ghost use Rattle.std.specs.Prelude.{◌≡◌, IfOk, map, flat_map, length, replicate, false, slice_get};
ghost use Rattle.og_cemit.specs.Marks.{is_marked as is_marked_at, marked, all_marked};
ghost use Rattle.og_cemit.specs.Emitted.{jumps, targets as targets_at, shows, used as used_at};
ghost use Rattle.og_cemit.specs.Structs.{types_of_slot, parts_of, parts_marked, settled, needed as needed_at};

use og_ir::{Case, FlatFn, Instr, Ir, SlotDef, SlotSort};
use og_model::Model;
use og_names::NoMemory;
use og_types::{Part, Sort};
use std::alloc::Global;

/// Whether something jumps there, for each place of the code.
#[tactic(auto, unfolding(crate::specs::Emitted::targets))]
pub fn targets_of(alloc: Global, code: &[Instr]) -> Result<Vec<bool>, NoMemory>
    ensures { IfOk result (λ marks. marks.items ≡ targets_at code.now) }
{
    let mut marks = no_marks(alloc, code.len())?;
    mark_jumps(&mut marks, code);
    Ok(marks)
}

/// Whether something shows it, for each event.
#[tactic(auto, unfolding(crate::specs::Emitted::used))]
pub fn used_of(alloc: Global, ir: &Ir) -> Result<Vec<bool>, NoMemory>
    ensures { IfOk result (λ marks. marks.items ≡ used_at ir.now) }
{
    let mut marks = no_marks(alloc, ir.events.len())?;
    mark_functions(&mut marks, ir.functions.as_slice());
    Ok(marks)
}

/// For each type whether a slot has it, or such a type is made of it.
#[tactic(auto, unfolding(crate::specs::Structs::needed))]
pub fn needed_of(alloc: Global, ir: &Ir, model: &Model) -> Result<Vec<bool>, NoMemory>
    ensures { IfOk result (λ marks. marks.items ≡ needed_at model.now ir.now) }
{
    let sorts = model.types.as_slice();
    let mut marks = no_marks(alloc, sorts.len())?;
    mark_slots(&mut marks, ir.slots.as_slice());
    settle(&mut marks, sorts);
    Ok(marks)
}

/// Whether there is a mark, which there is not past the end.
pub fn is_marked(marks: &[bool], place: usize) -> bool
    ensures { result ≡ is_marked_at marks.now place }
{
    place < marks.len() && marks[place]
}

fn no_marks(alloc: Global, count: usize) -> Result<Vec<bool>, NoMemory>
    ensures { IfOk result (λ marks. marks.items ≡ replicate count false) }
{
    Ok(vec![in alloc; false; count]?)
}

fn mark(marks: &mut Vec<bool>, place: u32)
    ensures { marks.new.items ≡ marked place marks.old.items }
{
    let place = place as usize;
    if place < marks.len() {
        marks[place] = true;
    }
}

fn mark_jumps(marks: &mut Vec<bool>, code: &[Instr])
    ensures { marks.new.items ≡ all_marked (flat_map jumps code.now) marks.old.items }
{
    for instruction in code {
        mark_jump(marks, instruction);
    }
}

#[tactic(auto, using(crate::proofs::Joins::all_marked_append))]
fn mark_jump(marks: &mut Vec<bool>, instruction: &Instr)
    ensures { marks.new.items ≡ all_marked (jumps instruction.now) marks.old.items }
{
    match instruction {
        Instr::Branch(_, to) => mark(marks, *to),
        Instr::Goto(to) => mark(marks, *to),
        Instr::Table(_, cases, otherwise) => {
            mark_cases(marks, cases.as_slice());
            mark(marks, *otherwise);
        }
        _ => {}
    }
}

fn mark_cases(marks: &mut Vec<bool>, cases: &[Case])
    ensures { marks.new.items ≡ all_marked (map (λ c. c.to) cases.now) marks.old.items }
{
    for case in cases {
        mark(marks, case.to);
    }
}

fn mark_functions(marks: &mut Vec<bool>, functions: &[FlatFn])
    ensures { marks.new.items ≡ all_marked (flat_map (λ f. flat_map shows f.code) functions.now) marks.old.items }
{
    for function in functions {
        mark_events(marks, function.code.as_slice());
    }
}

fn mark_events(marks: &mut Vec<bool>, code: &[Instr])
    ensures { marks.new.items ≡ all_marked (flat_map shows code.now) marks.old.items }
{
    for instruction in code {
        mark_event(marks, instruction);
    }
}

fn mark_event(marks: &mut Vec<bool>, instruction: &Instr)
    ensures { marks.new.items ≡ all_marked (shows instruction.now) marks.old.items }
{
    match instruction {
        Instr::Emit(event) => mark(marks, *event),
        _ => {}
    }
}

fn mark_slots(marks: &mut Vec<bool>, slots: &[SlotDef])
    ensures { marks.new.items ≡ all_marked (flat_map types_of_slot slots.now) marks.old.items }
{
    for slot in slots {
        mark_slot(marks, slot);
    }
}

fn mark_slot(marks: &mut Vec<bool>, slot: &SlotDef)
    ensures { marks.new.items ≡ all_marked (types_of_slot slot.now) marks.old.items }
{
    match slot.sort {
        SlotSort::Cell => {}
        SlotSort::Shaped(id) => mark(marks, id.0),
    }
}

/// Marks what marked types are made of, from the last type down.
fn settle(marks: &mut Vec<bool>, sorts: &[Sort])
    ensures { marks.new.items ≡ settled sorts.now (length sorts.now) marks.old.items }
{
    let count = sorts.len();
    for later in 0..count {
        settle_one(marks, sorts, count - 1 - later);
    }
}

/// Marks what one type is made of, where it is marked.
fn settle_one(marks: &mut Vec<bool>, sorts: &[Sort], number: usize)
    ensures { marks.new.items ≡ parts_marked (is_marked_at marks.old.items number) (slice_get sorts.now number) marks.old.items }
{
    if is_marked(marks.as_slice(), number) {
        if let Some(sort) = sorts.get(number) {
            mark_sort(marks, sort);
        }
    }
}

fn mark_sort(marks: &mut Vec<bool>, sort: &Sort)
    ensures { marks.new.items ≡ all_marked (parts_of sort.now) marks.old.items }
{
    match sort {
        Sort::Sequence { parts } => mark_parts(marks, parts.as_slice()),
        Sort::Choice { parts } => mark_parts(marks, parts.as_slice()),
        Sort::SeqOf { hi, item, .. } => {
            if *hi > 0 {
                mark(marks, item.0);
            }
        }
        _ => {}
    }
}

fn mark_parts(marks: &mut Vec<bool>, parts: &[Part])
    ensures { marks.new.items ≡ all_marked (map (λ p. p.sort.0) parts.now) marks.old.items }
{
    for part in parts {
        mark(marks, part.sort.0);
    }
}

//! Copies of flat code and of its parts. Each copy equals what it copies.
ghost use Rattle.std.specs.Prelude.{◌≡◌, IfOk};

use crate::{Flat, FlatFn, Instr, Ir, Slot, SlotDef, Step2, Test};
use og_names::{NoMemory, Word};
use sqlite_items::{Boxed, Items};
use std::alloc::Global;

impl Ir {
    /// The same flat code once more.
    pub fn copy(&self, alloc: Global) -> Result<Ir, NoMemory>
        ensures { IfOk result (λ copied. copied ≡ self.now) }
    {
        Ok(Ir {
            slots: copy_slots(alloc, self.slots.as_slice())?,
            events: copy_words(alloc, self.events.as_slice())?,
            functions: copy_functions(alloc, self.functions.as_slice())?,
        })
    }
}

impl SlotDef {
    /// The same slot definition once more.
    pub fn copy(&self, alloc: Global) -> Result<SlotDef, NoMemory>
        ensures { IfOk result (λ copied. copied ≡ self.now) }
    {
        Ok(SlotDef {
            name: self.name.copy(alloc)?,
            sort: self.sort,
        })
    }
}

impl FlatFn {
    /// The same function once more.
    pub fn copy(&self, alloc: Global) -> Result<FlatFn, NoMemory>
        ensures { IfOk result (λ copied. copied ≡ self.now) }
    {
        Ok(FlatFn {
            name: self.name.copy(alloc)?,
            code: copy_instructions(alloc, self.code.as_slice())?,
            labels: copy_words(alloc, self.labels.as_slice())?,
        })
    }
}

impl Instr {
    /// The same instruction once more.
    pub fn copy(&self, alloc: Global) -> Result<Instr, NoMemory>
        ensures { IfOk result (λ copied. copied ≡ self.now) }
    {
        Ok(match self {
            Instr::Set(slot, number) => Instr::Set(slot.copy(alloc)?, number.copy(alloc)?),
            Instr::Copy(to, from) => Instr::Copy(to.copy(alloc)?, from.copy(alloc)?),
            Instr::Branch(test, place) => Instr::Branch(test.copy(alloc)?, *place),
            Instr::Goto(place) => Instr::Goto(*place),
            Instr::Table(number, cases, otherwise) => Instr::Table(
                number.copy(alloc)?,
                Items::from_slice(alloc, cases.as_slice())?,
                *otherwise,
            ),
            Instr::Call(function) => Instr::Call(*function),
            Instr::Emit(event) => Instr::Emit(*event),
            Instr::Back => Instr::Back,
        })
    }
}

impl Slot {
    /// The same slot once more.
    #[cycle(copying)]
    pub fn copy(&self, alloc: Global) -> Result<Slot, NoMemory>
        ensures { IfOk result (λ copied. copied ≡ self.now) }
    {
        Ok(Slot {
            base: self.base,
            path: copy_steps(alloc, self.path.as_slice())?,
        })
    }
}

impl Step2 {
    /// The same step of a slot once more.
    #[cycle(copying)]
    pub fn copy(&self, alloc: Global) -> Result<Step2, NoMemory>
        ensures { IfOk result (λ copied. copied ≡ self.now) }
    {
        Ok(match self {
            Step2::Field(field) => Step2::Field(*field),
            Step2::Index(index) => Step2::Index(index.copy(alloc)?),
        })
    }
}

impl Flat {
    /// The same number once more.
    #[cycle(copying)]
    pub fn copy(&self, alloc: Global) -> Result<Flat, NoMemory>
        ensures { IfOk result (λ copied. copied ≡ self.now) }
    {
        Ok(match self {
            Flat::Number(number) => Flat::Number(*number),
            Flat::Read(slot) => Flat::Read(slot.copy(alloc)?),
            Flat::Op(op, left, right) => Flat::Op(
                *op,
                Boxed::new(alloc, left.get().copy(alloc)?)?,
                Boxed::new(alloc, right.get().copy(alloc)?)?,
            ),
        })
    }
}

impl Test {
    /// The same test once more.
    pub fn copy(&self, alloc: Global) -> Result<Test, NoMemory>
        ensures { IfOk result (λ copied. copied ≡ self.now) }
    {
        Ok(Test {
            op: self.op,
            left: self.left.copy(alloc)?,
            right: self.right.copy(alloc)?,
        })
    }
}

fn copy_slots(alloc: Global, slots: &[SlotDef]) -> Result<Items<SlotDef>, NoMemory>
    ensures { IfOk result (λ copied. copied ≡ slots.now) }
{
    let mut copied = Items::new(alloc);
    for slot in slots {
        copied.push(slot.copy(alloc)?)?;
    }
    Ok(copied)
}

fn copy_words(alloc: Global, words: &[Word]) -> Result<Items<Word>, NoMemory>
    ensures { IfOk result (λ copied. copied ≡ words.now) }
{
    let mut copied = Items::new(alloc);
    for word in words {
        copied.push(word.copy(alloc)?)?;
    }
    Ok(copied)
}

fn copy_functions(alloc: Global, functions: &[FlatFn]) -> Result<Items<FlatFn>, NoMemory>
    ensures { IfOk result (λ copied. copied ≡ functions.now) }
{
    let mut copied = Items::new(alloc);
    for function in functions {
        copied.push(function.copy(alloc)?)?;
    }
    Ok(copied)
}

fn copy_instructions(alloc: Global, instructions: &[Instr]) -> Result<Items<Instr>, NoMemory>
    ensures { IfOk result (λ copied. copied ≡ instructions.now) }
{
    let mut copied = Items::new(alloc);
    for instruction in instructions {
        copied.push(instruction.copy(alloc)?)?;
    }
    Ok(copied)
}

#[cycle(copying)]
fn copy_steps(alloc: Global, steps: &[Step2]) -> Result<Items<Step2>, NoMemory>
    ensures { IfOk result (λ copied. copied ≡ steps.now) }
{
    let mut copied = Items::new(alloc);
    for step in steps {
        copied.push(step.copy(alloc)?)?;
    }
    Ok(copied)
}

//! What the functions of flat code are made of.
ghost use Rattle.std.specs.Prelude.{◌≡◌, ◌≤◌, ◌+◌, ◌^◌, ◌++◌, IfOk, IfErr};
ghost use Rattle.og_ir.specs.declared.Instr.TheVariants as instr;
ghost use Rattle.og_csubset.specs.Interface.{name_of};
ghost use Rattle.og_flatten.specs.Slots.{control_behind as control_slots};
ghost use Rattle.og_flatten.specs.FlatCode.{word, slot as whole_slot, read as reading, sets, is_stopped, no_label as empty_label, joined_label};

use og_ir::{Flat, FlatRel, Instr, Slot, Test};
use og_model::Model;
use og_names::{NameId, NoMemory, Word};
use sqlite_items::Items;
use std::alloc::Global;

/// The slot with the number of the process's active state, negative where there is none.
pub const REGION: u32 = 0;

/// The slots that steer the code. They stand behind those of the regions.
#[derive(Clone, Copy)]
pub struct Control {
    /// Not 0 once the process is stopped.
    pub stopped: u32,
    /// What `transition` is called for: the number of a body.
    pub chosen: u32,
}

/// The slots that steer the code behind so many regions. 2^32 slots or more are told as want of memory.
pub fn control_behind(regions: usize) -> Result<Control, NoMemory>
    ensures { IfOk result (λ control. control ≡ control_slots regions) }
{
    Ok(Control {
        stopped: number_of(regions)?,
        chosen: number_of(sum_of(regions, 5)?)?,
    })
}

/// The number of the function that carries out transitions.
pub const TRANSITION: u32 = 0;

fn slot(alloc: Global, base: u32) -> Slot
    ensures { result ≡ whole_slot base }
{
    Slot {
        base,
        path: Items::new(alloc),
    }
}

/// The number in a slot.
pub fn read(alloc: Global, base: u32) -> Flat
    ensures { result ≡ reading base }
{
    Flat::Read(slot(alloc, base))
}

/// Sets a slot to a number.
pub fn set(alloc: Global, base: u32, number: i64) -> Instr
    ensures { result ≡ sets base number }
{
    Instr::Set(slot(alloc, base), Flat::Number(number))
}

/// Goes to the place where the process is stopped.
pub fn leave_if_stopped(alloc: Global, control: Control, to: u32) -> Instr
    ensures { result ≡ instr.Branch (is_stopped control) to }
{
    let test = Test {
        op: FlatRel::Ne,
        left: read(alloc, control.stopped),
        right: Flat::Number(0),
    };
    Instr::Branch(test, to)
}

/// No bytes.
pub fn no_label(alloc: Global) -> Word
    ensures { result ≡ empty_label }
{
    Word {
        bytes: Items::new(alloc),
    }
}

pub fn word_of(alloc: Global, bytes: &[u8]) -> Result<Word, NoMemory>
    ensures { IfOk result (λ made. made ≡ word bytes.now) }
{
    Ok(Word {
        bytes: Items::from_slice(alloc, bytes)?,
    })
}

/// The bytes of both, one after the other.
pub fn joined(alloc: Global, first: &[u8], second: &[u8]) -> Result<Word, NoMemory>
    ensures { IfOk result (λ made. made ≡ word (first.now ++ second.now)) }
{
    let mut bytes = Items::from_slice(alloc, first)?;
    let more = Items::from_slice(alloc, second)?;
    bytes.append(more)?;
    Ok(Word { bytes })
}

/// Both with `__` between them, which no declared name has.
pub fn label_of(alloc: Global, first: &[u8], second: &[u8]) -> Result<Word, NoMemory>
    ensures { IfOk result (λ made. made ≡ joined_label first.now second.now) }
{
    let front = joined(alloc, first, b"__")?;
    joined(alloc, front.bytes.as_slice(), second)
}

/// The folded name of this number, no bytes where there is none.
pub fn name_text(model: &Model, name: NameId) -> &[u8]
    ensures { result.now ≡ name_of model.now name }
{
    match model.names.text(name) {
        Some(text) => text,
        None => &[],
    }
}

/// A number of a place or a thing. 2^32 of them or more are told as want of memory.
pub fn number_of(count: usize) -> Result<u32, NoMemory>
    ensures number { IfOk result (λ number. number ≡ count) }
    ensures no_memory { IfErr result (λ _. 2 ^ 32 ≤ count) }
{
    match u32::try_from(count) {
        Ok(number) => Ok(number),
        Err(_) => Err(NoMemory::past_numbers(count)),
    }
}

/// The sum of two counts. 2^64 or more are told as want of memory.
pub fn sum_of(first: usize, second: usize) -> Result<usize, NoMemory>
    ensures sum { IfOk result (λ sum. sum ≡ first + second) }
    ensures no_memory { IfErr result (λ _. 2 ^ 64 ≤ first + second) }
{
    match first.checked_add(second) {
        Some(sum) => Ok(sum),
        None => Err(NoMemory::past_numbers(first.max(second))),
    }
}

//! Single instructions, and the slots that they name.
ghost use Rattle.std.specs.Prelude.{◌≡◌, ◌+◌, ◌^◌, ◌≤◌, cond, pos, IfOk, IfErr};
ghost use Rattle.og_ir.specs.declared.Instr.TheVariants as instr;
ghost use Rattle.og_ir.specs.Arithmetic.{in_64_bits};
ghost use Rattle.og_expr.specs.Lowering.{slot as whole_slot, number as number_flat, read as read_flat, operation as operation_flat, set as set_instr, branch as branch_instr, flat_of as flat_of_operand, slot_of as slot_of_variable, literal as literal_operand};
ghost use Rattle.og_expr.specs.Calls.{around_of};

use crate::{Operand, Surroundings};
use og_ir::{Flat, FlatOp, FlatRel, Instr, Slot, Test};
use og_model::VarId;
use og_names::NoMemory;
use sqlite_items::{Boxed, Items};
use std::alloc::Global;

fn slot(alloc: Global, base: u32) -> Slot
    ensures { result ≡ whole_slot base }
{
    Slot {
        base,
        path: Items::new(alloc),
    }
}

/// The number in a slot.
pub fn read(alloc: Global, base: u32) -> Flat
    ensures { result ≡ read_flat base }
{
    Flat::Read(slot(alloc, base))
}

pub fn number(z: i64) -> Flat
    ensures { result ≡ number_flat z }
{
    Flat::Number(z)
}

pub fn operation(alloc: Global, op: FlatOp, left: Flat, right: Flat) -> Result<Flat, NoMemory>
    ensures { IfOk result (λ made. made ≡ operation_flat op left right) }
{
    Ok(Flat::Op(op, Boxed::new(alloc, left)?, Boxed::new(alloc, right)?))
}

pub fn set(alloc: Global, base: u32, value: Flat) -> Instr
    ensures { result ≡ set_instr base value }
{
    Instr::Set(slot(alloc, base), value)
}

/// Goes to a place where the number in a slot is so related to another.
pub fn branch(alloc: Global, op: FlatRel, base: u32, right: Flat, to: u32) -> Instr
    ensures { result ≡ branch_instr op base right to }
{
    let test = Test {
        op,
        left: read(alloc, base),
        right,
    };
    Instr::Branch(test, to)
}

/// The slot of the temporary of a level, 0 where there is none.
pub fn temporary(around: Surroundings, level: usize) -> u32
    ensures { result ≡ (around_of around.entry).temps level }
{
    match around.temps.get(level) {
        Some(slot) => *slot,
        None => 0,
    }
}

/// The slot of a variable, 0 where there is none.
pub fn slot_of(around: Surroundings, variable: VarId) -> u32
    ensures { result ≡ slot_of_variable (around_of around.entry) variable }
{
    let slot = match variable {
        VarId::Process(n) => around.variables.get(n as usize),
        VarId::Local(n) => around.locals.get(n as usize),
    };
    match slot {
        Some(slot) => *slot,
        None => 0,
    }
}

/// What an operand has.
pub fn flat_of(alloc: Global, around: Surroundings, level: usize, operand: Operand) -> Flat
    ensures { result ≡ flat_of_operand (around_of around.entry) level operand }
{
    match operand {
        Operand::Literal(z) => number(z),
        Operand::Variable(slot) => read(alloc, slot),
        Operand::Temporary => read(alloc, temporary(around, level)),
    }
}

/// A number, and 0 in the place of one outside 64 bits.
pub fn literal(z: i128) -> Operand
    ensures { result ≡ literal_operand z }
{
    if i128::from(i64::MIN) <= z && z <= i128::from(i64::MAX) {
        return Operand::Literal(z as i64);
    }
    Operand::Literal(0)
}

/// A place so far behind another. Places of 2^32 or more are told as want of memory.
pub fn place_behind(at: usize, more: usize) -> Result<u32, NoMemory>
    ensures { IfOk result (λ place. place ≡ at + more) }
{
    let sum = sum_of(at, more)?;
    match u32::try_from(sum) {
        Ok(place) => Ok(place),
        Err(_) => Err(NoMemory::past_numbers(sum)),
    }
}

/// The sum of two counts. 2^64 or more are told as want of memory.
pub fn sum_of(first: usize, second: usize) -> Result<usize, NoMemory>
    ensures sum { IfOk result (λ sum. sum ≡ first + second) }
    ensures no_memory { IfErr result (λ _. 2 ^ 64 ≤ first + second) }
{
    match first.checked_add(second) {
        Some(sum) => Ok(sum),
        None => Err(NoMemory::past_numbers(first.max(second))),
    }
}

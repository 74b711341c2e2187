//! What is done with the values of operands.
ghost use Rattle.std.specs.Prelude.{◌≡◌, ◌++◌, [], ◌∷◌, IfOk, OnOk};
ghost use Rattle.og_model.specs.declared.BinaryOp.TheVariants.{Mod};
ghost use Rattle.og_expr.specs.Lowering.{plain as plain_value, in_temporary as in_temporary_of, settled as settled_value, may_be_zero as may_be_0, may_be_negative as may_be_below_0, divisor as divisor_value, changed as changed_code, compared as compared_code, kept_at as kept_instr, ending as ending_code, between as between_code, size_between as size_between_code, is_division as is_division_op, is_tested as is_tested_divisor, joined as joined_value, less as less_value, set as set_instr, unary as unary_value};
ghost use Rattle.og_expr.specs.Calls.{around_of};

use crate::instructions::{
    branch, flat_of, literal, number, operation, place_behind, read, set, sum_of, temporary,
};
use crate::{Lowered, Operand, Surroundings};
use og_ir::{Flat, FlatOp, FlatRel, Instr};
use og_model::{BinaryOp, UnaryOp};
use og_names::NoMemory;
use og_ranges::Interval;
use sqlite_items::Items;
use std::alloc::Global;

/// A value without code.
pub fn plain(alloc: Global, value: Operand) -> Lowered
    ensures { result ≡ plain_value value }
{
    Lowered {
        code: Items::new(alloc),
        value,
        temps: 0,
    }
}

/// Code that leaves its value in the temporary of its level.
fn in_temporary(level: usize, code: Items<Instr>, temps: usize) -> Result<Lowered, NoMemory>
    ensures { IfOk result (λ made. made ≡ in_temporary_of level code temps) }
{
    Ok(Lowered {
        code,
        value: Operand::Temporary,
        temps: sum_of(level, 1)?.max(temps),
    })
}

/// The code, with its value in the temporary of its level.
pub fn settled(
    alloc: Global,
    around: Surroundings,
    level: usize,
    x: Lowered,
) -> Result<Lowered, NoMemory>
    ensures { IfOk result (λ made. made ≡ settled_value (around_of around.entry) level x) }
{
    let mut code = x.code;
    match x.value {
        Operand::Literal(z) => code.push(set(alloc, temporary(around, level), number(z)))?,
        Operand::Variable(slot) => {
            code.push(set(alloc, temporary(around, level), read(alloc, slot)))?
        }
        Operand::Temporary => {}
    }
    in_temporary(level, code, x.temps)
}

/// The number that tells a division by 0.
const DIVISION: i64 = 3;

/// A divisor, tested where it may be 0.
pub fn divisor(
    alloc: Global,
    around: Surroundings,
    level: usize,
    at: usize,
    tested: bool,
    y: Lowered,
) -> Result<Lowered, NoMemory>
    ensures { IfOk result (λ made. made ≡ divisor_value (around_of around.entry) level at tested y) }
{
    if !tested {
        return Ok(y);
    }
    let x = settled(alloc, around, level, y)?;
    let mut code = x.code;
    let behind = place_behind(sum_of(at, code.len())?, 3)?;
    let slot = temporary(around, level);
    code.push(branch(alloc, FlatRel::Ne, slot, number(0), behind))?;
    code.push(set(alloc, around.kind, number(DIVISION)))?;
    code.push(Instr::Goto(around.fault))?;
    in_temporary(level, code, x.temps)
}

/// Whether the operator divides, and the right operand may be 0.
pub fn is_tested(op: BinaryOp, right: Option<Interval>) -> bool
    ensures { result ≡ is_tested_divisor op right }
{
    is_division(op) && may_be_zero(right)
}

/// Whether a number of the interval may be 0.
fn may_be_zero(interval: Option<Interval>) -> bool
    ensures { result ≡ may_be_0 interval }
{
    match interval {
        Some(i) => i.lo <= 0 && 0 <= i.hi,
        None => true,
    }
}

pub fn may_be_negative(interval: Option<Interval>) -> bool
    ensures { result ≡ may_be_below_0 interval }
{
    match interval {
        Some(i) => i.lo < 0,
        None => true,
    }
}

fn is_division(op: BinaryOp) -> bool
    ensures { result ≡ is_division_op op }
{
    matches!(op, BinaryOp::Div | BinaryOp::Mod | BinaryOp::Rem)
}

/// How many instructions stand between the code of two operands.
pub fn size_between(op: BinaryOp) -> usize
    ensures { result ≡ size_between_code op }
{
    match op {
        BinaryOp::AndThen | BinaryOp::OrElse => 1,
        _ => 0,
    }
}

/// The minus sign and `not`; of a literal the minus gives a literal.
pub fn unary(
    alloc: Global,
    around: Surroundings,
    level: usize,
    op: UnaryOp,
    x: Lowered,
) -> Result<Lowered, NoMemory>
    ensures { IfOk result (λ made. made ≡ unary_value (around_of around.entry) level op x) }
{
    match (op, x.value) {
        (UnaryOp::Minus, Operand::Literal(z)) => Ok(plain(alloc, literal(-i128::from(z)))),
        (UnaryOp::Minus, _) => less(alloc, around, level, 0, x),
        (UnaryOp::Not, _) => less(alloc, around, level, 1, x),
    }
}

/// A number less the value.
fn less(
    alloc: Global,
    around: Surroundings,
    level: usize,
    from: i64,
    x: Lowered,
) -> Result<Lowered, NoMemory>
    ensures { IfOk result (λ made. made ≡ less_value (around_of around.entry) level from x) }
{
    let value = flat_of(alloc, around, level, x.value);
    let difference = operation(alloc, FlatOp::Sub, number(from), value)?;
    let mut code = x.code;
    code.push(set(alloc, temporary(around, level), difference))?;
    in_temporary(level, code, x.temps)
}

/// Adds what is done with two operands, where it stands at a place.
fn put_ending(
    alloc: Global,
    around: Surroundings,
    level: usize,
    at: usize,
    op: BinaryOp,
    negative: bool,
    right: Flat,
    code: &mut Items<Instr>,
) -> Result<(), NoMemory>
    ensures { OnOk result (code.new ≡ code.old ++ ending_code (around_of around.entry) level at op negative right) }
{
    match op {
        BinaryOp::Add => put_changed(alloc, around, level, FlatOp::Add, right, code)?,
        BinaryOp::Sub => put_changed(alloc, around, level, FlatOp::Sub, right, code)?,
        BinaryOp::Mul => put_changed(alloc, around, level, FlatOp::Mul, right, code)?,
        BinaryOp::Div => put_changed(alloc, around, level, FlatOp::Div, right, code)?,
        BinaryOp::Rem => put_changed(alloc, around, level, FlatOp::Rem, right, code)?,
        BinaryOp::Mod => put_modulus(alloc, around, level, at, negative, right, code)?,
        BinaryOp::Eq => put_compared(alloc, around, level, at, FlatRel::Eq, right, code)?,
        BinaryOp::Ne => put_compared(alloc, around, level, at, FlatRel::Ne, right, code)?,
        BinaryOp::Lt => put_compared(alloc, around, level, at, FlatRel::Lt, right, code)?,
        BinaryOp::Le => put_compared(alloc, around, level, at, FlatRel::Le, right, code)?,
        BinaryOp::Gt => put_compared(alloc, around, level, at, FlatRel::Gt, right, code)?,
        BinaryOp::Ge => put_compared(alloc, around, level, at, FlatRel::Ge, right, code)?,
        BinaryOp::Xor => put_compared(alloc, around, level, at, FlatRel::Ne, right, code)?,
        BinaryOp::And => put_kept(alloc, around, level, at, FlatRel::Eq, right, code)?,
        BinaryOp::Or => put_kept(alloc, around, level, at, FlatRel::Ne, right, code)?,
        BinaryOp::AndThen | BinaryOp::OrElse => {
            code.push(set(alloc, temporary(around, level), right))?
        }
    }
    Ok(())
}

fn put_changed(
    alloc: Global,
    around: Surroundings,
    level: usize,
    op: FlatOp,
    right: Flat,
    code: &mut Items<Instr>,
) -> Result<(), NoMemory>
    ensures { OnOk result (code.new ≡ code.old ++ changed_code (around_of around.entry) level op right) }
{
    let slot = temporary(around, level);
    let value = operation(alloc, op, read(alloc, slot), right)?;
    code.push(set(alloc, slot, value))?;
    Ok(())
}

fn put_compared(
    alloc: Global,
    around: Surroundings,
    level: usize,
    at: usize,
    op: FlatRel,
    right: Flat,
    code: &mut Items<Instr>,
) -> Result<(), NoMemory>
    ensures { OnOk result (code.new ≡ code.old ++ compared_code (around_of around.entry) level at op right) }
{
    let slot = temporary(around, level);
    let holds = place_behind(at, 3)?;
    let end = place_behind(at, 4)?;
    code.push(branch(alloc, op, slot, right, holds))?;
    code.push(set(alloc, slot, number(0)))?;
    code.push(Instr::Goto(end))?;
    code.push(set(alloc, slot, number(1)))?;
    Ok(())
}

fn put_kept(
    alloc: Global,
    around: Surroundings,
    level: usize,
    at: usize,
    op: FlatRel,
    right: Flat,
    code: &mut Items<Instr>,
) -> Result<(), NoMemory>
    ensures { OnOk result (code.new ≡ (code.old ++ (kept_instr (around_of around.entry) level at op 0 ∷ [])) ++ (set_instr ((around_of around.entry).temps level) right ∷ [])) }
{
    let slot = temporary(around, level);
    let end = place_behind(at, 2)?;
    code.push(branch(alloc, op, slot, number(0), end))?;
    code.push(set(alloc, slot, right))?;
    Ok(())
}

fn put_modulus(
    alloc: Global,
    around: Surroundings,
    level: usize,
    at: usize,
    negative: bool,
    right: Flat,
    code: &mut Items<Instr>,
) -> Result<(), NoMemory>
    ensures { OnOk result (code.new ≡ code.old ++ ending_code (around_of around.entry) level at Mod negative right) }
{
    let again = right.copy(alloc)?;
    put_changed(alloc, around, level, FlatOp::Rem, right, code)?;
    if negative {
        let slot = temporary(around, level);
        let end = place_behind(sum_of(at, 1)?, 2)?;
        code.push(branch(alloc, FlatRel::Ge, slot, number(0), end))?;
        put_changed(alloc, around, level, FlatOp::Add, again, code)?;
    }
    Ok(())
}

/// Two operands under an operator, where the left one's code stands at a place and has its value in the temporary.
pub fn joined(
    alloc: Global,
    around: Surroundings,
    level: usize,
    at: usize,
    op: BinaryOp,
    negative: bool,
    left: Lowered,
    right: Lowered,
) -> Result<Lowered, NoMemory>
    ensures { IfOk result (λ made. made ≡ joined_value (around_of around.entry) level at op negative left right) }
{
    let temps = left.temps.max(right.temps);
    let mut code = left.code;
    let behind = sum_of(at, code.len())?;
    let size = right.code.len();
    put_between(alloc, around, level, behind, op, size, &mut code)?;
    code.append(right.code)?;
    let end = sum_of(behind, sum_of(size_between(op), size)?)?;
    let value = flat_of(alloc, around, sum_of(level, 1)?, right.value);
    put_ending(alloc, around, level, end, op, negative, value, &mut code)?;
    in_temporary(level, code, temps)
}

fn put_between(
    alloc: Global,
    around: Surroundings,
    level: usize,
    at: usize,
    op: BinaryOp,
    size: usize,
    code: &mut Items<Instr>,
) -> Result<(), NoMemory>
    ensures { OnOk result (code.new ≡ code.old ++ between_code (around_of around.entry) level at op size) }
{
    let kept = match op {
        BinaryOp::AndThen => FlatRel::Eq,
        BinaryOp::OrElse => FlatRel::Ne,
        _ => return Ok(()),
    };
    let end = place_behind(at, sum_of(size, 2)?)?;
    code.push(branch(alloc, kept, temporary(around, level), number(0), end))?;
    Ok(())
}

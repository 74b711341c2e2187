//! Prints the expressions of the C subset (C99 6.5) with no bracket beyond need.
ghost use Rattle.std.specs.Prelude.{◌≡◌, ◌++◌, OnOk};
ghost use Rattle.std.specs.List.{flat_map};
ghost use Rattle.og_csubset.specs.Spelling.{is_sum as is_sum_of};
ghost use Rattle.og_cprint.specs.Printed.{when, literal_bytes, number_bytes, is_literal as is_literal_of, literal_bracket, operation_bracket, is_primary as is_primary_of, is_number as is_number_of, is_least_in, left_slot as left_slot_of, right_slot as right_slot_of, operator_bytes, relation_bytes, number_printed, printed, step_bytes, place_bytes, test_bytes};

use itoa::Buffer;
use og_csubset::{CExpr, COp, CPlace, CRel, CStep, CTest};
use og_names::{NoMemory, Word};
use std::alloc::Global;

/// What an expression stands in, which decides whether it needs a bracket.
#[derive(Clone, Copy, Debug, PartialEq, Eq)]
pub enum Slot {
    /// A sum, as on the right side of `=`, in an index or in a test.
    Sum,
    /// An operand of a sum's right side or of a product's left side.
    Product,
    /// The right operand of a product.
    Unary,
    /// What follows a sign.
    Primary,
}

/// Appends bytes.
pub fn put(out: &mut Vec<u8>, bytes: &[u8]) -> Result<(), NoMemory>
    ensures { OnOk result (out.new.items ≡ out.old.items ++ bytes.now) }
{
    out.extend_from_slice(bytes)?;
    Ok(())
}

pub fn put_word(out: &mut Vec<u8>, word: &Word) -> Result<(), NoMemory>
    ensures { OnOk result (out.new.items ≡ out.old.items ++ word.now.bytes) }
{
    put(out, word.bytes.as_slice())?;
    Ok(())
}

/// Appends a number from 0 on as a literal (C99 7.18.4.1).
fn put_literal(out: &mut Vec<u8>, number: u64) -> Result<(), NoMemory>
    ensures { OnOk result (out.new.items ≡ out.old.items ++ literal_bytes number) }
{
    let mut buffer = Buffer::new();
    put(out, b"INT64_C(")?;
    put(out, buffer.format(number).as_bytes())?;
    put(out, b")")?;
    Ok(())
}

/// Appends any number of 64 bits. The least one has no literal and stands as a difference.
#[tactic(auto, using(crate::proofs::Numbers::numbers))]
pub fn put_number(out: &mut Vec<u8>, number: i64) -> Result<(), NoMemory>
    ensures { OnOk result (out.new.items ≡ out.old.items ++ number_bytes number) }
{
    if number == i64::MIN {
        put(out, b"(-INT64_C(9223372036854775807) - INT64_C(1))")?;
        return Ok(());
    }
    if number < 0 {
        put(out, b"-")?;
        put_literal(out, number.unsigned_abs())?;
        return Ok(());
    }
    put_literal(out, number.unsigned_abs())?;
    Ok(())
}

#[cycle(printing)]
pub fn put_place(out: &mut Vec<u8>, place: &CPlace) -> Result<(), NoMemory>
    ensures { OnOk result (out.new.items ≡ out.old.items ++ place_bytes place.now) }
{
    put_word(out, &place.name)?;
    put_steps(out, place.path.as_slice())?;
    Ok(())
}

#[cycle(printing)]
fn put_steps(out: &mut Vec<u8>, steps: &[CStep]) -> Result<(), NoMemory>
    ensures { OnOk result (out.new.items ≡ out.old.items ++ flat_map step_bytes steps.now) }
{
    for step in steps {
        put_step(out, step)?;
    }
    Ok(())
}

#[cycle(printing)]
fn put_step(out: &mut Vec<u8>, step: &CStep) -> Result<(), NoMemory>
    ensures { OnOk result (out.new.items ≡ out.old.items ++ step_bytes step.now) }
{
    match step {
        CStep::Member(name) => {
            put(out, b".")?;
            put_word(out, name)?;
            Ok(())
        }
        CStep::At(index) => {
            put(out, b"[")?;
            put_expression(out, index, Slot::Sum)?;
            put(out, b"]")?;
            Ok(())
        }
    }
}

/// Appends an expression where a sum may stand.
pub fn put_sum(out: &mut Vec<u8>, expression: &CExpr) -> Result<(), NoMemory>
    ensures { OnOk result (out.new.items ≡ out.old.items ++ (printed expression.now).at Slot.Sum) }
{
    put_expression(out, expression, Slot::Sum)?;
    Ok(())
}

#[cycle(printing)]
#[tactic(auto, using(crate::proofs::Opens::opens))]
fn put_expression(out: &mut Vec<u8>, expression: &CExpr, slot: Slot) -> Result<(), NoMemory>
    ensures { OnOk result (out.new.items ≡ out.old.items ++ (printed expression.now).at slot) }
{
    match expression {
        CExpr::Number(number) => {
            put_signed(out, *number, slot)?;
            Ok(())
        }
        CExpr::Read(place) => {
            put_place(out, place)?;
            Ok(())
        }
        CExpr::Minus(operand) => {
            let bracketed = is_primary(slot);
            put_if(out, bracketed, b"(")?;
            put(out, b"-")?;
            put_expression(out, operand.get(), Slot::Primary)?;
            put_if(out, bracketed, b")")?;
            Ok(())
        }
        CExpr::Op(op, left, right) => {
            let bracketed = needs_bracket(*op, slot);
            let apart = keeps_apart(*op, bracketed, value_of(left.get()), value_of(right.get()));
            put_if(out, bracketed, b"(")?;
            put_expression(out, left.get(), left_slot(*op, apart))?;
            put(out, operator(*op))?;
            put_expression(out, right.get(), right_slot(*op))?;
            put_if(out, bracketed, b")")?;
            Ok(())
        }
        CExpr::Pick(test, yes, no) => {
            put(out, b"(")?;
            put_test(out, test)?;
            put(out, b" ? ")?;
            put_expression(out, yes.get(), Slot::Sum)?;
            put(out, b" : ")?;
            put_expression(out, no.get(), Slot::Sum)?;
            put(out, b")")?;
            Ok(())
        }
    }
}

/// Appends a number, in a bracket where a sign before it would become its own.
fn put_signed(out: &mut Vec<u8>, number: i64, slot: Slot) -> Result<(), NoMemory>
    ensures { OnOk result (out.new.items ≡ out.old.items ++ (number_printed number).at slot) }
{
    let bracketed = needs_literal_bracket(number, slot);
    put_if(out, bracketed, b"(")?;
    put_number(out, number)?;
    put_if(out, bracketed, b")")?;
    Ok(())
}

fn needs_literal_bracket(number: i64, slot: Slot) -> bool
    ensures { result ≡ literal_bracket number slot }
{
    match slot {
        Slot::Sum => false,
        Slot::Product => false,
        Slot::Unary => false,
        Slot::Primary => is_literal(number),
    }
}

/// Whether the number is written as a literal other than 0, with its sign.
#[tactic(auto, using(crate::proofs::Numbers::numbers))]
fn is_literal(number: i64) -> bool
    ensures { result ≡ is_literal_of number }
{
    if number == 0 {
        return false;
    }
    if number == i64::MIN {
        return false;
    }
    true
}

fn is_primary(slot: Slot) -> bool
    ensures { result ≡ is_primary_of slot }
{
    match slot {
        Slot::Sum => false,
        Slot::Product => false,
        Slot::Unary => false,
        Slot::Primary => true,
    }
}

/// The number that the expression is, where it is one.
#[tactic(auto, using(crate::proofs::Opens::opens))]
fn value_of(expression: &CExpr) -> Option<i64>
    ensures { result ≡ (printed expression.now).value }
{
    match expression {
        CExpr::Number(number) => Some(*number),
        CExpr::Read(_) => None,
        CExpr::Minus(_) => None,
        CExpr::Op(_, _, _) => None,
        CExpr::Pick(_, _, _) => None,
    }
}

/// The number whose bracketed difference with 1 would be read as the least number.
const ABOVE_LEAST: i64 = -9223372036854775807;

/// Whether the left side needs a bracket, since the difference in its bracket would be read as the least number.
fn keeps_apart(op: COp, bracketed: bool, left: Option<i64>, right: Option<i64>) -> bool
    ensures { result ≡ is_least_in op bracketed left right }
{
    match op {
        COp::Sub => bracketed && is_number(left, ABOVE_LEAST) && is_number(right, 1),
        COp::Add => false,
        COp::Mul => false,
        COp::Div => false,
        COp::Rem => false,
    }
}

#[tactic(auto, using(crate::proofs::Numbers::numbers))]
fn is_number(value: Option<i64>, number: i64) -> bool
    ensures { result ≡ is_number_of value number }
{
    match value {
        None => false,
        Some(one) => {
            if one == number {
                return true;
            }
            false
        }
    }
}

fn is_sum(op: COp) -> bool
    ensures { result ≡ is_sum_of op }
{
    match op {
        COp::Add => true,
        COp::Sub => true,
        COp::Mul => false,
        COp::Div => false,
        COp::Rem => false,
    }
}

/// Whether an operation needs a bracket where it stands.
fn needs_bracket(op: COp, slot: Slot) -> bool
    ensures { result ≡ operation_bracket op slot }
{
    match slot {
        Slot::Sum => false,
        Slot::Product => is_sum(op),
        Slot::Unary => true,
        Slot::Primary => true,
    }
}

/// What the left side of an operation stands in.
fn left_slot(op: COp, apart: bool) -> Slot
    ensures { result ≡ left_slot_of op apart }
{
    if apart {
        return Slot::Primary;
    }
    if is_sum(op) {
        return Slot::Sum;
    }
    Slot::Product
}

/// What the right side of an operation stands in.
fn right_slot(op: COp) -> Slot
    ensures { result ≡ right_slot_of op }
{
    if is_sum(op) {
        return Slot::Product;
    }
    Slot::Unary
}

/// Appends the bytes where they are wanted.
fn put_if(out: &mut Vec<u8>, wanted: bool, bytes: &[u8]) -> Result<(), NoMemory>
    ensures { OnOk result (out.new.items ≡ out.old.items ++ when wanted bytes.now) }
{
    if wanted {
        put(out, bytes)?;
        return Ok(());
    }
    Ok(())
}

fn operator(op: COp) -> &'static [u8]
    ensures { result.now ≡ operator_bytes op }
{
    match op {
        COp::Add => b" + ",
        COp::Sub => b" - ",
        COp::Mul => b" * ",
        COp::Div => b" / ",
        COp::Rem => b" % ",
    }
}

#[cycle(printing)]
pub fn put_test(out: &mut Vec<u8>, test: &CTest) -> Result<(), NoMemory>
    ensures { OnOk result (out.new.items ≡ out.old.items ++ test_bytes test.now) }
{
    put_expression(out, test.left.get(), Slot::Sum)?;
    put(out, relation(test.op))?;
    put_expression(out, test.right.get(), Slot::Sum)?;
    Ok(())
}

fn relation(op: CRel) -> &'static [u8]
    ensures { result.now ≡ relation_bytes op }
{
    match op {
        CRel::Eq => b" == ",
        CRel::Ne => b" != ",
        CRel::Lt => b" < ",
        CRel::Le => b" <= ",
        CRel::Gt => b" > ",
        CRel::Ge => b" >= ",
    }
}

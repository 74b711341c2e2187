//! The types of places and expressions (C99 6.5.2 and 6.5.16).
#![tactic(auto, using(og_names::proofs::Loops::loops, crate::proofs::Numbers::numbers))]

ghost use Rattle.std.specs.Prelude.{◌≡◌, Some, None};
ghost use Rattle.std.specs.List.{list_all};
ghost use Rattle.std.specs.Option.{option_copied, option_map};
ghost use Rattle.og_csubset.specs.Loading.{is_number_type as is_number_type_of, kind_after as kind_led_to, is_number as is_number_in, type_of_place as type_of_place_in, type_of as type_of_side, agree as agree_in, is_typed as is_typed_in, breaks_K5};
ghost use Rattle.og_cload.specs.Held.{kind_of};
ghost use Rattle.og_cload.specs.Selected.{kind_at as kind_led_by};

use crate::kinds::{Held, element_of, global_kind, is_same_type, member_of, type_of_one};
use og_csubset::{CExpr, CFunction, CPlace, CProgram, CStep, CStmt, CType};

/// An unknown global or member, a selector on the wrong kind, a struct where a number is needed, or two types.
pub fn breaks_k5(program: &CProgram) -> bool
    ensures { result ≡ breaks_K5 program.now }
{
    for function in program.functions.as_slice() {
        if !is_typed_function(program, function) {
            return true;
        }
    }
    false
}

fn is_typed_function(program: &CProgram, function: &CFunction) -> bool
    ensures { result ≡ list_all (is_typed_in program.now) function.now.body }
{
    for statement in function.body.as_slice() {
        if !is_typed(program, statement) {
            return false;
        }
    }
    true
}

fn is_typed(program: &CProgram, statement: &CStmt) -> bool
    ensures { result ≡ is_typed_in program.now statement.now }
{
    match statement {
        CStmt::Assign(place, number) => {
            match type_of_place(program, place) {
                None => false,
                Some(kind) => is_of_type(program, number, kind),
            }
        }
        CStmt::IfGoto(test, _) => {
            is_number(program, test.left.get()) && is_number(program, test.right.get())
        }
        CStmt::Switch(number, _, _) => is_number(program, number),
        CStmt::Goto(_) => true,
        CStmt::Label(_) => true,
        CStmt::Call(_) => true,
        CStmt::Return => true,
    }
}

/// A right side has the type of the left one.
fn is_of_type(program: &CProgram, expression: &CExpr, kind: &CType) -> bool
    ensures { result ≡ agree_in (Some kind.now) (type_of_side program.now expression.now) }
{
    if let CExpr::Read(place) = expression {
        return match type_of_place(program, place) {
            None => false,
            Some(other) => is_same_type(kind, other),
        };
    }
    if is_number(program, expression) {
        is_int64(kind)
    } else {
        false
    }
}

fn is_int64(kind: &CType) -> bool
    ensures { result ≡ is_number_type_of (Some kind.now) }
{
    match kind {
        CType::Int64 => true,
        CType::Struct(_) => false,
    }
}

/// Each place in the expression is there, and is a number.
#[cycle(typing)]
pub fn is_number(program: &CProgram, expression: &CExpr) -> bool
    ensures { result ≡ is_number_in program.now expression.now }
{
    match expression {
        CExpr::Number(_) => true,
        CExpr::Read(place) => is_number_type(type_of_place(program, place)),
        CExpr::Minus(operand) => is_number(program, operand.get()),
        CExpr::Op(_, left, right) => {
            is_number(program, left.get()) && is_number(program, right.get())
        }
        CExpr::Pick(test, yes, no) => {
            is_number(program, test.left.get())
                && is_number(program, test.right.get())
                && is_number(program, yes.get())
                && is_number(program, no.get())
        }
    }
}

fn is_number_type(kind: Option<&CType>) -> bool
    ensures { result ≡ is_number_type_of (option_copied kind.entry) }
{
    match kind {
        None => false,
        Some(kind) => is_int64(kind),
    }
}

#[cycle(typing)]
pub fn type_of_place<'a>(program: &'a CProgram, place: &CPlace) -> Option<&'a CType>
    ensures { option_copied result ≡ type_of_place_in program.now place.now }
{
    let held = global_kind(program, place.name.bytes.as_slice())?;
    let held = kind_after(program, held, place.path.as_slice())?;
    type_of_one(held)
}

/// What the selectors lead to.
#[cycle(typing)]
fn kind_after<'a>(program: &'a CProgram, held: Held<'a>, path: &[CStep]) -> Option<Held<'a>>
    ensures { option_map kind_of result ≡ kind_led_to (is_number_in program.now) program.now.structs (kind_of held.entry) path.now }
{
    let mut held = held;
    for step in path {
        held = kind_at(program, held, step)?;
    }
    Some(held)
}

/// What one selector leads to.
#[cycle(typing)]
fn kind_at<'a>(program: &'a CProgram, held: Held<'a>, step: &CStep) -> Option<Held<'a>>
    ensures { option_map kind_of result ≡ kind_led_by (is_number_in program.now) program.now.structs (kind_of held.entry) step.now }
{
    match step {
        CStep::Member(name) => {
            let (_, found) = member_of(program.structs.as_slice(), held, name.bytes.as_slice())?;
            Some(found)
        }
        CStep::At(index) => {
            if is_number(program, index) {
                element_of(held)
            } else {
                None
            }
        }
    }
}

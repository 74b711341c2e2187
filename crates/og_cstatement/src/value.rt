//! The values of expressions (C99 6.5). Operands are computed from left to right.
#![tactic(auto, using(og_names::proofs::Loops::loops, crate::proofs::Valued::valued))]

ghost use Rattle.std.specs.Prelude.{◌≡◌};
ghost use Rattle.og_cstatement.specs.Numbers.{told_number};
ghost use Rattle.og_cstatement.specs.Halts.{Tells};
ghost use Rattle.og_cstatement.specs.Meaning.{value_of as value_in, holds as holds_in, place_of as place_in, distance_of as distance_in, index_in};

use crate::arithmetic::{negative, operation, relation};
use crate::code::{Expression, Place, Term, Test};
use og_ccells::number_at;
use og_model::StuckRule;

/// The value of an expression.
#[cycle(value)]
pub fn value_of(expression: &Expression, cells: &[i64]) -> Result<i64, StuckRule>
    ensures { Tells (λ z. z) result (value_in cells.now expression.now) }
{
    match expression {
        Expression::Literal(number) => Ok(*number),
        Expression::Read(place) => {
            let at = place_of(place, cells)?;
            Ok(number_at(cells, at))
        }
        Expression::Minus(operand) => {
            let number = value_of(operand.get(), cells)?;
            let number = negative(number)?;
            Ok(number)
        }
        Expression::Op(operator, left, right) => {
            let left = value_of(left.get(), cells)?;
            let right = value_of(right.get(), cells)?;
            let number = operation(*operator, left, right)?;
            Ok(number)
        }
        Expression::Choice(test, yes, no) => {
            let taken = holds(test, cells)?;
            if taken {
                let number = value_of(yes.get(), cells)?;
                return Ok(number);
            }
            let number = value_of(no.get(), cells)?;
            Ok(number)
        }
    }
}

/// Whether a test holds.
#[cycle(value)]
pub fn holds(test: &Test, cells: &[i64]) -> Result<bool, StuckRule>
    ensures { Tells (λ b. b) result (holds_in cells.now test.now) }
{
    let left = value_of(test.left.get(), cells)?;
    let right = value_of(test.right.get(), cells)?;
    Ok(relation(test.op, left, right))
}

/// Where a place lies. Each index is tested where it is computed.
#[cycle(value)]
pub fn place_of(place: &Place, cells: &[i64]) -> Result<usize, StuckRule>
    ensures { Tells (λ k. k) result (place_in cells.now place.now) }
{
    let mut at = place.offset as usize;
    for term in place.terms.as_slice() {
        let distance = distance_of(term, cells)?;
        at = at.saturating_add(distance);
    }
    Ok(at)
}

/// How far an index moves a place.
#[cycle(value)]
fn distance_of(term: &Term, cells: &[i64]) -> Result<usize, StuckRule>
    ensures { Tells (λ k. k) result (distance_in cells.now term.now) }
{
    let number = value_of(&term.index, cells)?;
    let distance = element_at(term.bound, term.stride, number)?;
    Ok(distance)
}

/// Where the element of an array begins that an index selects.
fn element_at(bound: u32, stride: u32, number: i64) -> Result<usize, StuckRule>
    ensures { told_number result ≡ index_in bound stride number }
{
    if number < 0 {
        return Err(StuckRule::Index);
    }
    if number >= i64::from(bound) {
        return Err(StuckRule::Index);
    }
    Ok(number as usize * stride as usize)
}

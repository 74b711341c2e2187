//! Expressions of parts that are there.
ghost use Rattle.std.specs.Prelude.{◌≡◌, suc, IfOk, MatchOption};
ghost use Rattle.og_ast.specs.declared.expression.ExprNode.{Minus, Not, Bracketed, Choice};
ghost use Rattle.og_reading.specs.Reading.{rest_of};
ghost use Rattle.og_parse_expr.specs.Reading.{plain, joined, variable, variable_expr, field_in, field_at, none_at};

use crate::operator::Sign;
use og_ast::{ExprNode, ExprTree, FieldTree, Name, VarTree};
use og_base::Place;
use og_lexer::{Spanned, Token};
use og_names::NoMemory;
use og_reading::Left;
use sqlite_items::Boxed;
use std::alloc::Global;

/// One less, where there is one.
pub fn one_less(n: usize) -> Option<usize>
    ensures { MatchOption result (n ≡ 0) (λ m. n ≡ suc m) }
{
    if n == 0 { None } else { Some(n - 1) }
}

/// An expression without an operator.
pub fn plain(place: Place, node: ExprNode) -> ExprTree
    ensures { result ≡ plain place node }
{
    ExprTree {
        place,
        first: place,
        node,
    }
}

/// The expression that is made where nothing is left to go by.
pub fn none_of(from: Left<'_>) -> (ExprTree, Left<'_>)
    ensures { (result.0, rest_of result.1) ≡ none_at (rest_of from.entry) }
{
    (plain(from.place(), ExprNode::Number(0)), from)
}

/// An operator and its operands.
pub fn joined(
    alloc: Global,
    sign: Sign,
    left: ExprTree,
    right: ExprTree,
) -> Result<ExprTree, NoMemory>
    ensures { IfOk result (λ tree. tree ≡ joined sign left right) }
{
    let first = left.first;
    let left = Boxed::new(alloc, left)?;
    let right = Boxed::new(alloc, right)?;
    Ok(ExprTree {
        place: sign.place,
        first,
        node: ExprNode::Binary(sign.operator, left, right),
    })
}

/// A sign and its operand.
pub fn minus(alloc: Global, place: Place, operand: ExprTree) -> Result<ExprTree, NoMemory>
    ensures { IfOk result (λ tree. tree ≡ plain place (Minus operand)) }
{
    let operand = Boxed::new(alloc, operand)?;
    Ok(plain(place, ExprNode::Minus(operand)))
}

/// NOT and its operand.
pub fn not(alloc: Global, place: Place, operand: ExprTree) -> Result<ExprTree, NoMemory>
    ensures { IfOk result (λ tree. tree ≡ plain place (Not operand)) }
{
    let operand = Boxed::new(alloc, operand)?;
    Ok(plain(place, ExprNode::Not(operand)))
}

/// An expression in brackets.
pub fn bracketed(alloc: Global, place: Place, inner: ExprTree) -> Result<ExprTree, NoMemory>
    ensures { IfOk result (λ tree. tree ≡ plain place (Bracketed inner)) }
{
    let inner = Boxed::new(alloc, inner)?;
    Ok(plain(place, ExprNode::Bracketed(inner)))
}

/// A value of a choice.
pub fn choice_value(alloc: Global, name: Name, value: ExprTree) -> Result<ExprTree, NoMemory>
    ensures { IfOk result (λ tree. tree ≡ plain name.place (Choice name value)) }
{
    let place = name.place;
    let value = Boxed::new(alloc, value)?;
    Ok(plain(place, ExprNode::Choice(name, value)))
}

/// A variable as an expression.
pub fn variable_expr(variable: VarTree) -> ExprTree
    ensures { result ≡ variable_expr variable }
{
    let place = variable.name.place;
    plain(place, ExprNode::Variable(variable))
}

/// The field in front: a name, or a keyword in its place.
#[tactic(auto, unfolding(crate::specs::Reading::field_at))]
pub fn field_of(alloc: Global, from: Left<'_>) -> Result<(FieldTree, Left<'_>), NoMemory>
    ensures { IfOk result (λ x. (x.0, rest_of x.1) ≡ field_at (rest_of from.entry)) }
{
    let field = field_in(alloc, from.after())?;
    Ok((field, from.after().behind()))
}

fn field_in(alloc: Global, from: Left<'_>) -> Result<FieldTree, NoMemory>
    ensures { IfOk result (λ field. field ≡ field_in (rest_of from.entry)) }
{
    match from.tokens {
        [
            Spanned {
                token: Token::Keyword(word),
                ..
            },
            ..
        ] => Ok(FieldTree::Keyword(from.place(), *word)),
        _ => Ok(FieldTree::Name(from.name(alloc)?)),
    }
}

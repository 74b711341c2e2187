//! Expressions: a sum of products of signed numbers, of which operands are places and brackets (C99 6.5).
//! `depth` bounds how many brackets stand one inside the other, and `turns` how often a repetition goes round.
ghost use Rattle.std.specs.Prelude.{◌≡◌, [], ◌∷◌, ◌++◌, IfOk};
ghost use Rattle.og_cread.specs.Trees.{Gives, number_then_front, choice_front, behind_front, bracket_front, path_front, place_front, operand_front, signed_front, product_rest_front, product_front, sum_rest_front, number_front, test_front};
ghost use Rattle.og_clex.specs.Views.{tokens_view, mark_view};

use crate::number::{least_of, minus, one_less, operation, pick, sign_of, signed_literal_of, test};
use crate::take::{
    TreeError, mark_of, name_of, passed_mark, passed_name, product_operator, relation_of,
    sum_operator,
};
use og_clex::{Mark, Token};
use og_csubset::{CExpr, CPlace, CRel, CStep, CTest};
use og_names::Word;
use sqlite_items::Items;
use std::alloc::{AllocError, Global};

/// A relation between two whole numbers.
#[tactic(auto, unfolding(crate::specs::Trees::test_front))]
pub fn test_of(
    alloc: Global,
    depth: usize,
    tokens: &[Token],
) -> Result<(CTest, &[Token]), TreeError>
    ensures { Gives (λ x. (x.0, tokens_view x.1.now)) result (test_front depth (tokens_view tokens.now)) }
{
    let (left, rest) = number_of(alloc, depth, tokens)?;
    let (op, rest) = relation_of(rest)?;
    let (right, rest) = number_of(alloc, depth, rest)?;
    Ok((test(alloc, op, left, right)?, rest))
}

/// A whole number.
#[cycle(expression)]
#[tactic(auto, unfolding(crate::specs::Trees::number_front))]
pub fn number_of(
    alloc: Global,
    depth: usize,
    tokens: &[Token],
) -> Result<(CExpr, &[Token]), TreeError>
    ensures { Gives (λ x. (x.0, tokens_view x.1.now)) result (number_front depth (tokens_view tokens.now)) }
{
    let Some(inner) = one_less(depth) else {
        return Err(TreeError::NoTree);
    };
    let (first, rest) = product_of(alloc, inner, depth, tokens)?;
    sum_rest(alloc, inner, depth, first, rest)
}

/// The operators and operands behind a sum.
#[cycle(expression)]
#[tactic(auto, unfolding(crate::specs::Trees::sum_rest_front))]
fn sum_rest(
    alloc: Global,
    depth: usize,
    turns: usize,
    sum: CExpr,
    tokens: &[Token],
) -> Result<(CExpr, &[Token]), TreeError>
    ensures { Gives (λ x. (x.0, tokens_view x.1.now)) result (sum_rest_front (number_front depth) turns sum (tokens_view tokens.now)) }
{
    let Some(left) = one_less(turns) else {
        return Ok((sum, tokens));
    };
    let Some((op, rest)) = sum_operator(tokens) else {
        return Ok((sum, tokens));
    };
    let (term, rest) = product_of(alloc, depth, left, rest)?;
    let sum = operation(alloc, op, sum, term)?;
    sum_rest(alloc, depth, left, sum, rest)
}

/// A signed number and the factors behind it.
#[cycle(expression)]
#[tactic(auto, unfolding(crate::specs::Trees::product_front))]
fn product_of(
    alloc: Global,
    depth: usize,
    turns: usize,
    tokens: &[Token],
) -> Result<(CExpr, &[Token]), TreeError>
    ensures { Gives (λ x. (x.0, tokens_view x.1.now)) result (product_front (number_front depth) turns (tokens_view tokens.now)) }
{
    let (first, rest) = signed_of(alloc, depth, turns, tokens)?;
    product_rest(alloc, depth, turns, first, rest)
}

/// The operators and operands behind a product.
#[cycle(expression)]
#[tactic(auto, unfolding(crate::specs::Trees::product_rest_front))]
fn product_rest(
    alloc: Global,
    depth: usize,
    turns: usize,
    product: CExpr,
    tokens: &[Token],
) -> Result<(CExpr, &[Token]), TreeError>
    ensures { Gives (λ x. (x.0, tokens_view x.1.now)) result (product_rest_front (number_front depth) turns product (tokens_view tokens.now)) }
{
    let Some(left) = one_less(turns) else {
        return Ok((product, tokens));
    };
    let Some((op, rest)) = product_operator(tokens) else {
        return Ok((product, tokens));
    };
    let (factor, rest) = signed_of(alloc, depth, left, rest)?;
    let product = operation(alloc, op, product, factor)?;
    product_rest(alloc, depth, left, product, rest)
}

/// A literal or an operand, with a sign or without. A sign before a literal belongs to the number.
#[cycle(expression)]
#[tactic(auto, unfolding(crate::specs::Trees::signed_front))]
fn signed_of(
    alloc: Global,
    depth: usize,
    turns: usize,
    tokens: &[Token],
) -> Result<(CExpr, &[Token]), TreeError>
    ensures { Gives (λ x. (x.0, tokens_view x.1.now)) result (signed_front (number_front depth) turns (tokens_view tokens.now)) }
{
    if let Some(literal) = signed_literal_of(alloc, tokens)? {
        return Ok(literal);
    }
    let Some(behind) = sign_of(tokens) else {
        return operand_of(alloc, depth, turns, tokens);
    };
    let (operand, rest) = operand_of(alloc, depth, turns, behind)?;
    Ok((minus(alloc, operand)?, rest))
}

/// A place or a bracket.
#[cycle(expression)]
#[tactic(auto, unfolding(crate::specs::Trees::operand_front))]
fn operand_of(
    alloc: Global,
    depth: usize,
    turns: usize,
    tokens: &[Token],
) -> Result<(CExpr, &[Token]), TreeError>
    ensures { Gives (λ x. (x.0, tokens_view x.1.now)) result (operand_front (number_front depth) turns (tokens_view tokens.now)) }
{
    let Some((name, behind)) = passed_name(tokens) else {
        let rest = mark_of(Mark::OpenRound, tokens)?;
        return bracket_of(alloc, depth, rest);
    };
    let (place, rest) = place_of(alloc, depth, turns, name, behind)?;
    Ok((CExpr::Read(place), rest))
}

/// The place that begins with this name, behind the name.
#[cycle(expression)]
#[tactic(auto, unfolding(crate::specs::Trees::place_front))]
pub fn place_of<'a>(
    alloc: Global,
    depth: usize,
    turns: usize,
    name: &Word,
    tokens: &'a [Token],
) -> Result<(CPlace, &'a [Token]), TreeError>
    ensures { Gives (λ x. (x.0, tokens_view x.1.now)) result (place_front (number_front depth) turns name.now.bytes (tokens_view tokens.now)) }
{
    let (path, rest) = path_of(alloc, depth, turns, Items::new(alloc), tokens)?;
    let name = name.copy(alloc)?;
    Ok((CPlace { name, path }, rest))
}

/// The selectors of a place, behind those before.
#[cycle(expression)]
#[tactic(auto, unfolding(crate::specs::Trees::path_front))]
fn path_of(
    alloc: Global,
    depth: usize,
    turns: usize,
    path: Items<CStep>,
    tokens: &[Token],
) -> Result<(Items<CStep>, &[Token]), TreeError>
    ensures { Gives (λ x. (x.0, tokens_view x.1.now)) result (path_front (number_front depth) turns path (tokens_view tokens.now)) }
{
    let Some(left) = one_less(turns) else {
        return Ok((path, tokens));
    };
    if let Some(behind) = passed_mark(Mark::Dot, tokens) {
        let (member, rest) = name_of(alloc, behind)?;
        let path = with_step(path, CStep::Member(member))?;
        return path_of(alloc, depth, left, path, rest);
    }
    let Some(behind) = passed_mark(Mark::OpenSquare, tokens) else {
        return Ok((path, tokens));
    };
    let (index, rest) = number_then(alloc, depth, Mark::CloseSquare, behind)?;
    let path = with_step(path, CStep::At(index))?;
    path_of(alloc, depth, left, path, rest)
}

/// The selectors and one more.
fn with_step(mut path: Items<CStep>, step: CStep) -> Result<Items<CStep>, AllocError>
    ensures { IfOk result (λ longer. longer ≡ path ++ step ∷ []) }
{
    path.push(step)?;
    Ok(path)
}

/// What stands behind an open bracket, with its end.
#[cycle(expression)]
#[tactic(auto, unfolding(crate::specs::Trees::bracket_front))]
fn bracket_of(alloc: Global, depth: usize, tokens: &[Token]) -> Result<(CExpr, &[Token]), TreeError>
    ensures { Gives (λ x. (x.0, tokens_view x.1.now)) result (bracket_front (number_front depth) (tokens_view tokens.now)) }
{
    if let Some(rest) = least_of(tokens) {
        return Ok((CExpr::Number(i64::MIN), rest));
    }
    let (first, rest) = number_of(alloc, depth, tokens)?;
    behind_of(alloc, depth, first, rest)
}

/// What stands behind the first number of a bracket: its end, or a relation and what is chosen by it.
#[cycle(expression)]
#[tactic(auto, unfolding(crate::specs::Trees::behind_front))]
fn behind_of(
    alloc: Global,
    depth: usize,
    first: CExpr,
    tokens: &[Token],
) -> Result<(CExpr, &[Token]), TreeError>
    ensures { Gives (λ x. (x.0, tokens_view x.1.now)) result (behind_front (number_front depth) first (tokens_view tokens.now)) }
{
    if let Some(rest) = passed_mark(Mark::CloseRound, tokens) {
        return Ok((first, rest));
    }
    let (op, rest) = relation_of(tokens)?;
    choice_of(alloc, depth, first, op, rest)
}

/// Behind the relation of a bracket: its right side and the two numbers that are chosen from (C99 6.5.15).
#[cycle(expression)]
#[tactic(auto, unfolding(crate::specs::Trees::choice_front))]
fn choice_of(
    alloc: Global,
    depth: usize,
    left: CExpr,
    op: CRel,
    tokens: &[Token],
) -> Result<(CExpr, &[Token]), TreeError>
    ensures { Gives (λ x. (x.0, tokens_view x.1.now)) result (choice_front (number_front depth) left op (tokens_view tokens.now)) }
{
    let (right, rest) = number_then(alloc, depth, Mark::Question, tokens)?;
    let (first, rest) = number_then(alloc, depth, Mark::Colon, rest)?;
    let (second, rest) = number_then(alloc, depth, Mark::CloseRound, rest)?;
    let test = test(alloc, op, left, right)?;
    Ok((pick(alloc, test, first, second)?, rest))
}

/// A whole number and the mark behind it.
#[cycle(expression)]
#[tactic(auto, unfolding(crate::specs::Trees::number_then_front))]
pub fn number_then(
    alloc: Global,
    depth: usize,
    mark: Mark,
    tokens: &[Token],
) -> Result<(CExpr, &[Token]), TreeError>
    ensures { Gives (λ x. (x.0, tokens_view x.1.now)) result (number_then_front (number_front depth) (mark_view mark) (tokens_view tokens.now)) }
{
    let (number, rest) = number_of(alloc, depth, tokens)?;
    let rest = mark_of(mark, rest)?;
    Ok((number, rest))
}

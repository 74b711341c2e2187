//! The literals of a text, and the parts of expressions that hold boxed ones.
ghost use Rattle.std.specs.Prelude.{◌≡◌, ℕ, suc, ◌^◌, ◌<◌, pos, IfOk, IfSome, MatchOption, option_map};
ghost use Rattle.og_csubset.specs.declared.CExpr.{Minus, Op, Pick};
ghost use Rattle.og_csubset.specs.Reading.{negated};
ghost use Rattle.og_cread.specs.Trees.{literal_front, this_literal_front, sign_front, least_front, signed_literal_front};
ghost use Rattle.og_clex.specs.Views.{tokens_view};

use crate::take::{digits_of, passed_keyword, passed_mark};
use og_clex::{Keyword, Mark, Token};
use og_csubset::{CExpr, COp, CRel, CTest};
use og_names::NoMemory;
use sqlite_items::Boxed;
use std::alloc::Global;

/// One less than a number that is not 0.
pub fn one_less(n: usize) -> Option<usize>
    ensures { MatchOption result (n ≡ 0) (λ m. n ≡ suc m) }
{
    if n == 0 { None } else { Some(n - 1) }
}

/// The number of a literal, and the tokens behind it.
#[tactic(auto, unfolding(crate::specs::Trees::literal_front))]
pub fn literal_of(tokens: &[Token]) -> Option<(u64, &[Token])>
    ensures found { option_map (λ p. (p.0, tokens_view p.1.now)) result ≡ literal_front (tokens_view tokens.now) }
    ensures small { IfSome result (λ p. p.0 < 2 ^ 63) }
{
    let rest = passed_keyword(Keyword::Int64Literal, tokens)?;
    let rest = passed_mark(Mark::OpenRound, rest)?;
    let (number, rest) = digits_of(rest)?;
    let rest = passed_mark(Mark::CloseRound, rest)?;
    Some((number, rest))
}

/// The tokens behind a literal of this number.
#[tactic(auto, unfolding(crate::specs::Trees::this_literal_front))]
fn this_literal_of(number: u64, tokens: &[Token]) -> Option<&[Token]>
    ensures { option_map (λ rest. (tt, tokens_view rest.now)) result ≡ this_literal_front number (tokens_view tokens.now) }
{
    let (found, rest) = literal_of(tokens)?;
    if found == number { Some(rest) } else { None }
}

/// The tokens behind the sign `-`.
#[tactic(auto, unfolding(crate::specs::Trees::sign_front))]
pub fn sign_of(tokens: &[Token]) -> Option<&[Token]>
    ensures { option_map (λ rest. (tt, tokens_view rest.now)) result ≡ sign_front (tokens_view tokens.now) }
{
    match tokens {
        [Token::Operator(COp::Sub), rest @ ..] => Some(rest),
        _ => None,
    }
}

/// The tokens behind the text of -2^63, from behind its first bracket on.
#[tactic(auto, unfolding(crate::specs::Trees::least_front))]
pub fn least_of(tokens: &[Token]) -> Option<&[Token]>
    ensures { option_map (λ rest. (tt, tokens_view rest.now)) result ≡ least_front (tokens_view tokens.now) }
{
    let rest = sign_of(tokens)?;
    let rest = this_literal_of((1 << 63) - 1, rest)?;
    let rest = sign_of(rest)?;
    let rest = this_literal_of(1, rest)?;
    passed_mark(Mark::CloseRound, rest)
}

/// A literal with its sign, where there is one.
#[tactic(auto, unfolding(crate::specs::Trees::signed_literal_front))]
pub fn signed_literal_of(
    alloc: Global,
    tokens: &[Token],
) -> Result<Option<(CExpr, &[Token])>, NoMemory>
    ensures { IfOk result (λ found. option_map (λ p. (p.0, tokens_view p.1.now)) found ≡ signed_literal_front (tokens_view tokens.now)) }
{
    match sign_of(tokens) {
        None => match literal_of(tokens) {
            None => Ok(None),
            Some((number, rest)) => Ok(Some((positive(number), rest))),
        },
        Some(behind) => match literal_of(behind) {
            None => Ok(None),
            Some((number, rest)) => Ok(Some((negative(alloc, number)?, rest))),
        },
    }
}

/// A literal without a sign.
fn positive(number: u64) -> CExpr
    requires { number < 2 ^ 63 }
    ensures { result ≡ CExpr.Number (pos number) }
{
    CExpr::Number(number as i64)
}

/// A literal behind a sign. There is no number -0: that is the operation on 0 (C99 6.5.3.3).
fn negative(alloc: Global, number: u64) -> Result<CExpr, NoMemory>
    requires { number < 2 ^ 63 }
    ensures { IfOk result (λ e. e ≡ negated number) }
{
    if number == 0 {
        return minus(alloc, CExpr::Number(0));
    }
    Ok(CExpr::Number(-(number as i64)))
}

/// The negative of an expression.
pub fn minus(alloc: Global, inner: CExpr) -> Result<CExpr, NoMemory>
    ensures { IfOk result (λ e. e ≡ Minus inner) }
{
    Ok(CExpr::Minus(Boxed::new(alloc, inner)?))
}

/// An operation on two expressions.
pub fn operation(alloc: Global, op: COp, left: CExpr, right: CExpr) -> Result<CExpr, NoMemory>
    ensures { IfOk result (λ e. e ≡ Op op left right) }
{
    let left = Boxed::new(alloc, left)?;
    let right = Boxed::new(alloc, right)?;
    Ok(CExpr::Op(op, left, right))
}

/// A test of two expressions.
pub fn test(alloc: Global, op: CRel, left: CExpr, right: CExpr) -> Result<CTest, NoMemory>
    ensures { IfOk result (λ t. t ≡ record { op = op; left = left; right = right }) }
{
    let left = Boxed::new(alloc, left)?;
    let right = Boxed::new(alloc, right)?;
    Ok(CTest { op, left, right })
}

/// The first expression where the test holds, and otherwise the second.
pub fn pick(alloc: Global, test: CTest, first: CExpr, second: CExpr) -> Result<CExpr, NoMemory>
    ensures { IfOk result (λ e. e ≡ Pick test first second) }
{
    let first = Boxed::new(alloc, first)?;
    let second = Boxed::new(alloc, second)?;
    Ok(CExpr::Pick(test, first, second))
}

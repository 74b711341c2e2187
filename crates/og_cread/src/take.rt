//! What stands in front of a list of tokens: a mark, a keyword, a name, a number, a relation or an operator.
ghost use Rattle.std.specs.Prelude.{◌≡◌, ◌^◌, ◌<◌, IfSome, option_map};
ghost use Rattle.og_csubset.specs.Spelling.{is_sum, is_product};
ghost use Rattle.og_cread.specs.Trees.{Gives, IsOutOfMemory, mark_at, keyword_at, name_at, digits_at, relation_at, operator_at};
ghost use Rattle.og_clex.specs.Views.{tokens_view, keyword_view, mark_view};
ghost use Rattle.og_cread.specs.declared.take.TreeError.TheVariants.{NoMemory as OutOfMemory};

use og_clex::{Keyword, Mark, Token, is_keyword, is_mark};
use og_csubset::{COp, CRel};
use og_names::{NoMemory, Word};
use std::alloc::{AllocError, Global};

/// Why tokens give no tree: none begins with them, or memory could not be had.
#[derive(Clone, Copy, Debug, PartialEq, Eq)]
pub enum TreeError {
    NoTree,
    NoMemory(NoMemory),
}

impl From<AllocError> for TreeError {
    ghost from_gives = { λ _ error. IsOutOfMemory error };

    fn from(error: AllocError) -> TreeError {
        TreeError::NoMemory(NoMemory::from(error))
    }
}

impl From<NoMemory> for TreeError {
    ghost from_gives = { λ met error. error ≡ OutOfMemory met };

    fn from(met: NoMemory) -> TreeError {
        TreeError::NoMemory(met)
    }
}

/// The tokens behind this mark.
#[tactic(auto, unfolding(crate::specs::Trees::mark_at))]
pub fn passed_mark(mark: Mark, tokens: &[Token]) -> Option<&[Token]>
    ensures { option_map (λ rest. (tt, tokens_view rest.now)) result ≡ mark_at (mark_view mark) (tokens_view tokens.now) }
{
    match tokens {
        [first, rest @ ..] if is_mark(mark, first) => Some(rest),
        _ => None,
    }
}

/// The same, where the mark has to stand there.
pub fn mark_of(mark: Mark, tokens: &[Token]) -> Result<&[Token], TreeError>
    ensures { Gives (λ rest. (tt, tokens_view rest.now)) result (mark_at (mark_view mark) (tokens_view tokens.now)) }
{
    match passed_mark(mark, tokens) {
        Some(rest) => Ok(rest),
        None => Err(TreeError::NoTree),
    }
}

/// The tokens behind this keyword.
#[tactic(auto, unfolding(crate::specs::Trees::keyword_at))]
pub fn passed_keyword(keyword: Keyword, tokens: &[Token]) -> Option<&[Token]>
    ensures { option_map (λ rest. (tt, tokens_view rest.now)) result ≡ keyword_at (keyword_view keyword) (tokens_view tokens.now) }
{
    match tokens {
        [first, rest @ ..] if is_keyword(keyword, first) => Some(rest),
        _ => None,
    }
}

/// The same, where the keyword has to stand there.
pub fn keyword_of(keyword: Keyword, tokens: &[Token]) -> Result<&[Token], TreeError>
    ensures { Gives (λ rest. (tt, tokens_view rest.now)) result (keyword_at (keyword_view keyword) (tokens_view tokens.now)) }
{
    match passed_keyword(keyword, tokens) {
        Some(rest) => Ok(rest),
        None => Err(TreeError::NoTree),
    }
}

/// The name in front.
#[tactic(auto, unfolding(crate::specs::Trees::name_at))]
pub fn passed_name(tokens: &[Token]) -> Option<(&Word, &[Token])>
    ensures { option_map (λ p. (p.0.now.bytes, tokens_view p.1.now)) result ≡ name_at (tokens_view tokens.now) }
{
    match tokens {
        [Token::Name(word), rest @ ..] => Some((word, rest)),
        _ => None,
    }
}

/// A copy of the name in front.
pub fn name_of(alloc: Global, tokens: &[Token]) -> Result<(Word, &[Token]), TreeError>
    ensures { Gives (λ x. (x.0.bytes, tokens_view x.1.now)) result (name_at (tokens_view tokens.now)) }
{
    match passed_name(tokens) {
        Some((word, rest)) => Ok((word.copy(alloc)?, rest)),
        None => Err(TreeError::NoTree),
    }
}

/// The number in front, which is below 2^63.
#[tactic(auto, unfolding(crate::specs::Trees::digits_at))]
pub fn digits_of(tokens: &[Token]) -> Option<(u64, &[Token])>
    ensures found { option_map (λ p. (p.0, tokens_view p.1.now)) result ≡ digits_at (tokens_view tokens.now) }
    ensures small { IfSome result (λ p. p.0 < 2 ^ 63) }
{
    match tokens {
        [Token::Number(digits), rest @ ..] => Some((digits.value, rest)),
        _ => None,
    }
}

/// The relation in front.
#[tactic(auto, unfolding(crate::specs::Trees::relation_at))]
pub fn relation_of(tokens: &[Token]) -> Result<(CRel, &[Token]), TreeError>
    ensures { Gives (λ x. (x.0, tokens_view x.1.now)) result (relation_at (tokens_view tokens.now)) }
{
    match tokens {
        [Token::Relation(op), rest @ ..] => Ok((*op, rest)),
        _ => Err(TreeError::NoTree),
    }
}

/// The operator of a sum in front.
#[tactic(auto, unfolding(crate::specs::Trees::operator_at))]
pub fn sum_operator(tokens: &[Token]) -> Option<(COp, &[Token])>
    ensures { option_map (λ p. (p.0, tokens_view p.1.now)) result ≡ operator_at is_sum (tokens_view tokens.now) }
{
    match tokens {
        [Token::Operator(op @ (COp::Add | COp::Sub)), rest @ ..] => Some((*op, rest)),
        _ => None,
    }
}

/// The operator of a product in front.
#[tactic(auto, unfolding(crate::specs::Trees::operator_at))]
pub fn product_operator(tokens: &[Token]) -> Option<(COp, &[Token])>
    ensures { option_map (λ p. (p.0, tokens_view p.1.now)) result ≡ operator_at is_product (tokens_view tokens.now) }
{
    match tokens {
        [
            Token::Operator(op @ (COp::Mul | COp::Div | COp::Rem)),
            rest @ ..,
        ] => Some((*op, rest)),
        _ => None,
    }
}

//! Statements (C99 6.8). `depth` bounds how many brackets stand one inside the other, and how often a repetition goes round.
ghost use Rattle.std.specs.Prelude.{◌≡◌, option_map};
ghost use Rattle.og_csubset.specs.Reading.{each_at};
ghost use Rattle.og_cread.specs.Trees.{Gives, label_front, jump_front, constant_front, case_front, assign_front, call_front, named_front, if_front, default_front, switch_front, word_statement_front, statement_front};
ghost use Rattle.og_clex.specs.Views.{tokens_view};

use crate::expression::{number_then, place_of, test_of};
use crate::number::{least_of, literal_of, sign_of};
use crate::take::{
    TreeError, keyword_of, mark_of, name_of, passed_keyword, passed_mark, passed_name,
};
use og_clex::{Keyword, Mark, Token};
use og_csubset::{CCase, CStmt};
use og_names::Word;
use sqlite_items::Items;
use std::alloc::Global;

/// The statements in front.
#[tactic(auto, using(crate::proofs::Turns::turns))]
pub fn statements_of(
    alloc: Global,
    depth: usize,
    tokens: &[Token],
) -> Result<(Items<CStmt>, &[Token]), TreeError>
    ensures { Gives (λ x. (x.0, tokens_view x.1.now)) result (each_at (statement_front depth) depth (tokens_view tokens.now)) }
{
    let mut statements = Items::new(alloc);
    let mut rest = tokens;
    for _ in 0..depth {
        match statement_of(alloc, depth, rest) {
            Ok((statement, behind)) => {
                statements.push(statement)?;
                rest = behind;
            }
            Err(TreeError::NoTree) => return Ok((statements, rest)),
            Err(TreeError::NoMemory(met)) => return Err(TreeError::NoMemory(met)),
        }
    }
    Ok((statements, rest))
}

/// A statement.
#[tactic(auto, unfolding(crate::specs::Trees::statement_front))]
fn statement_of(
    alloc: Global,
    depth: usize,
    tokens: &[Token],
) -> Result<(CStmt, &[Token]), TreeError>
    ensures { Gives (λ x. (x.0, tokens_view x.1.now)) result (statement_front depth (tokens_view tokens.now)) }
{
    match passed_name(tokens) {
        Some((name, behind)) => named_of(alloc, depth, name, behind),
        None => word_statement_of(alloc, depth, tokens),
    }
}

/// A statement that begins with a word of C99.
#[tactic(auto, unfolding(crate::specs::Trees::word_statement_front))]
fn word_statement_of(
    alloc: Global,
    depth: usize,
    tokens: &[Token],
) -> Result<(CStmt, &[Token]), TreeError>
    ensures { Gives (λ x. (x.0, tokens_view x.1.now)) result (word_statement_front depth (tokens_view tokens.now)) }
{
    if let Some(behind) = passed_keyword(Keyword::Goto, tokens) {
        let (label, rest) = label_of(alloc, behind)?;
        return Ok((CStmt::Goto(label), rest));
    }
    if let Some(behind) = passed_keyword(Keyword::If, tokens) {
        return if_of(alloc, depth, behind);
    }
    if let Some(behind) = passed_keyword(Keyword::Switch, tokens) {
        return switch_of(alloc, depth, behind);
    }
    let rest = keyword_of(Keyword::Return, tokens)?;
    let rest = mark_of(Mark::Semicolon, rest)?;
    Ok((CStmt::Return, rest))
}

/// A statement that begins with this name, behind the name: a label, a call or an assignment.
#[tactic(auto, unfolding(crate::specs::Trees::named_front))]
fn named_of<'a>(
    alloc: Global,
    depth: usize,
    name: &Word,
    tokens: &'a [Token],
) -> Result<(CStmt, &'a [Token]), TreeError>
    ensures { Gives (λ x. (x.0, tokens_view x.1.now)) result (named_front depth name.now.bytes (tokens_view tokens.now)) }
{
    if let Some(behind) = passed_mark(Mark::Colon, tokens) {
        let rest = mark_of(Mark::Semicolon, behind)?;
        return Ok((CStmt::Label(name.copy(alloc)?), rest));
    }
    if let Some(behind) = passed_mark(Mark::OpenRound, tokens) {
        return call_of(alloc, name, behind);
    }
    assign_of(alloc, depth, name, tokens)
}

/// A call, behind its open bracket.
#[tactic(auto, unfolding(crate::specs::Trees::call_front))]
fn call_of<'a>(
    alloc: Global,
    name: &Word,
    tokens: &'a [Token],
) -> Result<(CStmt, &'a [Token]), TreeError>
    ensures { Gives (λ x. (x.0, tokens_view x.1.now)) result (call_front name.now.bytes (tokens_view tokens.now)) }
{
    let rest = mark_of(Mark::CloseRound, tokens)?;
    let rest = mark_of(Mark::Semicolon, rest)?;
    Ok((CStmt::Call(name.copy(alloc)?), rest))
}

/// An assignment, behind the name of its target.
#[tactic(auto, unfolding(crate::specs::Trees::assign_front))]
fn assign_of<'a>(
    alloc: Global,
    depth: usize,
    name: &Word,
    tokens: &'a [Token],
) -> Result<(CStmt, &'a [Token]), TreeError>
    ensures { Gives (λ x. (x.0, tokens_view x.1.now)) result (assign_front depth name.now.bytes (tokens_view tokens.now)) }
{
    let (place, rest) = place_of(alloc, depth, depth, name, tokens)?;
    let rest = mark_of(Mark::Equals, rest)?;
    let (number, rest) = number_then(alloc, depth, Mark::Semicolon, rest)?;
    Ok((CStmt::Assign(place, number), rest))
}

/// A jump under a test, behind its first word.
#[tactic(auto, unfolding(crate::specs::Trees::if_front))]
fn if_of(alloc: Global, depth: usize, tokens: &[Token]) -> Result<(CStmt, &[Token]), TreeError>
    ensures { Gives (λ x. (x.0, tokens_view x.1.now)) result (if_front depth (tokens_view tokens.now)) }
{
    let rest = mark_of(Mark::OpenRound, tokens)?;
    let (test, rest) = test_of(alloc, depth, rest)?;
    let rest = mark_of(Mark::CloseRound, rest)?;
    let (label, rest) = jump_of(alloc, rest)?;
    Ok((CStmt::IfGoto(test, label), rest))
}

/// A jump by cases, behind its first word.
#[tactic(auto, unfolding(crate::specs::Trees::switch_front))]
fn switch_of(alloc: Global, depth: usize, tokens: &[Token]) -> Result<(CStmt, &[Token]), TreeError>
    ensures { Gives (λ x. (x.0, tokens_view x.1.now)) result (switch_front depth (tokens_view tokens.now)) }
{
    let rest = mark_of(Mark::OpenRound, tokens)?;
    let (number, rest) = number_then(alloc, depth, Mark::CloseRound, rest)?;
    let rest = mark_of(Mark::OpenBrace, rest)?;
    let (cases, rest) = cases_of(alloc, depth, rest)?;
    let (otherwise, rest) = default_of(alloc, rest)?;
    Ok((CStmt::Switch(number, cases, otherwise), rest))
}

/// The cases in front.
#[tactic(auto, using(crate::proofs::Turns::turns))]
fn cases_of(
    alloc: Global,
    turns: usize,
    tokens: &[Token],
) -> Result<(Items<CCase>, &[Token]), TreeError>
    ensures { Gives (λ x. (x.0, tokens_view x.1.now)) result (each_at case_front turns (tokens_view tokens.now)) }
{
    let mut cases = Items::new(alloc);
    let mut rest = tokens;
    for _ in 0..turns {
        match case_of(alloc, rest) {
            Ok((case, behind)) => {
                cases.push(case)?;
                rest = behind;
            }
            Err(TreeError::NoTree) => return Ok((cases, rest)),
            Err(TreeError::NoMemory(met)) => return Err(TreeError::NoMemory(met)),
        }
    }
    Ok((cases, rest))
}

/// A case: case constant : goto name ;
#[tactic(auto, unfolding(crate::specs::Trees::case_front))]
fn case_of(alloc: Global, tokens: &[Token]) -> Result<(CCase, &[Token]), TreeError>
    ensures { Gives (λ x. (x.0, tokens_view x.1.now)) result (case_front (tokens_view tokens.now)) }
{
    let rest = keyword_of(Keyword::Case, tokens)?;
    let Some((value, rest)) = constant_of(rest) else {
        return Err(TreeError::NoTree);
    };
    let rest = mark_of(Mark::Colon, rest)?;
    let (label, rest) = jump_of(alloc, rest)?;
    Ok((CCase { value, label }, rest))
}

/// The label of the last case, with the end of the statement.
#[tactic(auto, unfolding(crate::specs::Trees::default_front))]
fn default_of(alloc: Global, tokens: &[Token]) -> Result<(Word, &[Token]), TreeError>
    ensures { Gives (λ x. (x.0.bytes, tokens_view x.1.now)) result (default_front (tokens_view tokens.now)) }
{
    let rest = keyword_of(Keyword::Default, tokens)?;
    let rest = mark_of(Mark::Colon, rest)?;
    let (label, rest) = jump_of(alloc, rest)?;
    let rest = mark_of(Mark::CloseBrace, rest)?;
    Ok((label, rest))
}

/// goto name ;
#[tactic(auto, unfolding(crate::specs::Trees::jump_front))]
fn jump_of(alloc: Global, tokens: &[Token]) -> Result<(Word, &[Token]), TreeError>
    ensures { Gives (λ x. (x.0.bytes, tokens_view x.1.now)) result (jump_front (tokens_view tokens.now)) }
{
    let rest = keyword_of(Keyword::Goto, tokens)?;
    label_of(alloc, rest)
}

/// name ;
#[tactic(auto, unfolding(crate::specs::Trees::label_front))]
pub fn label_of(alloc: Global, tokens: &[Token]) -> Result<(Word, &[Token]), TreeError>
    ensures { Gives (λ x. (x.0.bytes, tokens_view x.1.now)) result (label_front (tokens_view tokens.now)) }
{
    let (label, rest) = name_of(alloc, tokens)?;
    let rest = mark_of(Mark::Semicolon, rest)?;
    Ok((label, rest))
}

/// The number of a case.
#[tactic(auto, unfolding(crate::specs::Trees::constant_front))]
fn constant_of(tokens: &[Token]) -> Option<(i64, &[Token])>
    ensures { option_map (λ p. (p.0, tokens_view p.1.now)) result ≡ constant_front (tokens_view tokens.now) }
{
    if let Some(behind) = sign_of(tokens) {
        let (number, rest) = literal_of(behind)?;
        return Some((-(number as i64), rest));
    }
    if let Some(behind) = passed_mark(Mark::OpenRound, tokens) {
        let rest = least_of(behind)?;
        return Some((i64::MIN, rest));
    }
    let (number, rest) = literal_of(tokens)?;
    Some((number as i64, rest))
}

//! A machine that takes the tokens of a program one after the other, with what is still to come on a stack. It builds no
//! tree and knows no levels of operators. A token that it refuses is the first with which no program goes on.
ghost use Rattle.std.specs.Prelude.{◌≡◌, ◌++◌, [], Some, None, if◌then◌else◌, option_map, IfOk, OnOk};
ghost use Rattle.og_clex.specs.Moves.{is_keyword, is_mark};
ghost use Rattle.og_csubset.specs.Recognizer.{a_member, members, globals};
ghost use Rattle.og_csubset.specs.Recognizer.{next, next_keyword, next_mark, next_this, next_size, next_relation, next_name, next_number, next_sign, next_path, next_bracket, next_sum, next_operand, next_more, next_constant, next_cases, next_named, next_statements, next_typed, next_member_rest, next_structs, next_head, next_declarations, next_functions, step, may_end, is_empty};
ghost use Rattle.og_clex.specs.Views.{token_view, keyword_view, mark_view, symbol_view, symbols_view};
ghost use Rattle.og_clex.specs.Moves.{coming, Steps};

use crate::token::{Keyword, Mark, Token};
use og_csubset::COp;
use std::alloc::AllocError;

/// What may be still to come of a program: one token, or a part of the grammar.
#[derive(Clone, Copy, Debug, PartialEq, Eq)]
pub enum Symbol {
    Keyword(Keyword),
    Mark(Mark),
    Sign,
    Name,
    Number,
    ThisNumber(u64),
    Size,
    Relation,
    Sum,
    /// The operators and operands behind an operand.
    More,
    Operand,
    Path,
    BracketRest,
    Constant,
    Cases,
    NamedRest,
    Statements,
    MemberRest,
    Member,
    Members,
    Structs,
    Globals,
    HeadRest,
    Declarations,
    Functions,
}

/// The symbols that come in place of this one behind the token, or None where no text of the symbol begins with it.
fn next(symbol: Symbol, token: &Token) -> Option<&'static [Symbol]>
    ensures { option_map (λ s. symbols_view s.now) result ≡ next (symbol_view symbol) (token_view token.now) }
{
    match symbol {
        Symbol::Keyword(keyword) => alone(is_keyword(keyword, token)),
        Symbol::Mark(mark) => alone(is_mark(mark, token)),
        Symbol::Sign => alone(matches!(token, Token::Operator(COp::Sub))),
        Symbol::Name => alone(matches!(token, Token::Name(_))),
        Symbol::Number => alone(matches!(token, Token::Number(_))),
        Symbol::ThisNumber(number) => alone(
            matches!(token, Token::Number(found) if found.value == number),
        ),
        Symbol::Size => alone(
            matches!(token, Token::Number(found) if found.value > 0 && found.value <= 65536),
        ),
        Symbol::Relation => alone(matches!(token, Token::Relation(_))),
        Symbol::Sum => next_sum(token),
        Symbol::More => next_more(token),
        Symbol::Operand => next_operand(token),
        Symbol::Path => next_path(token),
        Symbol::BracketRest => next_bracket(token),
        Symbol::Constant => next_constant(token),
        Symbol::Cases => next_cases(token),
        Symbol::NamedRest => next_named(token),
        Symbol::Statements => next_statements(token),
        Symbol::MemberRest => next_member_rest(token),
        Symbol::Member => next_member(token),
        Symbol::Members => next_members(token),
        Symbol::Structs => next_structs(token),
        Symbol::Globals => next_globals(token),
        Symbol::HeadRest => next_head(token),
        Symbol::Declarations => next_declarations(token),
        Symbol::Functions => next_functions(token),
    }
}

/// Nothing comes behind a token that is the whole text of its symbol.
fn alone(taken: bool) -> Option<&'static [Symbol]>
    ensures { option_map (λ s. symbols_view s.now) result ≡ if taken then Some [] else None }
{
    if taken { Some(&[]) } else { None }
}

#[tactic(auto, using(crate::proofs::Same::same_keyword))]
pub fn is_keyword(keyword: Keyword, token: &Token) -> bool
    ensures { result ≡ is_keyword (keyword_view keyword) (token_view token.now) }
{
    matches!(token, Token::Keyword(found) if keyword == *found)
}

#[tactic(auto, using(crate::proofs::Same::same_mark))]
pub fn is_mark(mark: Mark, token: &Token) -> bool
    ensures { result ≡ is_mark (mark_view mark) (token_view token.now) }
{
    matches!(token, Token::Mark(found) if mark == *found)
}

/// A whole number: a sign or an operand.
fn next_sum(token: &Token) -> Option<&'static [Symbol]>
    ensures { option_map (λ s. symbols_view s.now) result ≡ next_sum (token_view token.now) }
{
    match token {
        Token::Operator(COp::Sub) => Some(&[Symbol::Operand, Symbol::More]),
        Token::Name(_) => Some(&[Symbol::Path, Symbol::More]),
        Token::Keyword(Keyword::Int64Literal) => Some(&[
            Symbol::Mark(Mark::OpenRound),
            Symbol::Number,
            Symbol::Mark(Mark::CloseRound),
            Symbol::More,
        ]),
        Token::Mark(Mark::OpenRound) => Some(&[Symbol::Sum, Symbol::BracketRest, Symbol::More]),
        _ => None,
    }
}

/// The operators and operands behind an operand.
fn next_more(token: &Token) -> Option<&'static [Symbol]>
    ensures { option_map (λ s. symbols_view s.now) result ≡ next_more (token_view token.now) }
{
    match token {
        Token::Operator(_) => Some(&[Symbol::Sum]),
        _ => None,
    }
}

/// An operand without a sign.
fn next_operand(token: &Token) -> Option<&'static [Symbol]>
    ensures { option_map (λ s. symbols_view s.now) result ≡ next_operand (token_view token.now) [] }
{
    match token {
        Token::Name(_) => Some(&[Symbol::Path]),
        Token::Keyword(Keyword::Int64Literal) => Some(&[
            Symbol::Mark(Mark::OpenRound),
            Symbol::Number,
            Symbol::Mark(Mark::CloseRound),
        ]),
        Token::Mark(Mark::OpenRound) => Some(&[Symbol::Sum, Symbol::BracketRest]),
        _ => None,
    }
}

/// The selectors of a place.
fn next_path(token: &Token) -> Option<&'static [Symbol]>
    ensures { option_map (λ s. symbols_view s.now) result ≡ next_path (token_view token.now) }
{
    match token {
        Token::Mark(Mark::Dot) => Some(&[Symbol::Name, Symbol::Path]),
        Token::Mark(Mark::OpenSquare) => Some(&[
            Symbol::Sum,
            Symbol::Mark(Mark::CloseSquare),
            Symbol::Path,
        ]),
        _ => None,
    }
}

/// A bracket behind its first number: it ends, or a choice goes on.
fn next_bracket(token: &Token) -> Option<&'static [Symbol]>
    ensures { option_map (λ s. symbols_view s.now) result ≡ next_bracket (token_view token.now) }
{
    match token {
        Token::Mark(Mark::CloseRound) => Some(&[]),
        Token::Relation(_) => Some(&[
            Symbol::Sum,
            Symbol::Mark(Mark::Question),
            Symbol::Sum,
            Symbol::Mark(Mark::Colon),
            Symbol::Sum,
            Symbol::Mark(Mark::CloseRound),
        ]),
        _ => None,
    }
}

/// The number of a case.
fn next_constant(token: &Token) -> Option<&'static [Symbol]>
    ensures { option_map (λ s. symbols_view s.now) result ≡ next_constant (token_view token.now) }
{
    match token {
        Token::Operator(COp::Sub) => Some(&[
            Symbol::Keyword(Keyword::Int64Literal),
            Symbol::Mark(Mark::OpenRound),
            Symbol::Number,
            Symbol::Mark(Mark::CloseRound),
        ]),
        Token::Keyword(Keyword::Int64Literal) => Some(&[
            Symbol::Mark(Mark::OpenRound),
            Symbol::Number,
            Symbol::Mark(Mark::CloseRound),
        ]),
        Token::Mark(Mark::OpenRound) => Some(&[
            Symbol::Sign,
            Symbol::Keyword(Keyword::Int64Literal),
            Symbol::Mark(Mark::OpenRound),
            Symbol::ThisNumber(9223372036854775807),
            Symbol::Mark(Mark::CloseRound),
            Symbol::Sign,
            Symbol::Keyword(Keyword::Int64Literal),
            Symbol::Mark(Mark::OpenRound),
            Symbol::ThisNumber(1),
            Symbol::Mark(Mark::CloseRound),
            Symbol::Mark(Mark::CloseRound),
        ]),
        _ => None,
    }
}

/// The cases of a switch.
fn next_cases(token: &Token) -> Option<&'static [Symbol]>
    ensures { option_map (λ s. symbols_view s.now) result ≡ next_cases (token_view token.now) }
{
    match token {
        Token::Keyword(Keyword::Case) => Some(&[
            Symbol::Constant,
            Symbol::Mark(Mark::Colon),
            Symbol::Keyword(Keyword::Goto),
            Symbol::Name,
            Symbol::Mark(Mark::Semicolon),
            Symbol::Cases,
        ]),
        _ => None,
    }
}

/// A statement behind the name that it begins with: a label, a call or an assignment.
fn next_named(token: &Token) -> Option<&'static [Symbol]>
    ensures { option_map (λ s. symbols_view s.now) result ≡ next_named (token_view token.now) }
{
    match token {
        Token::Mark(Mark::Colon) => Some(&[Symbol::Mark(Mark::Semicolon)]),
        Token::Mark(Mark::OpenRound) => Some(&[
            Symbol::Mark(Mark::CloseRound),
            Symbol::Mark(Mark::Semicolon),
        ]),
        Token::Mark(Mark::Dot) => Some(&[
            Symbol::Name,
            Symbol::Path,
            Symbol::Mark(Mark::Equals),
            Symbol::Sum,
            Symbol::Mark(Mark::Semicolon),
        ]),
        Token::Mark(Mark::OpenSquare) => Some(&[
            Symbol::Sum,
            Symbol::Mark(Mark::CloseSquare),
            Symbol::Path,
            Symbol::Mark(Mark::Equals),
            Symbol::Sum,
            Symbol::Mark(Mark::Semicolon),
        ]),
        Token::Mark(Mark::Equals) => Some(&[Symbol::Sum, Symbol::Mark(Mark::Semicolon)]),
        _ => None,
    }
}

/// The statements of a function.
fn next_statements(token: &Token) -> Option<&'static [Symbol]>
    ensures { option_map (λ s. symbols_view s.now) result ≡ next_statements (token_view token.now) }
{
    match token {
        Token::Name(_) => Some(&[Symbol::NamedRest, Symbol::Statements]),
        Token::Keyword(Keyword::Goto) => Some(&[
            Symbol::Name,
            Symbol::Mark(Mark::Semicolon),
            Symbol::Statements,
        ]),
        Token::Keyword(Keyword::If) => Some(&[
            Symbol::Mark(Mark::OpenRound),
            Symbol::Sum,
            Symbol::Relation,
            Symbol::Sum,
            Symbol::Mark(Mark::CloseRound),
            Symbol::Keyword(Keyword::Goto),
            Symbol::Name,
            Symbol::Mark(Mark::Semicolon),
            Symbol::Statements,
        ]),
        Token::Keyword(Keyword::Switch) => Some(&[
            Symbol::Mark(Mark::OpenRound),
            Symbol::Sum,
            Symbol::Mark(Mark::CloseRound),
            Symbol::Mark(Mark::OpenBrace),
            Symbol::Cases,
            Symbol::Keyword(Keyword::Default),
            Symbol::Mark(Mark::Colon),
            Symbol::Keyword(Keyword::Goto),
            Symbol::Name,
            Symbol::Mark(Mark::Semicolon),
            Symbol::Mark(Mark::CloseBrace),
            Symbol::Statements,
        ]),
        Token::Keyword(Keyword::Return) => Some(&[
            Symbol::Mark(Mark::Semicolon),
            Symbol::Statements,
        ]),
        _ => None,
    }
}

/// A member behind its name.
fn next_member_rest(token: &Token) -> Option<&'static [Symbol]>
    ensures { option_map (λ s. symbols_view s.now) result ≡ next_member_rest (token_view token.now) }
{
    match token {
        Token::Mark(Mark::Semicolon) => Some(&[]),
        Token::Mark(Mark::OpenSquare) => Some(&[
            Symbol::Size,
            Symbol::Mark(Mark::CloseSquare),
            Symbol::Mark(Mark::Semicolon),
        ]),
        _ => None,
    }
}

/// A member.
fn next_member(token: &Token) -> Option<&'static [Symbol]>
    ensures { option_map (λ s. symbols_view s.now) result ≡ next a_member (token_view token.now) }
{
    match token {
        Token::Name(_) => Some(&[Symbol::Name, Symbol::MemberRest]),
        Token::Keyword(Keyword::Int64Type) => Some(&[Symbol::Name, Symbol::MemberRest]),
        _ => None,
    }
}

/// Further members.
fn next_members(token: &Token) -> Option<&'static [Symbol]>
    ensures { option_map (λ s. symbols_view s.now) result ≡ next members (token_view token.now) }
{
    match token {
        Token::Name(_) => Some(&[Symbol::Name, Symbol::MemberRest, Symbol::Members]),
        Token::Keyword(Keyword::Int64Type) => Some(&[
            Symbol::Name,
            Symbol::MemberRest,
            Symbol::Members,
        ]),
        _ => None,
    }
}

/// The structs.
fn next_structs(token: &Token) -> Option<&'static [Symbol]>
    ensures { option_map (λ s. symbols_view s.now) result ≡ next_structs (token_view token.now) }
{
    match token {
        Token::Keyword(Keyword::Typedef) => Some(&[
            Symbol::Keyword(Keyword::Struct),
            Symbol::Mark(Mark::OpenBrace),
            Symbol::Member,
            Symbol::Members,
            Symbol::Mark(Mark::CloseBrace),
            Symbol::Name,
            Symbol::Mark(Mark::Semicolon),
            Symbol::Structs,
        ]),
        _ => None,
    }
}

/// The globals.
fn next_globals(token: &Token) -> Option<&'static [Symbol]>
    ensures { option_map (λ s. symbols_view s.now) result ≡ next globals (token_view token.now) }
{
    match token {
        Token::Name(_) => Some(&[Symbol::Name, Symbol::Mark(Mark::Semicolon), Symbol::Globals]),
        Token::Keyword(Keyword::Int64Type) => Some(&[
            Symbol::Name,
            Symbol::Mark(Mark::Semicolon),
            Symbol::Globals,
        ]),
        _ => None,
    }
}

/// An event or a function behind its head.
fn next_head(token: &Token) -> Option<&'static [Symbol]>
    ensures { option_map (λ s. symbols_view s.now) result ≡ next_head (token_view token.now) }
{
    match token {
        Token::Mark(Mark::Semicolon) => Some(&[Symbol::Declarations]),
        Token::Mark(Mark::OpenBrace) => Some(&[
            Symbol::Statements,
            Symbol::Mark(Mark::CloseBrace),
            Symbol::Functions,
        ]),
        _ => None,
    }
}

/// The events and functions.
fn next_declarations(token: &Token) -> Option<&'static [Symbol]>
    ensures { option_map (λ s. symbols_view s.now) result ≡ next_declarations (token_view token.now) }
{
    match token {
        Token::Keyword(Keyword::Void) => Some(&[
            Symbol::Name,
            Symbol::Mark(Mark::OpenRound),
            Symbol::Keyword(Keyword::Void),
            Symbol::Mark(Mark::CloseRound),
            Symbol::HeadRest,
        ]),
        _ => None,
    }
}

/// The functions behind the first one.
fn next_functions(token: &Token) -> Option<&'static [Symbol]>
    ensures { option_map (λ s. symbols_view s.now) result ≡ next_functions (token_view token.now) }
{
    match token {
        Token::Keyword(Keyword::Void) => Some(&[
            Symbol::Name,
            Symbol::Mark(Mark::OpenRound),
            Symbol::Keyword(Keyword::Void),
            Symbol::Mark(Mark::CloseRound),
            Symbol::Mark(Mark::OpenBrace),
            Symbol::Statements,
            Symbol::Mark(Mark::CloseBrace),
            Symbol::Functions,
        ]),
        _ => None,
    }
}

/// Whether nothing is one of the symbol's texts.
fn is_empty(symbol: Symbol) -> bool
    ensures { result ≡ is_empty (symbol_view symbol) }
{
    matches!(
        symbol,
        Symbol::More
            | Symbol::Path
            | Symbol::Cases
            | Symbol::Statements
            | Symbol::Members
            | Symbol::Structs
            | Symbol::Globals
            | Symbol::Declarations
            | Symbol::Functions
    )
}

/// Takes the token where some program goes on with it. The stack holds what is still to come, the next symbol last; where
/// the token is refused the stack is of no more use.
#[tactic(auto, using(crate::proofs::Stacks::stacks))]
pub fn step(stack: &mut Vec<Symbol>, token: &Token) -> Result<bool, AllocError>
    ensures { IfOk result (λ taken. Steps taken (step (coming stack.old.items) (token_view token.now)) (coming stack.new.items)) }
{
    while let Some(symbol) = stack.pop() {
        if let Some(symbols) = next(symbol, token) {
            push_all(stack, symbols)?;
            return Ok(true);
        }
        if !is_empty(symbol) {
            return Ok(false);
        }
    }
    Ok(false)
}

/// Puts the symbols on the stack, the first one on top.
#[tactic(auto, using(crate::proofs::Stacks::stacks))]
pub fn push_all(stack: &mut Vec<Symbol>, symbols: &[Symbol]) -> Result<(), AllocError>
    ensures { OnOk result (coming stack.new.items ≡ symbols_view symbols.now ++ coming stack.old.items) }
{
    for symbol in symbols.iter().copied().rev() {
        stack.push(symbol)?;
    }
    Ok(())
}

/// Whether a program may end here. The stack is used up.
#[tactic(auto, using(crate::proofs::Stacks::stacks))]
pub fn may_end(stack: &mut Vec<Symbol>) -> bool
    ensures { result ≡ may_end (coming stack.old.items) }
{
    while let Some(symbol) = stack.pop() {
        if !is_empty(symbol) {
            return false;
        }
    }
    true
}

//! What stands in brackets behind a type: a range, a size or something else.
ghost use Rattle.std.specs.Prelude.{◌≡◌, Option, Some, None, IfOk};
ghost use Rattle.std.specs.Option.{option_map, option_copied};
ghost use Rattle.og_flat.specs.Limits.{read_front, bound_in, negative_bound, read_range, with_second, range_front, range_in, closed, size_in, limits_in, limits_of, limits_of_size, or_size};

use crate::flat::{Bound, Limits, Range};
use og_asn1::kind::{VALUE_NAME, kind_of};
use og_asn1::{RunTree, SizeTree, named};
use og_lexer::{AsnKeyword, AsnMark, Spanned, Token};
use og_names::NoMemory;
use std::alloc::Global;

/// A bound, and the tokens behind it.
#[derive(Drop)]
pub struct Front<'a> {
    pub bound: Bound,
    pub rest: &'a [Spanned],
}

/// The bound in front: a number with or without a sign, or the name of a constant.
fn bound_in<'a>(alloc: Global, tokens: &'a [Spanned]) -> Result<Option<Front<'a>>, NoMemory>
    ensures { IfOk result (λ front. option_map read_front front ≡ bound_in tokens.now) }
{
    let [first, rest @ ..] = tokens else {
        return Ok(None);
    };
    match &first.token {
        Token::Number(digits) => {
            let bound = Bound::Number {
                is_negative: false,
                digits: *digits,
            };
            Ok(Some(Front { bound, rest }))
        }
        Token::AsnMark(AsnMark::Hyphen) => Ok(negative_bound(rest)),
        Token::Name(word) => {
            if kind_of(&first.token) != VALUE_NAME {
                return Ok(None);
            }
            let name = named(alloc, first.place, word.copy(alloc)?)?;
            let bound = Bound::Named { name };
            Ok(Some(Front { bound, rest }))
        }
        _ => Ok(None),
    }
}

/// The number behind a sign.
fn negative_bound(tokens: &[Spanned]) -> Option<Front<'_>>
    ensures { option_map read_front result ≡ negative_bound tokens.now }
{
    match tokens {
        [
            Spanned {
                token: Token::Number(digits),
                ..
            },
            rest @ ..,
        ] => {
            let bound = Bound::Number {
                is_negative: true,
                digits: *digits,
            };
            Some(Front { bound, rest })
        }
        _ => None,
    }
}

/// A range, and the tokens behind it.
#[derive(Drop)]
pub struct RangeFront<'a> {
    pub range: Range,
    pub rest: &'a [Spanned],
}

/// `a | a .. b`
fn range_front<'a>(alloc: Global, tokens: &'a [Spanned]) -> Result<Option<RangeFront<'a>>, NoMemory>
    ensures { IfOk result (λ front. option_map read_range front ≡ range_front tokens.now) }
{
    let Some(Front { bound: lo, rest }) = bound_in(alloc, tokens)? else {
        return Ok(None);
    };
    if let [
        Spanned {
            token: Token::AsnMark(AsnMark::Range),
            ..
        },
        rest @ ..,
    ] = rest
    {
        return with_second(alloc, lo, rest);
    }
    let hi = lo.copy(alloc)?;
    let range = Range { lo, hi };
    Ok(Some(RangeFront { range, rest }))
}

/// The second bound of a range.
fn with_second<'a>(
    alloc: Global,
    lo: Bound,
    tokens: &'a [Spanned],
) -> Result<Option<RangeFront<'a>>, NoMemory>
    ensures { IfOk result (λ front. option_map read_range front ≡ with_second lo (bound_in tokens.now)) }
{
    let Some(Front { bound: hi, rest }) = bound_in(alloc, tokens)? else {
        return Ok(None);
    };
    let range = Range { lo, hi };
    Ok(Some(RangeFront { range, rest }))
}

/// A range with nothing behind it.
fn range_in(alloc: Global, tokens: &[Spanned]) -> Result<Option<Range>, NoMemory>
    ensures { IfOk result (λ range. range ≡ range_in tokens.now) }
{
    match range_front(alloc, tokens)? {
        Some(RangeFront { range, rest: [] }) => Ok(Some(range)),
        _ => Ok(None),
    }
}

/// A range with a closing bracket behind it.
fn closed_range(alloc: Global, tokens: &[Spanned]) -> Result<Option<Range>, NoMemory>
    ensures { IfOk result (λ range. range ≡ closed (range_front tokens.now)) }
{
    match range_front(alloc, tokens)? {
        Some(
            RangeFront {
                range,
                rest: [
                    Spanned {
                        token: Token::AsnMark(AsnMark::RightParenthesis),
                        ..
                    },
                ],
            },
        ) => Ok(Some(range)),
        _ => Ok(None),
    }
}

/// `SIZE "(" a ")" | SIZE "(" a .. b ")"`
fn size_in(alloc: Global, tokens: &[Spanned]) -> Result<Option<Range>, NoMemory>
    ensures { IfOk result (λ range. range ≡ size_in tokens.now) }
{
    match tokens {
        [
            Spanned {
                token: Token::AsnKeyword(AsnKeyword::Size),
                ..
            },
            Spanned {
                token: Token::AsnMark(AsnMark::LeftParenthesis),
                ..
            },
            rest @ ..,
        ] => closed_range(alloc, rest),
        _ => Ok(None),
    }
}

/// A size, or something else.
fn or_size(range: Option<Range>) -> Limits
    ensures { result ≡ or_size range }
{
    match range {
        Some(range) => Limits::Size { range },
        None => Limits::Other,
    }
}

/// What stands between two brackets.
fn limits_in(alloc: Global, tokens: &[Spanned]) -> Result<Limits, NoMemory>
    ensures { IfOk result (λ limits. limits ≡ limits_in tokens.now) }
{
    if let Some(range) = range_in(alloc, tokens)? {
        return Ok(Limits::Range { range });
    }
    Ok(or_size(size_in(alloc, tokens)?))
}

/// What stands in a bracket, where there is one.
pub fn limits_of(alloc: Global, run: Option<&RunTree>) -> Result<Limits, NoMemory>
    ensures { IfOk result (λ limits. limits ≡ limits_of (option_copied run.entry)) }
{
    match run {
        Some(run) => limits_in(alloc, run.tokens.as_slice()),
        None => Ok(Limits::Absent),
    }
}

/// What stands before OF.
pub fn limits_of_size(alloc: Global, size: Option<&SizeTree>) -> Result<Limits, NoMemory>
    ensures { IfOk result (λ limits. limits ≡ limits_of_size (option_copied size.entry)) }
{
    match size {
        Some(SizeTree::Bracket { run }) => limits_in(alloc, run.tokens.as_slice()),
        Some(SizeTree::Size { run, .. }) => Ok(or_size(range_in(alloc, run.tokens.as_slice())?)),
        None => Ok(Limits::Absent),
    }
}

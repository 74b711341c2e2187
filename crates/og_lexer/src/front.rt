ghost use Rattle.std.specs.Prelude.{◌≡◌, ◌+◌, ◌^◌, ◌<◌, ◌≤◌, length, IfSome};
ghost use Rattle.og_lexer.specs.declared.front.Shape.TheVariants.{Sign};
ghost use Rattle.og_lexer.specs.Front.{found, front_of, word_found, number_found, text_found, sign_found, block_found, dash_found, end_len};

use crate::scan::{PairEnd, digits_len, number_value, pair_end, quote_end, word_len};
use crate::words::{Class, class_of, keyword_of};
use crate::{AsnKeyword, AsnMark, Keyword, Mark};
use og_base::Rule;

/// The form of a piece of a text.
#[derive(Clone, Copy, Debug, PartialEq, Eq)]
pub enum Shape {
    /// One byte of white space.
    Space,
    /// `/* .. */`, in ASN.1 with such comments inside it.
    BlockComment,
    /// `-- .. --`
    DashComment,
    /// `-- ..` up to the end of the line.
    LineComment,
    Name,
    Reserved(Keyword),
    AsnReserved(AsnKeyword),
    Digits,
    /// `'..'`
    Quoted,
    /// `".."` of ASN.1.
    Quotation,
    /// `'..'H` or `'..'B` of ASN.1.
    Coded,
    Sign(Mark),
    AsnSign(AsnMark),
}

/// The piece in front of a text.
#[derive(Clone, Copy, Debug, PartialEq, Eq)]
pub struct Front {
    pub shape: Shape,
    pub len: usize,
}

/// The piece of SDL/PR in front of the bytes, the longest that stands there; or the rule that is violated at the first byte.
#[tactic(auto, unfolding(crate::specs::Front::front_of))]
pub fn front_of(bytes: &[u8]) -> Result<Front, Rule>
    requires { 0 < length bytes.now }
    ensures { result ≡ front_of bytes.now }
{
    let (first, rest) = bytes.split_at(1);
    match class_of(first[0]) {
        Class::White => Ok(Front {
            shape: Shape::Space,
            len: 1,
        }),
        Class::Letter => word_front(1 + word_len(rest), bytes),
        Class::Digit => number_front(1 + digits_len(rest), bytes),
        Class::Quote => text_front(quote_end(rest)),
        Class::Sign(mark) => sign_front(mark, rest),
        Class::Underline | Class::Foreign => Err(Rule::L1),
    }
}

fn word_front(len: usize, bytes: &[u8]) -> Result<Front, Rule>
    requires { len ≤ length bytes.now }
    ensures { result ≡ word_found len bytes.now }
{
    if len > 64 {
        return Err(Rule::L3);
    }
    let shape = match keyword_of(&bytes[..len]) {
        None => Shape::Name,
        Some(keyword) => Shape::Reserved(keyword),
    };
    Ok(Front { shape, len })
}

pub fn number_front(len: usize, bytes: &[u8]) -> Result<Front, Rule>
    requires { len ≤ length bytes.now }
    ensures { result ≡ number_found len bytes.now }
{
    if number_value(&bytes[..len]) > 1 << 63 {
        return Err(Rule::L4);
    }
    Ok(Front {
        shape: Shape::Digits,
        len,
    })
}

fn text_front(end: Option<usize>) -> Result<Front, Rule>
    requires { IfSome end (λ n. 1 + n < 2 ^ 64) }
    ensures { result ≡ text_found end }
{
    match end {
        None => Err(Rule::L2),
        Some(len) => Ok(Front {
            shape: Shape::Quoted,
            len: 1 + len,
        }),
    }
}

/// What stands in front where its first byte is the mark and the rest follows.
fn sign_front(mark: Mark, rest: &[u8]) -> Result<Front, Rule>
    requires { 1 + length rest.now < 2 ^ 64 }
    ensures { result ≡ sign_found mark rest.now }
{
    match (mark, rest) {
        (Mark::Colon, [b'=', ..]) => sign(Mark::Assign, 2),
        (Mark::Less, [b'=', ..]) => sign(Mark::LessOrEqual, 2),
        (Mark::Greater, [b'=', ..]) => sign(Mark::GreaterOrEqual, 2),
        (Mark::Solidus, [b'=', ..]) => sign(Mark::NotEqual, 2),
        (Mark::Solidus, [b'*', inside @ ..]) => block_front(pair_end(inside, b'*', b'/', false)),
        (Mark::Minus, [b'-', inside @ ..]) => dash_front(pair_end(inside, b'-', b'-', true)),
        _ => sign(mark, 1),
    }
}

fn sign(mark: Mark, len: usize) -> Result<Front, Rule>
    ensures { result ≡ found (Sign mark) len }
{
    Ok(Front {
        shape: Shape::Sign(mark),
        len,
    })
}

fn block_front(end: PairEnd) -> Result<Front, Rule>
    requires { end_len end + 2 < 2 ^ 64 }
    ensures { result ≡ block_found end }
{
    match end {
        PairEnd::Closed(len) => Ok(Front {
            shape: Shape::BlockComment,
            len: 2 + len,
        }),
        PairEnd::Open(_) => Err(Rule::L2),
    }
}

pub fn dash_front(end: PairEnd) -> Result<Front, Rule>
    requires { end_len end + 2 < 2 ^ 64 }
    ensures { result ≡ dash_found end }
{
    match end {
        PairEnd::Closed(len) => Ok(Front {
            shape: Shape::DashComment,
            len: 2 + len,
        }),
        PairEnd::Open(len) => Ok(Front {
            shape: Shape::LineComment,
            len: 2 + len,
        }),
    }
}

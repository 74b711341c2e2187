ghost use Rattle.std.specs.Prelude.{◌≡◌, ◌+◌, ◌^◌, ◌<◌, ◌≤◌, length, IfSome};
ghost use Rattle.og_lexer.specs.declared.front.Shape.TheVariants.{AsnSign};
ghost use Rattle.og_lexer.specs.AsnPieces.{all_join, is_asn_name};
ghost use Rattle.og_lexer.specs.Front.{found};
ghost use Rattle.og_lexer.specs.AsnFront.{asn_front_of, asn_word_found, quotation_found, quoted_found, nested_found, asn_sign_found};

use crate::AsnMark;
use crate::asn_words::{AsnClass, asn_class_of, asn_keyword_of, is_letter};
use crate::front::{Front, Shape, dash_front, number_front};
use crate::scan::{digits_len, name_len, nested_end, others_len, pair_end};
use og_base::Rule;

/// The piece of ASN.1 in front of the bytes, the longest that stands there; or the rule that is violated at the first byte.
#[tactic(auto, unfolding(crate::specs::AsnFront::asn_front_of))]
pub fn asn_front_of(bytes: &[u8]) -> Result<Front, Rule>
    requires { 0 < length bytes.now }
    ensures { result ≡ asn_front_of bytes.now }
{
    let (first, rest) = bytes.split_at(1);
    match asn_class_of(first[0]) {
        AsnClass::White => Ok(Front {
            shape: Shape::Space,
            len: 1,
        }),
        AsnClass::Letter => asn_word_front(1 + name_len(rest), bytes),
        AsnClass::Digit => number_front(1 + digits_len(rest), bytes),
        AsnClass::Apostrophe => {
            let (inside, end) = rest.split_at(others_len(rest, b'\''));
            quoted_front(inside.len(), end)
        }
        AsnClass::Quotation => {
            let (inside, end) = rest.split_at(others_len(rest, b'"'));
            quotation_front(inside.len(), end)
        }
        AsnClass::Sign(mark) => asn_sign_front(mark, rest),
        AsnClass::Foreign => Err(Rule::L1),
    }
}

fn asn_word_front(len: usize, bytes: &[u8]) -> Result<Front, Rule>
    requires { len ≤ length bytes.now }
    ensures { result ≡ asn_word_found len bytes.now }
{
    if len > 64 {
        return Err(Rule::L3);
    }
    let shape = match asn_keyword_of(&bytes[..len]) {
        None => Shape::Name,
        Some(keyword) => Shape::AsnReserved(keyword),
    };
    Ok(Front { shape, len })
}

/// A text with so many bytes between quotation marks, where `end` begins with the last mark.
fn quotation_front(len: usize, end: &[u8]) -> Result<Front, Rule>
    requires { len + 2 < 2 ^ 64 }
    ensures { result ≡ quotation_found len end.now }
{
    match end {
        [] => Err(Rule::L2),
        _ => Ok(Front {
            shape: Shape::Quotation,
            len: len + 2,
        }),
    }
}

/// A text with so many bytes between apostrophes, where `end` begins with the last apostrophe.
fn quoted_front(len: usize, end: &[u8]) -> Result<Front, Rule>
    requires { len + 3 < 2 ^ 64 }
    ensures { result ≡ quoted_found len end.now }
{
    match end {
        [] => Err(Rule::L2),
        [_, b'H' | b'B', ..] => Ok(Front {
            shape: Shape::Coded,
            len: len + 3,
        }),
        _ => Ok(Front {
            shape: Shape::Quoted,
            len: len + 2,
        }),
    }
}

/// What stands in front where its first byte is the mark and the rest follows.
fn asn_sign_front(mark: AsnMark, rest: &[u8]) -> Result<Front, Rule>
    requires { 1 + length rest.now < 2 ^ 64 }
    ensures { result ≡ asn_sign_found mark rest.now }
{
    match (mark, rest) {
        (AsnMark::Colon, [b':', b'=', ..]) => asn_sign(AsnMark::Assign, 3),
        (AsnMark::FullStop, [b'.', b'.', ..]) => asn_sign(AsnMark::Ellipsis, 3),
        (AsnMark::FullStop, [b'.', ..]) => asn_sign(AsnMark::Range, 2),
        (AsnMark::Solidus, [b'*', inside @ ..]) => nested_front(nested_end(inside)),
        (AsnMark::Hyphen, [b'-', inside @ ..]) => dash_front(pair_end(inside, b'-', b'-', true)),
        _ => asn_sign(mark, 1),
    }
}

fn asn_sign(mark: AsnMark, len: usize) -> Result<Front, Rule>
    ensures { result ≡ found (AsnSign mark) len }
{
    Ok(Front {
        shape: Shape::AsnSign(mark),
        len,
    })
}

fn nested_front(end: Option<usize>) -> Result<Front, Rule>
    requires { IfSome end (λ n. 2 + n < 2 ^ 64) }
    ensures { result ≡ nested_found end }
{
    match end {
        None => Err(Rule::L2),
        Some(len) => Ok(Front {
            shape: Shape::BlockComment,
            len: 2 + len,
        }),
    }
}

/// Whether bytes are spelt like a name of ASN.1, and are at most 64. Keywords are spelt so too.
pub fn is_asn_name(bytes: &[u8]) -> bool
    ensures { result ≡ is_asn_name bytes.now }
{
    match bytes {
        [] => false,
        [first, rest @ ..] => is_letter(*first) && all_join(rest) && rest.len() < 64,
    }
}

/// Whether all the bytes go on with a name.
#[tactic(auto, using(crate::proofs::AsnEnds::all_join_by))]
fn all_join(bytes: &[u8]) -> bool
    ensures { result ≡ all_join bytes.now }
{
    name_len(bytes) == bytes.len()
}

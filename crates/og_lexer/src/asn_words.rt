ghost use Rattle.std.specs.Prelude.{◌≡◌};
ghost use Rattle.og_lexer.specs.AsnBytes.{asn_class_of, asn_mark_class, is_alphanumeric};
ghost use Rattle.og_lexer.specs.AsnKeywords.{asn_keyword_text};
ghost use Rattle.og_lexer.specs.AsnPieces.{is_letter_class};
ghost use Rattle.og_lexer.specs.Bytes.{class_of};
ghost use Rattle.og_lexer.specs.Front.{keyword_in};

use crate::words::{Class, class_of};
use crate::{AsnKeyword, AsnMark};

/// Each keyword once.
const ASN_KEYWORDS: [AsnKeyword; 29] = [
    AsnKeyword::Automatic,
    AsnKeyword::Begin,
    AsnKeyword::Bit,
    AsnKeyword::Boolean,
    AsnKeyword::Choice,
    AsnKeyword::Default,
    AsnKeyword::Definitions,
    AsnKeyword::End,
    AsnKeyword::Enumerated,
    AsnKeyword::Explicit,
    AsnKeyword::Exports,
    AsnKeyword::False,
    AsnKeyword::From,
    AsnKeyword::Identifier,
    AsnKeyword::Implicit,
    AsnKeyword::Imports,
    AsnKeyword::Integer,
    AsnKeyword::Null,
    AsnKeyword::Object,
    AsnKeyword::Octet,
    AsnKeyword::Of,
    AsnKeyword::Optional,
    AsnKeyword::Real,
    AsnKeyword::Sequence,
    AsnKeyword::Set,
    AsnKeyword::Size,
    AsnKeyword::String,
    AsnKeyword::Tags,
    AsnKeyword::True,
];

/// What a byte begins, or goes on with.
#[derive(Clone, Copy, Debug, PartialEq, Eq)]
pub enum AsnClass {
    White,
    Letter,
    Digit,
    /// The quote of texts that may have a letter behind them.
    Apostrophe,
    /// The other quote.
    Quotation,
    Sign(AsnMark),
    Foreign,
}

pub fn asn_class_of(byte: u8) -> AsnClass
    ensures { result ≡ asn_class_of byte }
{
    match class_of(byte) {
        Class::White => AsnClass::White,
        Class::Letter => AsnClass::Letter,
        Class::Digit => AsnClass::Digit,
        Class::Quote => AsnClass::Apostrophe,
        Class::Underline | Class::Sign(_) | Class::Foreign => asn_mark_class(byte),
    }
}

/// The class of a byte that is no white space, letter, digit or apostrophe.
#[tactic(auto, unfolding(crate::specs::AsnBytes::asn_mark_class))]
fn asn_mark_class(byte: u8) -> AsnClass
    ensures { result ≡ asn_mark_class byte }
{
    match byte {
        b'"' => AsnClass::Quotation,
        b'!' => AsnClass::Sign(AsnMark::Exclamation),
        b'#' => AsnClass::Sign(AsnMark::NumberSign),
        b'$' => AsnClass::Sign(AsnMark::Dollar),
        b'%' => AsnClass::Sign(AsnMark::Percent),
        b'&' => AsnClass::Sign(AsnMark::Ampersand),
        b'(' => AsnClass::Sign(AsnMark::LeftParenthesis),
        b')' => AsnClass::Sign(AsnMark::RightParenthesis),
        b'*' => AsnClass::Sign(AsnMark::Asterisk),
        b'+' => AsnClass::Sign(AsnMark::Plus),
        b',' => AsnClass::Sign(AsnMark::Comma),
        b'-' => AsnClass::Sign(AsnMark::Hyphen),
        b'.' => AsnClass::Sign(AsnMark::FullStop),
        b'/' => AsnClass::Sign(AsnMark::Solidus),
        b':' => AsnClass::Sign(AsnMark::Colon),
        b';' => AsnClass::Sign(AsnMark::Semicolon),
        b'<' => AsnClass::Sign(AsnMark::Less),
        b'=' => AsnClass::Sign(AsnMark::Equal),
        b'>' => AsnClass::Sign(AsnMark::Greater),
        b'?' => AsnClass::Sign(AsnMark::Question),
        b'@' => AsnClass::Sign(AsnMark::At),
        b'[' => AsnClass::Sign(AsnMark::LeftBracket),
        b'\\' => AsnClass::Sign(AsnMark::ReverseSolidus),
        b']' => AsnClass::Sign(AsnMark::RightBracket),
        b'^' => AsnClass::Sign(AsnMark::Circumflex),
        b'_' => AsnClass::Sign(AsnMark::Underline),
        b'`' => AsnClass::Sign(AsnMark::Grave),
        b'{' => AsnClass::Sign(AsnMark::LeftBrace),
        b'|' => AsnClass::Sign(AsnMark::VerticalBar),
        b'}' => AsnClass::Sign(AsnMark::RightBrace),
        b'~' => AsnClass::Sign(AsnMark::Tilde),
        _ => AsnClass::Foreign,
    }
}

pub fn is_alphanumeric(byte: u8) -> bool
    ensures { result ≡ is_alphanumeric byte }
{
    matches!(class_of(byte), Class::Letter | Class::Digit)
}

pub fn is_letter(byte: u8) -> bool
    ensures { result ≡ is_letter_class (class_of byte) }
{
    matches!(class_of(byte), Class::Letter)
}

/// The keyword in capitals.
#[tactic(auto, unfolding(crate::specs::AsnKeywords::asn_keyword_text))]
fn asn_keyword_text(keyword: AsnKeyword) -> &'static [u8]
    ensures { result.now ≡ asn_keyword_text keyword }
{
    match keyword {
        AsnKeyword::Automatic => b"AUTOMATIC",
        AsnKeyword::Begin => b"BEGIN",
        AsnKeyword::Bit => b"BIT",
        AsnKeyword::Boolean => b"BOOLEAN",
        AsnKeyword::Choice => b"CHOICE",
        AsnKeyword::Default => b"DEFAULT",
        AsnKeyword::Definitions => b"DEFINITIONS",
        AsnKeyword::End => b"END",
        AsnKeyword::Enumerated => b"ENUMERATED",
        AsnKeyword::Explicit => b"EXPLICIT",
        AsnKeyword::Exports => b"EXPORTS",
        AsnKeyword::False => b"FALSE",
        AsnKeyword::From => b"FROM",
        AsnKeyword::Identifier => b"IDENTIFIER",
        AsnKeyword::Implicit => b"IMPLICIT",
        AsnKeyword::Imports => b"IMPORTS",
        AsnKeyword::Integer => b"INTEGER",
        AsnKeyword::Null => b"NULL",
        AsnKeyword::Object => b"OBJECT",
        AsnKeyword::Octet => b"OCTET",
        AsnKeyword::Of => b"OF",
        AsnKeyword::Optional => b"OPTIONAL",
        AsnKeyword::Real => b"REAL",
        AsnKeyword::Sequence => b"SEQUENCE",
        AsnKeyword::Set => b"SET",
        AsnKeyword::Size => b"SIZE",
        AsnKeyword::String => b"STRING",
        AsnKeyword::Tags => b"TAGS",
        AsnKeyword::True => b"TRUE",
    }
}

/// The keyword that the word is.
pub fn asn_keyword_of(word: &[u8]) -> Option<AsnKeyword>
    ensures { result ≡ keyword_in asn_keyword_text ASN_KEYWORDS word.now }
{
    asn_keyword_among(&ASN_KEYWORDS, word)
}

fn asn_keyword_among(keywords: &[AsnKeyword], word: &[u8]) -> Option<AsnKeyword>
    ensures { result ≡ keyword_in asn_keyword_text keywords.now word.now }
{
    for keyword in keywords {
        if word == asn_keyword_text(*keyword) {
            return Some(*keyword);
        }
    }
    None
}

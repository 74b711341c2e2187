//! The kinds of tokens, as the table of the grammar has them: names of types and of values, numbers, texts and the end of the
//! file, and then each mark and each keyword in its order.
ghost use Rattle.std.specs.Prelude.{◌≡◌};
ghost use Rattle.og_asn1.specs.Kinds.{kind_of, kind_of_name, kind_by_case, kind_of_mark, kind_of_keyword};

use og_lexer::{AsnKeyword, AsnMark, Token, is_asn_name};

pub const TYPE_NAME: u8 = 0;

pub const VALUE_NAME: u8 = 1;

pub const NUMBER: u8 = 2;

pub const TEXT: u8 = 3;

pub const LAST: u8 = 4;

pub const ASSIGN: u8 = 5;

pub const RANGE: u8 = 6;

pub const ELLIPSIS: u8 = 7;

pub const EXCLAMATION: u8 = 8;

pub const NUMBER_SIGN: u8 = 9;

pub const DOLLAR: u8 = 10;

pub const PERCENT: u8 = 11;

pub const AMPERSAND: u8 = 12;

pub const LEFT_PARENTHESIS: u8 = 13;

pub const RIGHT_PARENTHESIS: u8 = 14;

pub const ASTERISK: u8 = 15;

pub const PLUS: u8 = 16;

pub const COMMA: u8 = 17;

pub const HYPHEN: u8 = 18;

pub const FULL_STOP: u8 = 19;

pub const SOLIDUS: u8 = 20;

pub const COLON: u8 = 21;

pub const SEMICOLON: u8 = 22;

pub const LESS: u8 = 23;

pub const EQUAL: u8 = 24;

pub const GREATER: u8 = 25;

pub const QUESTION: u8 = 26;

pub const AT: u8 = 27;

pub const LEFT_BRACKET: u8 = 28;

pub const REVERSE_SOLIDUS: u8 = 29;

pub const RIGHT_BRACKET: u8 = 30;

pub const CIRCUMFLEX: u8 = 31;

pub const UNDERLINE: u8 = 32;

pub const GRAVE: u8 = 33;

pub const LEFT_BRACE: u8 = 34;

pub const VERTICAL_BAR: u8 = 35;

pub const RIGHT_BRACE: u8 = 36;

pub const TILDE: u8 = 37;

pub const AUTOMATIC: u8 = 38;

pub const BEGIN: u8 = 39;

pub const BIT: u8 = 40;

pub const BOOLEAN: u8 = 41;

pub const CHOICE: u8 = 42;

pub const DEFAULT: u8 = 43;

pub const DEFINITIONS: u8 = 44;

pub const END: u8 = 45;

pub const ENUMERATED: u8 = 46;

pub const EXPLICIT: u8 = 47;

pub const EXPORTS: u8 = 48;

pub const FALSE: u8 = 49;

pub const FROM: u8 = 50;

pub const IDENTIFIER: u8 = 51;

pub const IMPLICIT: u8 = 52;

pub const IMPORTS: u8 = 53;

pub const INTEGER: u8 = 54;

pub const NULL: u8 = 55;

pub const OBJECT: u8 = 56;

pub const OCTET: u8 = 57;

pub const OF: u8 = 58;

pub const OPTIONAL: u8 = 59;

pub const REAL: u8 = 60;

pub const SEQUENCE: u8 = 61;

pub const SET: u8 = 62;

pub const SIZE: u8 = 63;

pub const STRING: u8 = 64;

pub const TAGS: u8 = 65;

pub const TRUE: u8 = 66;

/// The kind of a token. A name that is not spelt like one has none, nor has a token of another language.
#[tactic(auto, unfolding(crate::specs::Kinds::kind_of))]
pub fn kind_of(token: &Token) -> u8
    ensures { result ≡ kind_of token.now }
{
    match token {
        Token::Name(word) => kind_of_name(word.bytes.as_slice()),
        Token::Number(_) => 2,
        Token::Text(_) => 3,
        Token::End => 4,
        Token::AsnMark(mark) => kind_of_mark(*mark),
        Token::AsnKeyword(word) => kind_of_keyword(*word),
        Token::Keyword(_) | Token::Mark(_) => 255,
    }
}

/// The kind of a name.
#[tactic(auto, unfolding(crate::specs::Kinds::kind_of_name))]
fn kind_of_name(bytes: &[u8]) -> u8
    ensures { result ≡ kind_of_name bytes.now }
{
    if is_asn_name(bytes) {
        kind_by_case(bytes)
    } else {
        255
    }
}

/// The kind of a name by its first letter.
fn kind_by_case(bytes: &[u8]) -> u8
    ensures { result ≡ kind_by_case bytes.now }
{
    match bytes {
        [] => 255,
        [first, ..] => { if first.is_ascii_uppercase() { 0 } else { 1 } }
    }
}

fn kind_of_mark(mark: AsnMark) -> u8
    ensures { result ≡ kind_of_mark mark }
{
    5 + mark as u8
}

fn kind_of_keyword(word: AsnKeyword) -> u8
    ensures { result ≡ kind_of_keyword word }
{
    38 + word as u8
}

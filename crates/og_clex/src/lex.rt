//! The token that some bytes begin with.
ghost use Rattle.std.specs.Prelude.{◌≡◌, ◌-◌, ◌≤◌, ◌<◌, ◌^◌, true, length, map, min, IfOk, option_map};
ghost use Rattle.std.specs.List.{prefix_len, list_all, list_any};
ghost use Rattle.std.specs.Str.{bytes_eq};
ghost use Rattle.og_clex.specs.Words.{keyword_among};
ghost use Rattle.std.specs.Str.Parse.{digits_value};
ghost use Rattle.og_csubset.specs.Tokens.{is_letter, is_digit, is_word_byte, is_space, is_reserved, keyword_spelling};
ghost use Rattle.og_csubset.specs.Lexing.{first_token, word_token, keyword_of, number_token, sign_token, with_rest, longer};
ghost use Rattle.og_clex.specs.Views.{token_view, keyword_view};

use crate::token::{Digits, Keyword, Mark, Token};
use og_csubset::{COp, CRel};
use og_names::{NoMemory, Word};
use sqlite_items::Items;
use std::alloc::Global;

/// The longest token that the bytes begin with, and the bytes behind it. Words and numbers are read once.
#[tactic(auto, using(crate::proofs::Cuts::cuts), unfolding(og_csubset::specs::Lexing::first_token))]
pub fn first_token(alloc: Global, bytes: &[u8]) -> Result<Option<(Token, &[u8])>, NoMemory>
    ensures { IfOk result (λ found. option_map (λ p. (token_view p.0, p.1.now)) found ≡ first_token bytes.now) }
{
    match bytes {
        [] => Ok(None),
        [first, rest @ ..] => {
            if is_letter(*first) {
                let (word, rest) = bytes.split_at(word_len(bytes));
                return Ok(word_token(alloc, word)?.map(|token| (token, rest)));
            }
            if is_digit(*first) {
                let (digits, rest) = bytes.split_at(digits_len(bytes));
                return Ok(number_token(digits).map(|token| (token, rest)));
            }
            Ok(sign_token(*first, rest))
        }
    }
}

/// How many bytes of white space stand in front.
pub fn space_len(bytes: &[u8]) -> usize
    ensures found { result ≡ prefix_len is_space bytes.now }
    ensures within { result ≤ length bytes.now }
{
    let mut len = 0;
    while len < bytes.len() && is_space(bytes[len]) {
        len += 1;
    }
    len
}

/// How many letters, digits and underlines stand in front.
fn word_len(bytes: &[u8]) -> usize
    ensures found { result ≡ prefix_len is_word_byte bytes.now }
    ensures within { result ≤ length bytes.now }
{
    let mut len = 0;
    while len < bytes.len() && is_word_byte(bytes[len]) {
        len += 1;
    }
    len
}

/// How many digits stand in front.
fn digits_len(bytes: &[u8]) -> usize
    ensures found { result ≡ prefix_len is_digit bytes.now }
    ensures within { result ≤ length bytes.now }
{
    let mut len = 0;
    while len < bytes.len() && is_digit(bytes[len]) {
        len += 1;
    }
    len
}

/// The token of a word: a keyword, a name, or none where C99 has the word for something else.
#[tactic(auto, unfolding(og_csubset::specs::Lexing::word_token))]
fn word_token(alloc: Global, word: &[u8]) -> Result<Option<Token>, NoMemory>
    ensures { IfOk result (λ found. option_map token_view found ≡ word_token word.now) }
{
    if is_reserved(word) {
        return Ok(keyword_of(word));
    }
    let bytes = Items::from_slice(alloc, word)?;
    Ok(Some(Token::Name(Word { bytes })))
}

/// The words that are no names: those keywords of C99 that begin with a letter, and the two words of <stdint.h>.
const RESERVED: [&[u8]; 36] = [
    b"auto",
    b"break",
    b"case",
    b"char",
    b"const",
    b"continue",
    b"default",
    b"do",
    b"double",
    b"else",
    b"enum",
    b"extern",
    b"float",
    b"for",
    b"goto",
    b"if",
    b"inline",
    b"int",
    b"long",
    b"register",
    b"restrict",
    b"return",
    b"short",
    b"signed",
    b"sizeof",
    b"static",
    b"struct",
    b"switch",
    b"typedef",
    b"union",
    b"unsigned",
    b"void",
    b"volatile",
    b"while",
    b"int64_t",
    b"INT64_C",
];

fn is_reserved(word: &[u8]) -> bool
    ensures { result ≡ is_reserved word.now }
{
    is_among(&RESERVED, word)
}

fn is_among(words: &[&[u8]], word: &[u8]) -> bool
    ensures { result ≡ list_any (bytes_eq word.now) (map (λ w. w.now) words.now) }
{
    for known in words {
        if word == *known {
            return true;
        }
    }
    false
}

/// Each keyword once.
const KEYWORDS: [Keyword; 11] = [
    Keyword::Typedef,
    Keyword::Struct,
    Keyword::Void,
    Keyword::If,
    Keyword::Goto,
    Keyword::Switch,
    Keyword::Case,
    Keyword::Default,
    Keyword::Return,
    Keyword::Int64Type,
    Keyword::Int64Literal,
];

/// The keyword that the word is.
#[tactic(auto, unfolding(og_csubset::specs::Lexing::keyword_of))]
fn keyword_of(word: &[u8]) -> Option<Token>
    ensures { option_map token_view result ≡ keyword_of word.now }
{
    keyword_among(&KEYWORDS, word)
}

fn keyword_among(keywords: &[Keyword], word: &[u8]) -> Option<Token>
    ensures { option_map token_view result ≡ keyword_among keywords.now word.now }
{
    for keyword in keywords {
        if word == keyword_text(*keyword) {
            return Some(Token::Keyword(*keyword));
        }
    }
    None
}

fn keyword_text(keyword: Keyword) -> &'static [u8]
    ensures { result.now ≡ keyword_spelling (keyword_view keyword) }
{
    match keyword {
        Keyword::Typedef => b"typedef",
        Keyword::Struct => b"struct",
        Keyword::Void => b"void",
        Keyword::If => b"if",
        Keyword::Goto => b"goto",
        Keyword::Switch => b"switch",
        Keyword::Case => b"case",
        Keyword::Default => b"default",
        Keyword::Return => b"return",
        Keyword::Int64Type => b"int64_t",
        Keyword::Int64Literal => b"INT64_C",
    }
}

/// The token of a run of digits: none where a zero leads or where the number is past 2^63 - 1.
#[tactic(auto, using(crate::proofs::Numerals::numerals), unfolding(og_csubset::specs::Lexing::number_token))]
fn number_token(digits: &[u8]) -> Option<Token>
    requires some { 0 < length digits.now }
    requires all { list_all is_digit digits.now ≡ true }
    ensures { option_map token_view result ≡ number_token digits.now }
{
    if digits.len() > 1 && digits[0] == b'0' {
        return None;
    }
    let value = number_value(digits);
    if value < 1 << 63 {
        Some(Token::Number(Digits { value }))
    } else {
        None
    }
}

/// The number of the digits, or the greatest `u64` where it is more.
#[tactic(auto, using(crate::proofs::Numerals::values))]
fn number_value(digits: &[u8]) -> u64
    requires { list_all is_digit digits.now ≡ true }
    ensures { result ≡ min (digits_value 10 digits.now) (2 ^ 64 - 1) }
{
    let mut value: u64 = 0;
    for digit in digits {
        value = value
            .saturating_mul(10)
            .saturating_add(u64::from(digit.saturating_sub(b'0')));
    }
    value
}

/// The mark, operator or relation that begins with this byte, with the bytes behind it.
#[tactic(auto, unfolding(og_csubset::specs::Lexing::sign_token))]
fn sign_token(first: u8, rest: &[u8]) -> Option<(Token, &[u8])>
    ensures { option_map (λ p. (token_view p.0, p.1.now)) result ≡ sign_token first rest.now }
{
    let token = match first {
        b'{' => Token::Mark(Mark::OpenBrace),
        b'}' => Token::Mark(Mark::CloseBrace),
        b'[' => Token::Mark(Mark::OpenSquare),
        b']' => Token::Mark(Mark::CloseSquare),
        b'(' => Token::Mark(Mark::OpenRound),
        b')' => Token::Mark(Mark::CloseRound),
        b';' => Token::Mark(Mark::Semicolon),
        b':' => Token::Mark(Mark::Colon),
        b'?' => Token::Mark(Mark::Question),
        b'.' => Token::Mark(Mark::Dot),
        b'*' => Token::Operator(COp::Mul),
        b'/' => Token::Operator(COp::Div),
        b'%' => Token::Operator(COp::Rem),
        b'+' => return longer(b'+', None, Some(Token::Operator(COp::Add)), rest),
        b'-' => return longer(b'-', None, Some(Token::Operator(COp::Sub)), rest),
        b'=' => return longer(
            b'=',
            Some(Token::Relation(CRel::Eq)),
            Some(Token::Mark(Mark::Equals)),
            rest,
        ),
        b'!' => return longer(b'=', Some(Token::Relation(CRel::Ne)), None, rest),
        b'<' => return longer(
            b'=',
            Some(Token::Relation(CRel::Le)),
            Some(Token::Relation(CRel::Lt)),
            rest,
        ),
        b'>' => return longer(
            b'=',
            Some(Token::Relation(CRel::Ge)),
            Some(Token::Relation(CRel::Gt)),
            rest,
        ),
        _ => return None,
    };
    Some((token, rest))
}

/// The longer token where this byte follows, and else the shorter one, of those that there are.
fn longer(
    byte: u8,
    long: Option<Token>,
    short: Option<Token>,
    rest: &[u8],
) -> Option<(Token, &[u8])>
    ensures { option_map (λ p. (token_view p.0, p.1.now)) result ≡ longer byte (option_map token_view long) (option_map token_view short) rest.now }
{
    match rest {
        [next, behind @ ..] if *next == byte => long.map(|token| (token, behind)),
        _ => short.map(|token| (token, rest)),
    }
}

/// A letter of ASCII.
fn is_letter(byte: u8) -> bool
    ensures { result ≡ is_letter byte }
{
    matches!(byte, b'A'..=b'Z' | b'a'..=b'z')
}

fn is_digit(byte: u8) -> bool
    ensures { result ≡ is_digit byte }
{
    matches!(byte, b'0'..=b'9')
}

fn is_word_byte(byte: u8) -> bool
    ensures { result ≡ is_word_byte byte }
{
    is_letter(byte) || is_digit(byte) || byte == b'_'
}

/// Space, tab, CR and LF.
fn is_space(byte: u8) -> bool
    ensures { result ≡ is_space byte }
{
    matches!(byte, b' ' | b'\t' | b'\r' | b'\n')
}

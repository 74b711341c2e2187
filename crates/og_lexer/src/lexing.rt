ghost use Rattle.std.specs.Prelude.{◌≡◌, ℕ, ◌+◌, ◌-◌, ◌^◌, ◌<◌, ◌≤◌, List, [], ◌∷◌, ◌++◌, length, OnOk, IfOk, IfErr};
ghost use Rattle.og_lexer.specs.declared.Spanned.{Spanned};
ghost use Rattle.og_lexer.specs.declared.Comment.{Comment};
ghost use Rattle.og_lexer.specs.Places.{place_after};
ghost use Rattle.og_lexer.specs.Pieces.{HasQuotes, IsWithin};
ghost use Rattle.og_lexer.specs.AsnFront.{front_in};
ghost use Rattle.og_lexer.specs.declared.Language.TheVariants.{Asn};
ghost use Rattle.og_lexer.specs.Texts.{Lexes, Refuses, AreInPlace, AreCommentsInPlace, LexesIn, RefusesIn, AreInPlaceIn, AreCommentsInPlaceIn, EndsOnce, GainsPiece, token_of};

use crate::asn_front::asn_front_of;
use crate::front::{Front, Shape, front_of};
use crate::scan::number_value;
use crate::{Comment, Language, Lexed, Spanned, Token};
use og_base::{ModelError, Place, Rule, Violation};
use og_names::{NoMemory, Word};
use sqlite_items::Items;
use std::alloc::Global;

/// Cuts the bytes of a model file of SDL/PR into tokens and comments, in time linear in their number. A violation of class
/// L is reported with the least place; `file` is the number of the file in these places.
pub fn lex_sdl(alloc: Global, file: u32, bytes: &[u8]) -> Result<Lexed, ModelError>
    requires { length bytes.now < 2 ^ 32 - 1 }
    // The bytes lex to these tokens and comments.
    ensures found { IfOk result (λ lexed. Lexes file bytes.now lexed.tokens lexed.comments) }
    // They lex to no others.
    ensures only { IfOk result (λ lexed. (tokens : List Spanned) (comments : List Comment) →
        Lexes file bytes.now tokens comments → (tokens ≡ lexed.tokens) × (comments ≡ lexed.comments)) }
    // A violation is the first of class L, and then the bytes lex to nothing.
    ensures broken { IfErr result (Refuses file bytes.now) }
    // Each token and comment stands at its bytes and its place, in the order of the file, and End behind all of them.
    ensures tokens_in_place { IfOk result (λ lexed. AreInPlace file bytes.now 0 lexed.tokens) }
    ensures comments_in_place { IfOk result (λ lexed. AreCommentsInPlace file bytes.now 0 lexed.comments) }
    ensures ends { IfOk result (λ lexed. EndsOnce lexed.tokens) }
{
    lex(alloc, Language::Sdl, file, bytes)
}

/// Cuts the bytes of a file of ASN.1 modules into tokens and comments, as `lex_sdl` does those of a file of SDL/PR.
pub fn lex_asn(alloc: Global, file: u32, bytes: &[u8]) -> Result<Lexed, ModelError>
    requires { length bytes.now < 2 ^ 32 - 1 }
    // The bytes lex to these tokens and comments.
    ensures found { IfOk result (λ lexed. LexesIn Asn file bytes.now lexed.tokens lexed.comments) }
    // They lex to no others.
    ensures only { IfOk result (λ lexed. (tokens : List Spanned) (comments : List Comment) →
        LexesIn Asn file bytes.now tokens comments → (tokens ≡ lexed.tokens) × (comments ≡ lexed.comments)) }
    // A violation is the first of class L, and then the bytes lex to nothing.
    ensures broken { IfErr result (RefusesIn Asn file bytes.now) }
    // Each token and comment stands at its bytes and its place, in the order of the file, and End behind all of them.
    ensures tokens_in_place { IfOk result (λ lexed. AreInPlaceIn Asn file bytes.now 0 lexed.tokens) }
    ensures comments_in_place { IfOk result (λ lexed. AreCommentsInPlaceIn Asn file bytes.now 0 lexed.comments) }
    ensures ends { IfOk result (λ lexed. EndsOnce lexed.tokens) }
{
    lex(alloc, Language::Asn, file, bytes)
}

fn lex(alloc: Global, language: Language, file: u32, bytes: &[u8]) -> Result<Lexed, ModelError>
    requires { length bytes.now < 2 ^ 32 - 1 }
    ensures found { IfOk result (λ lexed. LexesIn language file bytes.now lexed.tokens lexed.comments) }
    ensures only { IfOk result (λ lexed. (tokens : List Spanned) (comments : List Comment) →
        LexesIn language file bytes.now tokens comments → (tokens ≡ lexed.tokens) × (comments ≡ lexed.comments)) }
    ensures broken { IfErr result (RefusesIn language file bytes.now) }
    ensures tokens_in_place { IfOk result (λ lexed. AreInPlaceIn language file bytes.now 0 lexed.tokens) }
    ensures comments_in_place { IfOk result (λ lexed. AreCommentsInPlaceIn language file bytes.now 0 lexed.comments) }
    ensures ends { IfOk result (λ lexed. EndsOnce lexed.tokens) }
{
    let mut lexed = Lexed {
        tokens: Items::new(alloc),
        comments: Items::new(alloc),
    };
    let mut place = Place {
        file,
        line: 1,
        column: 1,
    };
    let mut at = 0;
    while at < bytes.len() {
        let (_, rest) = bytes.split_at(at);
        let front = match front_in(language, rest) {
            Ok(front) => front,
            Err(rule) => return Err(ModelError::Broken(Violation { rule, place })),
        };
        let (text, _) = rest.split_at(front.len);
        keep(alloc, &mut lexed, front.shape, text, place, at)?;
        place = place_after(place, text);
        at += front.len;
    }
    put(
        &mut lexed.tokens,
        Spanned {
            token: Token::End,
            place,
            start: at as u32,
            end: at as u32,
        },
    )?;
    Ok(lexed)
}

/// The piece in front of the bytes, the longest of the language that stands there; or the rule that is violated there.
fn front_in(language: Language, bytes: &[u8]) -> Result<Front, Rule>
    requires { 0 < length bytes.now }
    ensures { result ≡ front_in language bytes.now }
{
    match language {
        Language::Sdl => front_of(bytes),
        Language::Asn => asn_front_of(bytes),
    }
}

/// Keeps a piece that stands at the byte `at`: a token or a comment. White space is dropped.
fn keep(
    alloc: Global,
    lexed: &mut Lexed,
    shape: Shape,
    text: &[u8],
    place: Place,
    at: usize,
) -> Result<(), NoMemory>
    requires room { at + length text.now < 2 ^ 32 }
    requires form { HasQuotes shape text.now × IsWithin shape text.now }
    ensures { OnOk result (GainsPiece lexed.old lexed.new shape text.now place at) }
{
    let start = at as u32;
    let end = (at + text.len()) as u32;
    match token_of(alloc, shape, text)? {
        Some(token) => put(
            &mut lexed.tokens,
            Spanned {
                token,
                place,
                start,
                end,
            },
        ),
        None if shape == Shape::Space => Ok(()),
        None => put(&mut lexed.comments, Comment { place, start, end }),
    }
}

/// The token that a piece is.
fn token_of(alloc: Global, shape: Shape, text: &[u8]) -> Result<Option<Token>, NoMemory>
    requires { HasQuotes shape text.now × IsWithin shape text.now }
    ensures { IfOk result (λ token. token ≡ token_of shape text.now) }
{
    let token = match shape {
        Shape::Space | Shape::BlockComment | Shape::DashComment | Shape::LineComment => {
            return Ok(None);
        }
        Shape::Name => Token::Name(word(alloc, text)?),
        Shape::Reserved(keyword) => Token::Keyword(keyword),
        Shape::AsnReserved(keyword) => Token::AsnKeyword(keyword),
        Shape::Digits => Token::Number(number_value(text)),
        Shape::Quoted | Shape::Quotation => Token::Text(word(alloc, &text[1..text.len() - 1])?),
        Shape::Coded => Token::Text(word(alloc, &text[1..text.len() - 2])?),
        Shape::Sign(mark) => Token::Mark(mark),
        Shape::AsnSign(mark) => Token::AsnMark(mark),
    };
    Ok(Some(token))
}

fn word(alloc: Global, bytes: &[u8]) -> Result<Word, NoMemory>
    ensures { IfOk result (λ word. word.bytes ≡ bytes.now) }
{
    let bytes = Items::from_slice(alloc, bytes)?;
    Ok(Word { bytes })
}

fn put<T: Drop>(items: &mut Items<T>, item: T) -> Result<(), NoMemory>
    ensures { OnOk result (items.new ≡ items.old ++ item ∷ []) }
{
    items.push(item)?;
    Ok(())
}

/// The place behind these bytes, from the place of their first byte on.
fn place_after(place: Place, text: &[u8]) -> Place
    requires lines { place.line + length text.now < 2 ^ 32 }
    requires columns { place.column + length text.now < 2 ^ 32 }
    ensures { result ≡ place_after place text.now }
{
    let Place {
        file,
        mut line,
        mut column,
    } = place;
    for byte in text {
        if *byte == b'\n' {
            line += 1;
            column = 1;
        } else {
            column += 1;
        }
    }
    Place { file, line, column }
}

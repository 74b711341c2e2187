//! The kinds of tokens, as the table of the grammar has them: the place of a token's form in `FORMS`.
use crate::parse::Fixed;
use og_lexer::{Keyword, Mark};

pub const NAME: u8 = 0;

pub const SYSTEM: u8 = 1;

pub const SIGNAL: u8 = 2;

pub const BLOCK: u8 = 3;

pub const PROCESS: u8 = 4;

pub const START: u8 = 5;

pub const NEXTSTATE: u8 = 6;

pub const STATE: u8 = 7;

pub const ENDSTATE: u8 = 8;

pub const INPUT: u8 = 9;

pub const OUTPUT: u8 = 10;

pub const ENDPROCESS: u8 = 11;

pub const ENDBLOCK: u8 = 12;

pub const ENDSYSTEM: u8 = 13;

pub const SEMICOLON: u8 = 14;

pub const COMMA: u8 = 15;

pub const END: u8 = 16;

/// The forms of tokens, in the order of their kinds.
pub const FORMS: [Fixed; 17] = [
    Fixed::Name,
    Fixed::Keyword(Keyword::System),
    Fixed::Keyword(Keyword::Signal),
    Fixed::Keyword(Keyword::Block),
    Fixed::Keyword(Keyword::Process),
    Fixed::Keyword(Keyword::Start),
    Fixed::Keyword(Keyword::Nextstate),
    Fixed::Keyword(Keyword::State),
    Fixed::Keyword(Keyword::Endstate),
    Fixed::Keyword(Keyword::Input),
    Fixed::Keyword(Keyword::Output),
    Fixed::Keyword(Keyword::Endprocess),
    Fixed::Keyword(Keyword::Endblock),
    Fixed::Keyword(Keyword::Endsystem),
    Fixed::Mark(Mark::Semicolon),
    Fixed::Mark(Mark::Comma),
    Fixed::End,
];

//! Copies of tokens.
ghost use Rattle.std.specs.Prelude.{◌≡◌, IfOk};

use crate::{Spanned, Token};
use og_names::NoMemory;
use std::alloc::Global;

impl Token {
    /// The same token.
    pub fn copy(&self, alloc: Global) -> Result<Token, NoMemory>
        ensures { IfOk result (λ copy. copy ≡ self.now) }
    {
        Ok(match self {
            Token::Name(word) => Token::Name(word.copy(alloc)?),
            Token::Keyword(keyword) => Token::Keyword(*keyword),
            Token::Number(number) => Token::Number(*number),
            Token::Text(word) => Token::Text(word.copy(alloc)?),
            Token::Mark(mark) => Token::Mark(*mark),
            Token::AsnKeyword(keyword) => Token::AsnKeyword(*keyword),
            Token::AsnMark(mark) => Token::AsnMark(*mark),
            Token::End => Token::End,
        })
    }
}

impl Spanned {
    /// The same token at the same place.
    pub fn copy(&self, alloc: Global) -> Result<Spanned, NoMemory>
        ensures { IfOk result (λ copy. copy ≡ self.now) }
    {
        Ok(Spanned {
            token: self.token.copy(alloc)?,
            place: self.place,
            start: self.start,
            end: self.end,
        })
    }
}

//! What is left of a derivation and its tokens, and what stands in front there.
ghost use Rattle.std.specs.Prelude.{◌≡◌, IfOk};
ghost use Rattle.og_asn1.specs.Reading.{named};

use crate::syntax::Name;
use og_base::Place;
use og_lexer::{Spanned, Token, is_asn_name};
use og_names::{NoMemory, Word};
use sqlite_items::Items;
use std::alloc::Global;

/// What is left of the choices of a derivation, and of its tokens.
#[derive(Clone, Copy)]
pub struct Left<'a> {
    pub choices: &'a [u8],
    pub tokens: &'a [Spanned],
}

impl<'a> Left<'a> {
    ghost use Rattle.std.specs.Prelude.{◌≡◌, IfOk};
    ghost use Rattle.og_asn1.specs.Reading.{rest_of, behind, after, goes_on, choice_in, place_in, word_in, number_in, name_in};

    /// Behind the first token.
    pub fn behind(self) -> Left<'a>
        ensures { rest_of result ≡ behind (rest_of self.entry) }
    {
        match self.tokens {
            [] => self,
            [_, tokens @ ..] => Left {
                choices: self.choices,
                tokens,
            },
        }
    }

    /// Behind the first choice.
    pub fn after(self) -> Left<'a>
        ensures { rest_of result ≡ after (rest_of self.entry) }
    {
        match self.choices {
            [] => self,
            [_, choices @ ..] => Left {
                choices,
                tokens: self.tokens,
            },
        }
    }

    /// The first choice.
    pub fn choice(self) -> u8
        ensures { result ≡ choice_in (rest_of self.entry) }
    {
        match self.choices {
            [] => 0,
            [first, ..] => *first,
        }
    }

    /// Whether a repetition goes on, or an option is there.
    pub fn goes_on(self) -> bool
        ensures { result ≡ goes_on (rest_of self.entry) }
    {
        self.choice() == 1
    }

    /// The place of the first token.
    pub fn place(self) -> Place
        ensures { result ≡ place_in (rest_of self.entry) }
    {
        match self.tokens {
            [] => Place {
                file: 0,
                line: 0,
                column: 0,
            },
            [first, ..] => first.place,
        }
    }

    /// The number in front.
    pub fn number(self) -> u64
        ensures { result ≡ number_in (rest_of self.entry) }
    {
        match self.tokens {
            [
                Spanned {
                    token: Token::Number(number),
                    ..
                },
                ..
            ] => *number,
            _ => 0,
        }
    }

    /// The word of the name or text in front, copied out of its token.
    pub fn word(self, alloc: Global) -> Result<Word, NoMemory>
        ensures { IfOk result (λ word. word ≡ word_in (rest_of self.entry)) }
    {
        match self.tokens {
            [
                Spanned {
                    token: Token::Name(word) | Token::Text(word),
                    ..
                },
                ..
            ] => Ok(word.copy(alloc)?),
            _ => Ok(Word {
                bytes: Items::new(alloc),
            }),
        }
    }

    /// The name in front.
    pub fn name(self, alloc: Global) -> Result<Name, NoMemory>
        ensures { IfOk result (λ name. name ≡ name_in (rest_of self.entry)) }
    {
        let place = self.place();
        let word = self.word(alloc)?;
        named(alloc, place, word)
    }
}

/// The name that a word is, and `x` where it is none.
pub fn named(alloc: Global, place: Place, word: Word) -> Result<Name, NoMemory>
    ensures { IfOk result (λ name. name ≡ named place word) }
{
    if is_asn_name(word.bytes.as_slice()) {
        Ok(Name { place, word })
    } else {
        let bytes = Items::from_slice(alloc, b"x")?;
        let word = Word { bytes };
        Ok(Name { place, word })
    }
}

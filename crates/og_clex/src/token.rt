ghost use Rattle.std.specs.Prelude.{◌^◌, ◌<◌};

use og_csubset::{COp, CRel};
use og_names::Word;

/// The words of the C subset that are no names (C99 6.4.1, and two words of 7.18).
#[derive(Clone, Copy, Debug, PartialEq, Eq)]
pub enum Keyword {
    Typedef,
    Struct,
    Void,
    If,
    Goto,
    Switch,
    Case,
    Default,
    Return,
    Int64Type,
    Int64Literal,
}

/// The marks that are neither operators nor relations: `{ } [ ] ( ) ; : ? . =` in this order.
#[derive(Clone, Copy, Debug, PartialEq, Eq)]
pub enum Mark {
    OpenBrace,
    CloseBrace,
    OpenSquare,
    CloseSquare,
    OpenRound,
    CloseRound,
    Semicolon,
    Colon,
    Question,
    Dot,
    Equals,
}

/// The number of a run of digits.
#[derive(Clone, Copy, Debug, PartialEq, Eq)]
pub struct Digits {
    pub value: u64,
    ghost small: { value < 2 ^ 63 },
}

/// A token of the C subset (C99 6.4).
#[derive(Debug, Drop)]
pub enum Token {
    Name(Word),
    Number(Digits),
    Operator(COp),
    Relation(CRel),
    Keyword(Keyword),
    Mark(Mark),
}

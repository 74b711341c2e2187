//! Tokens of SDL/PR (Z.101 clause 6.1, lexical rules; Z.106 for the textual form) and of ASN.1 (X.680 clause 12): the
//! bytes of a model file are cut into names, keywords, numbers, texts and marks, and the file's comments are kept aside
//! for their CIF boxes.
#![tactic(auto)]

mod asn_front;
mod asn_words;
mod copy;
mod front;
mod laws;
mod lexing;
mod scan;
mod words;

pub use asn_front::is_asn_name;
pub use laws::{asn_examples, examples, front_lexes, one_asn_reading, one_front, one_reading};
pub use lexing::{lex_asn, lex_sdl};
use og_base::Place;
use og_names::Word;
use sqlite_items::Items;

/// A language of model files.
#[derive(Clone, Copy, Debug, PartialEq, Eq)]
pub enum Language {
    /// SDL/PR.
    Sdl,
    /// ASN.1.
    Asn,
}

/// A word of SDL/PR that no name may be spelt like. In a text it stands in any case.
#[derive(Clone, Copy, Debug, PartialEq, Eq)]
pub enum Keyword {
    Aggregation,
    And,
    Any,
    Block,
    Call,
    Channel,
    Comment,
    Connect,
    Connection,
    Dcl,
    Decision,
    Else,
    Endblock,
    Endchannel,
    Endconnection,
    Enddecision,
    Endprocedure,
    Endprocess,
    Endstate,
    Endsubstructure,
    Endsystem,
    Env,
    External,
    False,
    Fpar,
    From,
    In,
    Input,
    Join,
    Mod,
    Nextstate,
    Not,
    Or,
    Out,
    Output,
    Priority,
    Procedure,
    Process,
    Provided,
    Referenced,
    Rem,
    Return,
    Returns,
    Save,
    Signal,
    Signalroute,
    Start,
    State,
    Stop,
    Substructure,
    System,
    Task,
    Then,
    Timer,
    To,
    True,
    Use,
    Via,
    With,
    Xor,
}

/// A sign or pair of signs of SDL/PR: `; , : := ( ) { } . ! + - * / = /= < <= > >=` in this order.
#[derive(Clone, Copy, Debug, PartialEq, Eq)]
pub enum Mark {
    Semicolon,
    Comma,
    Colon,
    Assign,
    LeftParenthesis,
    RightParenthesis,
    LeftBrace,
    RightBrace,
    FullStop,
    Exclamation,
    Plus,
    Minus,
    Asterisk,
    Solidus,
    Equal,
    NotEqual,
    Less,
    LessOrEqual,
    Greater,
    GreaterOrEqual,
}

/// A word of ASN.1 that no name may be spelt like. In a text it stands in capitals.
#[derive(Clone, Copy, Debug, PartialEq, Eq)]
pub enum AsnKeyword {
    Automatic,
    Begin,
    Bit,
    Boolean,
    Choice,
    Default,
    Definitions,
    End,
    Enumerated,
    Explicit,
    Exports,
    False,
    From,
    Identifier,
    Implicit,
    Imports,
    Integer,
    Null,
    Object,
    Octet,
    Of,
    Optional,
    Real,
    Sequence,
    Set,
    Size,
    String,
    Tags,
    True,
}

/// A mark of ASN.1: `::=`, `..`, `...`, and each byte from 33 to 126 that is no letter, no digit and begins no text, in
/// their order.
#[derive(Clone, Copy, Debug, PartialEq, Eq)]
pub enum AsnMark {
    Assign,
    Range,
    Ellipsis,
    Exclamation,
    NumberSign,
    Dollar,
    Percent,
    Ampersand,
    LeftParenthesis,
    RightParenthesis,
    Asterisk,
    Plus,
    Comma,
    Hyphen,
    FullStop,
    Solidus,
    Colon,
    Semicolon,
    Less,
    Equal,
    Greater,
    Question,
    At,
    LeftBracket,
    ReverseSolidus,
    RightBracket,
    Circumflex,
    Underline,
    Grave,
    LeftBrace,
    VerticalBar,
    RightBrace,
    Tilde,
}

/// A token. A name and a text hold the bytes as written; those of a text are the ones between its outer quotes. In SDL/PR
/// a quote between them stands twice; in ASN.1 there is none, and a letter behind the quotes is no part of the text.
#[derive(Debug, Drop)]
pub enum Token {
    Name(Word),
    Keyword(Keyword),
    Number(u64),
    Text(Word),
    Mark(Mark),
    AsnKeyword(AsnKeyword),
    AsnMark(AsnMark),
    /// The end of the file.
    End,
}

/// A token with the place of its first byte. It stands at the bytes from `start` up to `end`.
#[derive(Debug, Drop)]
pub struct Spanned {
    pub token: Token,
    pub place: Place,
    pub start: u32,
    pub end: u32,
}

/// A comment, from `start` up to `end`, with the place of its first byte. The line end behind a comment is no part of it.
#[derive(Clone, Copy, Debug, PartialEq, Eq)]
pub struct Comment {
    pub place: Place,
    pub start: u32,
    pub end: u32,
}

/// The tokens of a file, of which the last is its end and no other one, and its comments, each in the order of the file.
#[derive(Debug, Drop)]
pub struct Lexed {
    pub tokens: Items<Spanned>,
    pub comments: Items<Comment>,
}

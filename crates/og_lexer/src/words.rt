ghost use Rattle.std.specs.Prelude.{◌≡◌, ◌↔◌, IsTrue, map, min, length, ◌^◌, ◌-◌};
ghost use Rattle.std.specs.Char.{to_ascii_uppercase};
ghost use Rattle.og_lexer.specs.Bytes.{class_of, is_word, is_digit, number_of};
ghost use Rattle.std.specs.Str.{bytes_eq};
ghost use Rattle.og_lexer.specs.Keywords.{keyword_text};
ghost use Rattle.og_lexer.specs.Front.{keyword_in};

use crate::{Keyword, Mark};

/// Each keyword once.
const KEYWORDS: [Keyword; 60] = [
    Keyword::Aggregation,
    Keyword::And,
    Keyword::Any,
    Keyword::Block,
    Keyword::Call,
    Keyword::Channel,
    Keyword::Comment,
    Keyword::Connect,
    Keyword::Connection,
    Keyword::Dcl,
    Keyword::Decision,
    Keyword::Else,
    Keyword::Endblock,
    Keyword::Endchannel,
    Keyword::Endconnection,
    Keyword::Enddecision,
    Keyword::Endprocedure,
    Keyword::Endprocess,
    Keyword::Endstate,
    Keyword::Endsubstructure,
    Keyword::Endsystem,
    Keyword::Env,
    Keyword::External,
    Keyword::False,
    Keyword::Fpar,
    Keyword::From,
    Keyword::In,
    Keyword::Input,
    Keyword::Join,
    Keyword::Mod,
    Keyword::Nextstate,
    Keyword::Not,
    Keyword::Or,
    Keyword::Out,
    Keyword::Output,
    Keyword::Priority,
    Keyword::Procedure,
    Keyword::Process,
    Keyword::Provided,
    Keyword::Referenced,
    Keyword::Rem,
    Keyword::Return,
    Keyword::Returns,
    Keyword::Save,
    Keyword::Signal,
    Keyword::Signalroute,
    Keyword::Start,
    Keyword::State,
    Keyword::Stop,
    Keyword::Substructure,
    Keyword::System,
    Keyword::Task,
    Keyword::Then,
    Keyword::Timer,
    Keyword::To,
    Keyword::True,
    Keyword::Use,
    Keyword::Via,
    Keyword::With,
    Keyword::Xor,
];

/// What a byte begins, or goes on with.
#[derive(Clone, Copy, Debug, PartialEq, Eq)]
pub enum Class {
    White,
    Letter,
    Digit,
    Underline,
    Quote,
    Sign(Mark),
    Foreign,
}

#[tactic(auto, unfolding(crate::specs::Bytes::class_of))]
pub fn class_of(byte: u8) -> Class
    ensures { result ≡ class_of byte }
{
    match byte {
        b' ' | b'\t' | b'\r' | b'\n' => Class::White,
        b'A'..=b'Z' | b'a'..=b'z' => Class::Letter,
        b'0'..=b'9' => Class::Digit,
        b'_' => Class::Underline,
        b'\'' => Class::Quote,
        b';' => Class::Sign(Mark::Semicolon),
        b',' => Class::Sign(Mark::Comma),
        b':' => Class::Sign(Mark::Colon),
        b'(' => Class::Sign(Mark::LeftParenthesis),
        b')' => Class::Sign(Mark::RightParenthesis),
        b'{' => Class::Sign(Mark::LeftBrace),
        b'}' => Class::Sign(Mark::RightBrace),
        b'.' => Class::Sign(Mark::FullStop),
        b'!' => Class::Sign(Mark::Exclamation),
        b'+' => Class::Sign(Mark::Plus),
        b'-' => Class::Sign(Mark::Minus),
        b'*' => Class::Sign(Mark::Asterisk),
        b'/' => Class::Sign(Mark::Solidus),
        b'=' => Class::Sign(Mark::Equal),
        b'<' => Class::Sign(Mark::Less),
        b'>' => Class::Sign(Mark::Greater),
        _ => Class::Foreign,
    }
}

pub fn is_word(byte: u8) -> bool
    ensures { result ≡ is_word byte }
{
    matches!(
        class_of(byte),
        Class::Letter | Class::Digit | Class::Underline
    )
}

pub fn is_digit(byte: u8) -> bool
    ensures { result ≡ is_digit byte }
{
    matches!(class_of(byte), Class::Digit)
}

/// The keyword in capitals.
#[tactic(auto, unfolding(crate::specs::Keywords::keyword_text))]
fn keyword_text(keyword: Keyword) -> &'static [u8]
    ensures { result.now ≡ keyword_text keyword }
{
    match keyword {
        Keyword::Aggregation => b"AGGREGATION",
        Keyword::And => b"AND",
        Keyword::Any => b"ANY",
        Keyword::Block => b"BLOCK",
        Keyword::Call => b"CALL",
        Keyword::Channel => b"CHANNEL",
        Keyword::Comment => b"COMMENT",
        Keyword::Connect => b"CONNECT",
        Keyword::Connection => b"CONNECTION",
        Keyword::Dcl => b"DCL",
        Keyword::Decision => b"DECISION",
        Keyword::Else => b"ELSE",
        Keyword::Endblock => b"ENDBLOCK",
        Keyword::Endchannel => b"ENDCHANNEL",
        Keyword::Endconnection => b"ENDCONNECTION",
        Keyword::Enddecision => b"ENDDECISION",
        Keyword::Endprocedure => b"ENDPROCEDURE",
        Keyword::Endprocess => b"ENDPROCESS",
        Keyword::Endstate => b"ENDSTATE",
        Keyword::Endsubstructure => b"ENDSUBSTRUCTURE",
        Keyword::Endsystem => b"ENDSYSTEM",
        Keyword::Env => b"ENV",
        Keyword::External => b"EXTERNAL",
        Keyword::False => b"FALSE",
        Keyword::Fpar => b"FPAR",
        Keyword::From => b"FROM",
        Keyword::In => b"IN",
        Keyword::Input => b"INPUT",
        Keyword::Join => b"JOIN",
        Keyword::Mod => b"MOD",
        Keyword::Nextstate => b"NEXTSTATE",
        Keyword::Not => b"NOT",
        Keyword::Or => b"OR",
        Keyword::Out => b"OUT",
        Keyword::Output => b"OUTPUT",
        Keyword::Priority => b"PRIORITY",
        Keyword::Procedure => b"PROCEDURE",
        Keyword::Process => b"PROCESS",
        Keyword::Provided => b"PROVIDED",
        Keyword::Referenced => b"REFERENCED",
        Keyword::Rem => b"REM",
        Keyword::Return => b"RETURN",
        Keyword::Returns => b"RETURNS",
        Keyword::Save => b"SAVE",
        Keyword::Signal => b"SIGNAL",
        Keyword::Signalroute => b"SIGNALROUTE",
        Keyword::Start => b"START",
        Keyword::State => b"STATE",
        Keyword::Stop => b"STOP",
        Keyword::Substructure => b"SUBSTRUCTURE",
        Keyword::System => b"SYSTEM",
        Keyword::Task => b"TASK",
        Keyword::Then => b"THEN",
        Keyword::Timer => b"TIMER",
        Keyword::To => b"TO",
        Keyword::True => b"TRUE",
        Keyword::Use => b"USE",
        Keyword::Via => b"VIA",
        Keyword::With => b"WITH",
        Keyword::Xor => b"XOR",
    }
}

/// Whether the word is these capitals in any case.
fn is_spelt(word: &[u8], capitals: &[u8]) -> bool
    ensures { result ≡ bytes_eq (map to_ascii_uppercase word.now) capitals.now }
{
    if word.len() != capitals.len() {
        return false;
    }
    for (at, byte) in word.iter().enumerate() {
        if byte.to_ascii_uppercase() != capitals[at] {
            return false;
        }
    }
    true
}

/// The keyword that the word is.
pub fn keyword_of(word: &[u8]) -> Option<Keyword>
    ensures { result ≡ keyword_in keyword_text KEYWORDS (map to_ascii_uppercase word.now) }
{
    keyword_among(&KEYWORDS, word)
}

fn keyword_among(keywords: &[Keyword], word: &[u8]) -> Option<Keyword>
    ensures { result ≡ keyword_in keyword_text keywords.now (map to_ascii_uppercase word.now) }
{
    for keyword in keywords {
        if is_spelt(word, keyword_text(*keyword)) {
            return Some(*keyword);
        }
    }
    None
}

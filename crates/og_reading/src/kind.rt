//! The kinds of tokens, as the tables of grammars have them: names, numbers, texts and the end of the file, and then each
//! mark and each keyword in its order.
ghost use Rattle.std.specs.Prelude.{◌≡◌};
ghost use Rattle.og_reading.specs.Kinds.{kind_of, kind_of_mark, kind_of_keyword};

use og_ast::is_name;
use og_lexer::{Keyword, Mark, Token};

pub const NAME: u8 = 0;

pub const NUMBER: u8 = 1;

pub const TEXT: u8 = 2;

pub const LAST: u8 = 3;

pub const SEMICOLON: u8 = 4;

pub const COMMA: u8 = 5;

pub const COLON: u8 = 6;

pub const ASSIGN: u8 = 7;

pub const LEFT_PARENTHESIS: u8 = 8;

pub const RIGHT_PARENTHESIS: u8 = 9;

pub const LEFT_BRACE: u8 = 10;

pub const RIGHT_BRACE: u8 = 11;

pub const FULL_STOP: u8 = 12;

pub const EXCLAMATION: u8 = 13;

pub const PLUS: u8 = 14;

pub const MINUS: u8 = 15;

pub const ASTERISK: u8 = 16;

pub const SOLIDUS: u8 = 17;

pub const EQUAL: u8 = 18;

pub const NOT_EQUAL: u8 = 19;

pub const LESS: u8 = 20;

pub const LESS_OR_EQUAL: u8 = 21;

pub const GREATER: u8 = 22;

pub const GREATER_OR_EQUAL: u8 = 23;

pub const AGGREGATION: u8 = 24;

pub const AND: u8 = 25;

pub const ANY: u8 = 26;

pub const BLOCK: u8 = 27;

pub const CALL: u8 = 28;

pub const CHANNEL: u8 = 29;

pub const COMMENT: u8 = 30;

pub const CONNECT: u8 = 31;

pub const CONNECTION: u8 = 32;

pub const DCL: u8 = 33;

pub const DECISION: u8 = 34;

pub const ELSE: u8 = 35;

pub const ENDBLOCK: u8 = 36;

pub const ENDCHANNEL: u8 = 37;

pub const ENDCONNECTION: u8 = 38;

pub const ENDDECISION: u8 = 39;

pub const ENDPROCEDURE: u8 = 40;

pub const ENDPROCESS: u8 = 41;

pub const ENDSTATE: u8 = 42;

pub const ENDSUBSTRUCTURE: u8 = 43;

pub const ENDSYSTEM: u8 = 44;

pub const ENV: u8 = 45;

pub const EXTERNAL: u8 = 46;

pub const FALSE: u8 = 47;

pub const FPAR: u8 = 48;

pub const FROM: u8 = 49;

pub const IN: u8 = 50;

pub const INPUT: u8 = 51;

pub const JOIN: u8 = 52;

pub const MOD: u8 = 53;

pub const NEXTSTATE: u8 = 54;

pub const NOT: u8 = 55;

pub const OR: u8 = 56;

pub const OUT: u8 = 57;

pub const OUTPUT: u8 = 58;

pub const PRIORITY: u8 = 59;

pub const PROCEDURE: u8 = 60;

pub const PROCESS: u8 = 61;

pub const PROVIDED: u8 = 62;

pub const REFERENCED: u8 = 63;

pub const REM: u8 = 64;

pub const RETURN: u8 = 65;

pub const RETURNS: u8 = 66;

pub const SAVE: u8 = 67;

pub const SIGNAL: u8 = 68;

pub const SIGNALROUTE: u8 = 69;

pub const START: u8 = 70;

pub const STATE: u8 = 71;

pub const STOP: u8 = 72;

pub const SUBSTRUCTURE: u8 = 73;

pub const SYSTEM: u8 = 74;

pub const TASK: u8 = 75;

pub const THEN: u8 = 76;

pub const TIMER: u8 = 77;

pub const TO: u8 = 78;

pub const TRUE: u8 = 79;

pub const USE: u8 = 80;

pub const VIA: u8 = 81;

pub const WITH: u8 = 82;

pub const XOR: u8 = 83;

/// The kind of a token. A name that is not spelt like one has none, nor have the words and marks of ASN.1.
pub fn kind_of(token: &Token) -> u8
    ensures { result ≡ kind_of token.now }
{
    match token {
        Token::Name(word) => {
            if is_name(word.bytes.as_slice()) {
                0
            } else {
                255
            }
        }
        Token::Number(_) => 1,
        Token::Text(_) => 2,
        Token::End => 3,
        Token::Mark(mark) => kind_of_mark(*mark),
        Token::Keyword(word) => kind_of_keyword(*word),
        Token::AsnKeyword(_) | Token::AsnMark(_) => 255,
    }
}

pub fn kind_of_mark(mark: Mark) -> u8
    ensures { result ≡ kind_of_mark mark }
{
    4 + mark as u8
}

pub fn kind_of_keyword(word: Keyword) -> u8
    ensures { result ≡ kind_of_keyword word }
{
    24 + word as u8
}

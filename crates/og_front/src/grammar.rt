//! The grammar of a model file as a table (Z.106): each line is a production.
use crate::{kind, part};
use og_grammar::Nesting::Keeps;
use og_grammar::{Part, Symbol};

/// The kind of the last token, the end of the file.
pub const LAST: u8 = kind::END;

/// The productions.
pub const GRAMMAR: [Symbol; 52] = [
    // file = SYSTEM NAME SEMICOLON *signal BLOCK NAME SEMICOLON PROCESS NAME SEMICOLON start *state ENDPROCESS SEMICOLON ENDBLOCK SEMICOLON ENDSYSTEM SEMICOLON
    Symbol::Rule(part::FILE),
    Symbol::Token(kind::SYSTEM, Keeps),
    Symbol::Token(kind::NAME, Keeps),
    Symbol::Token(kind::SEMICOLON, Keeps),
    Symbol::Many(part::SIGNAL),
    Symbol::Token(kind::BLOCK, Keeps),
    Symbol::Token(kind::NAME, Keeps),
    Symbol::Token(kind::SEMICOLON, Keeps),
    Symbol::Token(kind::PROCESS, Keeps),
    Symbol::Token(kind::NAME, Keeps),
    Symbol::Token(kind::SEMICOLON, Keeps),
    Symbol::Part(part::START),
    Symbol::Many(part::STATE),
    Symbol::Token(kind::ENDPROCESS, Keeps),
    Symbol::Token(kind::SEMICOLON, Keeps),
    Symbol::Token(kind::ENDBLOCK, Keeps),
    Symbol::Token(kind::SEMICOLON, Keeps),
    Symbol::Token(kind::ENDSYSTEM, Keeps),
    Symbol::Token(kind::SEMICOLON, Keeps),
    // signal = SIGNAL NAME *further SEMICOLON
    Symbol::Rule(part::SIGNAL),
    Symbol::Token(kind::SIGNAL, Keeps),
    Symbol::Token(kind::NAME, Keeps),
    Symbol::Many(part::FURTHER),
    Symbol::Token(kind::SEMICOLON, Keeps),
    // further = COMMA NAME
    Symbol::Rule(part::FURTHER),
    Symbol::Token(kind::COMMA, Keeps),
    Symbol::Token(kind::NAME, Keeps),
    // start = START SEMICOLON next
    Symbol::Rule(part::START),
    Symbol::Token(kind::START, Keeps),
    Symbol::Token(kind::SEMICOLON, Keeps),
    Symbol::Part(part::NEXT),
    // next = NEXTSTATE NAME SEMICOLON
    Symbol::Rule(part::NEXT),
    Symbol::Token(kind::NEXTSTATE, Keeps),
    Symbol::Token(kind::NAME, Keeps),
    Symbol::Token(kind::SEMICOLON, Keeps),
    // state = STATE NAME SEMICOLON *input ENDSTATE SEMICOLON
    Symbol::Rule(part::STATE),
    Symbol::Token(kind::STATE, Keeps),
    Symbol::Token(kind::NAME, Keeps),
    Symbol::Token(kind::SEMICOLON, Keeps),
    Symbol::Many(part::INPUT),
    Symbol::Token(kind::ENDSTATE, Keeps),
    Symbol::Token(kind::SEMICOLON, Keeps),
    // input = INPUT NAME SEMICOLON *output next
    Symbol::Rule(part::INPUT),
    Symbol::Token(kind::INPUT, Keeps),
    Symbol::Token(kind::NAME, Keeps),
    Symbol::Token(kind::SEMICOLON, Keeps),
    Symbol::Many(part::OUTPUT),
    Symbol::Part(part::NEXT),
    // output = OUTPUT NAME SEMICOLON
    Symbol::Rule(part::OUTPUT),
    Symbol::Token(kind::OUTPUT, Keeps),
    Symbol::Token(kind::NAME, Keeps),
    Symbol::Token(kind::SEMICOLON, Keeps),
];

/// What is said of their parts.
pub const PARTS: [Part; 8] = [
    // file
    Part {
        begins: 0x2,
        follows: 0x10000,
        empty: false,
        weight: 1,
        rank: 2,
        least: 0,
        lead: 0x2,
        bars: 0x0,
    },
    // signal
    Part {
        begins: 0x4,
        follows: 0xc,
        empty: false,
        weight: 1,
        rank: 0,
        least: 0,
        lead: 0x4,
        bars: 0x0,
    },
    // further
    Part {
        begins: 0x8000,
        follows: 0xc000,
        empty: false,
        weight: 1,
        rank: 0,
        least: 0,
        lead: 0x8000,
        bars: 0x0,
    },
    // start
    Part {
        begins: 0x20,
        follows: 0x880,
        empty: false,
        weight: 1,
        rank: 1,
        least: 0,
        lead: 0x20,
        bars: 0x0,
    },
    // next
    Part {
        begins: 0x40,
        follows: 0xb80,
        empty: false,
        weight: 1,
        rank: 0,
        least: 0,
        lead: 0x40,
        bars: 0x0,
    },
    // state
    Part {
        begins: 0x80,
        follows: 0x880,
        empty: false,
        weight: 1,
        rank: 0,
        least: 0,
        lead: 0x80,
        bars: 0x0,
    },
    // input
    Part {
        begins: 0x200,
        follows: 0x300,
        empty: false,
        weight: 1,
        rank: 1,
        least: 0,
        lead: 0x200,
        bars: 0x0,
    },
    // output
    Part {
        begins: 0x400,
        follows: 0x440,
        empty: false,
        weight: 1,
        rank: 0,
        least: 0,
        lead: 0x400,
        bars: 0x0,
    },
];

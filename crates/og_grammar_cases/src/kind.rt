//! The kinds of tokens.
pub const NAME: u8 = 0;

pub const NUMBER: u8 = 1;

pub const TEXT: u8 = 2;

pub const SEMI: u8 = 3;

pub const COMMA: u8 = 4;

pub const COLON: u8 = 5;

pub const ASSIGN: u8 = 6;

pub const LPAR: u8 = 7;

pub const RPAR: u8 = 8;

pub const LBRACE: u8 = 9;

pub const RBRACE: u8 = 10;

pub const DOT: u8 = 11;

pub const EXCL: u8 = 12;

pub const PLUS: u8 = 13;

pub const MINUS: u8 = 14;

pub const STAR: u8 = 15;

pub const SLASH: u8 = 16;

pub const EQ: u8 = 17;

pub const NE: u8 = 18;

pub const LT: u8 = 19;

pub const LE: u8 = 20;

pub const GT: u8 = 21;

pub const GE: u8 = 22;

pub const SIGNAL: u8 = 23;

pub const COMMENT: u8 = 24;

pub const STATE: u8 = 25;

pub const ENDSTATE: u8 = 26;

pub const INPUT: u8 = 27;

pub const PROVIDED: u8 = 28;

pub const SAVE: u8 = 29;

pub const TASK: u8 = 30;

pub const OUTPUT: u8 = 31;

pub const DECISION: u8 = 32;

pub const ENDDECISION: u8 = 33;

pub const ELSE: u8 = 34;

pub const NEXTSTATE: u8 = 35;

pub const STOP: u8 = 36;

pub const DCL: u8 = 37;

pub const AND: u8 = 38;

pub const OR: u8 = 39;

pub const XOR: u8 = 40;

pub const NOT: u8 = 41;

pub const MOD: u8 = 42;

pub const REM: u8 = 43;

pub const THEN: u8 = 44;

pub const TRUE: u8 = 45;

pub const FALSE: u8 = 46;

pub const END: u8 = 47;

/// How each kind is written in the lines of this program; any other word is a name, a number or a text.
pub const WORDS: [&str; 48] = [
    "Name",
    "Number",
    "Text",
    ";",
    ",",
    ":",
    ":=",
    "(",
    ")",
    "{",
    "}",
    ".",
    "!",
    "+",
    "-",
    "*",
    "/",
    "=",
    "/=",
    "<",
    "<=",
    ">",
    ">=",
    "SIGNAL",
    "COMMENT",
    "STATE",
    "ENDSTATE",
    "INPUT",
    "PROVIDED",
    "SAVE",
    "TASK",
    "OUTPUT",
    "DECISION",
    "ENDDECISION",
    "ELSE",
    "NEXTSTATE",
    "STOP",
    "DCL",
    "AND",
    "OR",
    "XOR",
    "NOT",
    "MOD",
    "REM",
    "THEN",
    "TRUE",
    "FALSE",
    "End",
];

//! The grammar of modules as a table (X.680): each line is a production.
use crate::{kind, part};
use og_grammar::Nesting::{Falls, Keeps, Rises};
use og_grammar::{Part, Symbol};

/// The kind of the last token, the end of the file.
pub const LAST: u8 = kind::LAST;

/// How deep a file may nest.
pub const LIMIT: usize = 64;

/// The productions.
#[rattlefmt::skip]
pub const GRAMMAR: [Symbol; 463] = [
    // file = *module
    Symbol::Rule(part::FILE), Symbol::Many(part::MODULE),
    // module = TYPE_NAME ?braced DEFINITIONS ?tagging ASSIGN BEGIN ?exports ?imports *assignment END
    Symbol::Rule(part::MODULE), Symbol::Token(kind::TYPE_NAME, Keeps), Symbol::Maybe(part::BRACED),
    Symbol::Token(kind::DEFINITIONS, Keeps), Symbol::Maybe(part::TAGGING), Symbol::Token(kind::ASSIGN, Keeps),
    Symbol::Token(kind::BEGIN, Keeps), Symbol::Maybe(part::EXPORTS), Symbol::Maybe(part::IMPORTS),
    Symbol::Many(part::ASSIGNMENT), Symbol::Token(kind::END, Keeps),
    // tagging = AUTOMATIC TAGS
    Symbol::Rule(part::TAGGING), Symbol::Token(kind::AUTOMATIC, Keeps), Symbol::Token(kind::TAGS, Keeps),
    // tagging = EXPLICIT TAGS
    Symbol::Rule(part::TAGGING), Symbol::Token(kind::EXPLICIT, Keeps), Symbol::Token(kind::TAGS, Keeps),
    // tagging = IMPLICIT TAGS
    Symbol::Rule(part::TAGGING), Symbol::Token(kind::IMPLICIT, Keeps), Symbol::Token(kind::TAGS, Keeps),
    // exports = EXPORTS *exported SEMICOLON
    Symbol::Rule(part::EXPORTS), Symbol::Token(kind::EXPORTS, Keeps), Symbol::Many(part::EXPORTED),
    Symbol::Token(kind::SEMICOLON, Keeps),
    // imports = IMPORTS *import SEMICOLON
    Symbol::Rule(part::IMPORTS), Symbol::Token(kind::IMPORTS, Keeps), Symbol::Many(part::IMPORT),
    Symbol::Token(kind::SEMICOLON, Keeps),
    // import = symbol *more_symbols FROM TYPE_NAME ?braced
    Symbol::Rule(part::IMPORT), Symbol::Part(part::SYMBOL), Symbol::Many(part::MORE_SYMBOLS),
    Symbol::Token(kind::FROM, Keeps), Symbol::Token(kind::TYPE_NAME, Keeps), Symbol::Maybe(part::BRACED),
    // more_symbols = COMMA symbol
    Symbol::Rule(part::MORE_SYMBOLS), Symbol::Token(kind::COMMA, Keeps), Symbol::Part(part::SYMBOL),
    // symbol = TYPE_NAME
    Symbol::Rule(part::SYMBOL), Symbol::Token(kind::TYPE_NAME, Keeps),
    // symbol = VALUE_NAME
    Symbol::Rule(part::SYMBOL), Symbol::Token(kind::VALUE_NAME, Keeps),
    // assignment = TYPE_NAME ASSIGN @type
    Symbol::Rule(part::ASSIGNMENT), Symbol::Token(kind::TYPE_NAME, Keeps), Symbol::Token(kind::ASSIGN, Keeps),
    Symbol::Scope(part::TYPE),
    // assignment = VALUE_NAME @type ASSIGN @value
    Symbol::Rule(part::ASSIGNMENT), Symbol::Token(kind::VALUE_NAME, Keeps), Symbol::Scope(part::TYPE),
    Symbol::Token(kind::ASSIGN, Keeps), Symbol::Scope(part::VALUE),
    // type = ?tag base
    Symbol::Rule(part::TYPE), Symbol::Maybe(part::TAG), Symbol::Part(part::BASE),
    // tag = +LEFT_BRACKET *item -RIGHT_BRACKET ?tag_mode
    Symbol::Rule(part::TAG), Symbol::Token(kind::LEFT_BRACKET, Rises(1)), Symbol::Many(part::ITEM),
    Symbol::Token(kind::RIGHT_BRACKET, Falls(1)), Symbol::Maybe(part::TAG_MODE),
    // tag_mode = IMPLICIT
    Symbol::Rule(part::TAG_MODE), Symbol::Token(kind::IMPLICIT, Keeps),
    // tag_mode = EXPLICIT
    Symbol::Rule(part::TAG_MODE), Symbol::Token(kind::EXPLICIT, Keeps),
    // base = INTEGER ?braced ?round
    Symbol::Rule(part::BASE), Symbol::Token(kind::INTEGER, Keeps), Symbol::Maybe(part::BRACED),
    Symbol::Maybe(part::ROUND),
    // base = BOOLEAN
    Symbol::Rule(part::BASE), Symbol::Token(kind::BOOLEAN, Keeps),
    // base = TYPE_NAME ?round
    Symbol::Rule(part::BASE), Symbol::Token(kind::TYPE_NAME, Keeps), Symbol::Maybe(part::ROUND),
    // base = ENUMERATED +LEFT_BRACE enum *more_enums -RIGHT_BRACE
    Symbol::Rule(part::BASE), Symbol::Token(kind::ENUMERATED, Keeps), Symbol::Token(kind::LEFT_BRACE, Rises(1)),
    Symbol::Part(part::ENUM), Symbol::Many(part::MORE_ENUMS), Symbol::Token(kind::RIGHT_BRACE, Falls(1)),
    // base = CHOICE +LEFT_BRACE comp *more_comps -RIGHT_BRACE
    Symbol::Rule(part::BASE), Symbol::Token(kind::CHOICE, Keeps), Symbol::Token(kind::LEFT_BRACE, Rises(1)),
    Symbol::Part(part::COMP), Symbol::Many(part::MORE_COMPS), Symbol::Token(kind::RIGHT_BRACE, Falls(1)),
    // base = SEQUENCE after_sequence
    Symbol::Rule(part::BASE), Symbol::Token(kind::SEQUENCE, Keeps), Symbol::Part(part::AFTER_SEQUENCE),
    // base = SET after_set
    Symbol::Rule(part::BASE), Symbol::Token(kind::SET, Keeps), Symbol::Part(part::AFTER_SET),
    // base = REAL ?round
    Symbol::Rule(part::BASE), Symbol::Token(kind::REAL, Keeps), Symbol::Maybe(part::ROUND),
    // base = NULL
    Symbol::Rule(part::BASE), Symbol::Token(kind::NULL, Keeps),
    // base = OCTET STRING ?round
    Symbol::Rule(part::BASE), Symbol::Token(kind::OCTET, Keeps), Symbol::Token(kind::STRING, Keeps),
    Symbol::Maybe(part::ROUND),
    // base = OBJECT IDENTIFIER
    Symbol::Rule(part::BASE), Symbol::Token(kind::OBJECT, Keeps), Symbol::Token(kind::IDENTIFIER, Keeps),
    // base = BIT STRING ?braced ?round
    Symbol::Rule(part::BASE), Symbol::Token(kind::BIT, Keeps), Symbol::Token(kind::STRING, Keeps),
    Symbol::Maybe(part::BRACED), Symbol::Maybe(part::ROUND),
    // after_sequence = +LEFT_BRACE ?comps -RIGHT_BRACE
    Symbol::Rule(part::AFTER_SEQUENCE), Symbol::Token(kind::LEFT_BRACE, Rises(1)), Symbol::Maybe(part::COMPS),
    Symbol::Token(kind::RIGHT_BRACE, Falls(1)),
    // after_sequence = ?size +OF type
    Symbol::Rule(part::AFTER_SEQUENCE), Symbol::Maybe(part::SIZE), Symbol::Token(kind::OF, Rises(1)),
    Symbol::Part(part::TYPE),
    // after_set = +LEFT_BRACE *item -RIGHT_BRACE
    Symbol::Rule(part::AFTER_SET), Symbol::Token(kind::LEFT_BRACE, Rises(1)), Symbol::Many(part::ITEM),
    Symbol::Token(kind::RIGHT_BRACE, Falls(1)),
    // after_set = ?size +OF type
    Symbol::Rule(part::AFTER_SET), Symbol::Maybe(part::SIZE), Symbol::Token(kind::OF, Rises(1)),
    Symbol::Part(part::TYPE),
    // size = round
    Symbol::Rule(part::SIZE), Symbol::Part(part::ROUND),
    // size = SIZE round
    Symbol::Rule(part::SIZE), Symbol::Token(kind::SIZE, Keeps), Symbol::Part(part::ROUND),
    // round = +LEFT_PARENTHESIS *item -RIGHT_PARENTHESIS
    Symbol::Rule(part::ROUND), Symbol::Token(kind::LEFT_PARENTHESIS, Rises(1)), Symbol::Many(part::ITEM),
    Symbol::Token(kind::RIGHT_PARENTHESIS, Falls(1)),
    // braced = +LEFT_BRACE *item -RIGHT_BRACE
    Symbol::Rule(part::BRACED), Symbol::Token(kind::LEFT_BRACE, Rises(1)), Symbol::Many(part::ITEM),
    Symbol::Token(kind::RIGHT_BRACE, Falls(1)),
    // enum = VALUE_NAME ?enum_number
    Symbol::Rule(part::ENUM), Symbol::Token(kind::VALUE_NAME, Keeps), Symbol::Maybe(part::ENUM_NUMBER),
    // enum = ELLIPSIS
    Symbol::Rule(part::ENUM), Symbol::Token(kind::ELLIPSIS, Keeps),
    // more_enums = COMMA enum
    Symbol::Rule(part::MORE_ENUMS), Symbol::Token(kind::COMMA, Keeps), Symbol::Part(part::ENUM),
    // enum_number = +LEFT_PARENTHESIS @signed -RIGHT_PARENTHESIS
    Symbol::Rule(part::ENUM_NUMBER), Symbol::Token(kind::LEFT_PARENTHESIS, Rises(1)), Symbol::Scope(part::SIGNED),
    Symbol::Token(kind::RIGHT_PARENTHESIS, Falls(1)),
    // signed = +HYPHEN NUMBER
    Symbol::Rule(part::SIGNED), Symbol::Token(kind::HYPHEN, Rises(1)), Symbol::Token(kind::NUMBER, Keeps),
    // signed = NUMBER
    Symbol::Rule(part::SIGNED), Symbol::Token(kind::NUMBER, Keeps),
    // comps = comp *more_comps
    Symbol::Rule(part::COMPS), Symbol::Part(part::COMP), Symbol::Many(part::MORE_COMPS),
    // comp = VALUE_NAME @type ?presence
    Symbol::Rule(part::COMP), Symbol::Token(kind::VALUE_NAME, Keeps), Symbol::Scope(part::TYPE),
    Symbol::Maybe(part::PRESENCE),
    // comp = ELLIPSIS
    Symbol::Rule(part::COMP), Symbol::Token(kind::ELLIPSIS, Keeps),
    // more_comps = COMMA comp
    Symbol::Rule(part::MORE_COMPS), Symbol::Token(kind::COMMA, Keeps), Symbol::Part(part::COMP),
    // presence = OPTIONAL
    Symbol::Rule(part::PRESENCE), Symbol::Token(kind::OPTIONAL, Keeps),
    // presence = DEFAULT @value
    Symbol::Rule(part::PRESENCE), Symbol::Token(kind::DEFAULT, Keeps), Symbol::Scope(part::VALUE),
    // value = +HYPHEN NUMBER ?fraction
    Symbol::Rule(part::VALUE), Symbol::Token(kind::HYPHEN, Rises(1)), Symbol::Token(kind::NUMBER, Keeps),
    Symbol::Maybe(part::FRACTION),
    // value = NUMBER ?fraction
    Symbol::Rule(part::VALUE), Symbol::Token(kind::NUMBER, Keeps), Symbol::Maybe(part::FRACTION),
    // value = TEXT
    Symbol::Rule(part::VALUE), Symbol::Token(kind::TEXT, Keeps),
    // value = TRUE
    Symbol::Rule(part::VALUE), Symbol::Token(kind::TRUE, Keeps),
    // value = FALSE
    Symbol::Rule(part::VALUE), Symbol::Token(kind::FALSE, Keeps),
    // value = NULL
    Symbol::Rule(part::VALUE), Symbol::Token(kind::NULL, Keeps),
    // value = VALUE_NAME ?chosen
    Symbol::Rule(part::VALUE), Symbol::Token(kind::VALUE_NAME, Keeps), Symbol::Maybe(part::CHOSEN),
    // value = +LEFT_BRACE *item -RIGHT_BRACE
    Symbol::Rule(part::VALUE), Symbol::Token(kind::LEFT_BRACE, Rises(1)), Symbol::Many(part::ITEM),
    Symbol::Token(kind::RIGHT_BRACE, Falls(1)),
    // fraction = FULL_STOP ?digits
    Symbol::Rule(part::FRACTION), Symbol::Token(kind::FULL_STOP, Keeps), Symbol::Maybe(part::DIGITS),
    // digits = NUMBER
    Symbol::Rule(part::DIGITS), Symbol::Token(kind::NUMBER, Keeps),
    // chosen = +COLON value
    Symbol::Rule(part::CHOSEN), Symbol::Token(kind::COLON, Rises(1)), Symbol::Part(part::VALUE),
    // item = +LEFT_BRACE *item -RIGHT_BRACE
    Symbol::Rule(part::ITEM), Symbol::Token(kind::LEFT_BRACE, Rises(1)), Symbol::Many(part::ITEM),
    Symbol::Token(kind::RIGHT_BRACE, Falls(1)),
    // item = +LEFT_PARENTHESIS *item -RIGHT_PARENTHESIS
    Symbol::Rule(part::ITEM), Symbol::Token(kind::LEFT_PARENTHESIS, Rises(1)), Symbol::Many(part::ITEM),
    Symbol::Token(kind::RIGHT_PARENTHESIS, Falls(1)),
    // item = +LEFT_BRACKET *item -RIGHT_BRACKET
    Symbol::Rule(part::ITEM), Symbol::Token(kind::LEFT_BRACKET, Rises(1)), Symbol::Many(part::ITEM),
    Symbol::Token(kind::RIGHT_BRACKET, Falls(1)),
    // item = TYPE_NAME
    Symbol::Rule(part::ITEM), Symbol::Token(kind::TYPE_NAME, Keeps),
    // item = VALUE_NAME
    Symbol::Rule(part::ITEM), Symbol::Token(kind::VALUE_NAME, Keeps),
    // item = NUMBER
    Symbol::Rule(part::ITEM), Symbol::Token(kind::NUMBER, Keeps),
    // item = TEXT
    Symbol::Rule(part::ITEM), Symbol::Token(kind::TEXT, Keeps),
    // item = ASSIGN
    Symbol::Rule(part::ITEM), Symbol::Token(kind::ASSIGN, Keeps),
    // item = RANGE
    Symbol::Rule(part::ITEM), Symbol::Token(kind::RANGE, Keeps),
    // item = ELLIPSIS
    Symbol::Rule(part::ITEM), Symbol::Token(kind::ELLIPSIS, Keeps),
    // item = EXCLAMATION
    Symbol::Rule(part::ITEM), Symbol::Token(kind::EXCLAMATION, Keeps),
    // item = NUMBER_SIGN
    Symbol::Rule(part::ITEM), Symbol::Token(kind::NUMBER_SIGN, Keeps),
    // item = DOLLAR
    Symbol::Rule(part::ITEM), Symbol::Token(kind::DOLLAR, Keeps),
    // item = PERCENT
    Symbol::Rule(part::ITEM), Symbol::Token(kind::PERCENT, Keeps),
    // item = AMPERSAND
    Symbol::Rule(part::ITEM), Symbol::Token(kind::AMPERSAND, Keeps),
    // item = ASTERISK
    Symbol::Rule(part::ITEM), Symbol::Token(kind::ASTERISK, Keeps),
    // item = PLUS
    Symbol::Rule(part::ITEM), Symbol::Token(kind::PLUS, Keeps),
    // item = COMMA
    Symbol::Rule(part::ITEM), Symbol::Token(kind::COMMA, Keeps),
    // item = HYPHEN
    Symbol::Rule(part::ITEM), Symbol::Token(kind::HYPHEN, Keeps),
    // item = FULL_STOP
    Symbol::Rule(part::ITEM), Symbol::Token(kind::FULL_STOP, Keeps),
    // item = SOLIDUS
    Symbol::Rule(part::ITEM), Symbol::Token(kind::SOLIDUS, Keeps),
    // item = COLON
    Symbol::Rule(part::ITEM), Symbol::Token(kind::COLON, Keeps),
    // item = SEMICOLON
    Symbol::Rule(part::ITEM), Symbol::Token(kind::SEMICOLON, Keeps),
    // item = LESS
    Symbol::Rule(part::ITEM), Symbol::Token(kind::LESS, Keeps),
    // item = EQUAL
    Symbol::Rule(part::ITEM), Symbol::Token(kind::EQUAL, Keeps),
    // item = GREATER
    Symbol::Rule(part::ITEM), Symbol::Token(kind::GREATER, Keeps),
    // item = QUESTION
    Symbol::Rule(part::ITEM), Symbol::Token(kind::QUESTION, Keeps),
    // item = AT
    Symbol::Rule(part::ITEM), Symbol::Token(kind::AT, Keeps),
    // item = REVERSE_SOLIDUS
    Symbol::Rule(part::ITEM), Symbol::Token(kind::REVERSE_SOLIDUS, Keeps),
    // item = CIRCUMFLEX
    Symbol::Rule(part::ITEM), Symbol::Token(kind::CIRCUMFLEX, Keeps),
    // item = UNDERLINE
    Symbol::Rule(part::ITEM), Symbol::Token(kind::UNDERLINE, Keeps),
    // item = GRAVE
    Symbol::Rule(part::ITEM), Symbol::Token(kind::GRAVE, Keeps),
    // item = VERTICAL_BAR
    Symbol::Rule(part::ITEM), Symbol::Token(kind::VERTICAL_BAR, Keeps),
    // item = TILDE
    Symbol::Rule(part::ITEM), Symbol::Token(kind::TILDE, Keeps),
    // item = AUTOMATIC
    Symbol::Rule(part::ITEM), Symbol::Token(kind::AUTOMATIC, Keeps),
    // item = BEGIN
    Symbol::Rule(part::ITEM), Symbol::Token(kind::BEGIN, Keeps),
    // item = BIT
    Symbol::Rule(part::ITEM), Symbol::Token(kind::BIT, Keeps),
    // item = BOOLEAN
    Symbol::Rule(part::ITEM), Symbol::Token(kind::BOOLEAN, Keeps),
    // item = CHOICE
    Symbol::Rule(part::ITEM), Symbol::Token(kind::CHOICE, Keeps),
    // item = DEFAULT
    Symbol::Rule(part::ITEM), Symbol::Token(kind::DEFAULT, Keeps),
    // item = DEFINITIONS
    Symbol::Rule(part::ITEM), Symbol::Token(kind::DEFINITIONS, Keeps),
    // item = END
    Symbol::Rule(part::ITEM), Symbol::Token(kind::END, Keeps),
    // item = ENUMERATED
    Symbol::Rule(part::ITEM), Symbol::Token(kind::ENUMERATED, Keeps),
    // item = EXPLICIT
    Symbol::Rule(part::ITEM), Symbol::Token(kind::EXPLICIT, Keeps),
    // item = EXPORTS
    Symbol::Rule(part::ITEM), Symbol::Token(kind::EXPORTS, Keeps),
    // item = FALSE
    Symbol::Rule(part::ITEM), Symbol::Token(kind::FALSE, Keeps),
    // item = FROM
    Symbol::Rule(part::ITEM), Symbol::Token(kind::FROM, Keeps),
    // item = IDENTIFIER
    Symbol::Rule(part::ITEM), Symbol::Token(kind::IDENTIFIER, Keeps),
    // item = IMPLICIT
    Symbol::Rule(part::ITEM), Symbol::Token(kind::IMPLICIT, Keeps),
    // item = IMPORTS
    Symbol::Rule(part::ITEM), Symbol::Token(kind::IMPORTS, Keeps),
    // item = INTEGER
    Symbol::Rule(part::ITEM), Symbol::Token(kind::INTEGER, Keeps),
    // item = NULL
    Symbol::Rule(part::ITEM), Symbol::Token(kind::NULL, Keeps),
    // item = OBJECT
    Symbol::Rule(part::ITEM), Symbol::Token(kind::OBJECT, Keeps),
    // item = OCTET
    Symbol::Rule(part::ITEM), Symbol::Token(kind::OCTET, Keeps),
    // item = OF
    Symbol::Rule(part::ITEM), Symbol::Token(kind::OF, Keeps),
    // item = OPTIONAL
    Symbol::Rule(part::ITEM), Symbol::Token(kind::OPTIONAL, Keeps),
    // item = REAL
    Symbol::Rule(part::ITEM), Symbol::Token(kind::REAL, Keeps),
    // item = SEQUENCE
    Symbol::Rule(part::ITEM), Symbol::Token(kind::SEQUENCE, Keeps),
    // item = SET
    Symbol::Rule(part::ITEM), Symbol::Token(kind::SET, Keeps),
    // item = SIZE
    Symbol::Rule(part::ITEM), Symbol::Token(kind::SIZE, Keeps),
    // item = STRING
    Symbol::Rule(part::ITEM), Symbol::Token(kind::STRING, Keeps),
    // item = TAGS
    Symbol::Rule(part::ITEM), Symbol::Token(kind::TAGS, Keeps),
    // item = TRUE
    Symbol::Rule(part::ITEM), Symbol::Token(kind::TRUE, Keeps),
    // exported = TYPE_NAME
    Symbol::Rule(part::EXPORTED), Symbol::Token(kind::TYPE_NAME, Keeps),
    // exported = VALUE_NAME
    Symbol::Rule(part::EXPORTED), Symbol::Token(kind::VALUE_NAME, Keeps),
    // exported = NUMBER
    Symbol::Rule(part::EXPORTED), Symbol::Token(kind::NUMBER, Keeps),
    // exported = TEXT
    Symbol::Rule(part::EXPORTED), Symbol::Token(kind::TEXT, Keeps),
    // exported = ASSIGN
    Symbol::Rule(part::EXPORTED), Symbol::Token(kind::ASSIGN, Keeps),
    // exported = RANGE
    Symbol::Rule(part::EXPORTED), Symbol::Token(kind::RANGE, Keeps),
    // exported = ELLIPSIS
    Symbol::Rule(part::EXPORTED), Symbol::Token(kind::ELLIPSIS, Keeps),
    // exported = EXCLAMATION
    Symbol::Rule(part::EXPORTED), Symbol::Token(kind::EXCLAMATION, Keeps),
    // exported = NUMBER_SIGN
    Symbol::Rule(part::EXPORTED), Symbol::Token(kind::NUMBER_SIGN, Keeps),
    // exported = DOLLAR
    Symbol::Rule(part::EXPORTED), Symbol::Token(kind::DOLLAR, Keeps),
    // exported = PERCENT
    Symbol::Rule(part::EXPORTED), Symbol::Token(kind::PERCENT, Keeps),
    // exported = AMPERSAND
    Symbol::Rule(part::EXPORTED), Symbol::Token(kind::AMPERSAND, Keeps),
    // exported = LEFT_PARENTHESIS
    Symbol::Rule(part::EXPORTED), Symbol::Token(kind::LEFT_PARENTHESIS, Keeps),
    // exported = RIGHT_PARENTHESIS
    Symbol::Rule(part::EXPORTED), Symbol::Token(kind::RIGHT_PARENTHESIS, Keeps),
    // exported = ASTERISK
    Symbol::Rule(part::EXPORTED), Symbol::Token(kind::ASTERISK, Keeps),
    // exported = PLUS
    Symbol::Rule(part::EXPORTED), Symbol::Token(kind::PLUS, Keeps),
    // exported = COMMA
    Symbol::Rule(part::EXPORTED), Symbol::Token(kind::COMMA, Keeps),
    // exported = HYPHEN
    Symbol::Rule(part::EXPORTED), Symbol::Token(kind::HYPHEN, Keeps),
    // exported = FULL_STOP
    Symbol::Rule(part::EXPORTED), Symbol::Token(kind::FULL_STOP, Keeps),
    // exported = SOLIDUS
    Symbol::Rule(part::EXPORTED), Symbol::Token(kind::SOLIDUS, Keeps),
    // exported = COLON
    Symbol::Rule(part::EXPORTED), Symbol::Token(kind::COLON, Keeps),
    // exported = LESS
    Symbol::Rule(part::EXPORTED), Symbol::Token(kind::LESS, Keeps),
    // exported = EQUAL
    Symbol::Rule(part::EXPORTED), Symbol::Token(kind::EQUAL, Keeps),
    // exported = GREATER
    Symbol::Rule(part::EXPORTED), Symbol::Token(kind::GREATER, Keeps),
    // exported = QUESTION
    Symbol::Rule(part::EXPORTED), Symbol::Token(kind::QUESTION, Keeps),
    // exported = AT
    Symbol::Rule(part::EXPORTED), Symbol::Token(kind::AT, Keeps),
    // exported = LEFT_BRACKET
    Symbol::Rule(part::EXPORTED), Symbol::Token(kind::LEFT_BRACKET, Keeps),
    // exported = REVERSE_SOLIDUS
    Symbol::Rule(part::EXPORTED), Symbol::Token(kind::REVERSE_SOLIDUS, Keeps),
    // exported = RIGHT_BRACKET
    Symbol::Rule(part::EXPORTED), Symbol::Token(kind::RIGHT_BRACKET, Keeps),
    // exported = CIRCUMFLEX
    Symbol::Rule(part::EXPORTED), Symbol::Token(kind::CIRCUMFLEX, Keeps),
    // exported = UNDERLINE
    Symbol::Rule(part::EXPORTED), Symbol::Token(kind::UNDERLINE, Keeps),
    // exported = GRAVE
    Symbol::Rule(part::EXPORTED), Symbol::Token(kind::GRAVE, Keeps),
    // exported = LEFT_BRACE
    Symbol::Rule(part::EXPORTED), Symbol::Token(kind::LEFT_BRACE, Keeps),
    // exported = VERTICAL_BAR
    Symbol::Rule(part::EXPORTED), Symbol::Token(kind::VERTICAL_BAR, Keeps),
    // exported = RIGHT_BRACE
    Symbol::Rule(part::EXPORTED), Symbol::Token(kind::RIGHT_BRACE, Keeps),
    // exported = TILDE
    Symbol::Rule(part::EXPORTED), Symbol::Token(kind::TILDE, Keeps),
    // exported = AUTOMATIC
    Symbol::Rule(part::EXPORTED), Symbol::Token(kind::AUTOMATIC, Keeps),
    // exported = BEGIN
    Symbol::Rule(part::EXPORTED), Symbol::Token(kind::BEGIN, Keeps),
    // exported = BIT
    Symbol::Rule(part::EXPORTED), Symbol::Token(kind::BIT, Keeps),
    // exported = BOOLEAN
    Symbol::Rule(part::EXPORTED), Symbol::Token(kind::BOOLEAN, Keeps),
    // exported = CHOICE
    Symbol::Rule(part::EXPORTED), Symbol::Token(kind::CHOICE, Keeps),
    // exported = DEFAULT
    Symbol::Rule(part::EXPORTED), Symbol::Token(kind::DEFAULT, Keeps),
    // exported = DEFINITIONS
    Symbol::Rule(part::EXPORTED), Symbol::Token(kind::DEFINITIONS, Keeps),
    // exported = END
    Symbol::Rule(part::EXPORTED), Symbol::Token(kind::END, Keeps),
    // exported = ENUMERATED
    Symbol::Rule(part::EXPORTED), Symbol::Token(kind::ENUMERATED, Keeps),
    // exported = EXPLICIT
    Symbol::Rule(part::EXPORTED), Symbol::Token(kind::EXPLICIT, Keeps),
    // exported = EXPORTS
    Symbol::Rule(part::EXPORTED), Symbol::Token(kind::EXPORTS, Keeps),
    // exported = FALSE
    Symbol::Rule(part::EXPORTED), Symbol::Token(kind::FALSE, Keeps),
    // exported = FROM
    Symbol::Rule(part::EXPORTED), Symbol::Token(kind::FROM, Keeps),
    // exported = IDENTIFIER
    Symbol::Rule(part::EXPORTED), Symbol::Token(kind::IDENTIFIER, Keeps),
    // exported = IMPLICIT
    Symbol::Rule(part::EXPORTED), Symbol::Token(kind::IMPLICIT, Keeps),
    // exported = IMPORTS
    Symbol::Rule(part::EXPORTED), Symbol::Token(kind::IMPORTS, Keeps),
    // exported = INTEGER
    Symbol::Rule(part::EXPORTED), Symbol::Token(kind::INTEGER, Keeps),
    // exported = NULL
    Symbol::Rule(part::EXPORTED), Symbol::Token(kind::NULL, Keeps),
    // exported = OBJECT
    Symbol::Rule(part::EXPORTED), Symbol::Token(kind::OBJECT, Keeps),
    // exported = OCTET
    Symbol::Rule(part::EXPORTED), Symbol::Token(kind::OCTET, Keeps),
    // exported = OF
    Symbol::Rule(part::EXPORTED), Symbol::Token(kind::OF, Keeps),
    // exported = OPTIONAL
    Symbol::Rule(part::EXPORTED), Symbol::Token(kind::OPTIONAL, Keeps),
    // exported = REAL
    Symbol::Rule(part::EXPORTED), Symbol::Token(kind::REAL, Keeps),
    // exported = SEQUENCE
    Symbol::Rule(part::EXPORTED), Symbol::Token(kind::SEQUENCE, Keeps),
    // exported = SET
    Symbol::Rule(part::EXPORTED), Symbol::Token(kind::SET, Keeps),
    // exported = SIZE
    Symbol::Rule(part::EXPORTED), Symbol::Token(kind::SIZE, Keeps),
    // exported = STRING
    Symbol::Rule(part::EXPORTED), Symbol::Token(kind::STRING, Keeps),
    // exported = TAGS
    Symbol::Rule(part::EXPORTED), Symbol::Token(kind::TAGS, Keeps),
    // exported = TRUE
    Symbol::Rule(part::EXPORTED), Symbol::Token(kind::TRUE, Keeps),
];

/// What is said of their parts.
#[rattlefmt::skip]
pub const PARTS: [Part; 32] = [
    // file
    Part { begins: 0x1, follows: 0x10, empty: true, weight: 4, rank: 0, least: 0, lead: 0x0, bars: 0x0 },
    // module
    Part { begins: 0x1, follows: 0x11, empty: false, weight: 1, rank: 0, least: 0, lead: 0x1, bars: 0x0 },
    // tagging
    Part { begins: 0x10804000000000, follows: 0x20, empty: false, weight: 1, rank: 0, least: 0, lead: 0x4000000000, bars: 0x0 },
    // exports
    Part { begins: 0x1000000000000, follows: 0x20200000000003, empty: false, weight: 1, rank: 0, least: 0, lead: 0x1000000000000, bars: 0x0 },
    // imports
    Part { begins: 0x20000000000000, follows: 0x200000000003, empty: false, weight: 1, rank: 0, least: 0, lead: 0x20000000000000, bars: 0x0 },
    // import
    Part { begins: 0x3, follows: 0x400003, empty: false, weight: 2, rank: 1, least: 0, lead: 0x1, bars: 0x0 },
    // more_symbols
    Part { begins: 0x20000, follows: 0x4000000020000, empty: false, weight: 1, rank: 1, least: 0, lead: 0x20000, bars: 0x0 },
    // symbol
    Part { begins: 0x3, follows: 0x4000000020000, empty: false, weight: 1, rank: 0, least: 0, lead: 0x1, bars: 0x0 },
    // assignment
    Part { begins: 0x3, follows: 0x200000000003, empty: false, weight: 1, rank: 2, least: 0, lead: 0x1, bars: 0x0 },
    // type
    Part { begins: 0x73c0470010000001, follows: 0x800281000020023, empty: false, weight: 5, rank: 1, least: 0, lead: 0x40000000000000, bars: 0x0 },
    // tag
    Part { begins: 0x10000000, follows: 0x73c0470000000001, empty: false, weight: 1, rank: 0, least: 0, lead: 0x10000000, bars: 0x0 },
    // tag_mode
    Part { begins: 0x10800000000000, follows: 0x73c0470000000001, empty: false, weight: 1, rank: 0, least: 0, lead: 0x10000000000000, bars: 0x0 },
    // base
    Part { begins: 0x73c0470000000001, follows: 0x800281000020023, empty: false, weight: 1, rank: 0, least: 0, lead: 0x40000000000000, bars: 0x0 },
    // after_sequence
    Part { begins: 0x8400000400002000, follows: 0x800281000020023, empty: false, weight: 5, rank: 0, least: 0, lead: 0x400000000, bars: 0x0 },
    // after_set
    Part { begins: 0x8400000400002000, follows: 0x800281000020023, empty: false, weight: 5, rank: 0, least: 0, lead: 0x400000000, bars: 0x0 },
    // size
    Part { begins: 0x8000000000002000, follows: 0x400000000000000, empty: false, weight: 2, rank: 1, least: 0, lead: 0x2000, bars: 0x0 },
    // round
    Part { begins: 0x2000, follows: 0xc00281000020023, empty: false, weight: 1, rank: 0, least: 0, lead: 0x2000, bars: 0x0 },
    // braced
    Part { begins: 0x400000000, follows: 0x800381000422023, empty: false, weight: 1, rank: 0, least: 0, lead: 0x400000000, bars: 0x0 },
    // enum
    Part { begins: 0x82, follows: 0x1000020000, empty: false, weight: 1, rank: 0, least: 0, lead: 0x2, bars: 0x0 },
    // more_enums
    Part { begins: 0x20000, follows: 0x1000020000, empty: false, weight: 1, rank: 1, least: 0, lead: 0x20000, bars: 0x0 },
    // enum_number
    Part { begins: 0x2000, follows: 0x1000020000, empty: false, weight: 1, rank: 1, least: 0, lead: 0x2000, bars: 0x0 },
    // signed
    Part { begins: 0x40004, follows: 0x4000, empty: false, weight: 1, rank: 0, least: 0, lead: 0x40000, bars: 0x0 },
    // comps
    Part { begins: 0x82, follows: 0x1000000000, empty: false, weight: 2, rank: 1, least: 0, lead: 0x80, bars: 0x0 },
    // comp
    Part { begins: 0x82, follows: 0x1000020000, empty: false, weight: 1, rank: 0, least: 1, lead: 0x80, bars: 0x0 },
    // more_comps
    Part { begins: 0x20000, follows: 0x1000020000, empty: false, weight: 1, rank: 1, least: 0, lead: 0x20000, bars: 0x0 },
    // presence
    Part { begins: 0x800080000000000, follows: 0x1000020000, empty: false, weight: 1, rank: 0, least: 0, lead: 0x800000000000000, bars: 0x0 },
    // value
    Part { begins: 0x4008200040004000e, follows: 0x201000020003, empty: false, weight: 1, rank: 0, least: 0, lead: 0x40000, bars: 0x0 },
    // fraction
    Part { begins: 0x80000, follows: 0x201000020003, empty: false, weight: 1, rank: 0, least: 0, lead: 0x80000, bars: 0x0 },
    // digits
    Part { begins: 0x4, follows: 0x201000020003, empty: false, weight: 1, rank: 0, least: 0, lead: 0x4, bars: 0x0 },
    // chosen
    Part { begins: 0x200000, follows: 0x201000020003, empty: false, weight: 1, rank: 1, least: 0, lead: 0x200000, bars: 0x0 },
    // item
    Part { begins: 0x7ffffffefbfffbfef, follows: 0x7ffffffffffffffef, empty: false, weight: 1, rank: 0, least: 0, lead: 0x400000000, bars: 0x0 },
    // exported
    Part { begins: 0x7ffffffffffbfffef, follows: 0x7ffffffffffffffef, empty: false, weight: 1, rank: 0, least: 0, lead: 0x1, bars: 0x0 },
];

//! The grammar of expressions (Z.101 clause 12) as a table: each line is a production.
use crate::part;
use og_grammar::Nesting::{Falls, Keeps, Rises};
use og_grammar::{Part, Symbol};
use og_reading::kind;

/// The kind of the last token.
pub const LAST: u8 = kind::LAST;

/// The productions.
pub const EXPRESSION: [Symbol; 293] = [
    // whole = expr
    Symbol::Rule(part::WHOLE),
    Symbol::Part(part::EXPR),
    // expr = NAME after_name
    Symbol::Rule(part::EXPR),
    Symbol::Token(kind::NAME, Keeps),
    Symbol::Part(part::AFTER_NAME),
    // expr = first_operand tails
    Symbol::Rule(part::EXPR),
    Symbol::Part(part::FIRST_OPERAND),
    Symbol::Part(part::TAILS),
    // after_name = +COLON expr
    Symbol::Rule(part::AFTER_NAME),
    Symbol::Token(kind::COLON, Rises(1)),
    Symbol::Part(part::EXPR),
    // after_name = *selector tails
    Symbol::Rule(part::AFTER_NAME),
    Symbol::Many(part::SELECTOR),
    Symbol::Part(part::TAILS),
    // tails = *factor *term ?comparison *conjunct *disjunct
    Symbol::Rule(part::TAILS),
    Symbol::Many(part::FACTOR),
    Symbol::Many(part::TERM),
    Symbol::Maybe(part::COMPARISON),
    Symbol::Many(part::CONJUNCT),
    Symbol::Many(part::DISJUNCT),
    // factor = product_operator operand
    Symbol::Rule(part::FACTOR),
    Symbol::Part(part::PRODUCT_OPERATOR),
    Symbol::Part(part::OPERAND),
    // product_operator = +ASTERISK
    Symbol::Rule(part::PRODUCT_OPERATOR),
    Symbol::Token(kind::ASTERISK, Rises(1)),
    // product_operator = +SOLIDUS
    Symbol::Rule(part::PRODUCT_OPERATOR),
    Symbol::Token(kind::SOLIDUS, Rises(1)),
    // product_operator = +MOD
    Symbol::Rule(part::PRODUCT_OPERATOR),
    Symbol::Token(kind::MOD, Rises(1)),
    // product_operator = +REM
    Symbol::Rule(part::PRODUCT_OPERATOR),
    Symbol::Token(kind::REM, Rises(1)),
    // term = sum_operator product
    Symbol::Rule(part::TERM),
    Symbol::Part(part::SUM_OPERATOR),
    Symbol::Part(part::PRODUCT),
    // sum_operator = +PLUS
    Symbol::Rule(part::SUM_OPERATOR),
    Symbol::Token(kind::PLUS, Rises(1)),
    // sum_operator = +MINUS
    Symbol::Rule(part::SUM_OPERATOR),
    Symbol::Token(kind::MINUS, Rises(1)),
    // product = operand *factor
    Symbol::Rule(part::PRODUCT),
    Symbol::Part(part::OPERAND),
    Symbol::Many(part::FACTOR),
    // comparison = relation_operator sum
    Symbol::Rule(part::COMPARISON),
    Symbol::Part(part::RELATION_OPERATOR),
    Symbol::Part(part::SUM),
    // relation_operator = +EQUAL
    Symbol::Rule(part::RELATION_OPERATOR),
    Symbol::Token(kind::EQUAL, Rises(1)),
    // relation_operator = +NOT_EQUAL
    Symbol::Rule(part::RELATION_OPERATOR),
    Symbol::Token(kind::NOT_EQUAL, Rises(1)),
    // relation_operator = +LESS
    Symbol::Rule(part::RELATION_OPERATOR),
    Symbol::Token(kind::LESS, Rises(1)),
    // relation_operator = +LESS_OR_EQUAL
    Symbol::Rule(part::RELATION_OPERATOR),
    Symbol::Token(kind::LESS_OR_EQUAL, Rises(1)),
    // relation_operator = +GREATER
    Symbol::Rule(part::RELATION_OPERATOR),
    Symbol::Token(kind::GREATER, Rises(1)),
    // relation_operator = +GREATER_OR_EQUAL
    Symbol::Rule(part::RELATION_OPERATOR),
    Symbol::Token(kind::GREATER_OR_EQUAL, Rises(1)),
    // sum = product *term
    Symbol::Rule(part::SUM),
    Symbol::Part(part::PRODUCT),
    Symbol::Many(part::TERM),
    // conjunct = and_operator relation
    Symbol::Rule(part::CONJUNCT),
    Symbol::Part(part::AND_OPERATOR),
    Symbol::Part(part::RELATION),
    // and_operator = +AND ?then
    Symbol::Rule(part::AND_OPERATOR),
    Symbol::Token(kind::AND, Rises(1)),
    Symbol::Maybe(part::THEN),
    // then = THEN
    Symbol::Rule(part::THEN),
    Symbol::Token(kind::THEN, Keeps),
    // relation = sum ?comparison
    Symbol::Rule(part::RELATION),
    Symbol::Part(part::SUM),
    Symbol::Maybe(part::COMPARISON),
    // disjunct = or_operator conjunction
    Symbol::Rule(part::DISJUNCT),
    Symbol::Part(part::OR_OPERATOR),
    Symbol::Part(part::CONJUNCTION),
    // or_operator = +OR ?else
    Symbol::Rule(part::OR_OPERATOR),
    Symbol::Token(kind::OR, Rises(1)),
    Symbol::Maybe(part::ELSE),
    // or_operator = +XOR
    Symbol::Rule(part::OR_OPERATOR),
    Symbol::Token(kind::XOR, Rises(1)),
    // else = ELSE
    Symbol::Rule(part::ELSE),
    Symbol::Token(kind::ELSE, Keeps),
    // conjunction = relation *conjunct
    Symbol::Rule(part::CONJUNCTION),
    Symbol::Part(part::RELATION),
    Symbol::Many(part::CONJUNCT),
    // operand = NAME *selector
    Symbol::Rule(part::OPERAND),
    Symbol::Token(kind::NAME, Keeps),
    Symbol::Many(part::SELECTOR),
    // operand = first_operand
    Symbol::Rule(part::OPERAND),
    Symbol::Part(part::FIRST_OPERAND),
    // first_operand = first_value
    Symbol::Rule(part::FIRST_OPERAND),
    Symbol::Part(part::FIRST_VALUE),
    // first_operand = @bracketed
    Symbol::Rule(part::FIRST_OPERAND),
    Symbol::Scope(part::BRACKETED),
    // bracketed = +LEFT_PARENTHESIS @expr RIGHT_PARENTHESIS
    Symbol::Rule(part::BRACKETED),
    Symbol::Token(kind::LEFT_PARENTHESIS, Rises(1)),
    Symbol::Scope(part::EXPR),
    Symbol::Token(kind::RIGHT_PARENTHESIS, Keeps),
    // selector = +FULL_STOP field
    Symbol::Rule(part::SELECTOR),
    Symbol::Token(kind::FULL_STOP, Rises(1)),
    Symbol::Part(part::FIELD),
    // selector = +EXCLAMATION field
    Symbol::Rule(part::SELECTOR),
    Symbol::Token(kind::EXCLAMATION, Rises(1)),
    Symbol::Part(part::FIELD),
    // selector = index
    Symbol::Rule(part::SELECTOR),
    Symbol::Part(part::INDEX),
    // index = ++LEFT_PARENTHESIS @expr -RIGHT_PARENTHESIS
    Symbol::Rule(part::INDEX),
    Symbol::Token(kind::LEFT_PARENTHESIS, Rises(2)),
    Symbol::Scope(part::EXPR),
    Symbol::Token(kind::RIGHT_PARENTHESIS, Falls(1)),
    // field = NAME
    Symbol::Rule(part::FIELD),
    Symbol::Token(kind::NAME, Keeps),
    // field = AGGREGATION
    Symbol::Rule(part::FIELD),
    Symbol::Token(kind::AGGREGATION, Keeps),
    // field = AND
    Symbol::Rule(part::FIELD),
    Symbol::Token(kind::AND, Keeps),
    // field = ANY
    Symbol::Rule(part::FIELD),
    Symbol::Token(kind::ANY, Keeps),
    // field = BLOCK
    Symbol::Rule(part::FIELD),
    Symbol::Token(kind::BLOCK, Keeps),
    // field = CALL
    Symbol::Rule(part::FIELD),
    Symbol::Token(kind::CALL, Keeps),
    // field = CHANNEL
    Symbol::Rule(part::FIELD),
    Symbol::Token(kind::CHANNEL, Keeps),
    // field = COMMENT
    Symbol::Rule(part::FIELD),
    Symbol::Token(kind::COMMENT, Keeps),
    // field = CONNECT
    Symbol::Rule(part::FIELD),
    Symbol::Token(kind::CONNECT, Keeps),
    // field = CONNECTION
    Symbol::Rule(part::FIELD),
    Symbol::Token(kind::CONNECTION, Keeps),
    // field = DCL
    Symbol::Rule(part::FIELD),
    Symbol::Token(kind::DCL, Keeps),
    // field = DECISION
    Symbol::Rule(part::FIELD),
    Symbol::Token(kind::DECISION, Keeps),
    // field = ELSE
    Symbol::Rule(part::FIELD),
    Symbol::Token(kind::ELSE, Keeps),
    // field = ENDBLOCK
    Symbol::Rule(part::FIELD),
    Symbol::Token(kind::ENDBLOCK, Keeps),
    // field = ENDCHANNEL
    Symbol::Rule(part::FIELD),
    Symbol::Token(kind::ENDCHANNEL, Keeps),
    // field = ENDCONNECTION
    Symbol::Rule(part::FIELD),
    Symbol::Token(kind::ENDCONNECTION, Keeps),
    // field = ENDDECISION
    Symbol::Rule(part::FIELD),
    Symbol::Token(kind::ENDDECISION, Keeps),
    // field = ENDPROCEDURE
    Symbol::Rule(part::FIELD),
    Symbol::Token(kind::ENDPROCEDURE, Keeps),
    // field = ENDPROCESS
    Symbol::Rule(part::FIELD),
    Symbol::Token(kind::ENDPROCESS, Keeps),
    // field = ENDSTATE
    Symbol::Rule(part::FIELD),
    Symbol::Token(kind::ENDSTATE, Keeps),
    // field = ENDSUBSTRUCTURE
    Symbol::Rule(part::FIELD),
    Symbol::Token(kind::ENDSUBSTRUCTURE, Keeps),
    // field = ENDSYSTEM
    Symbol::Rule(part::FIELD),
    Symbol::Token(kind::ENDSYSTEM, Keeps),
    // field = ENV
    Symbol::Rule(part::FIELD),
    Symbol::Token(kind::ENV, Keeps),
    // field = EXTERNAL
    Symbol::Rule(part::FIELD),
    Symbol::Token(kind::EXTERNAL, Keeps),
    // field = FALSE
    Symbol::Rule(part::FIELD),
    Symbol::Token(kind::FALSE, Keeps),
    // field = FPAR
    Symbol::Rule(part::FIELD),
    Symbol::Token(kind::FPAR, Keeps),
    // field = FROM
    Symbol::Rule(part::FIELD),
    Symbol::Token(kind::FROM, Keeps),
    // field = IN
    Symbol::Rule(part::FIELD),
    Symbol::Token(kind::IN, Keeps),
    // field = INPUT
    Symbol::Rule(part::FIELD),
    Symbol::Token(kind::INPUT, Keeps),
    // field = JOIN
    Symbol::Rule(part::FIELD),
    Symbol::Token(kind::JOIN, Keeps),
    // field = MOD
    Symbol::Rule(part::FIELD),
    Symbol::Token(kind::MOD, Keeps),
    // field = NEXTSTATE
    Symbol::Rule(part::FIELD),
    Symbol::Token(kind::NEXTSTATE, Keeps),
    // field = NOT
    Symbol::Rule(part::FIELD),
    Symbol::Token(kind::NOT, Keeps),
    // field = OR
    Symbol::Rule(part::FIELD),
    Symbol::Token(kind::OR, Keeps),
    // field = OUT
    Symbol::Rule(part::FIELD),
    Symbol::Token(kind::OUT, Keeps),
    // field = OUTPUT
    Symbol::Rule(part::FIELD),
    Symbol::Token(kind::OUTPUT, Keeps),
    // field = PRIORITY
    Symbol::Rule(part::FIELD),
    Symbol::Token(kind::PRIORITY, Keeps),
    // field = PROCEDURE
    Symbol::Rule(part::FIELD),
    Symbol::Token(kind::PROCEDURE, Keeps),
    // field = PROCESS
    Symbol::Rule(part::FIELD),
    Symbol::Token(kind::PROCESS, Keeps),
    // field = PROVIDED
    Symbol::Rule(part::FIELD),
    Symbol::Token(kind::PROVIDED, Keeps),
    // field = REFERENCED
    Symbol::Rule(part::FIELD),
    Symbol::Token(kind::REFERENCED, Keeps),
    // field = REM
    Symbol::Rule(part::FIELD),
    Symbol::Token(kind::REM, Keeps),
    // field = RETURN
    Symbol::Rule(part::FIELD),
    Symbol::Token(kind::RETURN, Keeps),
    // field = RETURNS
    Symbol::Rule(part::FIELD),
    Symbol::Token(kind::RETURNS, Keeps),
    // field = SAVE
    Symbol::Rule(part::FIELD),
    Symbol::Token(kind::SAVE, Keeps),
    // field = SIGNAL
    Symbol::Rule(part::FIELD),
    Symbol::Token(kind::SIGNAL, Keeps),
    // field = SIGNALROUTE
    Symbol::Rule(part::FIELD),
    Symbol::Token(kind::SIGNALROUTE, Keeps),
    // field = START
    Symbol::Rule(part::FIELD),
    Symbol::Token(kind::START, Keeps),
    // field = STATE
    Symbol::Rule(part::FIELD),
    Symbol::Token(kind::STATE, Keeps),
    // field = STOP
    Symbol::Rule(part::FIELD),
    Symbol::Token(kind::STOP, Keeps),
    // field = SUBSTRUCTURE
    Symbol::Rule(part::FIELD),
    Symbol::Token(kind::SUBSTRUCTURE, Keeps),
    // field = SYSTEM
    Symbol::Rule(part::FIELD),
    Symbol::Token(kind::SYSTEM, Keeps),
    // field = TASK
    Symbol::Rule(part::FIELD),
    Symbol::Token(kind::TASK, Keeps),
    // field = THEN
    Symbol::Rule(part::FIELD),
    Symbol::Token(kind::THEN, Keeps),
    // field = TIMER
    Symbol::Rule(part::FIELD),
    Symbol::Token(kind::TIMER, Keeps),
    // field = TO
    Symbol::Rule(part::FIELD),
    Symbol::Token(kind::TO, Keeps),
    // field = TRUE
    Symbol::Rule(part::FIELD),
    Symbol::Token(kind::TRUE, Keeps),
    // field = USE
    Symbol::Rule(part::FIELD),
    Symbol::Token(kind::USE, Keeps),
    // field = VIA
    Symbol::Rule(part::FIELD),
    Symbol::Token(kind::VIA, Keeps),
    // field = WITH
    Symbol::Rule(part::FIELD),
    Symbol::Token(kind::WITH, Keeps),
    // field = XOR
    Symbol::Rule(part::FIELD),
    Symbol::Token(kind::XOR, Keeps),
    // braces = +LEFT_BRACE inside RIGHT_BRACE
    Symbol::Rule(part::BRACES),
    Symbol::Token(kind::LEFT_BRACE, Rises(1)),
    Symbol::Part(part::INSIDE),
    Symbol::Token(kind::RIGHT_BRACE, Keeps),
    // inside = NAME after_first_name
    Symbol::Rule(part::INSIDE),
    Symbol::Token(kind::NAME, Keeps),
    Symbol::Part(part::AFTER_FIRST_NAME),
    // inside = @leading *more_item
    Symbol::Rule(part::INSIDE),
    Symbol::Scope(part::LEADING),
    Symbol::Many(part::MORE_ITEM),
    // inside =
    Symbol::Rule(part::INSIDE),
    // after_first_name = @component_value *more_component
    Symbol::Rule(part::AFTER_FIRST_NAME),
    Symbol::Scope(part::COMPONENT_VALUE),
    Symbol::Many(part::MORE_COMPONENT),
    // after_first_name = @listed_rest *more_item
    Symbol::Rule(part::AFTER_FIRST_NAME),
    Symbol::Scope(part::LISTED_REST),
    Symbol::Many(part::MORE_ITEM),
    // listed_rest = +COLON expr
    Symbol::Rule(part::LISTED_REST),
    Symbol::Token(kind::COLON, Rises(1)),
    Symbol::Part(part::EXPR),
    // listed_rest = selector *selector tails
    Symbol::Rule(part::LISTED_REST),
    Symbol::Part(part::SELECTOR),
    Symbol::Many(part::SELECTOR),
    Symbol::Part(part::TAILS),
    // listed_rest = ~MINUS tails
    Symbol::Rule(part::LISTED_REST),
    Symbol::NotBefore(kind::MINUS),
    Symbol::Part(part::TAILS),
    // leading = first_operand tails
    Symbol::Rule(part::LEADING),
    Symbol::Part(part::FIRST_OPERAND),
    Symbol::Part(part::TAILS),
    // more_item = COMMA @item
    Symbol::Rule(part::MORE_ITEM),
    Symbol::Token(kind::COMMA, Keeps),
    Symbol::Scope(part::ITEM),
    // item = NAME listed_rest
    Symbol::Rule(part::ITEM),
    Symbol::Token(kind::NAME, Keeps),
    Symbol::Part(part::LISTED_REST),
    // item = first_operand tails
    Symbol::Rule(part::ITEM),
    Symbol::Part(part::FIRST_OPERAND),
    Symbol::Part(part::TAILS),
    // component_value = NAME after_name
    Symbol::Rule(part::COMPONENT_VALUE),
    Symbol::Token(kind::NAME, Keeps),
    Symbol::Part(part::AFTER_NAME),
    // component_value = first_value tails
    Symbol::Rule(part::COMPONENT_VALUE),
    Symbol::Part(part::FIRST_VALUE),
    Symbol::Part(part::TAILS),
    // first_value = +MINUS operand
    Symbol::Rule(part::FIRST_VALUE),
    Symbol::Token(kind::MINUS, Rises(1)),
    Symbol::Part(part::OPERAND),
    // first_value = +NOT operand
    Symbol::Rule(part::FIRST_VALUE),
    Symbol::Token(kind::NOT, Rises(1)),
    Symbol::Part(part::OPERAND),
    // first_value = NUMBER
    Symbol::Rule(part::FIRST_VALUE),
    Symbol::Token(kind::NUMBER, Keeps),
    // first_value = TRUE
    Symbol::Rule(part::FIRST_VALUE),
    Symbol::Token(kind::TRUE, Keeps),
    // first_value = FALSE
    Symbol::Rule(part::FIRST_VALUE),
    Symbol::Token(kind::FALSE, Keeps),
    // first_value = @braces
    Symbol::Rule(part::FIRST_VALUE),
    Symbol::Scope(part::BRACES),
    // more_component = COMMA NAME @component_value
    Symbol::Rule(part::MORE_COMPONENT),
    Symbol::Token(kind::COMMA, Keeps),
    Symbol::Token(kind::NAME, Keeps),
    Symbol::Scope(part::COMPONENT_VALUE),
];

/// What is said of their parts.
pub const EXPRESSION_PARTS: [Part; 36] = [
    // whole
    Part {
        begins: 0x80000080800000008503,
        follows: 0x8,
        empty: false,
        weight: 6,
        rank: 3,
        least: 0,
        lead: 0x1,
        bars: 0x0,
    },
    // expr
    Part {
        begins: 0x80000080800000008503,
        follows: 0xa28,
        empty: false,
        weight: 5,
        rank: 2,
        least: 0,
        lead: 0x1,
        bars: 0x0,
    },
    // after_name
    Part {
        begins: 0x800010120000002fff140,
        follows: 0xa28,
        empty: true,
        weight: 26,
        rank: 1,
        least: 1,
        lead: 0x0,
        bars: 0x0,
    },
    // tails
    Part {
        begins: 0x800010120000002ffc000,
        follows: 0xa28,
        empty: true,
        weight: 21,
        rank: 0,
        least: 0,
        lead: 0x0,
        bars: 0x0,
    },
    // factor
    Part {
        begins: 0x10020000000030000,
        follows: 0x800010120000002ffca28,
        empty: false,
        weight: 2,
        rank: 1,
        least: 0,
        lead: 0x10000,
        bars: 0x0,
    },
    // product_operator
    Part {
        begins: 0x10020000000030000,
        follows: 0x80000080800000008503,
        empty: false,
        weight: 1,
        rank: 0,
        least: 0,
        lead: 0x10000,
        bars: 0x0,
    },
    // term
    Part {
        begins: 0xc000,
        follows: 0x800000100000002fcca28,
        empty: false,
        weight: 2,
        rank: 2,
        least: 0,
        lead: 0x4000,
        bars: 0x0,
    },
    // sum_operator
    Part {
        begins: 0xc000,
        follows: 0x80000080800000008503,
        empty: false,
        weight: 1,
        rank: 0,
        least: 0,
        lead: 0x4000,
        bars: 0x0,
    },
    // product
    Part {
        begins: 0x80000080800000008503,
        follows: 0x800000100000002fcca28,
        empty: false,
        weight: 6,
        rank: 1,
        least: 0,
        lead: 0x1,
        bars: 0x0,
    },
    // comparison
    Part {
        begins: 0xfc0000,
        follows: 0x800000100000002000a28,
        empty: false,
        weight: 2,
        rank: 3,
        least: 0,
        lead: 0x40000,
        bars: 0x0,
    },
    // relation_operator
    Part {
        begins: 0xfc0000,
        follows: 0x80000080800000008503,
        empty: false,
        weight: 1,
        rank: 0,
        least: 0,
        lead: 0x40000,
        bars: 0x0,
    },
    // sum
    Part {
        begins: 0x80000080800000008503,
        follows: 0x800000100000002fc0a28,
        empty: false,
        weight: 7,
        rank: 2,
        least: 0,
        lead: 0x1,
        bars: 0x0,
    },
    // conjunct
    Part {
        begins: 0x2000000,
        follows: 0x800000100000002000a28,
        empty: false,
        weight: 2,
        rank: 4,
        least: 0,
        lead: 0x2000000,
        bars: 0x0,
    },
    // and_operator
    Part {
        begins: 0x2000000,
        follows: 0x80000080800000008503,
        empty: false,
        weight: 1,
        rank: 0,
        least: 0,
        lead: 0x2000000,
        bars: 0x0,
    },
    // then
    Part {
        begins: 0x10000000000000000000,
        follows: 0x80000080800000008503,
        empty: false,
        weight: 1,
        rank: 0,
        least: 0,
        lead: 0x10000000000000000000,
        bars: 0x0,
    },
    // relation
    Part {
        begins: 0x80000080800000008503,
        follows: 0x800000100000002000a28,
        empty: false,
        weight: 8,
        rank: 3,
        least: 0,
        lead: 0x1,
        bars: 0x0,
    },
    // disjunct
    Part {
        begins: 0x800000100000000000000,
        follows: 0x800000100000000000a28,
        empty: false,
        weight: 2,
        rank: 5,
        least: 0,
        lead: 0x100000000000000,
        bars: 0x0,
    },
    // or_operator
    Part {
        begins: 0x800000100000000000000,
        follows: 0x80000080800000008503,
        empty: false,
        weight: 1,
        rank: 0,
        least: 0,
        lead: 0x100000000000000,
        bars: 0x0,
    },
    // else
    Part {
        begins: 0x800000000,
        follows: 0x80000080800000008503,
        empty: false,
        weight: 1,
        rank: 0,
        least: 0,
        lead: 0x800000000,
        bars: 0x0,
    },
    // conjunction
    Part {
        begins: 0x80000080800000008503,
        follows: 0x800000100000000000a28,
        empty: false,
        weight: 9,
        rank: 4,
        least: 0,
        lead: 0x1,
        bars: 0x0,
    },
    // operand
    Part {
        begins: 0x80000080800000008503,
        follows: 0x800010120000002ffca28,
        empty: false,
        weight: 5,
        rank: 0,
        least: 0,
        lead: 0x1,
        bars: 0x0,
    },
    // first_operand
    Part {
        begins: 0x80000080800000008502,
        follows: 0x800010120000002ffca28,
        empty: false,
        weight: 4,
        rank: 1,
        least: 0,
        lead: 0x2,
        bars: 0x0,
    },
    // bracketed
    Part {
        begins: 0x100,
        follows: 0x800010120000002ffca28,
        empty: false,
        weight: 1,
        rank: 3,
        least: 0,
        lead: 0x100,
        bars: 0x0,
    },
    // selector
    Part {
        begins: 0x3100,
        follows: 0x800010120000002fffb28,
        empty: false,
        weight: 2,
        rank: 1,
        least: 0,
        lead: 0x1000,
        bars: 0x0,
    },
    // index
    Part {
        begins: 0x100,
        follows: 0x800010120000002fffb28,
        empty: false,
        weight: 1,
        rank: 3,
        least: 0,
        lead: 0x100,
        bars: 0x0,
    },
    // field
    Part {
        begins: 0xfffffffffffffff000001,
        follows: 0x800010120000002fffb28,
        empty: false,
        weight: 1,
        rank: 0,
        least: 0,
        lead: 0x1,
        bars: 0x0,
    },
    // braces
    Part {
        begins: 0x400,
        follows: 0x800010120000002ffca28,
        empty: false,
        weight: 1,
        rank: 1,
        least: 0,
        lead: 0x400,
        bars: 0x0,
    },
    // inside
    Part {
        begins: 0x80000080800000008503,
        follows: 0x800,
        empty: true,
        weight: 7,
        rank: 0,
        least: 2,
        lead: 0x0,
        bars: 0x8000,
    },
    // after_first_name
    Part {
        begins: 0x8800101a0800002fff563,
        follows: 0x800,
        empty: true,
        weight: 28,
        rank: 2,
        least: 0,
        lead: 0x2,
        bars: 0x8000,
    },
    // listed_rest
    Part {
        begins: 0x800010120000002ff7140,
        follows: 0x820,
        empty: true,
        weight: 23,
        rank: 1,
        least: 2,
        lead: 0x0,
        bars: 0x8000,
    },
    // leading
    Part {
        begins: 0x80000080800000008502,
        follows: 0x820,
        empty: false,
        weight: 5,
        rank: 2,
        least: 0,
        lead: 0x2,
        bars: 0x0,
    },
    // more_item
    Part {
        begins: 0x20,
        follows: 0x820,
        empty: false,
        weight: 1,
        rank: 3,
        least: 0,
        lead: 0x20,
        bars: 0x8000,
    },
    // item
    Part {
        begins: 0x80000080800000008503,
        follows: 0x820,
        empty: false,
        weight: 5,
        rank: 2,
        least: 0,
        lead: 0x1,
        bars: 0x8000,
    },
    // component_value
    Part {
        begins: 0x80000080800000008403,
        follows: 0x820,
        empty: false,
        weight: 4,
        rank: 1,
        least: 1,
        lead: 0x2,
        bars: 0x0,
    },
    // first_value
    Part {
        begins: 0x80000080800000008402,
        follows: 0x800010120000002ffca28,
        empty: false,
        weight: 3,
        rank: 0,
        least: 2,
        lead: 0x2,
        bars: 0x0,
    },
    // more_component
    Part {
        begins: 0x20,
        follows: 0x820,
        empty: false,
        weight: 1,
        rank: 2,
        least: 0,
        lead: 0x20,
        bars: 0x0,
    },
];

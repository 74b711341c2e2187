//! A grammar for trial: parts of SDL/PR (Z.106) that are hard to read with one token ahead.
ghost use Rattle.std.specs.Prelude.{IsTrue};
ghost use Rattle.og_grammar.specs.Predictive.{is_predictive};

use crate::{kind, part};
use og_grammar::Nesting::{Falls, Keeps, Rises};
use og_grammar::{Part, Symbol};

/// The kind of the last token.
pub const LAST: u8 = kind::END;

/// The table.
pub const TRIAL: [Symbol; 389] = [
    // unit = *signal *dcl *state
    Symbol::Rule(part::UNIT),
    Symbol::Many(part::SIGNAL),
    Symbol::Many(part::DCL),
    Symbol::Many(part::STATE),
    // end = ?comment Semi
    Symbol::Rule(part::END),
    Symbol::Maybe(part::COMMENT),
    Symbol::Token(kind::SEMI, Keeps),
    // comment = COMMENT Text
    Symbol::Rule(part::COMMENT),
    Symbol::Token(kind::COMMENT, Keeps),
    Symbol::Token(kind::TEXT, Keeps),
    // signal = SIGNAL sig *more_sig end
    Symbol::Rule(part::SIGNAL),
    Symbol::Token(kind::SIGNAL, Keeps),
    Symbol::Part(part::SIG),
    Symbol::Many(part::MORE_SIG),
    Symbol::Part(part::END),
    // more_sig = Comma sig
    Symbol::Rule(part::MORE_SIG),
    Symbol::Token(kind::COMMA, Keeps),
    Symbol::Part(part::SIG),
    // sig = Name ?params
    Symbol::Rule(part::SIG),
    Symbol::Token(kind::NAME, Keeps),
    Symbol::Maybe(part::PARAMS),
    // params = +LPar Name *more_name -RPar
    Symbol::Rule(part::PARAMS),
    Symbol::Token(kind::LPAR, Rises(1)),
    Symbol::Token(kind::NAME, Keeps),
    Symbol::Many(part::MORE_NAME),
    Symbol::Token(kind::RPAR, Falls(1)),
    // more_name = Comma Name
    Symbol::Rule(part::MORE_NAME),
    Symbol::Token(kind::COMMA, Keeps),
    Symbol::Token(kind::NAME, Keeps),
    // dcl = DCL item *more_item end
    Symbol::Rule(part::DCL),
    Symbol::Token(kind::DCL, Keeps),
    Symbol::Part(part::ITEM),
    Symbol::Many(part::MORE_ITEM),
    Symbol::Part(part::END),
    // more_item = Comma item
    Symbol::Rule(part::MORE_ITEM),
    Symbol::Token(kind::COMMA, Keeps),
    Symbol::Part(part::ITEM),
    // item = Name *more_name hname ?initial
    Symbol::Rule(part::ITEM),
    Symbol::Token(kind::NAME, Keeps),
    Symbol::Many(part::MORE_NAME),
    Symbol::Part(part::HNAME),
    Symbol::Maybe(part::INITIAL),
    // hname = Name *hyphened
    Symbol::Rule(part::HNAME),
    Symbol::Token(kind::NAME, Keeps),
    Symbol::Many(part::HYPHENED),
    // hyphened = Minus Name
    Symbol::Rule(part::HYPHENED),
    Symbol::Token(kind::MINUS, Keeps),
    Symbol::Token(kind::NAME, Keeps),
    // initial = Assign @expr
    Symbol::Rule(part::INITIAL),
    Symbol::Token(kind::ASSIGN, Keeps),
    Symbol::Scope(part::EXPR),
    // state = +STATE Name end *apart -ENDSTATE ?own_name end
    Symbol::Rule(part::STATE),
    Symbol::Token(kind::STATE, Rises(1)),
    Symbol::Token(kind::NAME, Keeps),
    Symbol::Part(part::END),
    Symbol::Many(part::APART),
    Symbol::Token(kind::ENDSTATE, Falls(1)),
    Symbol::Maybe(part::OWN_NAME),
    Symbol::Part(part::END),
    // own_name = Name
    Symbol::Rule(part::OWN_NAME),
    Symbol::Token(kind::NAME, Keeps),
    // apart = INPUT Name end enabling *step
    Symbol::Rule(part::APART),
    Symbol::Token(kind::INPUT, Keeps),
    Symbol::Token(kind::NAME, Keeps),
    Symbol::Part(part::END),
    Symbol::Part(part::ENABLING),
    Symbol::Many(part::STEP),
    // apart = PROVIDED @expr end *step
    Symbol::Rule(part::APART),
    Symbol::Token(kind::PROVIDED, Keeps),
    Symbol::Scope(part::EXPR),
    Symbol::Part(part::END),
    Symbol::Many(part::STEP),
    // apart = SAVE Name end
    Symbol::Rule(part::APART),
    Symbol::Token(kind::SAVE, Keeps),
    Symbol::Token(kind::NAME, Keeps),
    Symbol::Part(part::END),
    // enabling = PROVIDED @expr end
    Symbol::Rule(part::ENABLING),
    Symbol::Token(kind::PROVIDED, Keeps),
    Symbol::Scope(part::EXPR),
    Symbol::Part(part::END),
    // enabling = ~PROVIDED
    Symbol::Rule(part::ENABLING),
    Symbol::NotBefore(kind::PROVIDED),
    // step = label step_body
    Symbol::Rule(part::STEP),
    Symbol::Part(part::LABEL),
    Symbol::Part(part::STEP_BODY),
    // step = step_body
    Symbol::Rule(part::STEP),
    Symbol::Part(part::STEP_BODY),
    // label = Name Colon
    Symbol::Rule(part::LABEL),
    Symbol::Token(kind::NAME, Keeps),
    Symbol::Token(kind::COLON, Keeps),
    // step_body = TASK assign *more_assign end
    Symbol::Rule(part::STEP_BODY),
    Symbol::Token(kind::TASK, Keeps),
    Symbol::Part(part::ASSIGN),
    Symbol::Many(part::MORE_ASSIGN),
    Symbol::Part(part::END),
    // step_body = OUTPUT out *more_out end
    Symbol::Rule(part::STEP_BODY),
    Symbol::Token(kind::OUTPUT, Keeps),
    Symbol::Part(part::OUT),
    Symbol::Many(part::MORE_OUT),
    Symbol::Part(part::END),
    // step_body = decision end
    Symbol::Rule(part::STEP_BODY),
    Symbol::Part(part::DECISION),
    Symbol::Part(part::END),
    // step_body = NEXTSTATE target end no_step
    Symbol::Rule(part::STEP_BODY),
    Symbol::Token(kind::NEXTSTATE, Keeps),
    Symbol::Part(part::TARGET),
    Symbol::Part(part::END),
    Symbol::Part(part::NO_STEP),
    // step_body = STOP end no_step
    Symbol::Rule(part::STEP_BODY),
    Symbol::Token(kind::STOP, Keeps),
    Symbol::Part(part::END),
    Symbol::Part(part::NO_STEP),
    // no_step = ~Name ~TASK ~OUTPUT ~DECISION ~NEXTSTATE ~STOP
    Symbol::Rule(part::NO_STEP),
    Symbol::NotBefore(kind::NAME),
    Symbol::NotBefore(kind::TASK),
    Symbol::NotBefore(kind::OUTPUT),
    Symbol::NotBefore(kind::DECISION),
    Symbol::NotBefore(kind::NEXTSTATE),
    Symbol::NotBefore(kind::STOP),
    // target = Minus
    Symbol::Rule(part::TARGET),
    Symbol::Token(kind::MINUS, Keeps),
    // target = Name
    Symbol::Rule(part::TARGET),
    Symbol::Token(kind::NAME, Keeps),
    // assign = @lvalue Assign @expr
    Symbol::Rule(part::ASSIGN),
    Symbol::Scope(part::LVALUE),
    Symbol::Token(kind::ASSIGN, Keeps),
    Symbol::Scope(part::EXPR),
    // lvalue = Name *selector
    Symbol::Rule(part::LVALUE),
    Symbol::Token(kind::NAME, Keeps),
    Symbol::Many(part::SELECTOR),
    // more_assign = Comma assign
    Symbol::Rule(part::MORE_ASSIGN),
    Symbol::Token(kind::COMMA, Keeps),
    Symbol::Part(part::ASSIGN),
    // out = Name ?args
    Symbol::Rule(part::OUT),
    Symbol::Token(kind::NAME, Keeps),
    Symbol::Maybe(part::ARGS),
    // more_out = Comma out
    Symbol::Rule(part::MORE_OUT),
    Symbol::Token(kind::COMMA, Keeps),
    Symbol::Part(part::OUT),
    // args = +LPar @expr *more_expr -RPar
    Symbol::Rule(part::ARGS),
    Symbol::Token(kind::LPAR, Rises(1)),
    Symbol::Scope(part::EXPR),
    Symbol::Many(part::MORE_EXPR),
    Symbol::Token(kind::RPAR, Falls(1)),
    // more_expr = Comma @expr
    Symbol::Rule(part::MORE_EXPR),
    Symbol::Token(kind::COMMA, Keeps),
    Symbol::Scope(part::EXPR),
    // decision = +DECISION @expr end *branch ?otherwise -ENDDECISION
    Symbol::Rule(part::DECISION),
    Symbol::Token(kind::DECISION, Rises(1)),
    Symbol::Scope(part::EXPR),
    Symbol::Part(part::END),
    Symbol::Many(part::BRANCH),
    Symbol::Maybe(part::OTHERWISE),
    Symbol::Token(kind::ENDDECISION, Falls(1)),
    // branch = answers Colon *step
    Symbol::Rule(part::BRANCH),
    Symbol::Part(part::ANSWERS),
    Symbol::Token(kind::COLON, Keeps),
    Symbol::Many(part::STEP),
    // otherwise = ELSE Colon *step
    Symbol::Rule(part::OTHERWISE),
    Symbol::Token(kind::ELSE, Keeps),
    Symbol::Token(kind::COLON, Keeps),
    Symbol::Many(part::STEP),
    // answers = +LPar @answer *more_answer -RPar
    Symbol::Rule(part::ANSWERS),
    Symbol::Token(kind::LPAR, Rises(1)),
    Symbol::Scope(part::ANSWER),
    Symbol::Many(part::MORE_ANSWER),
    Symbol::Token(kind::RPAR, Falls(1)),
    // more_answer = Comma @answer
    Symbol::Rule(part::MORE_ANSWER),
    Symbol::Token(kind::COMMA, Keeps),
    Symbol::Scope(part::ANSWER),
    // answer = constant ?upto
    Symbol::Rule(part::ANSWER),
    Symbol::Part(part::CONSTANT),
    Symbol::Maybe(part::UPTO),
    // answer = relop constant
    Symbol::Rule(part::ANSWER),
    Symbol::Part(part::RELOP),
    Symbol::Part(part::CONSTANT),
    // upto = Colon constant
    Symbol::Rule(part::UPTO),
    Symbol::Token(kind::COLON, Keeps),
    Symbol::Part(part::CONSTANT),
    // constant = +Minus Number
    Symbol::Rule(part::CONSTANT),
    Symbol::Token(kind::MINUS, Rises(1)),
    Symbol::Token(kind::NUMBER, Keeps),
    // constant = Number
    Symbol::Rule(part::CONSTANT),
    Symbol::Token(kind::NUMBER, Keeps),
    // constant = Name
    Symbol::Rule(part::CONSTANT),
    Symbol::Token(kind::NAME, Keeps),
    // constant = TRUE
    Symbol::Rule(part::CONSTANT),
    Symbol::Token(kind::TRUE, Keeps),
    // constant = FALSE
    Symbol::Rule(part::CONSTANT),
    Symbol::Token(kind::FALSE, Keeps),
    // relop = +Eq
    Symbol::Rule(part::RELOP),
    Symbol::Token(kind::EQ, Rises(1)),
    // relop = +Ne
    Symbol::Rule(part::RELOP),
    Symbol::Token(kind::NE, Rises(1)),
    // relop = +Lt
    Symbol::Rule(part::RELOP),
    Symbol::Token(kind::LT, Rises(1)),
    // relop = +Le
    Symbol::Rule(part::RELOP),
    Symbol::Token(kind::LE, Rises(1)),
    // relop = +Gt
    Symbol::Rule(part::RELOP),
    Symbol::Token(kind::GT, Rises(1)),
    // relop = +Ge
    Symbol::Rule(part::RELOP),
    Symbol::Token(kind::GE, Rises(1)),
    // expr = Name after_name
    Symbol::Rule(part::EXPR),
    Symbol::Token(kind::NAME, Keeps),
    Symbol::Part(part::AFTER_NAME),
    // expr = first_operand tails
    Symbol::Rule(part::EXPR),
    Symbol::Part(part::FIRST_OPERAND),
    Symbol::Part(part::TAILS),
    // after_name = +Colon @expr
    Symbol::Rule(part::AFTER_NAME),
    Symbol::Token(kind::COLON, Rises(1)),
    Symbol::Scope(part::EXPR),
    // after_name = *selector tails
    Symbol::Rule(part::AFTER_NAME),
    Symbol::Many(part::SELECTOR),
    Symbol::Part(part::TAILS),
    // tails = *factor *term ?comparison *conjunct *disjunct
    Symbol::Rule(part::TAILS),
    Symbol::Many(part::FACTOR),
    Symbol::Many(part::TERM),
    Symbol::Maybe(part::COMPARISON),
    Symbol::Many(part::CONJUNCT),
    Symbol::Many(part::DISJUNCT),
    // factor = mulop operand
    Symbol::Rule(part::FACTOR),
    Symbol::Part(part::MULOP),
    Symbol::Part(part::OPERAND),
    // mulop = +Star
    Symbol::Rule(part::MULOP),
    Symbol::Token(kind::STAR, Rises(1)),
    // mulop = +Slash
    Symbol::Rule(part::MULOP),
    Symbol::Token(kind::SLASH, Rises(1)),
    // mulop = +MOD
    Symbol::Rule(part::MULOP),
    Symbol::Token(kind::MOD, Rises(1)),
    // mulop = +REM
    Symbol::Rule(part::MULOP),
    Symbol::Token(kind::REM, Rises(1)),
    // term = addop product
    Symbol::Rule(part::TERM),
    Symbol::Part(part::ADDOP),
    Symbol::Part(part::PRODUCT),
    // addop = +Plus
    Symbol::Rule(part::ADDOP),
    Symbol::Token(kind::PLUS, Rises(1)),
    // addop = +Minus
    Symbol::Rule(part::ADDOP),
    Symbol::Token(kind::MINUS, Rises(1)),
    // product = operand *factor
    Symbol::Rule(part::PRODUCT),
    Symbol::Part(part::OPERAND),
    Symbol::Many(part::FACTOR),
    // comparison = relop sum
    Symbol::Rule(part::COMPARISON),
    Symbol::Part(part::RELOP),
    Symbol::Part(part::SUM),
    // sum = product *term
    Symbol::Rule(part::SUM),
    Symbol::Part(part::PRODUCT),
    Symbol::Many(part::TERM),
    // conjunct = +AND ?then relation
    Symbol::Rule(part::CONJUNCT),
    Symbol::Token(kind::AND, Rises(1)),
    Symbol::Maybe(part::THEN),
    Symbol::Part(part::RELATION),
    // then = THEN
    Symbol::Rule(part::THEN),
    Symbol::Token(kind::THEN, Keeps),
    // relation = sum ?comparison
    Symbol::Rule(part::RELATION),
    Symbol::Part(part::SUM),
    Symbol::Maybe(part::COMPARISON),
    // disjunct = orop conjunction
    Symbol::Rule(part::DISJUNCT),
    Symbol::Part(part::OROP),
    Symbol::Part(part::CONJUNCTION),
    // orop = +OR ?else
    Symbol::Rule(part::OROP),
    Symbol::Token(kind::OR, Rises(1)),
    Symbol::Maybe(part::ELSE),
    // orop = +XOR
    Symbol::Rule(part::OROP),
    Symbol::Token(kind::XOR, Rises(1)),
    // else = ELSE
    Symbol::Rule(part::ELSE),
    Symbol::Token(kind::ELSE, Keeps),
    // conjunction = relation *conjunct
    Symbol::Rule(part::CONJUNCTION),
    Symbol::Part(part::RELATION),
    Symbol::Many(part::CONJUNCT),
    // operand = Name *selector
    Symbol::Rule(part::OPERAND),
    Symbol::Token(kind::NAME, Keeps),
    Symbol::Many(part::SELECTOR),
    // operand = first_operand
    Symbol::Rule(part::OPERAND),
    Symbol::Part(part::FIRST_OPERAND),
    // first_operand = +Minus operand
    Symbol::Rule(part::FIRST_OPERAND),
    Symbol::Token(kind::MINUS, Rises(1)),
    Symbol::Part(part::OPERAND),
    // first_operand = +NOT operand
    Symbol::Rule(part::FIRST_OPERAND),
    Symbol::Token(kind::NOT, Rises(1)),
    Symbol::Part(part::OPERAND),
    // first_operand = Number
    Symbol::Rule(part::FIRST_OPERAND),
    Symbol::Token(kind::NUMBER, Keeps),
    // first_operand = TRUE
    Symbol::Rule(part::FIRST_OPERAND),
    Symbol::Token(kind::TRUE, Keeps),
    // first_operand = FALSE
    Symbol::Rule(part::FIRST_OPERAND),
    Symbol::Token(kind::FALSE, Keeps),
    // first_operand = bracketed
    Symbol::Rule(part::FIRST_OPERAND),
    Symbol::Part(part::BRACKETED),
    // first_operand = @braces
    Symbol::Rule(part::FIRST_OPERAND),
    Symbol::Scope(part::BRACES),
    // bracketed = +LPar @expr -RPar
    Symbol::Rule(part::BRACKETED),
    Symbol::Token(kind::LPAR, Rises(1)),
    Symbol::Scope(part::EXPR),
    Symbol::Token(kind::RPAR, Falls(1)),
    // selector = +Dot field
    Symbol::Rule(part::SELECTOR),
    Symbol::Token(kind::DOT, Rises(1)),
    Symbol::Part(part::FIELD),
    // selector = +Excl field
    Symbol::Rule(part::SELECTOR),
    Symbol::Token(kind::EXCL, Rises(1)),
    Symbol::Part(part::FIELD),
    // selector = index
    Symbol::Rule(part::SELECTOR),
    Symbol::Part(part::INDEX),
    // index = ++LPar @expr -RPar
    Symbol::Rule(part::INDEX),
    Symbol::Token(kind::LPAR, Rises(2)),
    Symbol::Scope(part::EXPR),
    Symbol::Token(kind::RPAR, Falls(1)),
    // field = Name
    Symbol::Rule(part::FIELD),
    Symbol::Token(kind::NAME, Keeps),
    // field = STATE
    Symbol::Rule(part::FIELD),
    Symbol::Token(kind::STATE, Keeps),
    // field = INPUT
    Symbol::Rule(part::FIELD),
    Symbol::Token(kind::INPUT, Keeps),
    // braces = +LBrace inside RBrace
    Symbol::Rule(part::BRACES),
    Symbol::Token(kind::LBRACE, Rises(1)),
    Symbol::Part(part::INSIDE),
    Symbol::Token(kind::RBRACE, Keeps),
    // inside = Name after_item_name
    Symbol::Rule(part::INSIDE),
    Symbol::Token(kind::NAME, Keeps),
    Symbol::Part(part::AFTER_ITEM_NAME),
    // inside = first_operand tails *more_item_expr
    Symbol::Rule(part::INSIDE),
    Symbol::Part(part::FIRST_OPERAND),
    Symbol::Part(part::TAILS),
    Symbol::Many(part::MORE_ITEM_EXPR),
    // inside =
    Symbol::Rule(part::INSIDE),
    // after_item_name = @component *more_component
    Symbol::Rule(part::AFTER_ITEM_NAME),
    Symbol::Scope(part::COMPONENT),
    Symbol::Many(part::MORE_COMPONENT),
    // after_item_name = +Colon @expr *more_item_expr
    Symbol::Rule(part::AFTER_ITEM_NAME),
    Symbol::Token(kind::COLON, Rises(1)),
    Symbol::Scope(part::EXPR),
    Symbol::Many(part::MORE_ITEM_EXPR),
    // after_item_name = selector *selector tails *more_item_expr
    Symbol::Rule(part::AFTER_ITEM_NAME),
    Symbol::Part(part::SELECTOR),
    Symbol::Many(part::SELECTOR),
    Symbol::Part(part::TAILS),
    Symbol::Many(part::MORE_ITEM_EXPR),
    // after_item_name = ~Minus tails *more_item_expr
    Symbol::Rule(part::AFTER_ITEM_NAME),
    Symbol::NotBefore(kind::MINUS),
    Symbol::Part(part::TAILS),
    Symbol::Many(part::MORE_ITEM_EXPR),
    // more_component = Comma Name @component_value
    Symbol::Rule(part::MORE_COMPONENT),
    Symbol::Token(kind::COMMA, Keeps),
    Symbol::Token(kind::NAME, Keeps),
    Symbol::Scope(part::COMPONENT_VALUE),
    // component = first_value tails
    Symbol::Rule(part::COMPONENT),
    Symbol::Part(part::FIRST_VALUE),
    Symbol::Part(part::TAILS),
    // component = Name after_name
    Symbol::Rule(part::COMPONENT),
    Symbol::Token(kind::NAME, Keeps),
    Symbol::Part(part::AFTER_NAME),
    // component_value = first_value tails
    Symbol::Rule(part::COMPONENT_VALUE),
    Symbol::Part(part::FIRST_VALUE),
    Symbol::Part(part::TAILS),
    // component_value = Name after_name
    Symbol::Rule(part::COMPONENT_VALUE),
    Symbol::Token(kind::NAME, Keeps),
    Symbol::Part(part::AFTER_NAME),
    // first_value = +Minus operand
    Symbol::Rule(part::FIRST_VALUE),
    Symbol::Token(kind::MINUS, Rises(1)),
    Symbol::Part(part::OPERAND),
    // first_value = +NOT operand
    Symbol::Rule(part::FIRST_VALUE),
    Symbol::Token(kind::NOT, Rises(1)),
    Symbol::Part(part::OPERAND),
    // first_value = Number
    Symbol::Rule(part::FIRST_VALUE),
    Symbol::Token(kind::NUMBER, Keeps),
    // first_value = TRUE
    Symbol::Rule(part::FIRST_VALUE),
    Symbol::Token(kind::TRUE, Keeps),
    // first_value = FALSE
    Symbol::Rule(part::FIRST_VALUE),
    Symbol::Token(kind::FALSE, Keeps),
    // first_value = @braces
    Symbol::Rule(part::FIRST_VALUE),
    Symbol::Scope(part::BRACES),
    // more_item_expr = Comma @item_expr
    Symbol::Rule(part::MORE_ITEM_EXPR),
    Symbol::Token(kind::COMMA, Keeps),
    Symbol::Scope(part::ITEM_EXPR),
    // item_expr = Name after_listed_name
    Symbol::Rule(part::ITEM_EXPR),
    Symbol::Token(kind::NAME, Keeps),
    Symbol::Part(part::AFTER_LISTED_NAME),
    // item_expr = first_operand tails
    Symbol::Rule(part::ITEM_EXPR),
    Symbol::Part(part::FIRST_OPERAND),
    Symbol::Part(part::TAILS),
    // after_listed_name = +Colon @expr
    Symbol::Rule(part::AFTER_LISTED_NAME),
    Symbol::Token(kind::COLON, Rises(1)),
    Symbol::Scope(part::EXPR),
    // after_listed_name = selector *selector tails
    Symbol::Rule(part::AFTER_LISTED_NAME),
    Symbol::Part(part::SELECTOR),
    Symbol::Many(part::SELECTOR),
    Symbol::Part(part::TAILS),
    // after_listed_name = ~Minus tails
    Symbol::Rule(part::AFTER_LISTED_NAME),
    Symbol::NotBefore(kind::MINUS),
    Symbol::Part(part::TAILS),
];
/// What is said of its parts.
pub const TRIAL_PARTS: [Part; 72] = [
    // unit
    Part {
        begins: 0x2002800000,
        follows: 0x800000000000,
        empty: true,
        weight: 10,
        rank: 0,
        least: 0,
        lead: 0x0,
        bars: 0x0,
    },
    // end
    Part {
        begins: 0x1000008,
        follows: 0x803ffe800081,
        empty: false,
        weight: 4,
        rank: 0,
        least: 0,
        lead: 0x8,
        bars: 0x0,
    },
    // comment
    Part {
        begins: 0x1000000,
        follows: 0x8,
        empty: false,
        weight: 1,
        rank: 0,
        least: 0,
        lead: 0x1000000,
        bars: 0x0,
    },
    // signal
    Part {
        begins: 0x800000,
        follows: 0x802002800000,
        empty: false,
        weight: 1,
        rank: 1,
        least: 0,
        lead: 0x800000,
        bars: 0x0,
    },
    // more_sig
    Part {
        begins: 0x10,
        follows: 0x1000018,
        empty: false,
        weight: 1,
        rank: 1,
        least: 0,
        lead: 0x10,
        bars: 0x0,
    },
    // sig
    Part {
        begins: 0x1,
        follows: 0x1000018,
        empty: false,
        weight: 1,
        rank: 0,
        least: 0,
        lead: 0x1,
        bars: 0x0,
    },
    // params
    Part {
        begins: 0x80,
        follows: 0x1000018,
        empty: false,
        weight: 1,
        rank: 0,
        least: 0,
        lead: 0x80,
        bars: 0x0,
    },
    // more_name
    Part {
        begins: 0x10,
        follows: 0x111,
        empty: false,
        weight: 1,
        rank: 0,
        least: 0,
        lead: 0x10,
        bars: 0x0,
    },
    // dcl
    Part {
        begins: 0x2000000000,
        follows: 0x802002000000,
        empty: false,
        weight: 1,
        rank: 2,
        least: 0,
        lead: 0x2000000000,
        bars: 0x0,
    },
    // more_item
    Part {
        begins: 0x10,
        follows: 0x1000018,
        empty: false,
        weight: 1,
        rank: 2,
        least: 0,
        lead: 0x10,
        bars: 0x0,
    },
    // item
    Part {
        begins: 0x1,
        follows: 0x1000018,
        empty: false,
        weight: 1,
        rank: 1,
        least: 0,
        lead: 0x1,
        bars: 0x0,
    },
    // hname
    Part {
        begins: 0x1,
        follows: 0x1000058,
        empty: false,
        weight: 1,
        rank: 0,
        least: 0,
        lead: 0x1,
        bars: 0x0,
    },
    // hyphened
    Part {
        begins: 0x4000,
        follows: 0x1004058,
        empty: false,
        weight: 1,
        rank: 0,
        least: 0,
        lead: 0x4000,
        bars: 0x0,
    },
    // initial
    Part {
        begins: 0x40,
        follows: 0x1000018,
        empty: false,
        weight: 1,
        rank: 2,
        least: 0,
        lead: 0x40,
        bars: 0x0,
    },
    // state
    Part {
        begins: 0x2000000,
        follows: 0x800002000000,
        empty: false,
        weight: 1,
        rank: 1,
        least: 0,
        lead: 0x2000000,
        bars: 0x0,
    },
    // own_name
    Part {
        begins: 0x1,
        follows: 0x1000008,
        empty: false,
        weight: 1,
        rank: 0,
        least: 0,
        lead: 0x1,
        bars: 0x0,
    },
    // apart
    Part {
        begins: 0x38000000,
        follows: 0x3c000000,
        empty: false,
        weight: 1,
        rank: 1,
        least: 0,
        lead: 0x8000000,
        bars: 0x19d0000001,
    },
    // enabling
    Part {
        begins: 0x10000000,
        follows: 0x19fc000001,
        empty: true,
        weight: 2,
        rank: 0,
        least: 1,
        lead: 0x0,
        bars: 0x10000000,
    },
    // step
    Part {
        begins: 0x19c0000001,
        follows: 0x1ffc000081,
        empty: false,
        weight: 3,
        rank: 2,
        least: 0,
        lead: 0x1,
        bars: 0x19c0000001,
    },
    // label
    Part {
        begins: 0x1,
        follows: 0x19c0000000,
        empty: false,
        weight: 1,
        rank: 0,
        least: 0,
        lead: 0x1,
        bars: 0x0,
    },
    // step_body
    Part {
        begins: 0x19c0000000,
        follows: 0x1ffc000081,
        empty: false,
        weight: 2,
        rank: 1,
        least: 1,
        lead: 0x80000000,
        bars: 0x19c0000001,
    },
    // no_step
    Part {
        begins: 0x0,
        follows: 0x1ffc000081,
        empty: true,
        weight: 7,
        rank: 0,
        least: 0,
        lead: 0x0,
        bars: 0x19c0000001,
    },
    // target
    Part {
        begins: 0x4001,
        follows: 0x1000008,
        empty: false,
        weight: 1,
        rank: 0,
        least: 0,
        lead: 0x4000,
        bars: 0x0,
    },
    // assign
    Part {
        begins: 0x1,
        follows: 0x1000018,
        empty: false,
        weight: 3,
        rank: 2,
        least: 0,
        lead: 0x1,
        bars: 0x0,
    },
    // lvalue
    Part {
        begins: 0x1,
        follows: 0x40,
        empty: false,
        weight: 1,
        rank: 0,
        least: 0,
        lead: 0x1,
        bars: 0x0,
    },
    // more_assign
    Part {
        begins: 0x10,
        follows: 0x1000018,
        empty: false,
        weight: 1,
        rank: 3,
        least: 0,
        lead: 0x10,
        bars: 0x0,
    },
    // out
    Part {
        begins: 0x1,
        follows: 0x1000018,
        empty: false,
        weight: 1,
        rank: 0,
        least: 0,
        lead: 0x1,
        bars: 0x0,
    },
    // more_out
    Part {
        begins: 0x10,
        follows: 0x1000018,
        empty: false,
        weight: 1,
        rank: 1,
        least: 0,
        lead: 0x10,
        bars: 0x0,
    },
    // args
    Part {
        begins: 0x80,
        follows: 0x1000018,
        empty: false,
        weight: 1,
        rank: 2,
        least: 0,
        lead: 0x80,
        bars: 0x0,
    },
    // more_expr
    Part {
        begins: 0x10,
        follows: 0x110,
        empty: false,
        weight: 1,
        rank: 2,
        least: 0,
        lead: 0x10,
        bars: 0x0,
    },
    // decision
    Part {
        begins: 0x100000000,
        follows: 0x1000008,
        empty: false,
        weight: 1,
        rank: 2,
        least: 0,
        lead: 0x100000000,
        bars: 0x0,
    },
    // branch
    Part {
        begins: 0x80,
        follows: 0x600000080,
        empty: false,
        weight: 2,
        rank: 3,
        least: 0,
        lead: 0x80,
        bars: 0x19c0000001,
    },
    // otherwise
    Part {
        begins: 0x400000000,
        follows: 0x200000000,
        empty: false,
        weight: 1,
        rank: 0,
        least: 0,
        lead: 0x400000000,
        bars: 0x19c0000001,
    },
    // answers
    Part {
        begins: 0x80,
        follows: 0x20,
        empty: false,
        weight: 1,
        rank: 2,
        least: 0,
        lead: 0x80,
        bars: 0x0,
    },
    // more_answer
    Part {
        begins: 0x10,
        follows: 0x110,
        empty: false,
        weight: 1,
        rank: 2,
        least: 0,
        lead: 0x10,
        bars: 0x0,
    },
    // answer
    Part {
        begins: 0x6000007e4003,
        follows: 0x110,
        empty: false,
        weight: 2,
        rank: 1,
        least: 0,
        lead: 0x4000,
        bars: 0x0,
    },
    // upto
    Part {
        begins: 0x20,
        follows: 0x110,
        empty: false,
        weight: 1,
        rank: 1,
        least: 0,
        lead: 0x20,
        bars: 0x0,
    },
    // constant
    Part {
        begins: 0x600000004003,
        follows: 0x130,
        empty: false,
        weight: 1,
        rank: 0,
        least: 0,
        lead: 0x4000,
        bars: 0x0,
    },
    // relop
    Part {
        begins: 0x7e0000,
        follows: 0x620000004283,
        empty: false,
        weight: 1,
        rank: 0,
        least: 0,
        lead: 0x20000,
        bars: 0x0,
    },
    // expr
    Part {
        begins: 0x620000004283,
        follows: 0x1000518,
        empty: false,
        weight: 4,
        rank: 1,
        least: 1,
        lead: 0x2,
        bars: 0x0,
    },
    // after_name
    Part {
        begins: 0xdc0007ff8a0,
        follows: 0x1000518,
        empty: true,
        weight: 25,
        rank: 1,
        least: 1,
        lead: 0x0,
        bars: 0x0,
    },
    // tails
    Part {
        begins: 0xdc0007fe000,
        follows: 0x1000518,
        empty: true,
        weight: 20,
        rank: 0,
        least: 0,
        lead: 0x0,
        bars: 0x0,
    },
    // factor
    Part {
        begins: 0xc0000018000,
        follows: 0xdc0017fe518,
        empty: false,
        weight: 2,
        rank: 1,
        least: 0,
        lead: 0x8000,
        bars: 0x0,
    },
    // mulop
    Part {
        begins: 0xc0000018000,
        follows: 0x620000004283,
        empty: false,
        weight: 1,
        rank: 0,
        least: 0,
        lead: 0x8000,
        bars: 0x0,
    },
    // term
    Part {
        begins: 0x6000,
        follows: 0x1c0017e6518,
        empty: false,
        weight: 2,
        rank: 2,
        least: 0,
        lead: 0x2000,
        bars: 0x0,
    },
    // addop
    Part {
        begins: 0x6000,
        follows: 0x620000004283,
        empty: false,
        weight: 1,
        rank: 0,
        least: 0,
        lead: 0x2000,
        bars: 0x0,
    },
    // product
    Part {
        begins: 0x620000004283,
        follows: 0x1c0017e6518,
        empty: false,
        weight: 5,
        rank: 1,
        least: 0,
        lead: 0x1,
        bars: 0x0,
    },
    // comparison
    Part {
        begins: 0x7e0000,
        follows: 0x1c001000518,
        empty: false,
        weight: 2,
        rank: 3,
        least: 0,
        lead: 0x20000,
        bars: 0x0,
    },
    // sum
    Part {
        begins: 0x620000004283,
        follows: 0x1c0017e0518,
        empty: false,
        weight: 6,
        rank: 2,
        least: 0,
        lead: 0x1,
        bars: 0x0,
    },
    // conjunct
    Part {
        begins: 0x4000000000,
        follows: 0x1c001000518,
        empty: false,
        weight: 1,
        rank: 4,
        least: 0,
        lead: 0x4000000000,
        bars: 0x0,
    },
    // then
    Part {
        begins: 0x100000000000,
        follows: 0x620000004283,
        empty: false,
        weight: 1,
        rank: 0,
        least: 0,
        lead: 0x100000000000,
        bars: 0x0,
    },
    // relation
    Part {
        begins: 0x620000004283,
        follows: 0x1c001000518,
        empty: false,
        weight: 7,
        rank: 3,
        least: 0,
        lead: 0x1,
        bars: 0x0,
    },
    // disjunct
    Part {
        begins: 0x18000000000,
        follows: 0x18001000518,
        empty: false,
        weight: 2,
        rank: 5,
        least: 0,
        lead: 0x8000000000,
        bars: 0x0,
    },
    // orop
    Part {
        begins: 0x18000000000,
        follows: 0x620000004283,
        empty: false,
        weight: 1,
        rank: 0,
        least: 0,
        lead: 0x8000000000,
        bars: 0x0,
    },
    // else
    Part {
        begins: 0x400000000,
        follows: 0x620000004283,
        empty: false,
        weight: 1,
        rank: 0,
        least: 0,
        lead: 0x400000000,
        bars: 0x0,
    },
    // conjunction
    Part {
        begins: 0x620000004283,
        follows: 0x18001000518,
        empty: false,
        weight: 8,
        rank: 4,
        least: 0,
        lead: 0x1,
        bars: 0x0,
    },
    // operand
    Part {
        begins: 0x620000004283,
        follows: 0xdc0017fe518,
        empty: false,
        weight: 4,
        rank: 0,
        least: 0,
        lead: 0x1,
        bars: 0x0,
    },
    // first_operand
    Part {
        begins: 0x620000004282,
        follows: 0xdc0017fe518,
        empty: false,
        weight: 3,
        rank: 0,
        least: 2,
        lead: 0x2,
        bars: 0x0,
    },
    // bracketed
    Part {
        begins: 0x80,
        follows: 0xdc0017fe518,
        empty: false,
        weight: 1,
        rank: 2,
        least: 0,
        lead: 0x80,
        bars: 0x0,
    },
    // selector
    Part {
        begins: 0x1880,
        follows: 0xdc0017ffdd8,
        empty: false,
        weight: 2,
        rank: 1,
        least: 0,
        lead: 0x800,
        bars: 0x0,
    },
    // index
    Part {
        begins: 0x80,
        follows: 0xdc0017ffdd8,
        empty: false,
        weight: 1,
        rank: 2,
        least: 0,
        lead: 0x80,
        bars: 0x0,
    },
    // field
    Part {
        begins: 0xa000001,
        follows: 0xdc0017ffdd8,
        empty: false,
        weight: 1,
        rank: 0,
        least: 0,
        lead: 0x1,
        bars: 0x0,
    },
    // braces
    Part {
        begins: 0x200,
        follows: 0xdc0017fe518,
        empty: false,
        weight: 1,
        rank: 1,
        least: 0,
        lead: 0x200,
        bars: 0x0,
    },
    // inside
    Part {
        begins: 0x620000004283,
        follows: 0x400,
        empty: true,
        weight: 4,
        rank: 0,
        least: 2,
        lead: 0x0,
        bars: 0x4000,
    },
    // after_item_name
    Part {
        begins: 0x6fc0007ffab3,
        follows: 0x400,
        empty: true,
        weight: 25,
        rank: 1,
        least: 3,
        lead: 0x0,
        bars: 0x4000,
    },
    // more_component
    Part {
        begins: 0x10,
        follows: 0x410,
        empty: false,
        weight: 1,
        rank: 2,
        least: 0,
        lead: 0x10,
        bars: 0x0,
    },
    // component
    Part {
        begins: 0x620000004203,
        follows: 0x410,
        empty: false,
        weight: 4,
        rank: 1,
        least: 0,
        lead: 0x2,
        bars: 0x0,
    },
    // component_value
    Part {
        begins: 0x620000004203,
        follows: 0x410,
        empty: false,
        weight: 4,
        rank: 1,
        least: 0,
        lead: 0x2,
        bars: 0x0,
    },
    // first_value
    Part {
        begins: 0x620000004202,
        follows: 0xdc0007fe410,
        empty: false,
        weight: 3,
        rank: 0,
        least: 2,
        lead: 0x2,
        bars: 0x0,
    },
    // more_item_expr
    Part {
        begins: 0x10,
        follows: 0x410,
        empty: false,
        weight: 1,
        rank: 2,
        least: 0,
        lead: 0x10,
        bars: 0x4000,
    },
    // item_expr
    Part {
        begins: 0x620000004283,
        follows: 0x410,
        empty: false,
        weight: 4,
        rank: 1,
        least: 1,
        lead: 0x2,
        bars: 0x4000,
    },
    // after_listed_name
    Part {
        begins: 0xdc0007fb8a0,
        follows: 0x410,
        empty: true,
        weight: 22,
        rank: 1,
        least: 2,
        lead: 0x0,
        bars: 0x4000,
    },
];

/// The table can be read with one token ahead.
pub fn passes()
    ensures { IsTrue (is_predictive TRIAL TRIAL_PARTS LAST) }
{}

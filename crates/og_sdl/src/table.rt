//! The grammar of SDL/PR (Z.106) as a table: each line is a production.
use crate::part;
use og_grammar::Nesting::{Falls, Keeps, Rises};
use og_grammar::{Part, Symbol};
use og_reading::kind;

/// The kind of the last token.
pub const LAST: u8 = kind::LAST;

/// The productions.
#[rattlefmt::skip]
pub const SDL: [Symbol; 817] = [
    // file = *unit
    Symbol::Rule(part::FILE), Symbol::Many(part::UNIT),
    // expr = NAME after_name
    Symbol::Rule(part::EXPR), Symbol::Token(kind::NAME, Keeps), Symbol::Part(part::AFTER_NAME),
    // expr = first_operand tails
    Symbol::Rule(part::EXPR), Symbol::Part(part::FIRST_OPERAND), Symbol::Part(part::TAILS),
    // after_name = +COLON expr
    Symbol::Rule(part::AFTER_NAME), Symbol::Token(kind::COLON, Rises(1)), Symbol::Part(part::EXPR),
    // after_name = *selector tails
    Symbol::Rule(part::AFTER_NAME), Symbol::Many(part::SELECTOR), Symbol::Part(part::TAILS),
    // tails = *factor *term ?comparison *conjunct *disjunct
    Symbol::Rule(part::TAILS), Symbol::Many(part::FACTOR), Symbol::Many(part::TERM), Symbol::Maybe(part::COMPARISON),
    Symbol::Many(part::CONJUNCT), Symbol::Many(part::DISJUNCT),
    // factor = product_operator operand
    Symbol::Rule(part::FACTOR), Symbol::Part(part::PRODUCT_OPERATOR), Symbol::Part(part::OPERAND),
    // product_operator = +ASTERISK
    Symbol::Rule(part::PRODUCT_OPERATOR), Symbol::Token(kind::ASTERISK, Rises(1)),
    // product_operator = +SOLIDUS
    Symbol::Rule(part::PRODUCT_OPERATOR), Symbol::Token(kind::SOLIDUS, Rises(1)),
    // product_operator = +MOD
    Symbol::Rule(part::PRODUCT_OPERATOR), Symbol::Token(kind::MOD, Rises(1)),
    // product_operator = +REM
    Symbol::Rule(part::PRODUCT_OPERATOR), Symbol::Token(kind::REM, Rises(1)),
    // term = sum_operator product
    Symbol::Rule(part::TERM), Symbol::Part(part::SUM_OPERATOR), Symbol::Part(part::PRODUCT),
    // sum_operator = +PLUS
    Symbol::Rule(part::SUM_OPERATOR), Symbol::Token(kind::PLUS, Rises(1)),
    // sum_operator = +MINUS
    Symbol::Rule(part::SUM_OPERATOR), Symbol::Token(kind::MINUS, Rises(1)),
    // product = operand *factor
    Symbol::Rule(part::PRODUCT), Symbol::Part(part::OPERAND), Symbol::Many(part::FACTOR),
    // comparison = relation_operator sum
    Symbol::Rule(part::COMPARISON), Symbol::Part(part::RELATION_OPERATOR), Symbol::Part(part::SUM),
    // relation_operator = +EQUAL
    Symbol::Rule(part::RELATION_OPERATOR), Symbol::Token(kind::EQUAL, Rises(1)),
    // relation_operator = +NOT_EQUAL
    Symbol::Rule(part::RELATION_OPERATOR), Symbol::Token(kind::NOT_EQUAL, Rises(1)),
    // relation_operator = +LESS
    Symbol::Rule(part::RELATION_OPERATOR), Symbol::Token(kind::LESS, Rises(1)),
    // relation_operator = +LESS_OR_EQUAL
    Symbol::Rule(part::RELATION_OPERATOR), Symbol::Token(kind::LESS_OR_EQUAL, Rises(1)),
    // relation_operator = +GREATER
    Symbol::Rule(part::RELATION_OPERATOR), Symbol::Token(kind::GREATER, Rises(1)),
    // relation_operator = +GREATER_OR_EQUAL
    Symbol::Rule(part::RELATION_OPERATOR), Symbol::Token(kind::GREATER_OR_EQUAL, Rises(1)),
    // sum = product *term
    Symbol::Rule(part::SUM), Symbol::Part(part::PRODUCT), Symbol::Many(part::TERM),
    // conjunct = and_operator relation
    Symbol::Rule(part::CONJUNCT), Symbol::Part(part::AND_OPERATOR), Symbol::Part(part::RELATION),
    // and_operator = +AND ?then
    Symbol::Rule(part::AND_OPERATOR), Symbol::Token(kind::AND, Rises(1)), Symbol::Maybe(part::THEN),
    // then = THEN
    Symbol::Rule(part::THEN), Symbol::Token(kind::THEN, Keeps),
    // relation = sum ?comparison
    Symbol::Rule(part::RELATION), Symbol::Part(part::SUM), Symbol::Maybe(part::COMPARISON),
    // disjunct = or_operator conjunction
    Symbol::Rule(part::DISJUNCT), Symbol::Part(part::OR_OPERATOR), Symbol::Part(part::CONJUNCTION),
    // or_operator = +OR ?else
    Symbol::Rule(part::OR_OPERATOR), Symbol::Token(kind::OR, Rises(1)), Symbol::Maybe(part::ELSE),
    // or_operator = +XOR
    Symbol::Rule(part::OR_OPERATOR), Symbol::Token(kind::XOR, Rises(1)),
    // else = ELSE
    Symbol::Rule(part::ELSE), Symbol::Token(kind::ELSE, Keeps),
    // conjunction = relation *conjunct
    Symbol::Rule(part::CONJUNCTION), Symbol::Part(part::RELATION), Symbol::Many(part::CONJUNCT),
    // operand = NAME *selector
    Symbol::Rule(part::OPERAND), Symbol::Token(kind::NAME, Keeps), Symbol::Many(part::SELECTOR),
    // operand = first_operand
    Symbol::Rule(part::OPERAND), Symbol::Part(part::FIRST_OPERAND),
    // first_operand = first_value
    Symbol::Rule(part::FIRST_OPERAND), Symbol::Part(part::FIRST_VALUE),
    // first_operand = @bracketed
    Symbol::Rule(part::FIRST_OPERAND), Symbol::Scope(part::BRACKETED),
    // bracketed = +LEFT_PARENTHESIS @expr RIGHT_PARENTHESIS
    Symbol::Rule(part::BRACKETED), Symbol::Token(kind::LEFT_PARENTHESIS, Rises(1)), Symbol::Scope(part::EXPR),
    Symbol::Token(kind::RIGHT_PARENTHESIS, Keeps),
    // selector = +FULL_STOP field
    Symbol::Rule(part::SELECTOR), Symbol::Token(kind::FULL_STOP, Rises(1)), Symbol::Part(part::FIELD),
    // selector = +EXCLAMATION field
    Symbol::Rule(part::SELECTOR), Symbol::Token(kind::EXCLAMATION, Rises(1)), Symbol::Part(part::FIELD),
    // selector = index
    Symbol::Rule(part::SELECTOR), Symbol::Part(part::INDEX),
    // index = ++LEFT_PARENTHESIS @expr -RIGHT_PARENTHESIS
    Symbol::Rule(part::INDEX), Symbol::Token(kind::LEFT_PARENTHESIS, Rises(2)), Symbol::Scope(part::EXPR),
    Symbol::Token(kind::RIGHT_PARENTHESIS, Falls(1)),
    // field = NAME
    Symbol::Rule(part::FIELD), Symbol::Token(kind::NAME, Keeps),
    // field = AGGREGATION
    Symbol::Rule(part::FIELD), Symbol::Token(kind::AGGREGATION, Keeps),
    // field = AND
    Symbol::Rule(part::FIELD), Symbol::Token(kind::AND, Keeps),
    // field = ANY
    Symbol::Rule(part::FIELD), Symbol::Token(kind::ANY, Keeps),
    // field = BLOCK
    Symbol::Rule(part::FIELD), Symbol::Token(kind::BLOCK, Keeps),
    // field = CALL
    Symbol::Rule(part::FIELD), Symbol::Token(kind::CALL, Keeps),
    // field = CHANNEL
    Symbol::Rule(part::FIELD), Symbol::Token(kind::CHANNEL, Keeps),
    // field = COMMENT
    Symbol::Rule(part::FIELD), Symbol::Token(kind::COMMENT, Keeps),
    // field = CONNECT
    Symbol::Rule(part::FIELD), Symbol::Token(kind::CONNECT, Keeps),
    // field = CONNECTION
    Symbol::Rule(part::FIELD), Symbol::Token(kind::CONNECTION, Keeps),
    // field = DCL
    Symbol::Rule(part::FIELD), Symbol::Token(kind::DCL, Keeps),
    // field = DECISION
    Symbol::Rule(part::FIELD), Symbol::Token(kind::DECISION, Keeps),
    // field = ELSE
    Symbol::Rule(part::FIELD), Symbol::Token(kind::ELSE, Keeps),
    // field = ENDBLOCK
    Symbol::Rule(part::FIELD), Symbol::Token(kind::ENDBLOCK, Keeps),
    // field = ENDCHANNEL
    Symbol::Rule(part::FIELD), Symbol::Token(kind::ENDCHANNEL, Keeps),
    // field = ENDCONNECTION
    Symbol::Rule(part::FIELD), Symbol::Token(kind::ENDCONNECTION, Keeps),
    // field = ENDDECISION
    Symbol::Rule(part::FIELD), Symbol::Token(kind::ENDDECISION, Keeps),
    // field = ENDPROCEDURE
    Symbol::Rule(part::FIELD), Symbol::Token(kind::ENDPROCEDURE, Keeps),
    // field = ENDPROCESS
    Symbol::Rule(part::FIELD), Symbol::Token(kind::ENDPROCESS, Keeps),
    // field = ENDSTATE
    Symbol::Rule(part::FIELD), Symbol::Token(kind::ENDSTATE, Keeps),
    // field = ENDSUBSTRUCTURE
    Symbol::Rule(part::FIELD), Symbol::Token(kind::ENDSUBSTRUCTURE, Keeps),
    // field = ENDSYSTEM
    Symbol::Rule(part::FIELD), Symbol::Token(kind::ENDSYSTEM, Keeps),
    // field = ENV
    Symbol::Rule(part::FIELD), Symbol::Token(kind::ENV, Keeps),
    // field = EXTERNAL
    Symbol::Rule(part::FIELD), Symbol::Token(kind::EXTERNAL, Keeps),
    // field = FALSE
    Symbol::Rule(part::FIELD), Symbol::Token(kind::FALSE, Keeps),
    // field = FPAR
    Symbol::Rule(part::FIELD), Symbol::Token(kind::FPAR, Keeps),
    // field = FROM
    Symbol::Rule(part::FIELD), Symbol::Token(kind::FROM, Keeps),
    // field = IN
    Symbol::Rule(part::FIELD), Symbol::Token(kind::IN, Keeps),
    // field = INPUT
    Symbol::Rule(part::FIELD), Symbol::Token(kind::INPUT, Keeps),
    // field = JOIN
    Symbol::Rule(part::FIELD), Symbol::Token(kind::JOIN, Keeps),
    // field = MOD
    Symbol::Rule(part::FIELD), Symbol::Token(kind::MOD, Keeps),
    // field = NEXTSTATE
    Symbol::Rule(part::FIELD), Symbol::Token(kind::NEXTSTATE, Keeps),
    // field = NOT
    Symbol::Rule(part::FIELD), Symbol::Token(kind::NOT, Keeps),
    // field = OR
    Symbol::Rule(part::FIELD), Symbol::Token(kind::OR, Keeps),
    // field = OUT
    Symbol::Rule(part::FIELD), Symbol::Token(kind::OUT, Keeps),
    // field = OUTPUT
    Symbol::Rule(part::FIELD), Symbol::Token(kind::OUTPUT, Keeps),
    // field = PRIORITY
    Symbol::Rule(part::FIELD), Symbol::Token(kind::PRIORITY, Keeps),
    // field = PROCEDURE
    Symbol::Rule(part::FIELD), Symbol::Token(kind::PROCEDURE, Keeps),
    // field = PROCESS
    Symbol::Rule(part::FIELD), Symbol::Token(kind::PROCESS, Keeps),
    // field = PROVIDED
    Symbol::Rule(part::FIELD), Symbol::Token(kind::PROVIDED, Keeps),
    // field = REFERENCED
    Symbol::Rule(part::FIELD), Symbol::Token(kind::REFERENCED, Keeps),
    // field = REM
    Symbol::Rule(part::FIELD), Symbol::Token(kind::REM, Keeps),
    // field = RETURN
    Symbol::Rule(part::FIELD), Symbol::Token(kind::RETURN, Keeps),
    // field = RETURNS
    Symbol::Rule(part::FIELD), Symbol::Token(kind::RETURNS, Keeps),
    // field = SAVE
    Symbol::Rule(part::FIELD), Symbol::Token(kind::SAVE, Keeps),
    // field = SIGNAL
    Symbol::Rule(part::FIELD), Symbol::Token(kind::SIGNAL, Keeps),
    // field = SIGNALROUTE
    Symbol::Rule(part::FIELD), Symbol::Token(kind::SIGNALROUTE, Keeps),
    // field = START
    Symbol::Rule(part::FIELD), Symbol::Token(kind::START, Keeps),
    // field = STATE
    Symbol::Rule(part::FIELD), Symbol::Token(kind::STATE, Keeps),
    // field = STOP
    Symbol::Rule(part::FIELD), Symbol::Token(kind::STOP, Keeps),
    // field = SUBSTRUCTURE
    Symbol::Rule(part::FIELD), Symbol::Token(kind::SUBSTRUCTURE, Keeps),
    // field = SYSTEM
    Symbol::Rule(part::FIELD), Symbol::Token(kind::SYSTEM, Keeps),
    // field = TASK
    Symbol::Rule(part::FIELD), Symbol::Token(kind::TASK, Keeps),
    // field = THEN
    Symbol::Rule(part::FIELD), Symbol::Token(kind::THEN, Keeps),
    // field = TIMER
    Symbol::Rule(part::FIELD), Symbol::Token(kind::TIMER, Keeps),
    // field = TO
    Symbol::Rule(part::FIELD), Symbol::Token(kind::TO, Keeps),
    // field = TRUE
    Symbol::Rule(part::FIELD), Symbol::Token(kind::TRUE, Keeps),
    // field = USE
    Symbol::Rule(part::FIELD), Symbol::Token(kind::USE, Keeps),
    // field = VIA
    Symbol::Rule(part::FIELD), Symbol::Token(kind::VIA, Keeps),
    // field = WITH
    Symbol::Rule(part::FIELD), Symbol::Token(kind::WITH, Keeps),
    // field = XOR
    Symbol::Rule(part::FIELD), Symbol::Token(kind::XOR, Keeps),
    // braces = +LEFT_BRACE inside RIGHT_BRACE
    Symbol::Rule(part::BRACES), Symbol::Token(kind::LEFT_BRACE, Rises(1)), Symbol::Part(part::INSIDE),
    Symbol::Token(kind::RIGHT_BRACE, Keeps),
    // inside = NAME after_first_name
    Symbol::Rule(part::INSIDE), Symbol::Token(kind::NAME, Keeps), Symbol::Part(part::AFTER_FIRST_NAME),
    // inside = @leading *more_item
    Symbol::Rule(part::INSIDE), Symbol::Scope(part::LEADING), Symbol::Many(part::MORE_ITEM),
    // inside =
    Symbol::Rule(part::INSIDE),
    // after_first_name = @component_value *more_component
    Symbol::Rule(part::AFTER_FIRST_NAME), Symbol::Scope(part::COMPONENT_VALUE), Symbol::Many(part::MORE_COMPONENT),
    // after_first_name = @listed_rest *more_item
    Symbol::Rule(part::AFTER_FIRST_NAME), Symbol::Scope(part::LISTED_REST), Symbol::Many(part::MORE_ITEM),
    // listed_rest = +COLON expr
    Symbol::Rule(part::LISTED_REST), Symbol::Token(kind::COLON, Rises(1)), Symbol::Part(part::EXPR),
    // listed_rest = selector *selector tails
    Symbol::Rule(part::LISTED_REST), Symbol::Part(part::SELECTOR), Symbol::Many(part::SELECTOR),
    Symbol::Part(part::TAILS),
    // listed_rest = ~MINUS tails
    Symbol::Rule(part::LISTED_REST), Symbol::NotBefore(kind::MINUS), Symbol::Part(part::TAILS),
    // leading = first_operand tails
    Symbol::Rule(part::LEADING), Symbol::Part(part::FIRST_OPERAND), Symbol::Part(part::TAILS),
    // more_item = COMMA @item
    Symbol::Rule(part::MORE_ITEM), Symbol::Token(kind::COMMA, Keeps), Symbol::Scope(part::ITEM),
    // item = NAME listed_rest
    Symbol::Rule(part::ITEM), Symbol::Token(kind::NAME, Keeps), Symbol::Part(part::LISTED_REST),
    // item = first_operand tails
    Symbol::Rule(part::ITEM), Symbol::Part(part::FIRST_OPERAND), Symbol::Part(part::TAILS),
    // component_value = NAME after_name
    Symbol::Rule(part::COMPONENT_VALUE), Symbol::Token(kind::NAME, Keeps), Symbol::Part(part::AFTER_NAME),
    // component_value = first_value tails
    Symbol::Rule(part::COMPONENT_VALUE), Symbol::Part(part::FIRST_VALUE), Symbol::Part(part::TAILS),
    // first_value = +MINUS operand
    Symbol::Rule(part::FIRST_VALUE), Symbol::Token(kind::MINUS, Rises(1)), Symbol::Part(part::OPERAND),
    // first_value = +NOT operand
    Symbol::Rule(part::FIRST_VALUE), Symbol::Token(kind::NOT, Rises(1)), Symbol::Part(part::OPERAND),
    // first_value = NUMBER
    Symbol::Rule(part::FIRST_VALUE), Symbol::Token(kind::NUMBER, Keeps),
    // first_value = TRUE
    Symbol::Rule(part::FIRST_VALUE), Symbol::Token(kind::TRUE, Keeps),
    // first_value = FALSE
    Symbol::Rule(part::FIRST_VALUE), Symbol::Token(kind::FALSE, Keeps),
    // first_value = @braces
    Symbol::Rule(part::FIRST_VALUE), Symbol::Scope(part::BRACES),
    // more_component = COMMA NAME @component_value
    Symbol::Rule(part::MORE_COMPONENT), Symbol::Token(kind::COMMA, Keeps), Symbol::Token(kind::NAME, Keeps),
    Symbol::Scope(part::COMPONENT_VALUE),
    // hname = NAME *hyphened
    Symbol::Rule(part::HNAME), Symbol::Token(kind::NAME, Keeps), Symbol::Many(part::HYPHENED),
    // hyphened = MINUS NAME
    Symbol::Rule(part::HYPHENED), Symbol::Token(kind::MINUS, Keeps), Symbol::Token(kind::NAME, Keeps),
    // end = ?comment SEMICOLON
    Symbol::Rule(part::END), Symbol::Maybe(part::COMMENT), Symbol::Token(kind::SEMICOLON, Keeps),
    // comment = COMMENT TEXT
    Symbol::Rule(part::COMMENT), Symbol::Token(kind::COMMENT, Keeps), Symbol::Token(kind::TEXT, Keeps),
    // names = NAME *more_name
    Symbol::Rule(part::NAMES), Symbol::Token(kind::NAME, Keeps), Symbol::Many(part::MORE_NAME),
    // more_name = COMMA NAME
    Symbol::Rule(part::MORE_NAME), Symbol::Token(kind::COMMA, Keeps), Symbol::Token(kind::NAME, Keeps),
    // own_name = NAME
    Symbol::Rule(part::OWN_NAME), Symbol::Token(kind::NAME, Keeps),
    // closing = ?own_name end
    Symbol::Rule(part::CLOSING), Symbol::Maybe(part::OWN_NAME), Symbol::Part(part::END),
    // dcl = DCL declarations end
    Symbol::Rule(part::DCL), Symbol::Token(kind::DCL, Keeps), Symbol::Part(part::DECLARATIONS), Symbol::Part(part::END),
    // declarations = declared *more_declared
    Symbol::Rule(part::DECLARATIONS), Symbol::Part(part::DECLARED), Symbol::Many(part::MORE_DECLARED),
    // more_declared = COMMA declared
    Symbol::Rule(part::MORE_DECLARED), Symbol::Token(kind::COMMA, Keeps), Symbol::Part(part::DECLARED),
    // declared = names hname ?initial
    Symbol::Rule(part::DECLARED), Symbol::Part(part::NAMES), Symbol::Part(part::HNAME), Symbol::Maybe(part::INITIAL),
    // initial = ASSIGN @expr
    Symbol::Rule(part::INITIAL), Symbol::Token(kind::ASSIGN, Keeps), Symbol::Scope(part::EXPR),
    // timer = TIMER names end
    Symbol::Rule(part::TIMER), Symbol::Token(kind::TIMER, Keeps), Symbol::Part(part::NAMES), Symbol::Part(part::END),
    // fpar = FPAR formals end
    Symbol::Rule(part::FPAR), Symbol::Token(kind::FPAR, Keeps), Symbol::Part(part::FORMALS), Symbol::Part(part::END),
    // formals = formal *more_formal
    Symbol::Rule(part::FORMALS), Symbol::Part(part::FORMAL), Symbol::Many(part::MORE_FORMAL),
    // more_formal = COMMA formal
    Symbol::Rule(part::MORE_FORMAL), Symbol::Token(kind::COMMA, Keeps), Symbol::Part(part::FORMAL),
    // formal = ?mode names hname
    Symbol::Rule(part::FORMAL), Symbol::Maybe(part::MODE), Symbol::Part(part::NAMES), Symbol::Part(part::HNAME),
    // mode = IN ?and_out
    Symbol::Rule(part::MODE), Symbol::Token(kind::IN, Keeps), Symbol::Maybe(part::AND_OUT),
    // and_out = SOLIDUS OUT
    Symbol::Rule(part::AND_OUT), Symbol::Token(kind::SOLIDUS, Keeps), Symbol::Token(kind::OUT, Keeps),
    // returns = RETURNS hname end
    Symbol::Rule(part::RETURNS), Symbol::Token(kind::RETURNS, Keeps), Symbol::Part(part::HNAME),
    Symbol::Part(part::END),
    // var = NAME *selector
    Symbol::Rule(part::VAR), Symbol::Token(kind::NAME, Keeps), Symbol::Many(part::SELECTOR),
    // assigns = assign *more_assign
    Symbol::Rule(part::ASSIGNS), Symbol::Part(part::ASSIGN), Symbol::Many(part::MORE_ASSIGN),
    // more_assign = COMMA assign
    Symbol::Rule(part::MORE_ASSIGN), Symbol::Token(kind::COMMA, Keeps), Symbol::Part(part::ASSIGN),
    // assign = @var ASSIGN assigned
    Symbol::Rule(part::ASSIGN), Symbol::Scope(part::VAR), Symbol::Token(kind::ASSIGN, Keeps),
    Symbol::Part(part::ASSIGNED),
    // assigned = CALL called
    Symbol::Rule(part::ASSIGNED), Symbol::Token(kind::CALL, Keeps), Symbol::Part(part::CALLED),
    // assigned = @expr
    Symbol::Rule(part::ASSIGNED), Symbol::Scope(part::EXPR),
    // called = NAME ?args
    Symbol::Rule(part::CALLED), Symbol::Token(kind::NAME, Keeps), Symbol::Maybe(part::ARGS),
    // args = +LEFT_PARENTHESIS ?arguments -RIGHT_PARENTHESIS
    Symbol::Rule(part::ARGS), Symbol::Token(kind::LEFT_PARENTHESIS, Rises(1)), Symbol::Maybe(part::ARGUMENTS),
    Symbol::Token(kind::RIGHT_PARENTHESIS, Falls(1)),
    // arguments = argument *more_argument
    Symbol::Rule(part::ARGUMENTS), Symbol::Part(part::ARGUMENT), Symbol::Many(part::MORE_ARGUMENT),
    // more_argument = COMMA argument
    Symbol::Rule(part::MORE_ARGUMENT), Symbol::Token(kind::COMMA, Keeps), Symbol::Part(part::ARGUMENT),
    // argument = @expr
    Symbol::Rule(part::ARGUMENT), Symbol::Scope(part::EXPR),
    // argument = TEXT
    Symbol::Rule(part::ARGUMENT), Symbol::Token(kind::TEXT, Keeps),
    // outs = out *more_out
    Symbol::Rule(part::OUTS), Symbol::Part(part::OUT), Symbol::Many(part::MORE_OUT),
    // more_out = COMMA out
    Symbol::Rule(part::MORE_OUT), Symbol::Token(kind::COMMA, Keeps), Symbol::Part(part::OUT),
    // out = NAME ?values
    Symbol::Rule(part::OUT), Symbol::Token(kind::NAME, Keeps), Symbol::Maybe(part::VALUES),
    // values = +LEFT_PARENTHESIS exprs -RIGHT_PARENTHESIS
    Symbol::Rule(part::VALUES), Symbol::Token(kind::LEFT_PARENTHESIS, Rises(1)), Symbol::Part(part::EXPRS),
    Symbol::Token(kind::RIGHT_PARENTHESIS, Falls(1)),
    // exprs = @expr *more_expr
    Symbol::Rule(part::EXPRS), Symbol::Scope(part::EXPR), Symbol::Many(part::MORE_EXPR),
    // more_expr = COMMA @expr
    Symbol::Rule(part::MORE_EXPR), Symbol::Token(kind::COMMA, Keeps), Symbol::Scope(part::EXPR),
    // question = @expr
    Symbol::Rule(part::QUESTION), Symbol::Scope(part::EXPR),
    // question = ANY
    Symbol::Rule(part::QUESTION), Symbol::Token(kind::ANY, Keeps),
    // question = TEXT
    Symbol::Rule(part::QUESTION), Symbol::Token(kind::TEXT, Keeps),
    // answers = @answer *more_answer
    Symbol::Rule(part::ANSWERS), Symbol::Scope(part::ANSWER), Symbol::Many(part::MORE_ANSWER),
    // more_answer = COMMA @answer
    Symbol::Rule(part::MORE_ANSWER), Symbol::Token(kind::COMMA, Keeps), Symbol::Scope(part::ANSWER),
    // answer = constant ?upto
    Symbol::Rule(part::ANSWER), Symbol::Part(part::CONSTANT), Symbol::Maybe(part::UPTO),
    // answer = relation_operator constant
    Symbol::Rule(part::ANSWER), Symbol::Part(part::RELATION_OPERATOR), Symbol::Part(part::CONSTANT),
    // upto = COLON constant
    Symbol::Rule(part::UPTO), Symbol::Token(kind::COLON, Keeps), Symbol::Part(part::CONSTANT),
    // constant = +MINUS NUMBER
    Symbol::Rule(part::CONSTANT), Symbol::Token(kind::MINUS, Rises(1)), Symbol::Token(kind::NUMBER, Keeps),
    // constant = NUMBER
    Symbol::Rule(part::CONSTANT), Symbol::Token(kind::NUMBER, Keeps),
    // constant = NAME
    Symbol::Rule(part::CONSTANT), Symbol::Token(kind::NAME, Keeps),
    // constant = TRUE
    Symbol::Rule(part::CONSTANT), Symbol::Token(kind::TRUE, Keeps),
    // constant = FALSE
    Symbol::Rule(part::CONSTANT), Symbol::Token(kind::FALSE, Keeps),
    // label = NAME COLON
    Symbol::Rule(part::LABEL), Symbol::Token(kind::NAME, Keeps), Symbol::Token(kind::COLON, Keeps),
    // terminator = NEXTSTATE target
    Symbol::Rule(part::TERMINATOR), Symbol::Token(kind::NEXTSTATE, Keeps), Symbol::Part(part::TARGET),
    // terminator = JOIN NAME
    Symbol::Rule(part::TERMINATOR), Symbol::Token(kind::JOIN, Keeps), Symbol::Token(kind::NAME, Keeps),
    // terminator = RETURN ?result
    Symbol::Rule(part::TERMINATOR), Symbol::Token(kind::RETURN, Keeps), Symbol::Maybe(part::RESULT),
    // terminator = STOP
    Symbol::Rule(part::TERMINATOR), Symbol::Token(kind::STOP, Keeps),
    // target = MINUS ?star
    Symbol::Rule(part::TARGET), Symbol::Token(kind::MINUS, Keeps), Symbol::Maybe(part::STAR),
    // target = NAME ?via
    Symbol::Rule(part::TARGET), Symbol::Token(kind::NAME, Keeps), Symbol::Maybe(part::VIA),
    // star = ASTERISK
    Symbol::Rule(part::STAR), Symbol::Token(kind::ASTERISK, Keeps),
    // via = VIA NAME
    Symbol::Rule(part::VIA), Symbol::Token(kind::VIA, Keeps), Symbol::Token(kind::NAME, Keeps),
    // result = @expr
    Symbol::Rule(part::RESULT), Symbol::Scope(part::EXPR),
    // transition = *step
    Symbol::Rule(part::TRANSITION), Symbol::Many(part::STEP),
    // step = label unlabelled
    Symbol::Rule(part::STEP), Symbol::Part(part::LABEL), Symbol::Part(part::UNLABELLED),
    // step = unlabelled
    Symbol::Rule(part::STEP), Symbol::Part(part::UNLABELLED),
    // unlabelled = action end
    Symbol::Rule(part::UNLABELLED), Symbol::Part(part::ACTION), Symbol::Part(part::END),
    // unlabelled = terminator end no_step
    Symbol::Rule(part::UNLABELLED), Symbol::Part(part::TERMINATOR), Symbol::Part(part::END),
    Symbol::Part(part::NO_STEP),
    // no_step = ~NAME ~TASK ~OUTPUT ~CALL ~DECISION ~NEXTSTATE ~JOIN ~RETURN ~STOP
    Symbol::Rule(part::NO_STEP), Symbol::NotBefore(kind::NAME), Symbol::NotBefore(kind::TASK),
    Symbol::NotBefore(kind::OUTPUT), Symbol::NotBefore(kind::CALL), Symbol::NotBefore(kind::DECISION),
    Symbol::NotBefore(kind::NEXTSTATE), Symbol::NotBefore(kind::JOIN), Symbol::NotBefore(kind::RETURN),
    Symbol::NotBefore(kind::STOP),
    // action = TASK task
    Symbol::Rule(part::ACTION), Symbol::Token(kind::TASK, Keeps), Symbol::Part(part::TASK),
    // action = OUTPUT outs
    Symbol::Rule(part::ACTION), Symbol::Token(kind::OUTPUT, Keeps), Symbol::Part(part::OUTS),
    // action = CALL called
    Symbol::Rule(part::ACTION), Symbol::Token(kind::CALL, Keeps), Symbol::Part(part::CALLED),
    // action = +DECISION decision
    Symbol::Rule(part::ACTION), Symbol::Token(kind::DECISION, Rises(1)), Symbol::Part(part::DECISION),
    // task = TEXT
    Symbol::Rule(part::TASK), Symbol::Token(kind::TEXT, Keeps),
    // task = assigns
    Symbol::Rule(part::TASK), Symbol::Part(part::ASSIGNS),
    // decision = question end *branch ?otherwise -ENDDECISION
    Symbol::Rule(part::DECISION), Symbol::Part(part::QUESTION), Symbol::Part(part::END), Symbol::Many(part::BRANCH),
    Symbol::Maybe(part::OTHERWISE), Symbol::Token(kind::ENDDECISION, Falls(1)),
    // branch = +LEFT_PARENTHESIS answers -RIGHT_PARENTHESIS COLON transition
    Symbol::Rule(part::BRANCH), Symbol::Token(kind::LEFT_PARENTHESIS, Rises(1)), Symbol::Part(part::ANSWERS),
    Symbol::Token(kind::RIGHT_PARENTHESIS, Falls(1)), Symbol::Token(kind::COLON, Keeps), Symbol::Part(part::TRANSITION),
    // otherwise = ELSE COLON transition
    Symbol::Rule(part::OTHERWISE), Symbol::Token(kind::ELSE, Keeps), Symbol::Token(kind::COLON, Keeps),
    Symbol::Part(part::TRANSITION),
    // connection = +CONNECTION NAME COLON transition -ENDCONNECTION end
    Symbol::Rule(part::CONNECTION), Symbol::Token(kind::CONNECTION, Rises(1)), Symbol::Token(kind::NAME, Keeps),
    Symbol::Token(kind::COLON, Keeps), Symbol::Part(part::TRANSITION), Symbol::Token(kind::ENDCONNECTION, Falls(1)),
    Symbol::Part(part::END),
    // procedure = +PROCEDURE NAME end ?fpar ?returns procedure_body
    Symbol::Rule(part::PROCEDURE), Symbol::Token(kind::PROCEDURE, Rises(1)), Symbol::Token(kind::NAME, Keeps),
    Symbol::Part(part::END), Symbol::Maybe(part::FPAR), Symbol::Maybe(part::RETURNS),
    Symbol::Part(part::PROCEDURE_BODY),
    // procedure_body = -EXTERNAL end
    Symbol::Rule(part::PROCEDURE_BODY), Symbol::Token(kind::EXTERNAL, Falls(1)), Symbol::Part(part::END),
    // procedure_body = *dcl START end transition *connection -ENDPROCEDURE closing
    Symbol::Rule(part::PROCEDURE_BODY), Symbol::Many(part::DCL), Symbol::Token(kind::START, Keeps),
    Symbol::Part(part::END), Symbol::Part(part::TRANSITION), Symbol::Many(part::CONNECTION),
    Symbol::Token(kind::ENDPROCEDURE, Falls(1)), Symbol::Part(part::CLOSING),
    // start = START ?own_name end transition
    Symbol::Rule(part::START), Symbol::Token(kind::START, Keeps), Symbol::Maybe(part::OWN_NAME),
    Symbol::Part(part::END), Symbol::Part(part::TRANSITION),
    // name_list = +LEFT_PARENTHESIS names -RIGHT_PARENTHESIS
    Symbol::Rule(part::NAME_LIST), Symbol::Token(kind::LEFT_PARENTHESIS, Rises(1)), Symbol::Part(part::NAMES),
    Symbol::Token(kind::RIGHT_PARENTHESIS, Falls(1)),
    // state_part = INPUT inputs end enabling transition
    Symbol::Rule(part::STATE_PART), Symbol::Token(kind::INPUT, Keeps), Symbol::Part(part::INPUTS),
    Symbol::Part(part::END), Symbol::Part(part::ENABLING), Symbol::Part(part::TRANSITION),
    // state_part = PROVIDED @expr end ?priority transition
    Symbol::Rule(part::STATE_PART), Symbol::Token(kind::PROVIDED, Keeps), Symbol::Scope(part::EXPR),
    Symbol::Part(part::END), Symbol::Maybe(part::PRIORITY), Symbol::Part(part::TRANSITION),
    // state_part = CONNECT ?names end transition
    Symbol::Rule(part::STATE_PART), Symbol::Token(kind::CONNECT, Keeps), Symbol::Maybe(part::NAMES),
    Symbol::Part(part::END), Symbol::Part(part::TRANSITION),
    // state_part = SAVE names end
    Symbol::Rule(part::STATE_PART), Symbol::Token(kind::SAVE, Keeps), Symbol::Part(part::NAMES),
    Symbol::Part(part::END),
    // inputs = input *more_input
    Symbol::Rule(part::INPUTS), Symbol::Part(part::INPUT), Symbol::Many(part::MORE_INPUT),
    // more_input = COMMA input
    Symbol::Rule(part::MORE_INPUT), Symbol::Token(kind::COMMA, Keeps), Symbol::Part(part::INPUT),
    // input = NAME ?name_list
    Symbol::Rule(part::INPUT), Symbol::Token(kind::NAME, Keeps), Symbol::Maybe(part::NAME_LIST),
    // enabling = PROVIDED @expr end
    Symbol::Rule(part::ENABLING), Symbol::Token(kind::PROVIDED, Keeps), Symbol::Scope(part::EXPR),
    Symbol::Part(part::END),
    // enabling = ~PROVIDED
    Symbol::Rule(part::ENABLING), Symbol::NotBefore(kind::PROVIDED),
    // priority = PRIORITY NUMBER end
    Symbol::Rule(part::PRIORITY), Symbol::Token(kind::PRIORITY, Keeps), Symbol::Token(kind::NUMBER, Keeps),
    Symbol::Part(part::END),
    // points = direction +LEFT_PARENTHESIS names -RIGHT_PARENTHESIS end
    Symbol::Rule(part::POINTS), Symbol::Part(part::DIRECTION), Symbol::Token(kind::LEFT_PARENTHESIS, Rises(1)),
    Symbol::Part(part::NAMES), Symbol::Token(kind::RIGHT_PARENTHESIS, Falls(1)), Symbol::Part(part::END),
    // direction = IN
    Symbol::Rule(part::DIRECTION), Symbol::Token(kind::IN, Keeps),
    // direction = OUT
    Symbol::Rule(part::DIRECTION), Symbol::Token(kind::OUT, Keeps),
    // inner = dcl
    Symbol::Rule(part::INNER), Symbol::Part(part::DCL),
    // inner = timer
    Symbol::Rule(part::INNER), Symbol::Part(part::TIMER),
    // inner = procedure
    Symbol::Rule(part::INNER), Symbol::Part(part::PROCEDURE),
    // inner = start
    Symbol::Rule(part::INNER), Symbol::Part(part::START),
    // inner = +STATE state
    Symbol::Rule(part::INNER), Symbol::Token(kind::STATE, Rises(1)), Symbol::Part(part::STATE),
    // inner = connection
    Symbol::Rule(part::INNER), Symbol::Part(part::CONNECTION),
    // state = AGGREGATION NAME end aggregation_body
    Symbol::Rule(part::STATE), Symbol::Token(kind::AGGREGATION, Keeps), Symbol::Token(kind::NAME, Keeps),
    Symbol::Part(part::END), Symbol::Part(part::AGGREGATION_BODY),
    // state = ASTERISK ?name_list end state_body
    Symbol::Rule(part::STATE), Symbol::Token(kind::ASTERISK, Keeps), Symbol::Maybe(part::NAME_LIST),
    Symbol::Part(part::END), Symbol::Part(part::STATE_BODY),
    // state = NAME after_state_name
    Symbol::Rule(part::STATE), Symbol::Token(kind::NAME, Keeps), Symbol::Part(part::AFTER_STATE_NAME),
    // after_state_name = more_name *more_name end state_body
    Symbol::Rule(part::AFTER_STATE_NAME), Symbol::Part(part::MORE_NAME), Symbol::Many(part::MORE_NAME),
    Symbol::Part(part::END), Symbol::Part(part::STATE_BODY),
    // after_state_name = end after_one_state
    Symbol::Rule(part::AFTER_STATE_NAME), Symbol::Part(part::END), Symbol::Part(part::AFTER_ONE_STATE),
    // after_one_state = composite_body
    Symbol::Rule(part::AFTER_ONE_STATE), Symbol::Part(part::COMPOSITE_BODY),
    // after_one_state = state_body
    Symbol::Rule(part::AFTER_ONE_STATE), Symbol::Part(part::STATE_BODY),
    // state_body = *state_part -ENDSTATE closing
    Symbol::Rule(part::STATE_BODY), Symbol::Many(part::STATE_PART), Symbol::Token(kind::ENDSTATE, Falls(1)),
    Symbol::Part(part::CLOSING),
    // composite_body = +SUBSTRUCTURE *points *inner --ENDSUBSTRUCTURE closing
    Symbol::Rule(part::COMPOSITE_BODY), Symbol::Token(kind::SUBSTRUCTURE, Rises(1)), Symbol::Many(part::POINTS),
    Symbol::Many(part::INNER), Symbol::Token(kind::ENDSUBSTRUCTURE, Falls(2)), Symbol::Part(part::CLOSING),
    // aggregation_body = +SUBSTRUCTURE *points *plain header *again composite_body *partition --ENDSUBSTRUCTURE closing
    Symbol::Rule(part::AGGREGATION_BODY), Symbol::Token(kind::SUBSTRUCTURE, Rises(1)), Symbol::Many(part::POINTS),
    Symbol::Many(part::PLAIN), Symbol::Part(part::HEADER), Symbol::Many(part::AGAIN),
    Symbol::Part(part::COMPOSITE_BODY), Symbol::Many(part::PARTITION), Symbol::Token(kind::ENDSUBSTRUCTURE, Falls(2)),
    Symbol::Part(part::CLOSING),
    // plain = dcl
    Symbol::Rule(part::PLAIN), Symbol::Part(part::DCL),
    // plain = timer
    Symbol::Rule(part::PLAIN), Symbol::Part(part::TIMER),
    // plain = procedure
    Symbol::Rule(part::PLAIN), Symbol::Part(part::PROCEDURE),
    // header = +STATE NAME end
    Symbol::Rule(part::HEADER), Symbol::Token(kind::STATE, Rises(1)), Symbol::Token(kind::NAME, Keeps),
    Symbol::Part(part::END),
    // again = empty_state *plain header
    Symbol::Rule(part::AGAIN), Symbol::Part(part::EMPTY_STATE), Symbol::Many(part::PLAIN), Symbol::Part(part::HEADER),
    // empty_state = -ENDSTATE closing
    Symbol::Rule(part::EMPTY_STATE), Symbol::Token(kind::ENDSTATE, Falls(1)), Symbol::Part(part::CLOSING),
    // partition = plain
    Symbol::Rule(part::PARTITION), Symbol::Part(part::PLAIN),
    // partition = header one_state
    Symbol::Rule(part::PARTITION), Symbol::Part(part::HEADER), Symbol::Part(part::ONE_STATE),
    // one_state = composite_body
    Symbol::Rule(part::ONE_STATE), Symbol::Part(part::COMPOSITE_BODY),
    // one_state = empty_state
    Symbol::Rule(part::ONE_STATE), Symbol::Part(part::EMPTY_STATE),
    // unit = use
    Symbol::Rule(part::UNIT), Symbol::Part(part::USE),
    // unit = system
    Symbol::Rule(part::UNIT), Symbol::Part(part::SYSTEM),
    // unit = process
    Symbol::Rule(part::UNIT), Symbol::Part(part::PROCESS),
    // use = USE hname end
    Symbol::Rule(part::USE), Symbol::Token(kind::USE, Keeps), Symbol::Part(part::HNAME), Symbol::Part(part::END),
    // system = +SYSTEM NAME end *system_part -ENDSYSTEM closing
    Symbol::Rule(part::SYSTEM), Symbol::Token(kind::SYSTEM, Rises(1)), Symbol::Token(kind::NAME, Keeps),
    Symbol::Part(part::END), Symbol::Many(part::SYSTEM_PART), Symbol::Token(kind::ENDSYSTEM, Falls(1)),
    Symbol::Part(part::CLOSING),
    // system_part = use
    Symbol::Rule(part::SYSTEM_PART), Symbol::Part(part::USE),
    // system_part = signal
    Symbol::Rule(part::SYSTEM_PART), Symbol::Part(part::SIGNAL),
    // system_part = channel
    Symbol::Rule(part::SYSTEM_PART), Symbol::Part(part::CHANNEL),
    // system_part = procedure
    Symbol::Rule(part::SYSTEM_PART), Symbol::Part(part::PROCEDURE),
    // system_part = block
    Symbol::Rule(part::SYSTEM_PART), Symbol::Part(part::BLOCK),
    // signal = SIGNAL sigs end
    Symbol::Rule(part::SIGNAL), Symbol::Token(kind::SIGNAL, Keeps), Symbol::Part(part::SIGS), Symbol::Part(part::END),
    // sigs = sig *more_sig
    Symbol::Rule(part::SIGS), Symbol::Part(part::SIG), Symbol::Many(part::MORE_SIG),
    // more_sig = COMMA sig
    Symbol::Rule(part::MORE_SIG), Symbol::Token(kind::COMMA, Keeps), Symbol::Part(part::SIG),
    // sig = NAME ?sorts
    Symbol::Rule(part::SIG), Symbol::Token(kind::NAME, Keeps), Symbol::Maybe(part::SORTS),
    // sorts = +LEFT_PARENTHESIS hnames -RIGHT_PARENTHESIS
    Symbol::Rule(part::SORTS), Symbol::Token(kind::LEFT_PARENTHESIS, Rises(1)), Symbol::Part(part::HNAMES),
    Symbol::Token(kind::RIGHT_PARENTHESIS, Falls(1)),
    // hnames = hname *more_hname
    Symbol::Rule(part::HNAMES), Symbol::Part(part::HNAME), Symbol::Many(part::MORE_HNAME),
    // more_hname = COMMA hname
    Symbol::Rule(part::MORE_HNAME), Symbol::Token(kind::COMMA, Keeps), Symbol::Part(part::HNAME),
    // channel = CHANNEL NAME path *path ENDCHANNEL closing
    Symbol::Rule(part::CHANNEL), Symbol::Token(kind::CHANNEL, Keeps), Symbol::Token(kind::NAME, Keeps),
    Symbol::Part(part::PATH), Symbol::Many(part::PATH), Symbol::Token(kind::ENDCHANNEL, Keeps),
    Symbol::Part(part::CLOSING),
    // path = FROM point TO point WITH names end
    Symbol::Rule(part::PATH), Symbol::Token(kind::FROM, Keeps), Symbol::Part(part::POINT),
    Symbol::Token(kind::TO, Keeps), Symbol::Part(part::POINT), Symbol::Token(kind::WITH, Keeps),
    Symbol::Part(part::NAMES), Symbol::Part(part::END),
    // point = ENV
    Symbol::Rule(part::POINT), Symbol::Token(kind::ENV, Keeps),
    // point = NAME
    Symbol::Rule(part::POINT), Symbol::Token(kind::NAME, Keeps),
    // block = +BLOCK NAME end *block_part -ENDBLOCK closing
    Symbol::Rule(part::BLOCK), Symbol::Token(kind::BLOCK, Rises(1)), Symbol::Token(kind::NAME, Keeps),
    Symbol::Part(part::END), Symbol::Many(part::BLOCK_PART), Symbol::Token(kind::ENDBLOCK, Falls(1)),
    Symbol::Part(part::CLOSING),
    // block_part = signal
    Symbol::Rule(part::BLOCK_PART), Symbol::Part(part::SIGNAL),
    // block_part = route
    Symbol::Rule(part::BLOCK_PART), Symbol::Part(part::ROUTE),
    // block_part = link
    Symbol::Rule(part::BLOCK_PART), Symbol::Part(part::LINK),
    // block_part = +PROCESS NAME ?count process_or_reference
    Symbol::Rule(part::BLOCK_PART), Symbol::Token(kind::PROCESS, Rises(1)), Symbol::Token(kind::NAME, Keeps),
    Symbol::Maybe(part::COUNT), Symbol::Part(part::PROCESS_OR_REFERENCE),
    // route = SIGNALROUTE NAME path *path
    Symbol::Rule(part::ROUTE), Symbol::Token(kind::SIGNALROUTE, Keeps), Symbol::Token(kind::NAME, Keeps),
    Symbol::Part(part::PATH), Symbol::Many(part::PATH),
    // link = CONNECT names AND names end
    Symbol::Rule(part::LINK), Symbol::Token(kind::CONNECT, Keeps), Symbol::Part(part::NAMES),
    Symbol::Token(kind::AND, Keeps), Symbol::Part(part::NAMES), Symbol::Part(part::END),
    // count = +LEFT_PARENTHESIS NUMBER COMMA NUMBER -RIGHT_PARENTHESIS
    Symbol::Rule(part::COUNT), Symbol::Token(kind::LEFT_PARENTHESIS, Rises(1)), Symbol::Token(kind::NUMBER, Keeps),
    Symbol::Token(kind::COMMA, Keeps), Symbol::Token(kind::NUMBER, Keeps),
    Symbol::Token(kind::RIGHT_PARENTHESIS, Falls(1)),
    // process_or_reference = -REFERENCED end
    Symbol::Rule(part::PROCESS_OR_REFERENCE), Symbol::Token(kind::REFERENCED, Falls(1)), Symbol::Part(part::END),
    // process_or_reference = process_body
    Symbol::Rule(part::PROCESS_OR_REFERENCE), Symbol::Part(part::PROCESS_BODY),
    // process = +PROCESS NAME ?count process_body
    Symbol::Rule(part::PROCESS), Symbol::Token(kind::PROCESS, Rises(1)), Symbol::Token(kind::NAME, Keeps),
    Symbol::Maybe(part::COUNT), Symbol::Part(part::PROCESS_BODY),
    // process_body = end *inner -ENDPROCESS closing
    Symbol::Rule(part::PROCESS_BODY), Symbol::Part(part::END), Symbol::Many(part::INNER),
    Symbol::Token(kind::ENDPROCESS, Falls(1)), Symbol::Part(part::CLOSING),
];

/// What is said of their parts.
#[rattlefmt::skip]
pub const SDL_PARTS: [Part; 142] = [
    // file
    Part { begins: 0x104002000000000000000, follows: 0x8, empty: true, weight: 5, rank: 0, least: 0, lead: 0x0, bars: 0x0 },
    // expr
    Part { begins: 0x80000080800000008503, follows: 0x40000a30, empty: false, weight: 5, rank: 2, least: 0, lead: 0x1, bars: 0x0 },
    // after_name
    Part { begins: 0x800010120000002fff140, follows: 0x40000a30, empty: true, weight: 26, rank: 1, least: 1, lead: 0x0, bars: 0x0 },
    // tails
    Part { begins: 0x800010120000002ffc000, follows: 0x40000a30, empty: true, weight: 21, rank: 0, least: 0, lead: 0x0, bars: 0x0 },
    // factor
    Part { begins: 0x10020000000030000, follows: 0x800010120000042ffca30, empty: false, weight: 2, rank: 1, least: 0, lead: 0x10000, bars: 0x0 },
    // product_operator
    Part { begins: 0x10020000000030000, follows: 0x80000080800000008503, empty: false, weight: 1, rank: 0, least: 0, lead: 0x10000, bars: 0x0 },
    // term
    Part { begins: 0xc000, follows: 0x800000100000042fcca30, empty: false, weight: 2, rank: 2, least: 0, lead: 0x4000, bars: 0x0 },
    // sum_operator
    Part { begins: 0xc000, follows: 0x80000080800000008503, empty: false, weight: 1, rank: 0, least: 0, lead: 0x4000, bars: 0x0 },
    // product
    Part { begins: 0x80000080800000008503, follows: 0x800000100000042fcca30, empty: false, weight: 6, rank: 1, least: 0, lead: 0x1, bars: 0x0 },
    // comparison
    Part { begins: 0xfc0000, follows: 0x800000100000042000a30, empty: false, weight: 2, rank: 3, least: 0, lead: 0x40000, bars: 0x0 },
    // relation_operator
    Part { begins: 0xfc0000, follows: 0x80000080800000008503, empty: false, weight: 1, rank: 0, least: 0, lead: 0x40000, bars: 0x0 },
    // sum
    Part { begins: 0x80000080800000008503, follows: 0x800000100000042fc0a30, empty: false, weight: 7, rank: 2, least: 0, lead: 0x1, bars: 0x0 },
    // conjunct
    Part { begins: 0x2000000, follows: 0x800000100000042000a30, empty: false, weight: 2, rank: 4, least: 0, lead: 0x2000000, bars: 0x0 },
    // and_operator
    Part { begins: 0x2000000, follows: 0x80000080800000008503, empty: false, weight: 1, rank: 0, least: 0, lead: 0x2000000, bars: 0x0 },
    // then
    Part { begins: 0x10000000000000000000, follows: 0x80000080800000008503, empty: false, weight: 1, rank: 0, least: 0, lead: 0x10000000000000000000, bars: 0x0 },
    // relation
    Part { begins: 0x80000080800000008503, follows: 0x800000100000042000a30, empty: false, weight: 8, rank: 3, least: 0, lead: 0x1, bars: 0x0 },
    // disjunct
    Part { begins: 0x800000100000000000000, follows: 0x800000100000040000a30, empty: false, weight: 2, rank: 5, least: 0, lead: 0x100000000000000, bars: 0x0 },
    // or_operator
    Part { begins: 0x800000100000000000000, follows: 0x80000080800000008503, empty: false, weight: 1, rank: 0, least: 0, lead: 0x100000000000000, bars: 0x0 },
    // else
    Part { begins: 0x800000000, follows: 0x80000080800000008503, empty: false, weight: 1, rank: 0, least: 0, lead: 0x800000000, bars: 0x0 },
    // conjunction
    Part { begins: 0x80000080800000008503, follows: 0x800000100000040000a30, empty: false, weight: 9, rank: 4, least: 0, lead: 0x1, bars: 0x0 },
    // operand
    Part { begins: 0x80000080800000008503, follows: 0x800010120000042ffca30, empty: false, weight: 5, rank: 0, least: 0, lead: 0x1, bars: 0x0 },
    // first_operand
    Part { begins: 0x80000080800000008502, follows: 0x800010120000042ffca30, empty: false, weight: 4, rank: 1, least: 0, lead: 0x2, bars: 0x0 },
    // bracketed
    Part { begins: 0x100, follows: 0x800010120000042ffca30, empty: false, weight: 1, rank: 3, least: 0, lead: 0x100, bars: 0x0 },
    // selector
    Part { begins: 0x3100, follows: 0x800010120000042fffbb0, empty: false, weight: 2, rank: 1, least: 0, lead: 0x1000, bars: 0x0 },
    // index
    Part { begins: 0x100, follows: 0x800010120000042fffbb0, empty: false, weight: 1, rank: 3, least: 0, lead: 0x100, bars: 0x0 },
    // field
    Part { begins: 0xfffffffffffffff000001, follows: 0x800010120000042fffbb0, empty: false, weight: 1, rank: 0, least: 0, lead: 0x1, bars: 0x0 },
    // braces
    Part { begins: 0x400, follows: 0x800010120000042ffca30, empty: false, weight: 1, rank: 1, least: 0, lead: 0x400, bars: 0x0 },
    // inside
    Part { begins: 0x80000080800000008503, follows: 0x800, empty: true, weight: 7, rank: 0, least: 2, lead: 0x0, bars: 0x8000 },
    // after_first_name
    Part { begins: 0x8800101a0800002fff563, follows: 0x800, empty: true, weight: 28, rank: 2, least: 0, lead: 0x2, bars: 0x8000 },
    // listed_rest
    Part { begins: 0x800010120000002ff7140, follows: 0x820, empty: true, weight: 23, rank: 1, least: 2, lead: 0x0, bars: 0x8000 },
    // leading
    Part { begins: 0x80000080800000008502, follows: 0x820, empty: false, weight: 5, rank: 2, least: 0, lead: 0x2, bars: 0x0 },
    // more_item
    Part { begins: 0x20, follows: 0x820, empty: false, weight: 1, rank: 3, least: 0, lead: 0x20, bars: 0x8000 },
    // item
    Part { begins: 0x80000080800000008503, follows: 0x820, empty: false, weight: 5, rank: 2, least: 0, lead: 0x1, bars: 0x8000 },
    // component_value
    Part { begins: 0x80000080800000008403, follows: 0x820, empty: false, weight: 4, rank: 1, least: 1, lead: 0x2, bars: 0x0 },
    // first_value
    Part { begins: 0x80000080800000008402, follows: 0x800010120000042ffca30, empty: false, weight: 3, rank: 0, least: 2, lead: 0x2, bars: 0x0 },
    // more_component
    Part { begins: 0x20, follows: 0x820, empty: false, weight: 1, rank: 2, least: 0, lead: 0x20, bars: 0x0 },
    // hname
    Part { begins: 0x1, follows: 0x400002b0, empty: false, weight: 1, rank: 0, least: 0, lead: 0x1, bars: 0x0 },
    // hyphened
    Part { begins: 0x8000, follows: 0x400082b0, empty: false, weight: 1, rank: 0, least: 0, lead: 0x8000, bars: 0x0 },
    // end
    Part { begins: 0x40000010, follows: 0x12ffe7e5f5fffb8000109, empty: false, weight: 4, rank: 0, least: 0, lead: 0x10, bars: 0x0 },
    // comment
    Part { begins: 0x40000000, follows: 0x10, empty: false, weight: 1, rank: 0, least: 0, lead: 0x40000000, bars: 0x0 },
    // names
    Part { begins: 0x1, follows: 0x42000211, empty: false, weight: 1, rank: 0, least: 0, lead: 0x1, bars: 0x0 },
    // more_name
    Part { begins: 0x20, follows: 0x42000231, empty: false, weight: 1, rank: 0, least: 0, lead: 0x20, bars: 0x0 },
    // own_name
    Part { begins: 0x1, follows: 0x40000010, empty: false, weight: 1, rank: 0, least: 0, lead: 0x1, bars: 0x0 },
    // closing
    Part { begins: 0x40000011, follows: 0x124f030001a13a8000008, empty: false, weight: 8, rank: 1, least: 0, lead: 0x10, bars: 0x0 },
    // dcl
    Part { begins: 0x200000000, follows: 0x20c010000a0300000000, empty: false, weight: 1, rank: 3, least: 0, lead: 0x200000000, bars: 0x0 },
    // declarations
    Part { begins: 0x1, follows: 0x40000010, empty: false, weight: 3, rank: 2, least: 0, lead: 0x1, bars: 0x0 },
    // more_declared
    Part { begins: 0x20, follows: 0x40000030, empty: false, weight: 1, rank: 2, least: 0, lead: 0x20, bars: 0x0 },
    // declared
    Part { begins: 0x1, follows: 0x40000030, empty: false, weight: 2, rank: 1, least: 0, lead: 0x1, bars: 0x0 },
    // initial
    Part { begins: 0x80, follows: 0x40000030, empty: false, weight: 1, rank: 3, least: 0, lead: 0x80, bars: 0x0 },
    // timer
    Part { begins: 0x20000000000000000000, follows: 0x20c010000a0300000000, empty: false, weight: 1, rank: 1, least: 0, lead: 0x20000000000000000000, bars: 0x0 },
    // fpar
    Part { begins: 0x1000000000000, follows: 0x440000400200000000, empty: false, weight: 1, rank: 3, least: 0, lead: 0x1000000000000, bars: 0x0 },
    // formals
    Part { begins: 0x4000000000001, follows: 0x40000010, empty: false, weight: 6, rank: 2, least: 0, lead: 0x1, bars: 0x0 },
    // more_formal
    Part { begins: 0x20, follows: 0x40000030, empty: false, weight: 1, rank: 2, least: 0, lead: 0x20, bars: 0x0 },
    // formal
    Part { begins: 0x4000000000001, follows: 0x40000030, empty: false, weight: 5, rank: 1, least: 0, lead: 0x1, bars: 0x0 },
    // mode
    Part { begins: 0x4000000000000, follows: 0x1, empty: false, weight: 1, rank: 0, least: 0, lead: 0x4000000000000, bars: 0x0 },
    // and_out
    Part { begins: 0x20000, follows: 0x1, empty: false, weight: 1, rank: 0, least: 0, lead: 0x20000, bars: 0x0 },
    // returns
    Part { begins: 0x40000000000000000, follows: 0x400000400200000000, empty: false, weight: 1, rank: 1, least: 0, lead: 0x40000000000000000, bars: 0x0 },
    // var
    Part { begins: 0x1, follows: 0x80, empty: false, weight: 1, rank: 0, least: 0, lead: 0x1, bars: 0x0 },
    // assigns
    Part { begins: 0x1, follows: 0x40000010, empty: false, weight: 4, rank: 3, least: 0, lead: 0x1, bars: 0x0 },
    // more_assign
    Part { begins: 0x20, follows: 0x40000030, empty: false, weight: 1, rank: 3, least: 0, lead: 0x20, bars: 0x0 },
    // assign
    Part { begins: 0x1, follows: 0x40000030, empty: false, weight: 3, rank: 2, least: 0, lead: 0x1, bars: 0x0 },
    // assigned
    Part { begins: 0x80000080800010008503, follows: 0x40000030, empty: false, weight: 7, rank: 1, least: 0, lead: 0x10000000, bars: 0x0 },
    // called
    Part { begins: 0x1, follows: 0x40000030, empty: false, weight: 1, rank: 0, least: 0, lead: 0x1, bars: 0x0 },
    // args
    Part { begins: 0x100, follows: 0x40000030, empty: false, weight: 1, rank: 0, least: 0, lead: 0x100, bars: 0x0 },
    // arguments
    Part { begins: 0x80000080800000008507, follows: 0x200, empty: false, weight: 8, rank: 1, least: 0, lead: 0x4, bars: 0x0 },
    // more_argument
    Part { begins: 0x20, follows: 0x220, empty: false, weight: 1, rank: 1, least: 0, lead: 0x20, bars: 0x0 },
    // argument
    Part { begins: 0x80000080800000008507, follows: 0x220, empty: false, weight: 7, rank: 0, least: 1, lead: 0x4, bars: 0x0 },
    // outs
    Part { begins: 0x1, follows: 0x40000010, empty: false, weight: 2, rank: 1, least: 0, lead: 0x1, bars: 0x0 },
    // more_out
    Part { begins: 0x20, follows: 0x40000030, empty: false, weight: 1, rank: 1, least: 0, lead: 0x20, bars: 0x0 },
    // out
    Part { begins: 0x1, follows: 0x40000030, empty: false, weight: 1, rank: 0, least: 0, lead: 0x1, bars: 0x0 },
    // values
    Part { begins: 0x100, follows: 0x40000030, empty: false, weight: 1, rank: 4, least: 0, lead: 0x100, bars: 0x0 },
    // exprs
    Part { begins: 0x80000080800000008503, follows: 0x200, empty: false, weight: 7, rank: 3, least: 0, lead: 0x1, bars: 0x0 },
    // more_expr
    Part { begins: 0x20, follows: 0x220, empty: false, weight: 1, rank: 3, least: 0, lead: 0x20, bars: 0x0 },
    // question
    Part { begins: 0x80000080800004008507, follows: 0x40000010, empty: false, weight: 7, rank: 0, least: 1, lead: 0x4000000, bars: 0x0 },
    // answers
    Part { begins: 0x80000000800000fc8003, follows: 0x200, empty: false, weight: 4, rank: 2, least: 0, lead: 0x8000, bars: 0x0 },
    // more_answer
    Part { begins: 0x20, follows: 0x220, empty: false, weight: 1, rank: 2, least: 0, lead: 0x20, bars: 0x0 },
    // answer
    Part { begins: 0x80000000800000fc8003, follows: 0x220, empty: false, weight: 2, rank: 1, least: 0, lead: 0x8000, bars: 0x0 },
    // upto
    Part { begins: 0x40, follows: 0x220, empty: false, weight: 1, rank: 1, least: 0, lead: 0x40, bars: 0x0 },
    // constant
    Part { begins: 0x80000000800000008003, follows: 0x260, empty: false, weight: 1, rank: 0, least: 0, lead: 0x8000, bars: 0x0 },
    // label
    Part { begins: 0x1, follows: 0x9020450000410000000, empty: false, weight: 1, rank: 0, least: 0, lead: 0x1, bars: 0x0 },
    // terminator
    Part { begins: 0x1020050000000000000, follows: 0x40000010, empty: false, weight: 1, rank: 0, least: 1, lead: 0x10000000000000, bars: 0x0 },
    // target
    Part { begins: 0x8001, follows: 0x40000010, empty: false, weight: 1, rank: 0, least: 0, lead: 0x8000, bars: 0x0 },
    // star
    Part { begins: 0x10000, follows: 0x40000010, empty: false, weight: 1, rank: 0, least: 0, lead: 0x10000, bars: 0x0 },
    // via
    Part { begins: 0x200000000000000000000, follows: 0x40000010, empty: false, weight: 1, rank: 0, least: 0, lead: 0x200000000000000000000, bars: 0x0 },
    // result
    Part { begins: 0x80000080800000008503, follows: 0x40000010, empty: false, weight: 7, rank: 3, least: 0, lead: 0x1, bars: 0x0 },
    // transition
    Part { begins: 0x9020450000410000001, follows: 0x20c850080fcb80000100, empty: true, weight: 6, rank: 0, least: 0, lead: 0x0, bars: 0x9020450000410000001 },
    // step
    Part { begins: 0x9020450000410000001, follows: 0x29ca54580fcf90000101, empty: false, weight: 3, rank: 2, least: 0, lead: 0x1, bars: 0x9020450000410000001 },
    // unlabelled
    Part { begins: 0x9020450000410000000, follows: 0x29ca54580fcf90000101, empty: false, weight: 2, rank: 1, least: 1, lead: 0x10000000000000, bars: 0x9020450000410000001 },
    // no_step
    Part { begins: 0x0, follows: 0x29ca54580fcf90000101, empty: true, weight: 10, rank: 0, least: 0, lead: 0x0, bars: 0x9020450000410000001 },
    // action
    Part { begins: 0x8000400000410000000, follows: 0x40000010, empty: false, weight: 1, rank: 1, least: 0, lead: 0x8000000000000000000, bars: 0x0 },
    // task
    Part { begins: 0x5, follows: 0x40000010, empty: false, weight: 5, rank: 0, least: 0, lead: 0x4, bars: 0x0 },
    // decision
    Part { begins: 0x80000080800004008507, follows: 0x40000010, empty: false, weight: 8, rank: 1, least: 0, lead: 0x4000000, bars: 0x0 },
    // branch
    Part { begins: 0x100, follows: 0x8800000100, empty: false, weight: 1, rank: 3, least: 0, lead: 0x100, bars: 0x9020450000410000001 },
    // otherwise
    Part { begins: 0x800000000, follows: 0x8000000000, empty: false, weight: 1, rank: 1, least: 0, lead: 0x800000000, bars: 0x9020450000410000001 },
    // connection
    Part { begins: 0x100000000, follows: 0x20c010000b0300000000, empty: false, weight: 1, rank: 1, least: 0, lead: 0x100000000, bars: 0x0 },
    // procedure
    Part { begins: 0x1000000000000000, follows: 0x120d010001a0328000000, empty: false, weight: 1, rank: 2, least: 0, lead: 0x1000000000000000, bars: 0x0 },
    // procedure_body
    Part { begins: 0x400000400200000000, follows: 0x120d010001a0328000000, empty: false, weight: 4, rank: 1, least: 0, lead: 0x400000000000, bars: 0x0 },
    // start
    Part { begins: 0x400000000000000000, follows: 0x20c010000a0300000000, empty: false, weight: 1, rank: 1, least: 0, lead: 0x400000000000000000, bars: 0x9020450000410000001 },
    // name_list
    Part { begins: 0x100, follows: 0x40000030, empty: false, weight: 1, rank: 1, least: 0, lead: 0x100, bars: 0x0 },
    // state_part
    Part { begins: 0x84008000080000000, follows: 0x84008040080000000, empty: false, weight: 1, rank: 1, least: 2, lead: 0x80000000, bars: 0x9024450000410000001 },
    // inputs
    Part { begins: 0x1, follows: 0x40000010, empty: false, weight: 2, rank: 1, least: 0, lead: 0x1, bars: 0x0 },
    // more_input
    Part { begins: 0x20, follows: 0x40000030, empty: false, weight: 1, rank: 1, least: 0, lead: 0x20, bars: 0x0 },
    // input
    Part { begins: 0x1, follows: 0x40000030, empty: false, weight: 1, rank: 0, least: 0, lead: 0x1, bars: 0x0 },
    // enabling
    Part { begins: 0x4000000000000000, follows: 0x90a4458040490000001, empty: true, weight: 2, rank: 0, least: 1, lead: 0x0, bars: 0x4000000000000000 },
    // priority
    Part { begins: 0x800000000000000, follows: 0x90a4458040490000001, empty: false, weight: 1, rank: 1, least: 0, lead: 0x800000000000000, bars: 0x0 },
    // points
    Part { begins: 0x204000000000000, follows: 0x20c01204080300000000, empty: false, weight: 2, rank: 1, least: 0, lead: 0x4000000000000, bars: 0x0 },
    // direction
    Part { begins: 0x204000000000000, follows: 0x100, empty: false, weight: 1, rank: 0, least: 0, lead: 0x4000000000000, bars: 0x0 },
    // inner
    Part { begins: 0x20c01000000300000000, follows: 0x20c010000a0300000000, empty: false, weight: 2, rank: 2, least: 1, lead: 0x20000000000000000000, bars: 0x9020450000410000001 },
    // state
    Part { begins: 0x1010001, follows: 0x20c010000a0300000000, empty: false, weight: 1, rank: 3, least: 1, lead: 0x10000, bars: 0x0 },
    // after_state_name
    Part { begins: 0x40000030, follows: 0x20c010000a0300000000, empty: false, weight: 5, rank: 3, least: 0, lead: 0x20, bars: 0x0 },
    // after_one_state
    Part { begins: 0x2084008040080000000, follows: 0x20c010000a0300000000, empty: false, weight: 5, rank: 3, least: 0, lead: 0x2000000000000000000, bars: 0x0 },
    // state_body
    Part { begins: 0x84008040080000000, follows: 0x20c010000a0300000000, empty: false, weight: 4, rank: 2, least: 0, lead: 0x40000000000, bars: 0x0 },
    // composite_body
    Part { begins: 0x2000000000000000000, follows: 0x20c010000a0300000000, empty: false, weight: 1, rank: 2, least: 0, lead: 0x2000000000000000000, bars: 0x0 },
    // aggregation_body
    Part { begins: 0x2000000000000000000, follows: 0x20c010000a0300000000, empty: false, weight: 1, rank: 3, least: 0, lead: 0x2000000000000000000, bars: 0x0 },
    // plain
    Part { begins: 0x20001000000200000000, follows: 0x20801000080200000000, empty: false, weight: 2, rank: 2, least: 1, lead: 0x20000000000000000000, bars: 0x0 },
    // header
    Part { begins: 0x800000000000000000, follows: 0x2000000040000000000, empty: false, weight: 1, rank: 1, least: 0, lead: 0x800000000000000000, bars: 0x0 },
    // again
    Part { begins: 0x40000000000, follows: 0x2000000040000000000, empty: false, weight: 2, rank: 3, least: 0, lead: 0x40000000000, bars: 0x0 },
    // empty_state
    Part { begins: 0x40000000000, follows: 0x20801000080200000000, empty: false, weight: 1, rank: 2, least: 0, lead: 0x40000000000, bars: 0x0 },
    // partition
    Part { begins: 0x20801000000200000000, follows: 0x20801000080200000000, empty: false, weight: 3, rank: 3, least: 0, lead: 0x20000000000000000000, bars: 0x0 },
    // one_state
    Part { begins: 0x2000000040000000000, follows: 0x20801000080200000000, empty: false, weight: 2, rank: 3, least: 0, lead: 0x2000000000000000000, bars: 0x0 },
    // unit
    Part { begins: 0x104002000000000000000, follows: 0x104002000000000000008, empty: false, weight: 2, rank: 2, least: 0, lead: 0x100000000000000000000, bars: 0x0 },
    // use
    Part { begins: 0x100000000000000000000, follows: 0x104103000100028000008, empty: false, weight: 1, rank: 1, least: 0, lead: 0x100000000000000000000, bars: 0x0 },
    // system
    Part { begins: 0x4000000000000000000, follows: 0x104002000000000000008, empty: false, weight: 1, rank: 2, least: 0, lead: 0x4000000000000000000, bars: 0x0 },
    // system_part
    Part { begins: 0x100101000000028000000, follows: 0x100101000100028000000, empty: false, weight: 2, rank: 2, least: 0, lead: 0x100000000000000000000, bars: 0x0 },
    // signal
    Part { begins: 0x100000000000000000, follows: 0x1003030001010a8000000, empty: false, weight: 1, rank: 2, least: 0, lead: 0x100000000000000000, bars: 0x0 },
    // sigs
    Part { begins: 0x1, follows: 0x40000010, empty: false, weight: 2, rank: 1, least: 0, lead: 0x1, bars: 0x0 },
    // more_sig
    Part { begins: 0x20, follows: 0x40000030, empty: false, weight: 1, rank: 1, least: 0, lead: 0x20, bars: 0x0 },
    // sig
    Part { begins: 0x1, follows: 0x40000030, empty: false, weight: 1, rank: 0, least: 0, lead: 0x1, bars: 0x0 },
    // sorts
    Part { begins: 0x100, follows: 0x40000030, empty: false, weight: 1, rank: 2, least: 0, lead: 0x100, bars: 0x0 },
    // hnames
    Part { begins: 0x1, follows: 0x200, empty: false, weight: 2, rank: 1, least: 0, lead: 0x1, bars: 0x0 },
    // more_hname
    Part { begins: 0x20, follows: 0x220, empty: false, weight: 1, rank: 1, least: 0, lead: 0x20, bars: 0x0 },
    // channel
    Part { begins: 0x20000000, follows: 0x100101000100028000000, empty: false, weight: 1, rank: 2, least: 0, lead: 0x20000000, bars: 0x0 },
    // path
    Part { begins: 0x2000000000000, follows: 0x302002003080000000, empty: false, weight: 1, rank: 1, least: 0, lead: 0x2000000000000, bars: 0x0 },
    // point
    Part { begins: 0x200000000001, follows: 0x440000000000000000000, empty: false, weight: 1, rank: 0, least: 0, lead: 0x200000000000, bars: 0x0 },
    // block
    Part { begins: 0x8000000, follows: 0x100101000100028000000, empty: false, weight: 1, rank: 2, least: 0, lead: 0x8000000, bars: 0x0 },
    // block_part
    Part { begins: 0x302000000080000000, follows: 0x302000001080000000, empty: false, weight: 2, rank: 2, least: 2, lead: 0x80000000, bars: 0x0 },
    // route
    Part { begins: 0x200000000000000000, follows: 0x302000001080000000, empty: false, weight: 1, rank: 2, least: 0, lead: 0x200000000000000000, bars: 0x0 },
    // link
    Part { begins: 0x80000000, follows: 0x302000001080000000, empty: false, weight: 1, rank: 1, least: 0, lead: 0x80000000, bars: 0x0 },
    // count
    Part { begins: 0x100, follows: 0x8000000040000010, empty: false, weight: 1, rank: 0, least: 0, lead: 0x100, bars: 0x0 },
    // process_or_reference
    Part { begins: 0x8000000040000010, follows: 0x302000001080000000, empty: false, weight: 6, rank: 1, least: 0, lead: 0x8000000000000000, bars: 0x0 },
    // process
    Part { begins: 0x2000000000000000, follows: 0x104002000000000000008, empty: false, weight: 1, rank: 3, least: 0, lead: 0x2000000000000000, bars: 0x0 },
    // process_body
    Part { begins: 0x40000010, follows: 0x104302000001080000008, empty: false, weight: 5, rank: 2, least: 0, lead: 0x10, bars: 0x0 },
];

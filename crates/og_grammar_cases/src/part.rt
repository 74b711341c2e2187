//! The parts of the grammar.
pub const UNIT: u8 = 0;

pub const END: u8 = 1;

pub const COMMENT: u8 = 2;

pub const SIGNAL: u8 = 3;

pub const MORE_SIG: u8 = 4;

pub const SIG: u8 = 5;

pub const PARAMS: u8 = 6;

pub const MORE_NAME: u8 = 7;

pub const DCL: u8 = 8;

pub const MORE_ITEM: u8 = 9;

pub const ITEM: u8 = 10;

pub const HNAME: u8 = 11;

pub const HYPHENED: u8 = 12;

pub const INITIAL: u8 = 13;

pub const STATE: u8 = 14;

pub const OWN_NAME: u8 = 15;

pub const APART: u8 = 16;

pub const ENABLING: u8 = 17;

pub const STEP: u8 = 18;

pub const LABEL: u8 = 19;

pub const STEP_BODY: u8 = 20;

pub const NO_STEP: u8 = 21;

pub const TARGET: u8 = 22;

pub const ASSIGN: u8 = 23;

pub const LVALUE: u8 = 24;

pub const MORE_ASSIGN: u8 = 25;

pub const OUT: u8 = 26;

pub const MORE_OUT: u8 = 27;

pub const ARGS: u8 = 28;

pub const MORE_EXPR: u8 = 29;

pub const DECISION: u8 = 30;

pub const BRANCH: u8 = 31;

pub const OTHERWISE: u8 = 32;

pub const ANSWERS: u8 = 33;

pub const MORE_ANSWER: u8 = 34;

pub const ANSWER: u8 = 35;

pub const UPTO: u8 = 36;

pub const CONSTANT: u8 = 37;

pub const RELOP: u8 = 38;

pub const EXPR: u8 = 39;

pub const AFTER_NAME: u8 = 40;

pub const TAILS: u8 = 41;

pub const FACTOR: u8 = 42;

pub const MULOP: u8 = 43;

pub const TERM: u8 = 44;

pub const ADDOP: u8 = 45;

pub const PRODUCT: u8 = 46;

pub const COMPARISON: u8 = 47;

pub const SUM: u8 = 48;

pub const CONJUNCT: u8 = 49;

pub const THEN: u8 = 50;

pub const RELATION: u8 = 51;

pub const DISJUNCT: u8 = 52;

pub const OROP: u8 = 53;

pub const ELSE: u8 = 54;

pub const CONJUNCTION: u8 = 55;

pub const OPERAND: u8 = 56;

pub const FIRST_OPERAND: u8 = 57;

pub const BRACKETED: u8 = 58;

pub const SELECTOR: u8 = 59;

pub const INDEX: u8 = 60;

pub const FIELD: u8 = 61;

pub const BRACES: u8 = 62;

pub const INSIDE: u8 = 63;

pub const AFTER_ITEM_NAME: u8 = 64;

pub const MORE_COMPONENT: u8 = 65;

pub const COMPONENT: u8 = 66;

pub const COMPONENT_VALUE: u8 = 67;

pub const FIRST_VALUE: u8 = 68;

pub const MORE_ITEM_EXPR: u8 = 69;

pub const ITEM_EXPR: u8 = 70;

pub const AFTER_LISTED_NAME: u8 = 71;

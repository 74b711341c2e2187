//! The parts of the grammar of expressions (Z.101 clause 12).

pub const WHOLE: u8 = 0;

pub const EXPR: u8 = 1;

pub const AFTER_NAME: u8 = 2;

pub const TAILS: u8 = 3;

pub const FACTOR: u8 = 4;

pub const PRODUCT_OPERATOR: u8 = 5;

pub const TERM: u8 = 6;

pub const SUM_OPERATOR: u8 = 7;

pub const PRODUCT: u8 = 8;

pub const COMPARISON: u8 = 9;

pub const RELATION_OPERATOR: u8 = 10;

pub const SUM: u8 = 11;

pub const CONJUNCT: u8 = 12;

pub const AND_OPERATOR: u8 = 13;

pub const THEN: u8 = 14;

pub const RELATION: u8 = 15;

pub const DISJUNCT: u8 = 16;

pub const OR_OPERATOR: u8 = 17;

pub const ELSE: u8 = 18;

pub const CONJUNCTION: u8 = 19;

pub const OPERAND: u8 = 20;

pub const FIRST_OPERAND: u8 = 21;

pub const BRACKETED: u8 = 22;

pub const SELECTOR: u8 = 23;

pub const INDEX: u8 = 24;

pub const FIELD: u8 = 25;

pub const BRACES: u8 = 26;

pub const INSIDE: u8 = 27;

pub const AFTER_FIRST_NAME: u8 = 28;

pub const LISTED_REST: u8 = 29;

pub const LEADING: u8 = 30;

pub const MORE_ITEM: u8 = 31;

pub const ITEM: u8 = 32;

pub const COMPONENT_VALUE: u8 = 33;

pub const FIRST_VALUE: u8 = 34;

pub const MORE_COMPONENT: u8 = 35;

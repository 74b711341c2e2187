//! The parts of the grammar of SDL/PR (Z.106).

pub const FILE: u8 = 0;

pub const EXPR: u8 = 1;

pub const AFTER_NAME: u8 = 2;

pub const TAILS: u8 = 3;

pub const FACTOR: u8 = 4;

pub const PRODUCT_OPERATOR: u8 = 5;

pub const TERM: u8 = 6;

pub const SUM_OPERATOR: u8 = 7;

pub const PRODUCT: u8 = 8;

pub const COMPARISON: u8 = 9;

pub const RELATION_OPERATOR: u8 = 10;

pub const SUM: u8 = 11;

pub const CONJUNCT: u8 = 12;

pub const AND_OPERATOR: u8 = 13;

pub const THEN: u8 = 14;

pub const RELATION: u8 = 15;

pub const DISJUNCT: u8 = 16;

pub const OR_OPERATOR: u8 = 17;

pub const ELSE: u8 = 18;

pub const CONJUNCTION: u8 = 19;

pub const OPERAND: u8 = 20;

pub const FIRST_OPERAND: u8 = 21;

pub const BRACKETED: u8 = 22;

pub const SELECTOR: u8 = 23;

pub const INDEX: u8 = 24;

pub const FIELD: u8 = 25;

pub const BRACES: u8 = 26;

pub const INSIDE: u8 = 27;

pub const AFTER_FIRST_NAME: u8 = 28;

pub const LISTED_REST: u8 = 29;

pub const LEADING: u8 = 30;

pub const MORE_ITEM: u8 = 31;

pub const ITEM: u8 = 32;

pub const COMPONENT_VALUE: u8 = 33;

pub const FIRST_VALUE: u8 = 34;

pub const MORE_COMPONENT: u8 = 35;

pub const HNAME: u8 = 36;

pub const HYPHENED: u8 = 37;

pub const END: u8 = 38;

pub const COMMENT: u8 = 39;

pub const NAMES: u8 = 40;

pub const MORE_NAME: u8 = 41;

pub const OWN_NAME: u8 = 42;

pub const CLOSING: u8 = 43;

pub const DCL: u8 = 44;

pub const DECLARATIONS: u8 = 45;

pub const MORE_DECLARED: u8 = 46;

pub const DECLARED: u8 = 47;

pub const INITIAL: u8 = 48;

pub const TIMER: u8 = 49;

pub const FPAR: u8 = 50;

pub const FORMALS: u8 = 51;

pub const MORE_FORMAL: u8 = 52;

pub const FORMAL: u8 = 53;

pub const MODE: u8 = 54;

pub const AND_OUT: u8 = 55;

pub const RETURNS: u8 = 56;

pub const VAR: u8 = 57;

pub const ASSIGNS: u8 = 58;

pub const MORE_ASSIGN: u8 = 59;

pub const ASSIGN: u8 = 60;

pub const ASSIGNED: u8 = 61;

pub const CALLED: u8 = 62;

pub const ARGS: u8 = 63;

pub const ARGUMENTS: u8 = 64;

pub const MORE_ARGUMENT: u8 = 65;

pub const ARGUMENT: u8 = 66;

pub const OUTS: u8 = 67;

pub const MORE_OUT: u8 = 68;

pub const OUT: u8 = 69;

pub const VALUES: u8 = 70;

pub const EXPRS: u8 = 71;

pub const MORE_EXPR: u8 = 72;

pub const QUESTION: u8 = 73;

pub const ANSWERS: u8 = 74;

pub const MORE_ANSWER: u8 = 75;

pub const ANSWER: u8 = 76;

pub const UPTO: u8 = 77;

pub const CONSTANT: u8 = 78;

pub const LABEL: u8 = 79;

pub const TERMINATOR: u8 = 80;

pub const TARGET: u8 = 81;

pub const STAR: u8 = 82;

pub const VIA: u8 = 83;

pub const RESULT: u8 = 84;

pub const TRANSITION: u8 = 85;

pub const STEP: u8 = 86;

pub const UNLABELLED: u8 = 87;

pub const NO_STEP: u8 = 88;

pub const ACTION: u8 = 89;

pub const TASK: u8 = 90;

pub const DECISION: u8 = 91;

pub const BRANCH: u8 = 92;

pub const OTHERWISE: u8 = 93;

pub const CONNECTION: u8 = 94;

pub const PROCEDURE: u8 = 95;

pub const PROCEDURE_BODY: u8 = 96;

pub const START: u8 = 97;

pub const NAME_LIST: u8 = 98;

pub const STATE_PART: u8 = 99;

pub const INPUTS: u8 = 100;

pub const MORE_INPUT: u8 = 101;

pub const INPUT: u8 = 102;

pub const ENABLING: u8 = 103;

pub const PRIORITY: u8 = 104;

pub const POINTS: u8 = 105;

pub const DIRECTION: u8 = 106;

pub const INNER: u8 = 107;

pub const STATE: u8 = 108;

pub const AFTER_STATE_NAME: u8 = 109;

pub const AFTER_ONE_STATE: u8 = 110;

pub const STATE_BODY: u8 = 111;

pub const COMPOSITE_BODY: u8 = 112;

pub const AGGREGATION_BODY: u8 = 113;

pub const PLAIN: u8 = 114;

pub const HEADER: u8 = 115;

pub const AGAIN: u8 = 116;

pub const EMPTY_STATE: u8 = 117;

pub const PARTITION: u8 = 118;

pub const ONE_STATE: u8 = 119;

pub const UNIT: u8 = 120;

pub const USE: u8 = 121;

pub const SYSTEM: u8 = 122;

pub const SYSTEM_PART: u8 = 123;

pub const SIGNAL: u8 = 124;

pub const SIGS: u8 = 125;

pub const MORE_SIG: u8 = 126;

pub const SIG: u8 = 127;

pub const SORTS: u8 = 128;

pub const HNAMES: u8 = 129;

pub const MORE_HNAME: u8 = 130;

pub const CHANNEL: u8 = 131;

pub const PATH: u8 = 132;

pub const POINT: u8 = 133;

pub const BLOCK: u8 = 134;

pub const BLOCK_PART: u8 = 135;

pub const ROUTE: u8 = 136;

pub const LINK: u8 = 137;

pub const COUNT: u8 = 138;

pub const PROCESS_OR_REFERENCE: u8 = 139;

pub const PROCESS: u8 = 140;

pub const PROCESS_BODY: u8 = 141;

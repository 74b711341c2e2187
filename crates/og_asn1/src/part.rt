//! The parts of the grammar.
pub const FILE: u8 = 0;

pub const MODULE: u8 = 1;

pub const TAGGING: u8 = 2;

pub const EXPORTS: u8 = 3;

pub const IMPORTS: u8 = 4;

pub const IMPORT: u8 = 5;

pub const MORE_SYMBOLS: u8 = 6;

pub const SYMBOL: u8 = 7;

pub const ASSIGNMENT: u8 = 8;

pub const TYPE: u8 = 9;

pub const TAG: u8 = 10;

pub const TAG_MODE: u8 = 11;

pub const BASE: u8 = 12;

pub const AFTER_SEQUENCE: u8 = 13;

pub const AFTER_SET: u8 = 14;

pub const SIZE: u8 = 15;

pub const ROUND: u8 = 16;

pub const BRACED: u8 = 17;

pub const ENUM: u8 = 18;

pub const MORE_ENUMS: u8 = 19;

pub const ENUM_NUMBER: u8 = 20;

pub const SIGNED: u8 = 21;

pub const COMPS: u8 = 22;

pub const COMP: u8 = 23;

pub const MORE_COMPS: u8 = 24;

pub const PRESENCE: u8 = 25;

pub const VALUE: u8 = 26;

pub const FRACTION: u8 = 27;

pub const DIGITS: u8 = 28;

pub const CHOSEN: u8 = 29;

pub const ITEM: u8 = 30;

pub const EXPORTED: u8 = 31;

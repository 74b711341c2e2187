//! The parts of the grammar.
pub const FILE: u8 = 0;

pub const SIGNAL: u8 = 1;

pub const FURTHER: u8 = 2;

pub const START: u8 = 3;

pub const NEXT: u8 = 4;

pub const STATE: u8 = 5;

pub const INPUT: u8 = 6;

pub const OUTPUT: u8 = 7;

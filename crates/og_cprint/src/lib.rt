//! Prints a program of the C subset for people: one statement a line, four spaces of indentation, labels at the margin, and
//! no bracket beyond need.
#![tactic(auto)]

mod expression;
mod program;

pub use program::print_c;

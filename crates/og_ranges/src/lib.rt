//! Intervals of integer expressions: between which numbers a value lies, whatever the variables hold.
#![tactic(auto)]

pub mod examples;
pub mod laws;
mod operations;
mod ranges;
mod targets;

pub use operations::{add, div, modulo, mul, neg, rem, sub};
pub use ranges::range;
pub use targets::{Declared, sort_of_target};

/// The whole numbers from `lo` to `hi`, both of them among these.
#[derive(Clone, Copy, Debug, PartialEq, Eq)]
pub struct Interval {
    pub lo: i128,
    pub hi: i128,
}

//! States, composite states and state aggregations of SDL/PR (Z.102 clause 11): their trees from derivations.
#![tactic(auto)]

mod aggregation;
mod basic;
mod inner;
mod state;

pub use inner::{InnerReader, inner_of};

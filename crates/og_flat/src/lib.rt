//! Modules of ASN.1 (X.680) laid out flat: their types in one list, and what they declare.
#![tactic(auto)]

mod copy;
mod flat;
mod flatten;
mod limits;

pub use flat::{
    Bound, ConstantNode, ConstantValue, Enumerator, Flat, Limits, Node, PartNode, Range, TypeNode,
    Written,
};
pub use flatten::flat_of;

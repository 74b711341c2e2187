//! What types of ASN.1 come to (X.680): their bounds and lengths, whether they are supported, numbers of enumerators.
#![tactic(auto)]

pub mod examples;
mod forms;
mod known;
mod laws;
mod limits;
mod numbers;
mod ranges;
mod sames;
mod values;

pub use known::{Known, is_set};
pub use laws::types_are_a_table;
pub use limits::{Bounds, Lengths, Limited};
pub use numbers::enumerator_numbers;
pub use values::Valued;

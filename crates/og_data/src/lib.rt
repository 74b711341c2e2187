//! The data that modules of ASN.1 declare (X.680): their types in the order of their numbers, the types with names, the constants.
#![tactic(auto)]

mod constants;
mod numbers;
mod order;
mod read;
mod sorts;
mod view;

pub use read::read_modules;

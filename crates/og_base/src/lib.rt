//! Places and rules of model files, and the store and the sink through which `og` reaches the outside.
#![tactic(auto)]

mod conversions;
mod memory;
mod order;
mod read;
mod sink;
mod store;
mod write;

pub use memory::{MemFile, MemSink, MemStore, NeverFailSink, NeverFailStore};
use og_names::NoMemory;
pub use order::sooner;
pub use read::{ReadError, read_all};
pub use sink::Sink;
pub use store::{Failed, Store};
pub use write::write_all;

/// A place in a model file. `file` counts the model files from 0, `line` and `column` count from 1, columns in bytes.
/// Places are ordered by file, then line, then column.
#[derive(Clone, Copy, Debug, PartialEq, Eq, PartialOrd, Ord)]
pub struct Place {
    pub file: u32,
    pub line: u32,
    pub column: u32,
}

/// The rules that a model file can violate, in the order in which they are reported at one place.
#[derive(Clone, Copy, Debug, PartialEq, Eq, PartialOrd, Ord)]
pub enum Rule {
    L1,
    L2,
    L3,
    L4,
    S1,
    S2,
    F1,
    N1,
    N2,
    N3,
    N4,
    N5,
    N6,
    N7,
    T1,
    T2,
    T3,
    T4,
    T6,
    T7,
    G1,
    G2,
    G3,
    G4,
    G5,
    A1,
    A2,
    A3,
    A4,
    A5,
    A6,
    A7,
    A8,
    A9,
    A10,
    A11,
    A12,
    M1,
    M2,
    M3,
    M4,
}

/// A violated rule, with its place.
#[derive(Clone, Copy, Debug, PartialEq, Eq)]
pub struct Violation {
    pub rule: Rule,
    pub place: Place,
}

/// Why a call that checks a model gives no answer: a rule is violated, or memory could not be had.
#[derive(Clone, Copy, Debug, PartialEq, Eq)]
pub enum ModelError {
    Broken(Violation),
    NoMemory(NoMemory),
}

//! Types of data after ASN.1 (X.680), and the values of these types.
#![tactic(auto)]

mod copy;
pub mod examples;
mod first;
pub mod laws;
mod measures;
mod table;

use og_names::NameId;
use sqlite_items::{Boxed, Items};
pub use table::TypeTable;

/// The number of a type in its table, counted from 0.
#[derive(Clone, Copy, Debug, PartialEq, Eq)]
pub struct TypeId(pub u32);

/// A component of a sequence, or an alternative of a choice.
#[derive(Clone, Copy, Debug, PartialEq, Eq)]
pub struct Part {
    pub name: NameId,
    pub sort: TypeId,
}

/// What a type is. A type refers to types of smaller numbers only.
#[derive(Debug, Drop)]
pub enum Sort {
    /// The whole numbers from `lo` to `hi`.
    Int {
        lo: i64,
        hi: i64,
    },
    Bool,
    /// The names of the enumerators in the order of the text, and the number of each (X.680 section 20).
    Enumerated {
        names: Items<NameId>,
        numbers: Items<i64>,
    },
    Sequence {
        parts: Items<Part>,
    },
    Choice {
        parts: Items<Part>,
    },
    /// A sequence of `lo` to `hi` items of one type.
    SeqOf {
        lo: u32,
        hi: u32,
        item: TypeId,
    },
    /// A type that `og` reads and does not support.
    Opaque,
}

/// A value of a type.
#[derive(Debug, Drop)]
pub enum Value {
    Int(i64),
    Bool(bool),
    /// The place of the enumerator in the text, counted from 0.
    Enumerated(u32),
    /// One value for each part, in the order of the parts.
    Sequence(Items<Value>),
    /// The place of the alternative, counted from 0, and its value.
    Choice(u32, Boxed<Value>),
    SeqOf(Items<Value>),
}

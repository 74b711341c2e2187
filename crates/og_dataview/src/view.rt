//! The data that modules declare.
use og_base::Place;
use og_names::NameId;
use og_types::{TypeId, TypeTable};
use sqlite_items::Items;

/// A type with a name.
#[derive(Clone, Copy, Debug, PartialEq, Eq)]
pub struct NamedType {
    pub name: NameId,
    pub sort: TypeId,
    pub place: Place,
}

/// A constant, with its number where it has one.
#[derive(Clone, Copy, Debug, PartialEq, Eq)]
pub struct Constant {
    pub name: NameId,
    pub value: Option<i64>,
    pub place: Place,
}

/// The types and constants of all modules of all files together.
#[derive(Drop)]
pub struct DataView {
    pub types: TypeTable,
    pub named: Items<NamedType>,
    pub constants: Items<Constant>,
}

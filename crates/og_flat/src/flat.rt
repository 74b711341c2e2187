//! Modules laid out flat: the types of all modules in one list, where a type names the types in it by their numbers there.
use og_asn1::Name;
use sqlite_items::Items;

/// An end of a range: a number as it is written, or a constant.
#[derive(Drop)]
pub enum Bound {
    Number { is_negative: bool, digits: u64 },
    Named { name: Name },
}

/// Two ends, which are one where one is written.
#[derive(Drop)]
pub struct Range {
    pub lo: Bound,
    pub hi: Bound,
}

/// What stands in brackets behind a type.
#[derive(Drop)]
pub enum Limits {
    /// There are no brackets.
    Absent,
    /// `(a)` or `(a .. b)`
    Range { range: Range },
    /// `SIZE (a)` or `SIZE (a .. b)`
    Size { range: Range },
    Other,
}

/// An enumerator, with its number where that is written.
#[derive(Drop)]
pub struct Enumerator {
    pub name: Name,
    pub number: Option<Written>,
}

/// A number as it is written.
#[derive(Clone, Copy, Debug, PartialEq, Eq)]
pub struct Written {
    pub is_negative: bool,
    pub digits: u64,
}

/// A part of a choice or of a sequence: its name, the number of its type, and its default value where that is a name.
#[derive(Drop)]
pub struct PartNode {
    pub name: Name,
    pub node: u32,
    pub default: Option<Name>,
}

/// A type.
#[derive(Drop)]
pub enum Node {
    Integer {
        limits: Limits,
    },
    Boolean,
    Reference {
        name: Name,
        limits: Limits,
    },
    /// `is_open` where the mark `...` stands among the enumerators.
    Enumerated {
        items: Items<Enumerator>,
        is_open: bool,
    },
    /// `is_plain` where there is neither the mark `...` nor OPTIONAL nor DEFAULT.
    Choice {
        parts: Items<PartNode>,
        is_plain: bool,
    },
    Sequence {
        parts: Items<PartNode>,
        is_plain: bool,
    },
    SequenceOf {
        limits: Limits,
        item: u32,
    },
    /// Any other type.
    Other {
        limits: Limits,
    },
}

/// A type that a module declares.
#[derive(Drop)]
pub struct TypeNode {
    pub name: Name,
    pub node: u32,
}

/// A constant that a module declares: its name, the number of its type, and its value.
#[derive(Drop)]
pub struct ConstantNode {
    pub name: Name,
    pub node: u32,
    pub value: ConstantValue,
}

/// The value of a constant.
#[derive(Drop)]
pub enum ConstantValue {
    Number { number: Written },
    Named { name: Name },
    Other,
}

/// What modules declare, in the order of the text. A type stands in the list behind the types in it.
#[derive(Drop)]
pub struct Flat {
    pub nodes: Items<Node>,
    pub types: Items<TypeNode>,
    pub constants: Items<ConstantNode>,
}

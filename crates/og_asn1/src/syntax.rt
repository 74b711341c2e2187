//! The trees of modules (X.680 clause 13): a struct or an enum for each production. The place of a tree is that of its first
//! token, which is its name where it begins with one.
ghost use Rattle.std.specs.Prelude.{IsTrue};
ghost use Rattle.og_lexer.specs.AsnPieces.{is_asn_name};

use og_base::Place;
use og_lexer::Spanned;
use og_names::Word;
use sqlite_items::{Boxed, Items};

/// A name as it is written: a letter, and then letters, digits and single hyphens, at most 64 bytes in all.
#[derive(Drop)]
pub struct Name {
    pub place: Place,
    pub word: Word,
    pub ghost spelling: { IsTrue (is_asn_name word.bytes) },
}

/// Tokens between two brackets, in which brackets pair. Its place is that of the opening one.
#[derive(Drop)]
pub struct RunTree {
    pub place: Place,
    pub tokens: Items<Spanned>,
}

/// A module.
#[derive(Drop)]
pub struct ModuleTree {
    pub name: Name,
    pub object: Option<RunTree>,
    pub tagging: Option<TaggingTree>,
    pub exports: Option<ExportsTree>,
    pub imports: Option<ImportsTree>,
    pub assignments: Items<AssignmentTree>,
}

/// How the types of a module are tagged. It changes nothing.
#[derive(Clone, Copy, Debug, PartialEq, Eq)]
pub struct TaggingTree {
    pub place: Place,
    pub tagging: Tagging,
}

/// The words before TAGS.
#[derive(Clone, Copy, Debug, PartialEq, Eq)]
pub enum Tagging {
    Automatic,
    Explicit,
    Implicit,
}

/// EXPORTS with the tokens up to its semicolon.
#[derive(Drop)]
pub struct ExportsTree {
    pub place: Place,
    pub tokens: Items<Spanned>,
}

/// IMPORTS.
#[derive(Drop)]
pub struct ImportsTree {
    pub place: Place,
    pub imports: Items<ImportTree>,
}

/// The symbols, one at least, that are imported of one module.
#[derive(Drop)]
pub struct ImportTree {
    pub symbols: Items<SymbolTree>,
    pub module: Name,
    pub object: Option<RunTree>,
}

/// A name that is imported: of a type, or of a value.
#[derive(Drop)]
pub enum SymbolTree {
    Type(Name),
    Value(Name),
}

/// A type or a constant that a module declares.
#[derive(Drop)]
pub enum AssignmentTree {
    Type {
        name: Name,
        is: TypeTree,
    },
    Value {
        name: Name,
        of: TypeTree,
        is: ValueTree,
    },
}

/// A type.
#[cycle(types)]
#[derive(Drop)]
pub struct TypeTree {
    pub place: Place,
    pub tag: Option<TagTree>,
    pub base: BaseTree,
}

/// A tag, which changes nothing.
#[derive(Drop)]
pub struct TagTree {
    pub run: RunTree,
    pub mode: Option<TagMode>,
}

/// The word behind a tag.
#[derive(Clone, Copy, Debug, PartialEq, Eq)]
pub enum TagMode {
    Implicit,
    Explicit,
}

/// A type without its tag.
#[cycle(types)]
#[derive(Drop)]
pub enum BaseTree {
    Integer {
        names: Option<RunTree>,
        limits: Option<RunTree>,
    },
    Boolean,
    /// A type by its name.
    Reference {
        name: Name,
        limits: Option<RunTree>,
    },
    /// One item at least.
    Enumerated {
        items: Items<EnumTree>,
    },
    /// One part at least.
    Choice {
        comps: Items<CompTree>,
    },
    Sequence {
        comps: Items<CompTree>,
    },
    Set {
        run: RunTree,
    },
    SequenceOf {
        of: OfTree,
    },
    SetOf {
        of: OfTree,
    },
    Real {
        limits: Option<RunTree>,
    },
    Null,
    OctetString {
        limits: Option<RunTree>,
    },
    ObjectIdentifier,
    BitString {
        names: Option<RunTree>,
        limits: Option<RunTree>,
    },
}

/// What stands behind SEQUENCE or SET where it holds items of one type.
#[cycle(types)]
#[derive(Drop)]
pub struct OfTree {
    pub size: Option<SizeTree>,
    pub item: Boxed<TypeTree>,
}

/// What stands before OF: a bracket, or SIZE with a bracket.
#[derive(Drop)]
pub enum SizeTree {
    Bracket { run: RunTree },
    Size { place: Place, run: RunTree },
}

/// An enumerator, or the mark `...`.
#[derive(Drop)]
pub enum EnumTree {
    Item {
        name: Name,
        number: Option<SignedTree>,
    },
    Extension {
        place: Place,
    },
}

/// A number with or without a sign.
#[derive(Clone, Copy, Debug, PartialEq, Eq)]
pub struct SignedTree {
    pub place: Place,
    pub is_negative: bool,
    pub digits: u64,
}

/// A part of a choice or a sequence, or the mark `...`.
#[cycle(types)]
#[derive(Drop)]
pub enum CompTree {
    Part {
        name: Name,
        of: TypeTree,
        presence: Option<PresenceTree>,
    },
    Extension {
        place: Place,
    },
}

/// OPTIONAL, or DEFAULT with a value.
#[derive(Drop)]
pub enum PresenceTree {
    Optional { place: Place },
    Default { place: Place, value: ValueTree },
}

/// A value.
#[cycle(values)]
#[derive(Drop)]
pub struct ValueTree {
    pub place: Place,
    pub node: ValueNode,
}

/// What a value is made of.
#[cycle(values)]
#[derive(Drop)]
pub enum ValueNode {
    Number {
        is_negative: bool,
        digits: u64,
        fraction: Option<FractionTree>,
    },
    Text {
        text: Word,
    },
    Truth {
        value: bool,
    },
    Null,
    /// A constant, or an alternative with its value.
    Named {
        name: Name,
        value: Option<Boxed<ValueTree>>,
    },
    Braces {
        run: RunTree,
    },
}

/// A full stop, and digits behind it or none.
#[derive(Clone, Copy, Debug, PartialEq, Eq)]
pub struct FractionTree {
    pub place: Place,
    pub digits: Option<u64>,
}

//! Expressions and variables (Z.101 clause 12).
use crate::Name;
use og_base::Place;
use og_lexer::Keyword;
use sqlite_items::{Boxed, Items};

/// `expr`. Its place is that of its operator, sign or NOT where it has one. `first` is the place of its first token.
#[cycle(expression)]
#[derive(Drop)]
pub struct ExprTree {
    pub place: Place,
    pub first: Place,
    pub node: ExprNode,
}

/// What an expression is made of.
#[cycle(expression)]
#[derive(Drop)]
pub enum ExprNode {
    Number(u64),
    /// TRUE or FALSE.
    Truth(bool),
    Variable(VarTree),
    /// `"(" expr ")"`
    Bracketed(Boxed<ExprTree>),
    /// `"-" unary`
    Minus(Boxed<ExprTree>),
    /// `NOT unary`
    Not(Boxed<ExprTree>),
    Binary(Operator, Boxed<ExprTree>, Boxed<ExprTree>),
    /// `name ":" expr`, a value of a choice.
    Choice(Name, Boxed<ExprTree>),
    /// `"{" "}"` or `"{" expr { "," expr } "}"`
    Sequence(Items<ExprTree>),
    /// `"{" name expr { "," name expr } "}"`
    Components(Items<ComponentTree>),
}

/// An operator between two operands.
#[derive(Clone, Copy, Debug, PartialEq, Eq)]
pub enum Operator {
    Or,
    OrElse,
    Xor,
    And,
    AndThen,
    Relation(RelationOperator),
    Add,
    Subtract,
    Multiply,
    Divide,
    Mod,
    Rem,
}

/// `relop`
#[derive(Clone, Copy, Debug, PartialEq, Eq)]
pub enum RelationOperator {
    Equal,
    NotEqual,
    Less,
    LessOrEqual,
    Greater,
    GreaterOrEqual,
}

/// `name expr`, a component of a structured value.
#[cycle(expression)]
#[derive(Drop)]
pub struct ComponentTree {
    pub name: Name,
    pub value: ExprTree,
}

/// `var`, a name with selectors behind it.
#[cycle(expression)]
#[derive(Drop)]
pub struct VarTree {
    pub name: Name,
    pub selectors: Items<SelectorTree>,
}

/// A selector. Its place is that of its mark.
#[cycle(expression)]
#[derive(Drop)]
pub struct SelectorTree {
    pub place: Place,
    pub kind: SelectorKind,
}

/// The selectors of a variable.
#[cycle(expression)]
#[derive(Drop)]
pub enum SelectorKind {
    /// `"." field`
    Dot(FieldTree),
    /// `"!" field`
    Exclamation(FieldTree),
    /// `"(" expr ")"`
    Index(ExprTree),
}

/// `field`, which may be spelt like a keyword.
#[derive(Drop)]
pub enum FieldTree {
    Name(Name),
    Keyword(Place, Keyword),
}

//! Functions of a program with names replaced by numbers, and places by where they lie in the vector of cells. A name without a
//! meaning is `None` where its number would stand, and counts nothing in a place; a program that breaks no load rule has none.

use og_csubset::{COp, CRel};
use og_model::EventId;
use sqlite_items::{Boxed, Items};

/// A number (C99 6.5).
#[cycle(code)]
#[derive(Drop)]
pub enum Expression {
    Literal(i64),
    Read(Place),
    Minus(Boxed<Expression>),
    Op(COp, Boxed<Expression>, Boxed<Expression>),
    /// The first number where the test holds, and otherwise the second.
    Choice(Test, Boxed<Expression>, Boxed<Expression>),
}

/// An index of a place: into an array of `bound` elements, each of `stride` cells.
#[cycle(code)]
#[derive(Drop)]
pub struct Term {
    pub bound: u32,
    pub stride: u32,
    pub index: Expression,
}

/// A place in the vector of cells: that of its global and members, and then further by its indices.
#[cycle(code)]
#[derive(Drop)]
pub struct Place {
    pub offset: u32,
    pub terms: Items<Term>,
}

/// A relation of two numbers (C99 6.5.8 and 6.5.9).
#[cycle(code)]
#[derive(Drop)]
pub struct Test {
    pub op: CRel,
    pub left: Boxed<Expression>,
    pub right: Boxed<Expression>,
}

/// A case of a switch, with the place in the body where it goes on.
#[derive(Clone, Copy, Debug)]
pub struct Case {
    pub value: i64,
    pub place: Option<usize>,
}

/// A statement (C99 6.8). Places in the body count from 0.
#[derive(Drop)]
pub enum Statement {
    /// Puts a number.
    Assign(Place, Expression),
    /// Puts so many cells from the second place on at the first.
    Copy(Place, Place, u32),
    /// Goes on at a place of the body where the test holds.
    Branch(Test, Option<usize>),
    Goto(Option<usize>),
    Label,
    /// The number, the cases, and the place of `default`.
    Switch(Expression, Items<Case>, Option<usize>),
    Event(Option<EventId>),
    Call(Option<usize>),
    Return,
}

/// The statements of a function.
#[derive(Drop)]
pub struct Body {
    pub statements: Items<Statement>,
}

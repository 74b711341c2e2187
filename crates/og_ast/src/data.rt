//! Variables, timers and parameters (Z.102 clause 12.3; Z.101 clause 9).
use crate::{EndTree, ExprTree, HyphenedName, Name};
use og_base::Place;
use sqlite_items::Items;

/// `DCL item { "," item } end`
#[derive(Drop)]
pub struct DclTree {
    pub place: Place,
    pub items: Items<ItemTree>,
    pub end: EndTree,
}

/// `item = names hname [ ":=" expr ]`
#[derive(Drop)]
pub struct ItemTree {
    pub names: Items<Name>,
    pub sort: HyphenedName,
    pub initial: Option<ExprTree>,
}

/// `TIMER names end`
#[derive(Drop)]
pub struct TimerTree {
    pub place: Place,
    pub names: Items<Name>,
    pub end: EndTree,
}

/// `FPAR formal { "," formal } end`
#[derive(Drop)]
pub struct FparTree {
    pub place: Place,
    pub formals: Items<FormalTree>,
    pub end: EndTree,
}

/// `formal = [ IN | IN "/" OUT ] names hname`
#[derive(Drop)]
pub struct FormalTree {
    pub passing: Passing,
    pub names: Items<Name>,
    pub sort: HyphenedName,
}

/// How a parameter is passed. Without a word it is passed as with IN.
#[derive(Clone, Copy, Debug, PartialEq, Eq)]
pub enum Passing {
    Unsaid,
    In,
    InOut,
}

/// `RETURNS hname end`
#[derive(Drop)]
pub struct ReturnsTree {
    pub place: Place,
    pub sort: HyphenedName,
    pub end: EndTree,
}

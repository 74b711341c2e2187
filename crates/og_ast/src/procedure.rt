//! Procedures and connections (Z.102 clause 9.4; free actions, Z.102 clause 11.10).
use crate::{ClosingTree, DclTree, EndTree, FparTree, Name, ReturnsTree, TransitionTree};
use og_base::Place;
use sqlite_items::Items;

/// `PROCEDURE name end [ fpar ] [ RETURNS hname end ] body`
#[derive(Drop)]
pub struct ProcedureTree {
    pub place: Place,
    pub name: Name,
    pub end: EndTree,
    pub fpar: Option<FparTree>,
    pub returns: Option<ReturnsTree>,
    pub body: ProcedureBody,
}

/// `( EXTERNAL | { dcl } START end transition { connection } ENDPROCEDURE [ name ] ) end`
#[derive(Drop)]
pub enum ProcedureBody {
    /// The keyword EXTERNAL stands at the place.
    External(Place, EndTree),
    Own {
        dcls: Items<DclTree>,
        /// The keyword START.
        place: Place,
        end: EndTree,
        transition: TransitionTree,
        connections: Items<ConnectionTree>,
        closing: ClosingTree,
    },
}

/// `CONNECTION name ":" transition ENDCONNECTION end`
#[derive(Drop)]
pub struct ConnectionTree {
    pub place: Place,
    pub label: Name,
    pub transition: TransitionTree,
    pub end: EndTree,
}

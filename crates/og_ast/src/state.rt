//! States, with what triggers their transitions, composite states and state aggregations (Z.102 clause 11).
use crate::{
    ClosingTree, ConnectionTree, DclTree, EndTree, ExprTree, Name, ProcedureTree, TimerTree,
    TransitionTree,
};
use og_base::Place;
use sqlite_items::Items;

/// `inner`: what stands in a process or in a composite state.
#[cycle(state)]
#[derive(Drop)]
pub enum InnerTree {
    Dcl(DclTree),
    Timer(TimerTree),
    Procedure(ProcedureTree),
    Start(StartTree),
    State(StateTree),
    Composite(CompositeTree),
    Aggregation(AggregationTree),
    Connection(ConnectionTree),
}

/// `START [ name ] end transition`
#[derive(Drop)]
pub struct StartTree {
    pub place: Place,
    pub name: Option<Name>,
    pub end: EndTree,
    pub transition: TransitionTree,
}

/// `STATE list end { part } ENDSTATE [ name ] end`
#[derive(Drop)]
pub struct StateTree {
    pub place: Place,
    pub list: ListTree,
    pub end: EndTree,
    pub parts: Items<PartTree>,
    pub closing: ClosingTree,
}

/// `list = names | "*" [ "(" names ")" ]`
#[derive(Drop)]
pub enum ListTree {
    Names(Items<Name>),
    /// All states but those named.
    All(Place, Items<Name>),
}

/// `part`
#[derive(Drop)]
pub enum PartTree {
    Input(InputTree),
    Provided(ProvidedTree),
    Connect(ConnectTree),
    Save(SaveTree),
}

/// `INPUT in { "," in } end [ PROVIDED expr end ] transition`
#[derive(Drop)]
pub struct InputTree {
    pub place: Place,
    pub inputs: Items<InTree>,
    pub end: EndTree,
    pub enabling: Option<EnablingTree>,
    pub transition: TransitionTree,
}

/// `in = name [ "(" names ")" ]`. Without a list the values are dropped.
#[derive(Drop)]
pub struct InTree {
    pub signal: Name,
    pub variables: Items<Name>,
}

/// `PROVIDED expr end`, the enabling condition of an input.
#[derive(Drop)]
pub struct EnablingTree {
    pub place: Place,
    pub condition: ExprTree,
    pub end: EndTree,
}

/// `PROVIDED expr end [ PRIORITY number end ] transition`
#[derive(Drop)]
pub struct ProvidedTree {
    pub place: Place,
    pub condition: ExprTree,
    pub end: EndTree,
    pub priority: Option<PriorityTree>,
    pub transition: TransitionTree,
}

/// `PRIORITY number end`
#[derive(Drop)]
pub struct PriorityTree {
    pub place: Place,
    pub number: u64,
    pub end: EndTree,
}

/// `CONNECT [ names ] end transition`
#[derive(Drop)]
pub struct ConnectTree {
    pub place: Place,
    pub names: Items<Name>,
    pub end: EndTree,
    pub transition: TransitionTree,
}

/// `SAVE names end`
#[derive(Drop)]
pub struct SaveTree {
    pub place: Place,
    pub names: Items<Name>,
    pub end: EndTree,
}

/// `STATE name end SUBSTRUCTURE { points } { inner } ENDSUBSTRUCTURE [ name ] end`
#[cycle(state)]
#[derive(Drop)]
pub struct CompositeTree {
    pub place: Place,
    pub name: Name,
    pub end: EndTree,
    pub points: Items<PointsTree>,
    pub parts: Items<InnerTree>,
    pub closing: ClosingTree,
}

/// `points = ( IN | OUT ) "(" names ")" end`. They are not compared.
#[derive(Drop)]
pub struct PointsTree {
    pub place: Place,
    /// OUT, and not IN.
    pub out: bool,
    pub names: Items<Name>,
    pub end: EndTree,
}

/// `STATE AGGREGATION name end SUBSTRUCTURE { points } { other } composite { other | composite } ENDSUBSTRUCTURE
/// [ name ] end`
#[cycle(state)]
#[derive(Drop)]
pub struct AggregationTree {
    pub place: Place,
    pub name: Name,
    pub end: EndTree,
    pub points: Items<PointsTree>,
    /// One composite state at least is among them.
    pub parts: Items<AggregationPart>,
    pub closing: ClosingTree,
}

/// `other | composite`
#[cycle(state)]
#[derive(Drop)]
pub enum AggregationPart {
    Dcl(DclTree),
    Timer(TimerTree),
    Procedure(ProcedureTree),
    Empty(EmptyStateTree),
    Composite(CompositeTree),
}

/// `STATE name end ENDSTATE [ name ] end`, which names a partition.
#[derive(Drop)]
pub struct EmptyStateTree {
    pub place: Place,
    pub name: Name,
    pub end: EndTree,
    pub closing: ClosingTree,
}

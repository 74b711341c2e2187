//! Systems, blocks and what leads to their processes (Z.102 clauses 9 and 10).
use crate::{ClosingTree, EndTree, HyphenedName, InnerTree, Name, ProcedureTree};
use og_base::Place;
use sqlite_items::Items;

/// `file = { use | system | process }`: one of them.
#[derive(Drop)]
pub enum Unit {
    Use(UseTree),
    System(SystemTree),
    Process(ProcessTree),
}

/// `USE hname end`
#[derive(Drop)]
pub struct UseTree {
    pub place: Place,
    pub module: HyphenedName,
    pub end: EndTree,
}

/// `SYSTEM name end { use | signal | channel | procedure | block } ENDSYSTEM [ name ] end`
#[derive(Drop)]
pub struct SystemTree {
    pub place: Place,
    pub name: Name,
    pub end: EndTree,
    pub parts: Items<SystemPart>,
    pub closing: ClosingTree,
}

/// What stands in a system.
#[derive(Drop)]
pub enum SystemPart {
    Use(UseTree),
    Signal(SignalTree),
    Channel(ChannelTree),
    Procedure(ProcedureTree),
    Block(BlockTree),
}

/// `BLOCK name end { signal | route | link | process | reference } ENDBLOCK [ name ] end`
#[derive(Drop)]
pub struct BlockTree {
    pub place: Place,
    pub name: Name,
    pub end: EndTree,
    pub parts: Items<BlockPart>,
    pub closing: ClosingTree,
}

/// What stands in a block.
#[derive(Drop)]
pub enum BlockPart {
    Signal(SignalTree),
    Route(RouteTree),
    Link(LinkTree),
    Process(ProcessTree),
    Reference(ReferenceTree),
}

/// `SIGNAL sig { "," sig } end`
#[derive(Drop)]
pub struct SignalTree {
    pub place: Place,
    pub signals: Items<SigTree>,
    pub end: EndTree,
}

/// `sig = name [ "(" hname { "," hname } ")" ]`
#[derive(Drop)]
pub struct SigTree {
    pub name: Name,
    pub sorts: Items<HyphenedName>,
}

/// `CHANNEL name path { path } ENDCHANNEL [ name ] end`
#[derive(Drop)]
pub struct ChannelTree {
    pub place: Place,
    pub name: Name,
    pub paths: Items<PathTree>,
    pub closing: ClosingTree,
}

/// `SIGNALROUTE name path { path }`
#[derive(Drop)]
pub struct RouteTree {
    pub place: Place,
    pub name: Name,
    pub paths: Items<PathTree>,
}

/// `path = FROM point TO point WITH names end`
#[derive(Drop)]
pub struct PathTree {
    pub place: Place,
    pub from: PointTree,
    pub to: PointTree,
    pub signals: Items<Name>,
    pub end: EndTree,
}

/// `point = ENV | name`
#[derive(Drop)]
pub enum PointTree {
    Env(Place),
    Name(Name),
}

/// `link = CONNECT names AND names end`
#[derive(Drop)]
pub struct LinkTree {
    pub place: Place,
    pub channels: Items<Name>,
    pub routes: Items<Name>,
    pub end: EndTree,
}

/// `PROCESS name [ count ] end { inner } ENDPROCESS [ name ] end`
#[derive(Drop)]
pub struct ProcessTree {
    pub place: Place,
    pub name: Name,
    pub count: Option<CountTree>,
    pub end: EndTree,
    pub parts: Items<InnerTree>,
    pub closing: ClosingTree,
}

/// `PROCESS name [ count ] REFERENCED end`
#[derive(Drop)]
pub struct ReferenceTree {
    pub place: Place,
    pub name: Name,
    pub count: Option<CountTree>,
    pub end: EndTree,
}

/// `count = "(" number "," number ")"`. It is not compared.
#[derive(Clone, Copy, Debug, PartialEq, Eq)]
pub struct CountTree {
    pub place: Place,
    pub initial: u64,
    pub most: u64,
}

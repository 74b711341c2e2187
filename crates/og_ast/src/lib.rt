//! Trees of SDL/PR texts (Z.106, the textual form of Z.100): a struct or an enum for each production, with its parts as
//! fields. A tree holds each choice that its text makes, so that its tokens can be told from it.
//!
//! A tree has the place of its first token, unless it says otherwise; one that begins with a name or another tree has theirs.
#![tactic(auto)]

mod data;
mod expression;
mod ground;
mod procedure;
mod state;
mod system;
mod transition;

pub use data::{DclTree, FormalTree, FparTree, ItemTree, Passing, ReturnsTree, TimerTree};
pub use expression::{
    ComponentTree, ExprNode, ExprTree, FieldTree, Operator, RelationOperator, SelectorKind,
    SelectorTree, VarTree,
};
pub use ground::{ClosingTree, EndTree, HyphenedName, Name, TextTree, is_name};
pub use procedure::{ConnectionTree, ProcedureBody, ProcedureTree};
pub use state::{
    AggregationPart, AggregationTree, CompositeTree, ConnectTree, EmptyStateTree, EnablingTree,
    InTree, InnerTree, InputTree, ListTree, PartTree, PointsTree, PriorityTree, ProvidedTree,
    SaveTree, StartTree, StateTree,
};
pub use system::{
    BlockPart, BlockTree, ChannelTree, CountTree, LinkTree, PathTree, PointTree, ProcessTree,
    ReferenceTree, RouteTree, SigTree, SignalTree, SystemPart, SystemTree, Unit, UseTree,
};
pub use transition::{
    ActionTree, AnswerTree, ArgTree, AssignTree, AssignedTree, BranchTree, CallTree, ConstTree,
    DecisionTree, ElseTree, OutTree, QuestionTree, StepTree, TerminatorKind, TerminatorTree,
    TransitionTree,
};

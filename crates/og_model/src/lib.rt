//! The resolved model of a process: its data, its procedures and its nested states.
#![tactic(auto)]

mod copy;
pub mod laws;

use og_base::Place;
use og_names::{NameId, Names};
use og_types::{TypeId, TypeTable, Value};
use sqlite_items::{Boxed, Items};

/// A process after its names are resolved. Lists stand in the order of the text.
#[derive(Drop)]
pub struct Model {
    /// The name of the process.
    pub name: NameId,
    pub names: Names,
    pub types: TypeTable,
    pub signals: Items<Signal>,
    pub timers: Items<NameId>,
    pub variables: Items<Variable>,
    pub procs: Items<Proc>,
    pub root: Scope,
}

/// A signal with the types of its parameters. It is incoming where a way leads to the process, and outgoing where one leads from it.
#[derive(Drop)]
pub struct Signal {
    pub name: NameId,
    pub sorts: Items<TypeId>,
    pub incoming: bool,
    pub outgoing: bool,
}

/// A variable with its first value.
#[derive(Drop)]
pub struct Variable {
    pub name: NameId,
    pub sort: TypeId,
    pub initial: Value,
}

/// A variable of the process, or of the procedure that runs, by its number in that list.
#[derive(Clone, Copy, Debug, PartialEq, Eq)]
pub enum VarId {
    Process(u32),
    Local(u32),
}

/// The states, starts and transitions of the process, of a composite state's inside or of a partition's inside.
#[cycle(scope)]
#[derive(Drop)]
pub struct Scope {
    pub states: Items<StateDef>,
    pub starts: Items<Start>,
    /// Each transition of the text once. Starts and handlers name one by its number.
    pub bodies: Items<Body>,
}

/// A start transition, with the name of the entry point that it belongs to.
#[derive(Clone, Copy, Debug, PartialEq, Eq)]
pub struct Start {
    pub entry: Option<NameId>,
    pub body: u32,
}

/// A state. Its place is its name where it first stands in a STATE header.
#[cycle(scope)]
#[derive(Drop)]
pub struct StateDef {
    pub name: NameId,
    pub place: Place,
    pub kind: StateKind,
    pub handlers: Items<Handler>,
}

/// A basic state, a composite state or a state aggregation (Z.102 section 11.11). `entry` and `exit` are numbers of procedures.
#[cycle(scope)]
#[derive(Drop)]
pub enum StateKind {
    Basic,
    Composite {
        entry: Option<u32>,
        exit: Option<u32>,
        inner: Scope,
    },
    Aggregation {
        entry: Option<u32>,
        exit: Option<u32>,
        partitions: Items<Partition>,
    },
}

/// A partition of a state aggregation.
#[cycle(scope)]
#[derive(Drop)]
pub struct Partition {
    pub name: NameId,
    pub entry: Option<u32>,
    pub exit: Option<u32>,
    pub inner: Scope,
}

/// What triggers a transition in a state. Its place is the name of the signal, timer or exit point, or the keyword
/// PROVIDED, or CONNECT where no exit point is named.
#[derive(Drop)]
pub struct Handler {
    pub place: Place,
    pub trigger: Trigger,
    pub body: u32,
}

/// An input, the expiry of a timer, a continuous signal, or the completion of a composite state.
#[derive(Drop)]
pub enum Trigger {
    /// An empty list drops the values.
    Input {
        signal: u32,
        into: Items<VarId>,
    },
    Expiry {
        timer: u32,
    },
    Provided {
        priority: Option<u64>,
        condition: Expr,
    },
    Connect {
        exit: Option<NameId>,
    },
}

/// A transition. Its place is its keyword. `label` is the name of a CONNECTION.
#[derive(Drop)]
pub struct Body {
    pub place: Place,
    pub label: Option<NameId>,
    pub block: Block,
}

/// Steps in their order, and the terminator where there is one.
#[cycle(block)]
#[derive(Drop)]
pub struct Block {
    pub steps: Items<Step>,
    pub end: Option<Ending>,
}

/// An action with its label. Its place is the one that a fault of it has.
#[cycle(block)]
#[derive(Drop)]
pub struct Step {
    pub label: Option<NameId>,
    pub place: Place,
    pub action: Action,
}

/// A terminator with its label. Its place is its keyword.
#[derive(Drop)]
pub struct Ending {
    pub label: Option<NameId>,
    pub place: Place,
    pub kind: EndKind,
}

/// NEXTSTATE with a state of the scope, NEXTSTATE with a dash, JOIN, RETURN or STOP.
#[derive(Drop)]
pub enum EndKind {
    Next {
        state: u32,
        entry: Option<NameId>,
    },
    Dash,
    Join {
        label: NameId,
    },
    Return {
        exit: Option<NameId>,
        result: Option<Expr>,
    },
    Stop,
}

/// What a step does.
#[cycle(block)]
#[derive(Drop)]
pub enum Action {
    /// A TASK with an informal text.
    Nothing,
    Assign {
        target: Target,
        value: Expr,
    },
    Output {
        signal: u32,
        values: Items<Expr>,
    },
    SetTimer {
        timer: u32,
        duration: Expr,
    },
    ResetTimer {
        timer: u32,
    },
    Append {
        target: Target,
        value: Expr,
    },
    Call {
        proc: u32,
        args: Items<Arg>,
        result: Option<VarId>,
    },
    Decide {
        question: Expr,
        branches: Items<Branch>,
        otherwise: Option<Block>,
    },
}

/// An argument for an IN parameter, or a variable for an IN/OUT parameter.
#[derive(Drop)]
pub enum Arg {
    Copy(Expr),
    Bind(VarId),
}

/// A branch of a decision. It is taken where one of its answers has the value of the question.
#[cycle(block)]
#[derive(Drop)]
pub struct Branch {
    pub answers: Items<Span>,
    pub block: Block,
}

/// The numbers from `lo` to `hi`, none where `lo` is above `hi`. Its place is the first token of its answer.
#[derive(Clone, Copy, Debug, PartialEq, Eq)]
pub struct Span {
    pub place: Place,
    pub lo: i128,
    pub hi: i128,
}

/// A procedure. Its place is its declared name. The first body is its start, and the formals are the first of the locals.
#[derive(Drop)]
pub struct Proc {
    pub name: NameId,
    pub place: Place,
    pub formals: Items<Formal>,
    pub locals: Items<Variable>,
    pub result: Option<TypeId>,
    pub bodies: Items<Body>,
}

/// A parameter of a procedure, IN/OUT where it is bound to the actual variable.
#[derive(Clone, Copy, Debug, PartialEq, Eq)]
pub struct Formal {
    pub name: NameId,
    pub sort: TypeId,
    pub bound: bool,
}

/// A variable, or a part of it that selectors lead to.
#[cycle(expression)]
#[derive(Drop)]
pub struct Target {
    pub variable: VarId,
    pub path: Items<Select>,
}

/// A component of a sequence, an alternative of a choice, or an item of a sequence of items, counted from 0.
#[cycle(expression)]
#[derive(Drop)]
pub enum Select {
    Part(u32),
    Alternative(u32),
    At(Expr),
}

/// An expression. Its place is the operator of a unary or binary node and otherwise its first token; `first` is its first
/// token, an opening bracket included.
#[cycle(expression)]
#[derive(Drop)]
pub struct Expr {
    pub place: Place,
    pub first: Place,
    pub sort: ExprSort,
    pub node: Node,
}

/// Whole numbers, truth values, other values of a type, or numbers of alternatives of a choice.
#[derive(Clone, Copy, Debug, PartialEq, Eq)]
pub enum ExprSort {
    Int,
    Bool,
    Typed(TypeId),
    Kind(TypeId),
}

/// What an expression is made of.
#[cycle(expression)]
#[derive(Drop)]
pub enum Node {
    Number(i128),
    Truth(bool),
    /// An enumerator, or an alternative that `present` is compared with, by its number from 0.
    Item(u32),
    Get(Target),
    Length(Target),
    Present(Target),
    Unary(UnaryOp, Boxed<Expr>),
    Binary(BinaryOp, Boxed<Expr>, Boxed<Expr>),
    Sequence(Items<Expr>),
    SeqOf(Items<Expr>),
    Choice(u32, Boxed<Expr>),
}

#[derive(Clone, Copy, Debug, PartialEq, Eq)]
pub enum UnaryOp {
    Minus,
    Not,
}

#[derive(Clone, Copy, Debug, PartialEq, Eq)]
pub enum BinaryOp {
    Add,
    Sub,
    Mul,
    /// Truncates toward zero.
    Div,
    /// Lies between 0 and the right operand less 1.
    Mod,
    /// Has the sign of the left operand.
    Rem,
    Eq,
    Ne,
    Lt,
    Le,
    Gt,
    Ge,
    And,
    Or,
    Xor,
    AndThen,
    OrElse,
}

/// A place where a region can rest: a basic state, or a state aggregation. Its path leads from the region inward, by the
/// names of states.
#[derive(Drop)]
pub struct Leaf {
    pub path: Items<NameId>,
    /// A basic state, and no aggregation.
    pub basic: bool,
}

/// The process, or a partition of a state aggregation. Its path leads from the process inward, by the names of states and
/// partitions; that of the process is empty. Its leaves are numbered from 0.
#[derive(Drop)]
pub struct Region {
    pub path: Items<NameId>,
    pub leaves: Items<Leaf>,
}

/// What a stimulus is: the start, a signal or the expiry of a timer, by its number in the model.
#[derive(Clone, Copy, Debug, PartialEq, Eq)]
pub enum StimId {
    Start,
    Signal(u32),
    Timer(u32),
}

/// What an event is: an output, or a timer that is set or reset, by its number in the model.
#[derive(Clone, Copy, Debug, PartialEq, Eq)]
pub enum EventId {
    Output(u32),
    Set(u32),
    Reset(u32),
}

/// Why an action failed. The kinds are numbered from 1 in this order.
#[derive(Clone, Copy, Debug, PartialEq, Eq)]
pub enum FaultKind {
    Range,
    Index,
    Division,
    Alternative,
    Size,
}

/// Why a program of the C subset cannot go on: a number outside 64 bits, an index outside its array, a divisor of zero,
/// or a number where a value of a type is read that is none.
#[derive(Clone, Copy, Debug, PartialEq, Eq)]
pub enum StuckRule {
    Overflow,
    Index,
    Divide,
    Value,
}

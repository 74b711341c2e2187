//! Copies of a model and of its parts. Each copy equals what it copies.
ghost use Rattle.std.specs.Prelude.{◌≡◌, IfOk};

use crate::{
    Action, Arg, Block, Body, Branch, EndKind, Ending, Expr, Handler, Model, Node, Partition, Proc,
    Scope, Select, Signal, StateDef, StateKind, Step, Target, Trigger, Variable,
};
use og_names::NoMemory;
use sqlite_items::{Boxed, Items};
use std::alloc::Global;

impl Model {
    /// The same model once more.
    pub fn copy(&self, alloc: Global) -> Result<Model, NoMemory>
        ensures { IfOk result (λ copied. copied ≡ self.now) }
    {
        Ok(Model {
            name: self.name,
            names: self.names.copy(alloc)?,
            types: self.types.copy(alloc)?,
            signals: copy_signals(alloc, self.signals.as_slice())?,
            timers: Items::from_slice(alloc, self.timers.as_slice())?,
            variables: copy_variables(alloc, self.variables.as_slice())?,
            procs: copy_procs(alloc, self.procs.as_slice())?,
            root: self.root.copy(alloc)?,
        })
    }
}

impl Signal {
    /// The same signal once more.
    pub fn copy(&self, alloc: Global) -> Result<Signal, NoMemory>
        ensures { IfOk result (λ copied. copied ≡ self.now) }
    {
        Ok(Signal {
            name: self.name,
            sorts: Items::from_slice(alloc, self.sorts.as_slice())?,
            incoming: self.incoming,
            outgoing: self.outgoing,
        })
    }
}

impl Variable {
    /// The same variable once more.
    pub fn copy(&self, alloc: Global) -> Result<Variable, NoMemory>
        ensures { IfOk result (λ copied. copied ≡ self.now) }
    {
        Ok(Variable {
            name: self.name,
            sort: self.sort,
            initial: self.initial.copy(alloc)?,
        })
    }
}

impl Scope {
    /// The same scope once more.
    #[cycle(copying_scopes)]
    pub fn copy(&self, alloc: Global) -> Result<Scope, NoMemory>
        ensures { IfOk result (λ copied. copied ≡ self.now) }
    {
        Ok(Scope {
            states: copy_states(alloc, self.states.as_slice())?,
            starts: Items::from_slice(alloc, self.starts.as_slice())?,
            bodies: copy_bodies(alloc, self.bodies.as_slice())?,
        })
    }
}

impl StateDef {
    /// The same state once more.
    #[cycle(copying_scopes)]
    pub fn copy(&self, alloc: Global) -> Result<StateDef, NoMemory>
        ensures { IfOk result (λ copied. copied ≡ self.now) }
    {
        Ok(StateDef {
            name: self.name,
            place: self.place,
            kind: self.kind.copy(alloc)?,
            handlers: copy_handlers(alloc, self.handlers.as_slice())?,
        })
    }
}

impl StateKind {
    /// The same kind of state once more.
    #[cycle(copying_scopes)]
    pub fn copy(&self, alloc: Global) -> Result<StateKind, NoMemory>
        ensures { IfOk result (λ copied. copied ≡ self.now) }
    {
        Ok(match self {
            StateKind::Basic => StateKind::Basic,
            StateKind::Composite { entry, exit, inner } => StateKind::Composite {
                entry: *entry,
                exit: *exit,
                inner: inner.copy(alloc)?,
            },
            StateKind::Aggregation {
                entry,
                exit,
                partitions,
            } => StateKind::Aggregation {
                entry: *entry,
                exit: *exit,
                partitions: copy_partitions(alloc, partitions.as_slice())?,
            },
        })
    }
}

impl Partition {
    /// The same partition once more.
    #[cycle(copying_scopes)]
    pub fn copy(&self, alloc: Global) -> Result<Partition, NoMemory>
        ensures { IfOk result (λ copied. copied ≡ self.now) }
    {
        Ok(Partition {
            name: self.name,
            entry: self.entry,
            exit: self.exit,
            inner: self.inner.copy(alloc)?,
        })
    }
}

impl Handler {
    /// The same handler once more.
    pub fn copy(&self, alloc: Global) -> Result<Handler, NoMemory>
        ensures { IfOk result (λ copied. copied ≡ self.now) }
    {
        Ok(Handler {
            place: self.place,
            trigger: self.trigger.copy(alloc)?,
            body: self.body,
        })
    }
}

impl Trigger {
    /// The same trigger once more.
    pub fn copy(&self, alloc: Global) -> Result<Trigger, NoMemory>
        ensures { IfOk result (λ copied. copied ≡ self.now) }
    {
        Ok(match self {
            Trigger::Input { signal, into } => Trigger::Input {
                signal: *signal,
                into: Items::from_slice(alloc, into.as_slice())?,
            },
            Trigger::Expiry { timer } => Trigger::Expiry { timer: *timer },
            Trigger::Provided {
                priority,
                condition,
            } => Trigger::Provided {
                priority: *priority,
                condition: condition.copy(alloc)?,
            },
            Trigger::Connect { exit } => Trigger::Connect { exit: *exit },
        })
    }
}

impl Body {
    /// The same transition once more.
    pub fn copy(&self, alloc: Global) -> Result<Body, NoMemory>
        ensures { IfOk result (λ copied. copied ≡ self.now) }
    {
        Ok(Body {
            place: self.place,
            label: self.label,
            block: self.block.copy(alloc)?,
        })
    }
}

impl Block {
    /// The same block once more.
    #[cycle(copying_blocks)]
    pub fn copy(&self, alloc: Global) -> Result<Block, NoMemory>
        ensures { IfOk result (λ copied. copied ≡ self.now) }
    {
        Ok(Block {
            steps: copy_steps(alloc, self.steps.as_slice())?,
            end: copy_end(alloc, &self.end)?,
        })
    }
}

impl Step {
    /// The same step once more.
    #[cycle(copying_blocks)]
    pub fn copy(&self, alloc: Global) -> Result<Step, NoMemory>
        ensures { IfOk result (λ copied. copied ≡ self.now) }
    {
        Ok(Step {
            label: self.label,
            place: self.place,
            action: self.action.copy(alloc)?,
        })
    }
}

impl Ending {
    /// The same terminator once more.
    pub fn copy(&self, alloc: Global) -> Result<Ending, NoMemory>
        ensures { IfOk result (λ copied. copied ≡ self.now) }
    {
        Ok(Ending {
            label: self.label,
            place: self.place,
            kind: self.kind.copy(alloc)?,
        })
    }
}

impl EndKind {
    /// The same kind of terminator once more.
    pub fn copy(&self, alloc: Global) -> Result<EndKind, NoMemory>
        ensures { IfOk result (λ copied. copied ≡ self.now) }
    {
        Ok(match self {
            EndKind::Next { state, entry } => EndKind::Next {
                state: *state,
                entry: *entry,
            },
            EndKind::Dash => EndKind::Dash,
            EndKind::Join { label } => EndKind::Join { label: *label },
            EndKind::Return { exit, result } => EndKind::Return {
                exit: *exit,
                result: copy_result(alloc, result)?,
            },
            EndKind::Stop => EndKind::Stop,
        })
    }
}

impl Action {
    /// The same action once more.
    #[cycle(copying_blocks)]
    pub fn copy(&self, alloc: Global) -> Result<Action, NoMemory>
        ensures { IfOk result (λ copied. copied ≡ self.now) }
    {
        Ok(match self {
            Action::Nothing => Action::Nothing,
            Action::Assign { target, value } => Action::Assign {
                target: target.copy(alloc)?,
                value: value.copy(alloc)?,
            },
            Action::Output { signal, values } => Action::Output {
                signal: *signal,
                values: copy_expressions(alloc, values.as_slice())?,
            },
            Action::SetTimer { timer, duration } => Action::SetTimer {
                timer: *timer,
                duration: duration.copy(alloc)?,
            },
            Action::ResetTimer { timer } => Action::ResetTimer { timer: *timer },
            Action::Append { target, value } => Action::Append {
                target: target.copy(alloc)?,
                value: value.copy(alloc)?,
            },
            Action::Call { proc, args, result } => Action::Call {
                proc: *proc,
                args: copy_arguments(alloc, args.as_slice())?,
                result: *result,
            },
            Action::Decide {
                question,
                branches,
                otherwise,
            } => Action::Decide {
                question: question.copy(alloc)?,
                branches: copy_branches(alloc, branches.as_slice())?,
                otherwise: copy_otherwise(alloc, otherwise)?,
            },
        })
    }
}

impl Arg {
    /// The same argument once more.
    pub fn copy(&self, alloc: Global) -> Result<Arg, NoMemory>
        ensures { IfOk result (λ copied. copied ≡ self.now) }
    {
        Ok(match self {
            Arg::Copy(value) => Arg::Copy(value.copy(alloc)?),
            Arg::Bind(variable) => Arg::Bind(*variable),
        })
    }
}

impl Branch {
    /// The same branch once more.
    #[cycle(copying_blocks)]
    pub fn copy(&self, alloc: Global) -> Result<Branch, NoMemory>
        ensures { IfOk result (λ copied. copied ≡ self.now) }
    {
        Ok(Branch {
            answers: Items::from_slice(alloc, self.answers.as_slice())?,
            block: self.block.copy(alloc)?,
        })
    }
}

impl Proc {
    /// The same procedure once more.
    pub fn copy(&self, alloc: Global) -> Result<Proc, NoMemory>
        ensures { IfOk result (λ copied. copied ≡ self.now) }
    {
        Ok(Proc {
            name: self.name,
            place: self.place,
            formals: Items::from_slice(alloc, self.formals.as_slice())?,
            locals: copy_variables(alloc, self.locals.as_slice())?,
            result: self.result,
            bodies: copy_bodies(alloc, self.bodies.as_slice())?,
        })
    }
}

impl Target {
    /// The same target once more.
    #[cycle(copying_expressions)]
    pub fn copy(&self, alloc: Global) -> Result<Target, NoMemory>
        ensures { IfOk result (λ copied. copied ≡ self.now) }
    {
        Ok(Target {
            variable: self.variable,
            path: copy_selectors(alloc, self.path.as_slice())?,
        })
    }
}

impl Select {
    /// The same selector once more.
    #[cycle(copying_expressions)]
    pub fn copy(&self, alloc: Global) -> Result<Select, NoMemory>
        ensures { IfOk result (λ copied. copied ≡ self.now) }
    {
        Ok(match self {
            Select::Part(part) => Select::Part(*part),
            Select::Alternative(alternative) => Select::Alternative(*alternative),
            Select::At(index) => Select::At(index.copy(alloc)?),
        })
    }
}

impl Expr {
    /// The same expression once more.
    #[cycle(copying_expressions)]
    pub fn copy(&self, alloc: Global) -> Result<Expr, NoMemory>
        ensures { IfOk result (λ copied. copied ≡ self.now) }
    {
        Ok(Expr {
            place: self.place,
            first: self.first,
            sort: self.sort,
            node: self.node.copy(alloc)?,
        })
    }
}

impl Node {
    /// The same node once more.
    #[cycle(copying_expressions)]
    pub fn copy(&self, alloc: Global) -> Result<Node, NoMemory>
        ensures { IfOk result (λ copied. copied ≡ self.now) }
    {
        Ok(match self {
            Node::Number(number) => Node::Number(*number),
            Node::Truth(truth) => Node::Truth(*truth),
            Node::Item(item) => Node::Item(*item),
            Node::Get(target) => Node::Get(target.copy(alloc)?),
            Node::Length(target) => Node::Length(target.copy(alloc)?),
            Node::Present(target) => Node::Present(target.copy(alloc)?),
            Node::Unary(op, inner) => {
                Node::Unary(*op, Boxed::new(alloc, inner.get().copy(alloc)?)?)
            }
            Node::Binary(op, left, right) => Node::Binary(
                *op,
                Boxed::new(alloc, left.get().copy(alloc)?)?,
                Boxed::new(alloc, right.get().copy(alloc)?)?,
            ),
            Node::Sequence(parts) => Node::Sequence(copy_expressions(alloc, parts.as_slice())?),
            Node::SeqOf(items) => Node::SeqOf(copy_expressions(alloc, items.as_slice())?),
            Node::Choice(alternative, inner) => {
                Node::Choice(*alternative, Boxed::new(alloc, inner.get().copy(alloc)?)?)
            }
        })
    }
}

fn copy_signals(alloc: Global, signals: &[Signal]) -> Result<Items<Signal>, NoMemory>
    ensures { IfOk result (λ copied. copied ≡ signals.now) }
{
    let mut copied = Items::new(alloc);
    for signal in signals {
        copied.push(signal.copy(alloc)?)?;
    }
    Ok(copied)
}

fn copy_variables(alloc: Global, variables: &[Variable]) -> Result<Items<Variable>, NoMemory>
    ensures { IfOk result (λ copied. copied ≡ variables.now) }
{
    let mut copied = Items::new(alloc);
    for variable in variables {
        copied.push(variable.copy(alloc)?)?;
    }
    Ok(copied)
}

fn copy_procs(alloc: Global, procs: &[Proc]) -> Result<Items<Proc>, NoMemory>
    ensures { IfOk result (λ copied. copied ≡ procs.now) }
{
    let mut copied = Items::new(alloc);
    for proc in procs {
        copied.push(proc.copy(alloc)?)?;
    }
    Ok(copied)
}

fn copy_handlers(alloc: Global, handlers: &[Handler]) -> Result<Items<Handler>, NoMemory>
    ensures { IfOk result (λ copied. copied ≡ handlers.now) }
{
    let mut copied = Items::new(alloc);
    for handler in handlers {
        copied.push(handler.copy(alloc)?)?;
    }
    Ok(copied)
}

fn copy_bodies(alloc: Global, bodies: &[Body]) -> Result<Items<Body>, NoMemory>
    ensures { IfOk result (λ copied. copied ≡ bodies.now) }
{
    let mut copied = Items::new(alloc);
    for body in bodies {
        copied.push(body.copy(alloc)?)?;
    }
    Ok(copied)
}

fn copy_arguments(alloc: Global, arguments: &[Arg]) -> Result<Items<Arg>, NoMemory>
    ensures { IfOk result (λ copied. copied ≡ arguments.now) }
{
    let mut copied = Items::new(alloc);
    for argument in arguments {
        copied.push(argument.copy(alloc)?)?;
    }
    Ok(copied)
}

#[cycle(copying_scopes)]
fn copy_states(alloc: Global, states: &[StateDef]) -> Result<Items<StateDef>, NoMemory>
    ensures { IfOk result (λ copied. copied ≡ states.now) }
{
    let mut copied = Items::new(alloc);
    for state in states {
        copied.push(state.copy(alloc)?)?;
    }
    Ok(copied)
}

#[cycle(copying_scopes)]
fn copy_partitions(alloc: Global, partitions: &[Partition]) -> Result<Items<Partition>, NoMemory>
    ensures { IfOk result (λ copied. copied ≡ partitions.now) }
{
    let mut copied = Items::new(alloc);
    for partition in partitions {
        copied.push(partition.copy(alloc)?)?;
    }
    Ok(copied)
}

#[cycle(copying_blocks)]
fn copy_steps(alloc: Global, steps: &[Step]) -> Result<Items<Step>, NoMemory>
    ensures { IfOk result (λ copied. copied ≡ steps.now) }
{
    let mut copied = Items::new(alloc);
    for step in steps {
        copied.push(step.copy(alloc)?)?;
    }
    Ok(copied)
}

#[cycle(copying_blocks)]
fn copy_branches(alloc: Global, branches: &[Branch]) -> Result<Items<Branch>, NoMemory>
    ensures { IfOk result (λ copied. copied ≡ branches.now) }
{
    let mut copied = Items::new(alloc);
    for branch in branches {
        copied.push(branch.copy(alloc)?)?;
    }
    Ok(copied)
}

#[cycle(copying_expressions)]
fn copy_selectors(alloc: Global, selectors: &[Select]) -> Result<Items<Select>, NoMemory>
    ensures { IfOk result (λ copied. copied ≡ selectors.now) }
{
    let mut copied = Items::new(alloc);
    for selector in selectors {
        copied.push(selector.copy(alloc)?)?;
    }
    Ok(copied)
}

#[cycle(copying_expressions)]
fn copy_expressions(alloc: Global, expressions: &[Expr]) -> Result<Items<Expr>, NoMemory>
    ensures { IfOk result (λ copied. copied ≡ expressions.now) }
{
    let mut copied = Items::new(alloc);
    for expression in expressions {
        copied.push(expression.copy(alloc)?)?;
    }
    Ok(copied)
}

fn copy_end(alloc: Global, end: &Option<Ending>) -> Result<Option<Ending>, NoMemory>
    ensures { IfOk result (λ copied. copied ≡ end.now) }
{
    Ok(match end {
        Some(end) => Some(end.copy(alloc)?),
        None => None,
    })
}

fn copy_result(alloc: Global, answer: &Option<Expr>) -> Result<Option<Expr>, NoMemory>
    ensures { IfOk result (λ copied. copied ≡ answer.now) }
{
    Ok(match answer {
        Some(answer) => Some(answer.copy(alloc)?),
        None => None,
    })
}

#[cycle(copying_blocks)]
fn copy_otherwise(alloc: Global, otherwise: &Option<Block>) -> Result<Option<Block>, NoMemory>
    ensures { IfOk result (λ copied. copied ≡ otherwise.now) }
{
    Ok(match otherwise {
        Some(otherwise) => Some(otherwise.copy(alloc)?),
        None => None,
    })
}

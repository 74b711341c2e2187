//! Transitions, actions and terminators (Z.102 clause 11.12 and 11.13).
use crate::{EndTree, ExprTree, Name, RelationOperator, TextTree, VarTree};
use og_base::Place;
use sqlite_items::Items;

/// `transition = { [ name ":" ] action end } [ [ name ":" ] terminator end ]`
#[cycle(transition)]
#[derive(Drop)]
pub struct TransitionTree {
    pub steps: Items<StepTree>,
    pub terminator: Option<TerminatorTree>,
}

/// `[ name ":" ] action end`. Its place is the action's keyword.
#[cycle(transition)]
#[derive(Drop)]
pub struct StepTree {
    pub label: Option<Name>,
    pub place: Place,
    pub action: ActionTree,
    pub end: EndTree,
}

/// `action`
#[cycle(transition)]
#[derive(Drop)]
pub enum ActionTree {
    /// `TASK text`
    Informal(TextTree),
    /// `TASK assign { "," assign }`
    Task(Items<AssignTree>),
    /// `OUTPUT out { "," out }`
    Output(Items<OutTree>),
    /// `CALL name [ args ]`
    Call(CallTree),
    Decision(DecisionTree),
}

/// `assign = var ":=" ( CALL name [ args ] | expr )`
#[derive(Drop)]
pub struct AssignTree {
    pub target: VarTree,
    pub value: AssignedTree,
}

/// The right side of an assignment. The place of a call is its keyword.
#[derive(Drop)]
pub enum AssignedTree {
    Call(Place, CallTree),
    Value(ExprTree),
}

/// `out = name [ "(" expr { "," expr } ")" ]`
#[derive(Drop)]
pub struct OutTree {
    pub signal: Name,
    pub values: Items<ExprTree>,
}

/// The procedure of a call and its arguments, `name [ "(" [ arg { "," arg } ] ")" ]`.
#[derive(Drop)]
pub struct CallTree {
    pub procedure: Name,
    pub args: Option<Items<ArgTree>>,
}

/// `arg = expr | text`
#[derive(Drop)]
pub enum ArgTree {
    Value(ExprTree),
    Text(TextTree),
}

/// `DECISION ( expr | ANY | text ) end { answers ":" transition } [ ELSE ":" transition ] ENDDECISION`, behind its
/// keyword.
#[cycle(transition)]
#[derive(Drop)]
pub struct DecisionTree {
    pub question: QuestionTree,
    pub end: EndTree,
    pub branches: Items<BranchTree>,
    pub otherwise: Option<ElseTree>,
}

/// What a decision asks.
#[derive(Drop)]
pub enum QuestionTree {
    Value(ExprTree),
    Any(Place),
    Text(TextTree),
}

/// `answers ":" transition` with `answers = "(" answer { "," answer } ")"`
#[cycle(transition)]
#[derive(Drop)]
pub struct BranchTree {
    pub place: Place,
    pub answers: Items<AnswerTree>,
    pub transition: TransitionTree,
}

/// `ELSE ":" transition`
#[cycle(transition)]
#[derive(Drop)]
pub struct ElseTree {
    pub place: Place,
    pub transition: TransitionTree,
}

/// `answer = const [ ":" const ] | relop const`
#[derive(Drop)]
pub enum AnswerTree {
    One(ConstTree),
    Range(ConstTree, ConstTree),
    Relation(Place, RelationOperator, ConstTree),
}

/// `const = [ "-" ] number | name | TRUE | FALSE`, with the place of its first token.
#[derive(Drop)]
pub enum ConstTree {
    Number(Place, u64),
    Negative(Place, u64),
    Name(Name),
    Truth(Place, bool),
}

/// `[ name ":" ] terminator end`. Its place is the terminator's keyword.
#[derive(Drop)]
pub struct TerminatorTree {
    pub label: Option<Name>,
    pub place: Place,
    pub kind: TerminatorKind,
    pub end: EndTree,
}

/// `terminator`
#[derive(Drop)]
pub enum TerminatorKind {
    /// `NEXTSTATE "-"`, whose `-` stands at the place.
    Dash(Place),
    /// `NEXTSTATE "-" "*"`
    History(Place),
    /// `NEXTSTATE name [ VIA name ]`
    Next(Name, Option<Name>),
    Join(Name),
    Return(Option<ExprTree>),
    Stop,
}

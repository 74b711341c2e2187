//! Programs of the C subset as trees.
#![tactic(auto)]

mod copy;
mod flat_examples;
mod run_examples;
mod run_laws;
mod spelling_laws;

pub use flat_examples::flat_code_runs;
use og_names::Word;
pub use run_examples::{
    hand_written_text_runs, load_rules_are_reported, single_statements_compute,
};
pub use run_laws::{
    agreeing_programs_show_the_same, code_within_64_bits, ended_program_stays, fairness_of_parts,
    larger_models_show_the_same, loaded_programs_are_steady, more_instructions_go_on,
    more_statements_go_on, pace_of_one, statements_split, values_of_parts,
};
pub use spelling_laws::{
    brackets, least_number, nesting_counts, one_answer, one_deep_place, one_list_of_tokens,
    one_program, one_wrong_place, plain_text_of_each, refused, signs, white_space, whole_text,
    wrong_places,
};
use sqlite_items::{Boxed, Items};

/// A program: structs, then globals, then the events that it may show, then functions.
#[derive(Drop)]
pub struct CProgram {
    pub structs: Items<CStruct>,
    pub globals: Items<CGlobal>,
    pub events: Items<Word>,
    pub functions: Items<CFunction>,
}

/// A struct type, with at least one member.
#[derive(Drop)]
pub struct CStruct {
    pub name: Word,
    pub members: Items<CMember>,
}

/// A member, an array of `size` elements where there is one.
#[derive(Drop)]
pub struct CMember {
    pub kind: CType,
    pub name: Word,
    pub size: Option<u32>,
}

#[derive(Drop)]
pub struct CGlobal {
    pub kind: CType,
    pub name: Word,
}

/// `int64_t` (C99 7.18.1.1), or a struct type by its name.
#[derive(Drop)]
pub enum CType {
    Int64,
    Struct(Word),
}

#[derive(Drop)]
pub struct CFunction {
    pub name: Word,
    pub body: Items<CStmt>,
}

/// A statement (C99 6.8). Each one is a step of a run, a label too.
#[derive(Drop)]
pub enum CStmt {
    Assign(CPlace, CExpr),
    IfGoto(CTest, Word),
    Goto(Word),
    Label(Word),
    /// The number, the cases, and the label of `default`.
    Switch(CExpr, Items<CCase>, Word),
    /// A call of an event or of an earlier function.
    Call(Word),
    Return,
}

#[derive(Drop)]
pub struct CCase {
    pub value: i64,
    pub label: Word,
}

/// A global, or a part of it.
#[cycle(expression)]
#[derive(Drop)]
pub struct CPlace {
    pub name: Word,
    pub path: Items<CStep>,
}

#[cycle(expression)]
#[derive(Drop)]
pub enum CStep {
    Member(Word),
    At(CExpr),
}

/// An expression (C99 6.5) over 64-bit numbers.
#[cycle(expression)]
#[derive(Drop)]
pub enum CExpr {
    Number(i64),
    Read(CPlace),
    Minus(Boxed<CExpr>),
    Op(COp, Boxed<CExpr>, Boxed<CExpr>),
    /// The first number where the test holds, and otherwise the second.
    Pick(CTest, Boxed<CExpr>, Boxed<CExpr>),
}

#[cycle(expression)]
#[derive(Drop)]
pub struct CTest {
    pub op: CRel,
    pub left: Boxed<CExpr>,
    pub right: Boxed<CExpr>,
}

/// The operators `+ - * / %` (C99 6.5.5 and 6.5.6).
#[derive(Clone, Copy, Debug, PartialEq, Eq)]
pub enum COp {
    Add,
    Sub,
    Mul,
    Div,
    Rem,
}

/// The relations `== != < <= > >=` (C99 6.5.8 and 6.5.9).
#[derive(Clone, Copy, Debug, PartialEq, Eq)]
pub enum CRel {
    Eq,
    Ne,
    Lt,
    Le,
    Gt,
    Ge,
}

/// The rules that a program must satisfy before it can be run over a model, in the order in which they are tried:
/// K3 a name that stands twice, K4 a struct type that is used before it is defined, K5 a place or a number of the wrong
/// kind, K6 a label or a case that is missing or stands twice, K7 a call of nothing that is there, K8 too many cells,
/// K9 an interface that is not the model's.
#[derive(Clone, Copy, Debug, PartialEq, Eq)]
pub enum LoadRule {
    K3,
    K4,
    K5,
    K6,
    K7,
    K8,
    K9,
}

//! Flat code: functions of instructions over slots, with jumps by number. It is the middle of a compilation.
#![tactic(auto)]

mod copy;
mod step_laws;
mod value_laws;

use og_names::Word;
use og_types::TypeId;
use sqlite_items::{Boxed, Items};
pub use step_laws::{code_in_64_bits, ended_code_stays, steps_split};
pub use value_laws::{cells_hold_values, code_values_of_parts};

/// Slot k below the number of regions holds the number of region k's active leaf; the next five slots are `stopped`,
/// `f_kind`, `f_file`, `f_line` and `f_column`; the other slots of the interface are found by their names. `events` has
/// an output for each signal of the model, then for each timer its setting and its resetting.
#[derive(Drop)]
pub struct Ir {
    pub slots: Items<SlotDef>,
    pub events: Items<Word>,
    pub functions: Items<FlatFn>,
}

#[derive(Drop)]
pub struct SlotDef {
    pub name: Word,
    pub sort: SlotSort,
}

/// One number, or the cells of a value of a type.
#[derive(Clone, Copy, Debug, PartialEq, Eq)]
pub enum SlotSort {
    Cell,
    Shaped(TypeId),
}

/// A function. `labels` has for each instruction a word that tells a reader of the printed text what the code there is
/// for, or no bytes; it means nothing else.
#[derive(Drop)]
pub struct FlatFn {
    pub name: Word,
    pub code: Items<Instr>,
    pub labels: Items<Word>,
}

/// An instruction. Places of jumps are numbers in the code of the function, those of calls are numbers of functions.
#[derive(Drop)]
pub enum Instr {
    Set(Slot, Flat),
    Copy(Slot, Slot),
    /// Goes to the place where the test holds.
    Branch(Test, u32),
    Goto(u32),
    /// Goes to the place of the case that has the value, or else to the last place.
    Table(Flat, Items<Case>, u32),
    Call(u32),
    /// Shows the event of this number.
    Emit(u32),
    Back,
}

/// A slot, or a part of it.
#[cycle(flat)]
#[derive(Drop)]
pub struct Slot {
    pub base: u32,
    pub path: Items<Step2>,
}

#[cycle(flat)]
#[derive(Drop)]
pub enum Step2 {
    Field(u32),
    Index(Flat),
}

/// A number that is computed without a test.
#[cycle(flat)]
#[derive(Drop)]
pub enum Flat {
    Number(i64),
    Read(Slot),
    Op(FlatOp, Boxed<Flat>, Boxed<Flat>),
}

/// `Div` and `Rem` truncate toward zero (C99 6.5.5).
#[derive(Clone, Copy, Debug, PartialEq, Eq)]
pub enum FlatOp {
    Add,
    Sub,
    Mul,
    Div,
    Rem,
}

#[derive(Clone, Copy, Debug, PartialEq, Eq)]
pub enum FlatRel {
    Eq,
    Ne,
    Lt,
    Le,
    Gt,
    Ge,
}

#[derive(Drop)]
pub struct Test {
    pub op: FlatRel,
    pub left: Flat,
    pub right: Flat,
}

#[derive(Clone, Copy, Debug, PartialEq, Eq)]
pub struct Case {
    pub value: i64,
    pub to: u32,
}

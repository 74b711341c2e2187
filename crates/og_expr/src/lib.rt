//! Expressions to flat code that gives their value, or leads to their fault.
#![tactic(auto)]

pub mod examples;
mod instructions;
pub mod laws;
mod lowering;
mod operators;

pub use lowering::{is_simple, lower_at};
use og_ir::Instr;
use og_ranges::Declared;
use sqlite_items::Items;

/// What has the value of an expression behind its code: a number, a slot of a variable, or the temporary of its level.
#[derive(Clone, Copy, Debug, PartialEq, Eq)]
pub enum Operand {
    Literal(i64),
    Variable(u32),
    Temporary,
}

/// The code of an expression, what has its value behind it, and how many temporaries there are up to the last that it
/// uses.
#[derive(Drop)]
pub struct Lowered {
    pub code: Items<Instr>,
    pub value: Operand,
    pub temps: usize,
}

/// What code stands among. `variables` and `locals` have the slot of each variable, `temps` that of each temporary;
/// `kind` is the slot that tells the kind of a fault, and `fault` the place where faults lead.
#[derive(Clone, Copy)]
pub struct Surroundings<'a> {
    pub declared: Declared<'a>,
    pub variables: &'a [u32],
    pub locals: &'a [u32],
    pub temps: &'a [u32],
    pub kind: u32,
    pub fault: u32,
}

//! Grammars as tables: the derivation of a list of tokens, or the first token that no sentence has there (X.680 and Z.106
//! give grammars by productions; a table is such productions as data).
#![tactic(auto)]

mod reader;
mod rows;
mod run;

pub use reader::{Refusal, derive, each_is_answered, never_deeper, one_derivation};

/// A symbol of a table. A table is a list of rules: each begins with `Rule`, and what stands behind it up to the next
/// `Rule` are its symbols. The rules of a part are its alternatives, counted from 0 in their order. Kinds of tokens are
/// numbers below 128.
#[derive(Clone, Copy, Debug, PartialEq, Eq)]
pub enum Symbol {
    /// A rule of this part begins.
    Rule(u8),
    /// A token of this kind, and what it does to the nesting.
    Token(u8, Nesting),
    /// What one of the rules of this part says.
    Part(u8),
    /// The same, at whose end the nesting is what it was before.
    Scope(u8),
    /// This part or nothing.
    Maybe(u8),
    /// This part any number of times.
    Many(u8),
    /// Nothing, where the next token is not of this kind.
    NotBefore(u8),
}

/// What a token does to the nesting: it is the same behind it, it rises by this number, or it falls by this number, though
/// not below 0.
#[derive(Clone, Copy, Debug, PartialEq, Eq)]
pub enum Nesting {
    Keeps,
    Rises(u8),
    Falls(u8),
}

/// What the test of a table takes for granted of a part, and verifies rule by rule. A set of kinds has the bit k for
/// the kind k.
#[derive(Clone, Copy, Debug, PartialEq, Eq)]
pub struct Part {
    /// The kinds with which its texts may begin.
    pub begins: u128,
    /// The kinds that may stand behind it.
    pub follows: u128,
    /// Whether it may have no token.
    pub empty: bool,
    /// More than the weights of what each rule may begin with.
    pub weight: u32,
    /// More than the ranks of the parts in its least rule.
    pub rank: u32,
    /// The rule of its least text.
    pub least: u8,
    /// The kind with which its least text begins, as a set, or the empty set.
    pub lead: u128,
    /// Kinds that need not be able to stand behind it.
    pub bars: u128,
}

/// What a reader still expects: a symbol, or the end of a scope with the nesting that holds from there on.
#[derive(Clone, Copy, Debug, PartialEq, Eq)]
pub enum Due {
    Expect(Symbol),
    Restore(usize),
}

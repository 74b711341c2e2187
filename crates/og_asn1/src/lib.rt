//! Modules of ASN.1 (X.680): their trees.
#![tactic(auto)]

mod copy;
mod enumeration;
pub mod grammar;
pub mod kind;
mod left;
mod many;
mod module;
mod parse;
pub mod part;
mod run;
mod syntax;
mod types;
mod value;

pub use left::named;
pub use parse::parse_modules;
pub use syntax::{
    AssignmentTree, BaseTree, CompTree, EnumTree, ExportsTree, FractionTree, ImportTree,
    ImportsTree, ModuleTree, Name, OfTree, PresenceTree, RunTree, SignedTree, SizeTree, SymbolTree,
    TagMode, TagTree, Tagging, TaggingTree, TypeTree, ValueNode, ValueTree,
};

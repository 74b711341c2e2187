//! Trees from derivations, and derivations of whole texts: what the readers of all parts of SDL/PR share (Z.106).
#![tactic(auto)]

pub mod kind;
mod left;
mod many;
mod sentence;

pub use kind::kind_of;
pub use left::Left;
pub use many::{Listed, Next, Production, list_in_brackets, list_or_none, maybe, more_of, single};
pub use sentence::{LIMIT, choices_of};

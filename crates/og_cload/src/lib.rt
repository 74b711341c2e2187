//! Which programs of the C subset can be run over a model: the rules of loading, what names stand for, and the globals of a
//! model's interface.
#![tactic(auto)]

pub mod fields;
mod interface;
pub mod kinds;
mod labels;
mod load;
pub mod names;
mod repeats;
mod shapes;
mod types;
mod typing;
mod width;

pub use interface::event_named;
pub use load::broken_rule;

//! Declarations, actions, transitions and procedures of SDL/PR (Z.102 clauses 9, 11 and 12): their trees from derivations.
#![tactic(auto)]

mod action;
mod data;
mod ground;
mod procedure;
mod transition;

pub use data::{DclReader, dcl_of, timer_of};
pub use ground::{HnameReader, NameReader, OwnNameReader, closing_of, end_of, hname_of};
pub use procedure::{ConnectionReader, connection_of, procedure_of};
pub use transition::transition_of;

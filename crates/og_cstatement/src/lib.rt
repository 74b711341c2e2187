//! Programs of the C subset whose names are resolved, and what one statement of them does.
#![tactic(auto)]

mod arithmetic;
mod code;
mod effect;
mod linking;
mod places;
mod position;
mod resolving;
mod stepping;
mod value;

pub use linking::{Linked, link};
pub use position::{Call, Position, Standing};
pub use stepping::step;

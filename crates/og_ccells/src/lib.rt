//! The cells of a program's globals in one vector: where they lie, and the values that they hold.
#![tactic(auto)]

mod first;
mod holds;
pub mod laws;
mod layout;
mod numbers;
mod read;
mod types;
mod write;

pub use first::first_cells;
pub use holds::holds_value;
pub use layout::{Extent, Layout, type_width, width_before};
pub use numbers::number_at;
pub use read::read_value;
pub use write::write_value;

//! Systems, blocks and processes of SDL/PR (Z.102 clauses 9 and 10; Z.106), and whole files: their trees.
#![tactic(auto)]

mod block;
mod ground;
pub mod laws;
mod parse;
mod process;
mod system;

pub use parse::parse_units;

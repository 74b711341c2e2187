//! Systems, blocks and the bodies of processes in the trees of all model files: which body is the process and which ways
//! its signals go, the rules on names of systems and blocks, and those on starts and on transitions that close.
#![tactic(auto)]

mod bodies;
mod closing;
mod counting;
mod declared;
mod ends;
mod known;
mod laws;
mod noting;
mod tables;
mod uses;
mod violations;
mod ways;

pub use bodies::{Body, Home, home_of, process_of};
pub use closing::first_unclosed;
pub use laws::{closing_examples, examples, first_of_violations, one_process};
pub use violations::first_violation;
pub use ways::{DirectedSignal, signals_of};

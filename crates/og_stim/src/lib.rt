//! Stimuli files are read line by line, and traces are written line by line.
#![tactic(auto)]

mod forms;
pub mod laws;
mod lines;
mod show;
mod stimuli;

pub use show::{ActiveLeaf, Happening, TraceEnd, show_end, show_event, show_stimulus};
pub use stimuli::{Cursor, StimError, StimRule, Stimulus, next_stimulus, sorts_of};

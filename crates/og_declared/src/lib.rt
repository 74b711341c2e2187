//! What systems and blocks declare, in the trees of all model files: names that are declared twice or have two underscores
//! side by side, and the types of the parameters of signals.
#![tactic(auto)]

mod known;
mod laws;
mod noting;
mod signals;
mod sorts;
mod spaces;
mod tables;
mod violations;
mod visible;

pub use laws::{
    examples, first_of_violations, seen_as_in_systems, violations_stand_in_units,
    without_violations,
};
pub use violations::{first_violation, note_violations};

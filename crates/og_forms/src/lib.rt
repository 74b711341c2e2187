//! Forms of SDL/PR that are not built yet (rule F1), found in the trees of all model files.
#![tactic(auto)]

mod calls;
mod form;
mod laws;
mod noting;
mod states;
mod transitions;
mod units;

pub use form::{Form, is_built};
pub use laws::{examples, first_of_forms, forms_stand_in_units};
pub use units::first_unbuilt;

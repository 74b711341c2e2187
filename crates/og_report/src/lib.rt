//! Reports of violations: the line that names the rule and the place, and the box of CIF (Z.106) in which an editor draws the
//! symbol at that place.
#![tactic(auto)]

mod examples;
mod find;
mod laws;
mod line;

pub use examples::reports_are_written;
pub use find::report_of;
pub use laws::one_report;
pub use line::report_line;
use og_base::{Place, Rule};
use og_cif::CifBox;

/// A violation: the rule, the place in the model files, and the last box whose comment ends at or before the place.
#[derive(Clone, Copy, Debug, PartialEq, Eq)]
pub struct Report {
    pub rule: Rule,
    pub place: Place,
    pub frame: Option<CifBox>,
}

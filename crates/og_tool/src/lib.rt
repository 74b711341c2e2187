//! The commands of `og`.
#![tactic(auto)]

mod compile;
mod output_laws;
mod program;
mod reading;
mod report;
mod run;
mod running;
mod status;

pub use og_front::{
    first_is_least, models_are_well_formed, models_of_trees, names_are_short, one_answer,
    trees_are_written,
};
pub use og_judge::one_judgement;
pub use og_words::{one_command, words_as_worked_out};
pub use output_laws::{agreeing_is_never_stuck, enough_is_enough, one_output, one_simulation};
pub use run::run_tool;
pub use status::Status;

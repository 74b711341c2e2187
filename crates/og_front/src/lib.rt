//! The front end: from the tokens of a process to the first rule that it breaks, or to its model.
#![tactic(auto)]

mod build;
mod grammar;
mod kind;
mod laws;
mod parse;
mod part;
mod rules;
mod syntax;

pub use build::model_of;
pub use laws::{
    first_is_least, models_are_well_formed, models_of_trees, names_are_short, one_answer,
    sentences_are_texts, trees_are_written,
};
pub use parse::{ParseError, parse_system};
pub use rules::{Tables, first_violation, tables_of};
pub use syntax::SystemText;

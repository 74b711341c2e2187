//! The words of the command line: which command they ask for, and over which files.
#![tactic(auto)]

mod command;
mod laws;

pub use command::{Command, command_of, is_sdl_file};
pub use laws::{one_command, words_as_worked_out};

//! The grammar of SDL/PR (Z.106) as a table of og_grammar.
#![tactic(auto)]

ghost use Rattle.std.specs.Prelude.{IsTrue};
ghost use Rattle.og_grammar.specs.Predictive.{is_predictive};

pub mod part;
mod table;

pub use table::{LAST, SDL, SDL_PARTS};

/// The table can be read from left to right with one token ahead.
pub fn can_be_read()
    ensures { IsTrue (is_predictive SDL SDL_PARTS LAST) }
{}

//! The places in a text that its trees keep (Z.106): those of keywords, names, expressions and marks.
#![tactic(auto)]

mod laws;

pub use laws::places_of_several_files;

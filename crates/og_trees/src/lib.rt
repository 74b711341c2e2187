//! Model files of both languages as trees: the units of SDL/PR (Z.106) and the modules of ASN.1 (X.680) of any number of files,
//! or the first violation of the rules on tokens and on syntax.
#![tactic(auto)]

mod laws;
mod reading;
mod syntax;
mod texts;

pub use laws::{
    examples, names_are_short, one_reading_of_files, places_stand_in_files,
    tokens_stand_in_their_files,
};
use og_asn1::ModuleTree;
use og_ast::Unit;
use og_lexer::Language;
pub use reading::read_trees;
use sqlite_items::Items;

/// A model file: its language, and its bytes.
#[derive(Drop)]
pub struct ModelFile {
    pub language: Language,
    pub bytes: Vec<u8>,
}

/// The trees of model files: the modules of those of ASN.1 and the units of those of SDL/PR, each in the order of the files.
#[derive(Drop)]
pub struct Trees {
    pub modules: Items<ModuleTree>,
    pub units: Items<Unit>,
}

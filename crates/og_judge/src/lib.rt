//! Model files that are judged: the model of the files of a command, or the first rule that they violate.
#![tactic(auto)]

mod judging;
mod laws;
mod texts;
mod trees;

pub use judging::judge;
pub use laws::one_judgement;
use og_lexer::Language;

/// A model file: its language, and its bytes.
#[derive(Drop)]
pub struct ModelFile {
    pub language: Language,
    pub bytes: Vec<u8>,
}

//! Boxes of CIF (Z.106): comments in which an editor keeps where a symbol is drawn, and how large.
#![tactic(auto)]

mod comments;
mod examples;
mod laws;
mod read;
mod symbols;

pub use comments::{attach, is_before};
pub use examples::{boxes_are_read, others_are_plain};
pub use laws::{lexed_comments_stand, one_list_of_boxes};
use og_base::Place;
pub use read::read_cif;
use sqlite_items::Items;

/// What is drawn at a box, by the word that stands in its comment.
#[derive(Clone, Copy, Debug, PartialEq, Eq)]
pub enum Symbol {
    Start,
    State,
    Input,
    Output,
    Task,
    Decision,
    Answer,
    Nextstate,
    Join,
    Label,
    Procedurecall,
    Procedure,
    Provided,
    Connect,
    Return,
    Stop,
    Text,
    Comment,
    Process,
}

/// A box: the symbol, the place of its upper left corner, and its width and height, in the units of the drawing.
#[derive(Clone, Copy, Debug, PartialEq, Eq)]
pub struct CifBox {
    pub symbol: Symbol,
    pub x: i32,
    pub y: i32,
    pub w: i32,
    pub h: i32,
}

/// A box with the place just behind its comment.
#[derive(Clone, Copy, Debug, PartialEq, Eq)]
pub struct BoxEnd {
    pub end: Place,
    pub frame: CifBox,
}

/// The boxes of a file, in its order.
#[derive(Debug, Drop)]
pub struct Boxes {
    pub list: Items<BoxEnd>,
}

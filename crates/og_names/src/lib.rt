//! Names: words of bytes, and a table that numbers folded names in the order in which they come.
#![tactic(auto)]

mod laws;
mod memory;
mod names;
mod spelling;

pub use laws::{
    absent_names_have_none, earlier_numbers_stay, folding_twice, numbers_lead_back,
    one_number_for_one_name,
};
pub use memory::NoMemory;
pub use names::Names;
use sqlite_items::Items;

/// The number of a folded name in a table of names, counted from 0.
#[derive(Clone, Copy, Debug, PartialEq, Eq)]
pub struct NameId(pub u32);

/// A list of bytes, such as the spelling of a name.
#[derive(Debug, Drop)]
pub struct Word {
    pub bytes: Items<u8>,
}

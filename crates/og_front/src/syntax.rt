//! The tree of a model file: one process of basic states, with its signals and the block around it (Z.106, the textual
//! form of the state machines of Z.101 and Z.102).
use og_base::Place;
use og_names::Word;
use sqlite_items::Items;

/// A name as it stands in the text.
#[derive(Drop)]
pub struct Ident {
    pub place: Place,
    pub word: Word,
}

/// SYSTEM with its signals, its block and the process of the block.
#[derive(Drop)]
pub struct SystemText {
    pub system: Ident,
    pub signals: Items<SignalText>,
    pub block: Ident,
    pub process: Ident,
    pub start: StartText,
    pub states: Items<StateText>,
}

/// SIGNAL with one name or more.
#[derive(Drop)]
pub struct SignalText {
    pub first: Ident,
    pub others: Items<Ident>,
}

/// START, whose keyword stands at the place, and its NEXTSTATE.
#[derive(Drop)]
pub struct StartText {
    pub place: Place,
    pub next: NextText,
}

/// STATE with a name and its inputs.
#[derive(Drop)]
pub struct StateText {
    pub name: Ident,
    pub inputs: Items<InputText>,
}

/// INPUT, whose keyword stands at the place, with a signal, the signals that are put out, and NEXTSTATE.
#[derive(Drop)]
pub struct InputText {
    pub place: Place,
    pub signal: Ident,
    pub outputs: Items<Ident>,
    pub next: NextText,
}

/// NEXTSTATE, whose keyword stands at the place, with the name of a state.
#[derive(Drop)]
pub struct NextText {
    pub place: Place,
    pub state: Ident,
}

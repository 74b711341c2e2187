//! What a process of basic states says, taken out of the trees of all files: its signals, its starts and its states.
#![tactic(auto)]

mod copies;
mod laws;
mod outlining;
mod signals;
mod transitions;

pub use laws::{around_is_seen, outlines_are_closed, outlines_of_texts};
use og_ast::Name;
use og_base::Place;
use og_names::Word;
pub use outlining::outline_of;
use sqlite_items::Items;

/// What the process says, and what stands around it. It is the outline of texts whose forms are all built.
#[derive(Drop)]
pub struct Outline {
    pub process: Name,
    /// The names of all that is visible where the process stands: what its block declares, what its system declares, and
    /// the bodies at file level.
    pub around: Items<Name>,
    /// The signals of all systems and blocks, in the order of the text.
    pub signals: Items<SignalOutline>,
    /// The starts without a name.
    pub starts: Items<StartOutline>,
    /// One for each STATE, in the order of the text.
    pub states: Items<StateOutline>,
}

/// A signal with the types of its parameters.
#[derive(Drop)]
pub struct SignalOutline {
    pub name: Name,
    pub sorts: Items<SortOutline>,
    /// Whether the block of the process declares it, or its system.
    pub visible: bool,
    /// Whether a way that carries it leads to the process.
    pub incoming: bool,
    /// Whether a way that carries it leads from the process.
    pub outgoing: bool,
}

/// The name of a type as SIGNAL has it, with its hyphens. It may be longer than any name that is declared.
#[derive(Drop)]
pub struct SortOutline {
    pub place: Place,
    pub word: Word,
}

/// START, whose keyword stands at the place, with its transition.
#[derive(Drop)]
pub struct StartOutline {
    pub place: Place,
    pub steps: Items<StepOutline>,
    pub next: NextOutline,
}

/// STATE with a name and its inputs.
#[derive(Drop)]
pub struct StateOutline {
    pub name: Name,
    pub inputs: Items<InputOutline>,
}

/// INPUT, whose keyword stands at the place, with a signal and its transition.
#[derive(Drop)]
pub struct InputOutline {
    pub place: Place,
    pub signal: Name,
    pub steps: Items<StepOutline>,
    pub next: NextOutline,
}

/// A step of a transition.
#[derive(Drop)]
pub enum StepOutline {
    /// TASK with a text. The keyword stands at the place.
    Nothing(Place),
    /// OUTPUT of a signal without values.
    Output(Name),
}

/// NEXTSTATE, whose keyword stands at the place, with the name of a state.
#[derive(Drop)]
pub struct NextOutline {
    pub place: Place,
    pub state: Name,
}

//! Basic states and the headers of states.
ghost use Rattle.std.specs.Prelude.{◌≡◌, IfOk};
ghost use Rattle.og_reading.specs.Reading.{rest_of};
ghost use Rattle.og_parse_state.specs.Reading.{state_body_at, header_at, several_at, all_states_at};

use crate::basic::PartReader;
use og_ast::{EndTree, InnerTree, ListTree, Name, StateTree};
use og_base::Place;
use og_names::NoMemory;
use og_parse_body::{NameReader, closing_of, end_of};
use og_reading::{Left, Next, Production, list_in_brackets, more_of};
use sqlite_items::Items;
use std::alloc::Global;

/// `STATE name end`, the header of a state that has one name.
#[derive(Drop)]
pub struct HeaderText {
    pub place: Place,
    pub name: Name,
    pub end: EndTree,
}

/// `header = STATE name end`
#[tactic(auto, unfolding(crate::specs::Reading::header_at))]
pub fn header_of<'a>(alloc: Global, from: Left<'a>) -> Result<(HeaderText, Left<'a>), NoMemory>
    ensures { IfOk result (λ x. (x.0, rest_of x.1) ≡ header_at (rest_of from.entry)) }
{
    let start = from.after();
    let place = start.place();
    let name = start.behind().name(alloc)?;
    let (end, from) = end_of(alloc, start.behind().behind())?;
    Ok((HeaderText { place, name, end }, from))
}

/// `state_body = { state_part } ENDSTATE closing`, behind the list of the state and its end.
#[tactic(auto, unfolding(crate::specs::Reading::state_body_at))]
pub fn state_body_of<'a>(
    alloc: Global,
    fuel: usize,
    place: Place,
    list: ListTree,
    end: EndTree,
    from: Left<'a>,
) -> Result<(StateTree, Left<'a>), NoMemory>
    ensures { IfOk result (λ x. (x.0, rest_of x.1) ≡ state_body_at fuel place list end (rest_of from.entry)) }
{
    let (parts, from) = more_of::<PartReader>(alloc, fuel, Items::new(alloc), from.after())?;
    let (closing, from) = closing_of(alloc, from.place(), from.behind())?;
    let state = StateTree {
        place,
        list,
        end,
        parts,
        closing,
    };
    Ok((state, from))
}

/// `more_name { more_name } end state_body`, behind the first name of the state.
#[tactic(auto, unfolding(crate::specs::Reading::several_at))]
pub fn several_of<'a>(
    alloc: Global,
    fuel: usize,
    place: Place,
    name: Name,
    from: Left<'a>,
) -> Result<(InnerTree, Left<'a>), NoMemory>
    ensures { IfOk result (λ x. (x.0, rest_of x.1) ≡ several_at fuel place name (rest_of from.entry)) }
{
    let (second, from) = Next::<NameReader>::read(alloc, fuel, from)?;
    let mut names = Items::new(alloc);
    names.push(name)?;
    names.push(second)?;
    let (names, from) = more_of::<Next<NameReader>>(alloc, fuel, names, from)?;
    let (end, from) = end_of(alloc, from)?;
    let list = ListTree::Names(names);
    let (state, from) = state_body_of(alloc, fuel, place, list, end, from)?;
    Ok((InnerTree::State(state), from))
}

/// `"*" [ name_list ] end state_body`
#[tactic(auto, unfolding(crate::specs::Reading::all_states_at))]
pub fn all_states_of<'a>(
    alloc: Global,
    fuel: usize,
    place: Place,
    from: Left<'a>,
) -> Result<(InnerTree, Left<'a>), NoMemory>
    ensures { IfOk result (λ x. (x.0, rest_of x.1) ≡ all_states_at fuel place (rest_of from.entry)) }
{
    let star = from.place();
    let (names, from) = list_in_brackets::<NameReader>(alloc, fuel, from.behind())?;
    let (end, from) = end_of(alloc, from)?;
    let list = ListTree::All(star, names);
    let (state, from) = state_body_of(alloc, fuel, place, list, end, from)?;
    Ok((InnerTree::State(state), from))
}

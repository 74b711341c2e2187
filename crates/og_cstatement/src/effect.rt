//! What a statement does (C99 6.8). Nothing is changed yet.
#![tactic(auto, using(og_names::proofs::Loops::loops, crate::proofs::Done::done))]

ghost use Rattle.std.specs.Prelude.{◌≡◌};
ghost use Rattle.og_cstatement.specs.Effects.{effect_view};
ghost use Rattle.og_cstatement.specs.Halts.{Tells};
ghost use Rattle.og_cstatement.specs.Meaning.{assigned as assigned_in, copied_from as copied_in, branched as branched_in, gone as gone_in, switched as switched_in, place_of_case as place_of_case_in, effect_of as effect_in};

use crate::code::{Case, Expression, Place, Statement};
use crate::value::{holds, place_of, value_of};
use og_model::{EventId, StuckRule};

/// What a statement does: it goes on behind it, goes on at a place of the body, puts a number, copies so many cells to the first
/// place from the second, calls a function, shows an event, or returns.
#[derive(Clone, Copy, Debug)]
pub enum Effect {
    Onward,
    At(usize),
    Put(usize, i64),
    Copy(usize, usize, usize),
    Enter(usize),
    Show(EventId),
    Back,
}

/// What a statement does.
pub fn effect_of(statement: &Statement, cells: &[i64]) -> Result<Effect, StuckRule>
    ensures { Tells effect_view result (effect_in cells.now statement.now) }
{
    match statement {
        Statement::Assign(place, number) => assigned(place, number, cells),
        Statement::Copy(place, from, width) => copied(place, from, *width, cells),
        Statement::Branch(test, place) => {
            let taken = holds(test, cells)?;
            branched(*place, taken)
        }
        Statement::Goto(place) => gone(*place),
        Statement::Label => Ok(Effect::Onward),
        Statement::Switch(number, cases, otherwise) => {
            let number = value_of(number, cells)?;
            switched(cases.as_slice(), *otherwise, number)
        }
        Statement::Event(None) => Err(StuckRule::Value),
        Statement::Event(Some(event)) => Ok(Effect::Show(*event)),
        Statement::Call(None) => Err(StuckRule::Value),
        Statement::Call(Some(function)) => Ok(Effect::Enter(*function)),
        Statement::Return => Ok(Effect::Back),
    }
}

/// A number is put at a place, which is found before the number.
fn assigned(place: &Place, number: &Expression, cells: &[i64]) -> Result<Effect, StuckRule>
    ensures { Tells effect_view result (assigned_in cells.now place.now number.now) }
{
    let at = place_of(place, cells)?;
    let number = value_of(number, cells)?;
    Ok(Effect::Put(at, number))
}

/// The cells of a place are put at another, which is found first.
fn copied(place: &Place, from: &Place, width: u32, cells: &[i64]) -> Result<Effect, StuckRule>
    ensures { Tells effect_view result (copied_in cells.now place.now from.now width) }
{
    let to = place_of(place, cells)?;
    let source = place_of(from, cells)?;
    Ok(Effect::Copy(to, source, width as usize))
}

/// Goes on at a place that is there.
fn gone(place: Option<usize>) -> Result<Effect, StuckRule>
    ensures { Tells effect_view result (gone_in place) }
{
    match place {
        None => Err(StuckRule::Value),
        Some(place) => Ok(Effect::At(place)),
    }
}

fn branched(place: Option<usize>, taken: bool) -> Result<Effect, StuckRule>
    ensures { Tells effect_view result (branched_in place taken) }
{
    if taken {
        return gone(place);
    }
    Ok(Effect::Onward)
}

fn switched(cases: &[Case], otherwise: Option<usize>, number: i64) -> Result<Effect, StuckRule>
    ensures { Tells effect_view result (switched_in cases.now otherwise number) }
{
    gone(place_of_case(cases, otherwise, number))
}

/// The place of the case that has the number, or else the last one.
fn place_of_case(cases: &[Case], otherwise: Option<usize>, number: i64) -> Option<usize>
    ensures { result ≡ place_of_case_in number cases.now otherwise }
{
    for case in cases {
        if number == case.value {
            return case.place;
        }
    }
    otherwise
}

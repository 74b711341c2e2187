//! One statement of a run.
#![tactic(auto, using(crate::proofs::Moving::moving))]

ghost use Rattle.std.specs.Prelude.{◌≡◌, ◌<◌, List, Ok, length, slice_set};
ghost use Rattle.og_ir.specs.Cells.{Cells};
ghost use Rattle.og_csubset.specs.Loading.{Loads, cells_of_globals};
ghost use Rattle.og_ccells.specs.Vectors.{trees_of, copied};
ghost use Rattle.og_cstatement.specs.Effects.{effect_view, moved as moved_by, event_shown, shifted, entered, left, IsNext, EntersBelow, CallsEarlier, after, event_after, cells_after, effect_next, next_config, next_event, next_cells};
ghost use Rattle.og_cstatement.specs.Links.{linked_of, IsStep};
ghost use Rattle.og_cstatement.specs.Meaning as meaning;
ghost use Rattle.og_cstatement.specs.Meaning.{effect_of as effect_in, cells_by};
ghost use Rattle.og_cstatement.specs.Positions.{config_of};

use crate::code::Statement;
use crate::effect::{Effect, effect_of};
use crate::linking::Linked;
use crate::position::{Call, Position, Standing};
use og_csubset::CProgram;
use og_model::{EventId, Model, StuckRule};
use sqlite_items::at;

/// Carries out one statement. Where it calls an event, the event is the answer, and the run stands behind the call. Names are
/// not looked up: the program and the model are there for what is promised.
pub fn step(
    program: &CProgram,
    model: &Model,
    linked: &Linked,
    cells: &mut Vec<i64>,
    position: &mut Position,
) -> Option<EventId>
    requires linked { linked.now ≡ linked_of program.now model.now }
    requires loads { Loads program.now model.now }
    requires cells { length cells.old.items ≡ cells_of_globals program.now }
    ensures step { IsStep program.now model.now (trees_of program.now cells.old.items) position.old (trees_of program.now cells.new.items) position.new result }
    ensures cells { length cells.new.items ≡ cells_of_globals program.now }
    ensures functions { position.new.functions ≡ position.old.functions }
{
    advance(linked, cells, position)
}

/// Carries out the statement where the run stands, or returns at the end of a function. A run that is over or stuck stays.
fn advance(linked: &Linked, cells: &mut Vec<i64>, position: &mut Position) -> Option<EventId>
    requires { CallsEarlier linked.now }
    ensures moved { (g : List Cells) → config_of g position.new ≡ next_config (effect_next linked.now cells.old.items position.old.standing) (config_of g position.old) }
    ensures shown { result ≡ next_event (effect_next linked.now cells.old.items position.old.standing) }
    ensures changed { cells.new.items ≡ next_cells (effect_next linked.now cells.old.items position.old.standing) cells.old.items }
    ensures functions { position.new.functions ≡ position.old.functions }
{
    let Standing::Running(call) = position.standing else {
        return None;
    };
    let Some(body) = linked.functions.get(call.function) else {
        position.standing = Standing::Stuck(StuckRule::Value);
        return None;
    };
    let statements = body.statements.as_slice();
    let Some(statement) = at(statements, call.place) else {
        position.leave();
        return None;
    };
    let next = Call {
        function: call.function,
        place: call.place + 1,
    };
    carry(statement, next, cells, position)
}

/// Carries out a statement, where the place behind it is known.
fn carry(
    statement: &Statement,
    next: Call,
    cells: &mut Vec<i64>,
    position: &mut Position,
) -> Option<EventId>
    requires next { IsNext next position.old.standing }
    requires earlier { (effect : meaning.Effect) → effect_in cells.old.items statement.now ≡ Ok effect → EntersBelow next.function effect }
    ensures moved { (g : List Cells) → config_of g position.new ≡ after (effect_in cells.old.items statement.now) (config_of g position.old) }
    ensures shown { result ≡ event_after (effect_in cells.old.items statement.now) }
    ensures changed { cells.new.items ≡ cells_after (effect_in cells.old.items statement.now) cells.old.items }
    ensures functions { position.new.functions ≡ position.old.functions }
{
    match effect_of(statement, cells.as_slice()) {
        Ok(effect) => take_effect(effect, next, cells, position),
        Err(rule) => {
            position.standing = Standing::Stuck(rule);
            None
        }
    }
}

/// Does what a statement does.
fn take_effect(
    effect: Effect,
    next: Call,
    cells: &mut Vec<i64>,
    position: &mut Position,
) -> Option<EventId>
    requires next { IsNext next position.old.standing }
    requires earlier { EntersBelow next.function (effect_view effect) }
    ensures moved { (g : List Cells) → config_of g position.new ≡ moved_by (effect_view effect) (config_of g position.old) }
    ensures shown { result ≡ event_shown (effect_view effect) }
    ensures changed { cells.new.items ≡ cells_by (effect_view effect) cells.old.items }
    ensures functions { position.new.functions ≡ position.old.functions }
{
    match effect {
        Effect::Onward => {
            position.go_to(next);
            None
        }
        Effect::At(place) => {
            position.go_to(Call {
                function: next.function,
                place,
            });
            None
        }
        Effect::Put(place, number) => {
            put(cells, place, number);
            position.go_to(next);
            None
        }
        Effect::Copy(to, from, width) => {
            copy(cells, to, from, width);
            position.go_to(next);
            None
        }
        Effect::Enter(function) => {
            position.enter(next, function);
            None
        }
        Effect::Show(event) => {
            position.go_to(next);
            Some(event)
        }
        Effect::Back => {
            position.leave();
            None
        }
    }
}

/// Puts a number at a place that is there.
fn put(cells: &mut Vec<i64>, place: usize, number: i64)
    ensures { cells.new.items ≡ slice_set cells.old.items place number }
{
    if place < cells.len() {
        cells[place] = number;
    }
}

/// Copies so many cells from one place to another, where both are there.
fn copy(cells: &mut Vec<i64>, to: usize, from: usize, width: usize)
    ensures { cells.new.items ≡ copied to from width cells.old.items }
{
    let length = cells.len();
    if width <= length && to <= length - width && from <= length - width {
        cells.copy_within(from..from + width, to);
    }
}

//! Starts, and what triggers the transitions of a state.
ghost use Rattle.std.specs.Prelude.{◌≡◌, IfOk};
ghost use Rattle.og_reading.specs.Reading.{rest_of};
ghost use Rattle.og_parse_state.specs.Reading.{start_at, in_at, enabling_at, input_at, priority_at, provided_at, connect_at, save_at, part_at, direction_at, points_at};

use og_ast::{
    ConnectTree, EnablingTree, InTree, InputTree, PartTree, PointsTree, PriorityTree, ProvidedTree,
    SaveTree, StartTree,
};
use og_base::Place;
use og_names::NoMemory;
use og_parse_body::{NameReader, OwnNameReader, end_of, transition_of};
use og_parse_expr::expr_of;
use og_reading::{Left, Listed, Production, list_in_brackets, list_or_none, maybe};
use std::alloc::Global;

/// `start = START [ own_name ] end transition`
#[tactic(auto, unfolding(crate::specs::Reading::start_at))]
pub fn start_of<'a>(
    alloc: Global,
    fuel: usize,
    from: Left<'a>,
) -> Result<(StartTree, Left<'a>), NoMemory>
    ensures { IfOk result (λ x. (x.0, rest_of x.1) ≡ start_at fuel (rest_of from.entry)) }
{
    let start = from.after();
    let place = start.place();
    let (name, from) = maybe::<OwnNameReader>(alloc, fuel, start.behind())?;
    let (end, from) = end_of(alloc, from)?;
    let (transition, from) = transition_of(alloc, fuel, from)?;
    let start = StartTree {
        place,
        name,
        end,
        transition,
    };
    Ok((start, from))
}

/// `state_part = INPUT .. | PROVIDED .. | CONNECT .. | SAVE ..`
pub struct PartReader;

impl Production for PartReader {
    type Tree = PartTree;

    ghost at = { part_at };

    #[tactic(auto, unfolding(crate::specs::Reading::part_at))]
    fn read<'a>(
        alloc: Global,
        fuel: usize,
        from: Left<'a>,
    ) -> Result<(PartTree, Left<'a>), NoMemory> {
        let start = from.after();
        match from.choice() {
            0 => {
                let (input, from) = input_of(alloc, fuel, start)?;
                Ok((PartTree::Input(input), from))
            }
            1 => {
                let (provided, from) = provided_of(alloc, fuel, start)?;
                Ok((PartTree::Provided(provided), from))
            }
            2 => {
                let (connect, from) = connect_of(alloc, fuel, start)?;
                Ok((PartTree::Connect(connect), from))
            }
            _ => {
                let (save, from) = save_of(alloc, fuel, start)?;
                Ok((PartTree::Save(save), from))
            }
        }
    }
}

/// `INPUT inputs end enabling transition`
#[tactic(auto, unfolding(crate::specs::Reading::input_at))]
fn input_of<'a>(
    alloc: Global,
    fuel: usize,
    from: Left<'a>,
) -> Result<(InputTree, Left<'a>), NoMemory>
    ensures { IfOk result (λ x. (x.0, rest_of x.1) ≡ input_at fuel (rest_of from.entry)) }
{
    let place = from.place();
    let (inputs, from) = Listed::<InReader>::read(alloc, fuel, from.behind())?;
    let (end, from) = end_of(alloc, from)?;
    let (enabling, from) = enabling_of(alloc, fuel, from)?;
    let (transition, from) = transition_of(alloc, fuel, from)?;
    let input = InputTree {
        place,
        inputs,
        end,
        enabling,
        transition,
    };
    Ok((input, from))
}

/// `input = name [ name_list ]`
struct InReader;

impl Production for InReader {
    type Tree = InTree;

    ghost at = { λ n. in_at };

    #[tactic(auto, unfolding(crate::specs::Reading::in_at))]
    fn read<'a>(
        alloc: Global,
        fuel: usize,
        from: Left<'a>,
    ) -> Result<(InTree, Left<'a>), NoMemory> {
        let start = from.after();
        let signal = start.name(alloc)?;
        let (variables, from) = list_in_brackets::<NameReader>(alloc, fuel, start.behind())?;
        Ok((InTree { signal, variables }, from))
    }
}

/// `enabling = PROVIDED expr end |` nothing
#[tactic(auto, unfolding(crate::specs::Reading::enabling_at))]
fn enabling_of<'a>(
    alloc: Global,
    fuel: usize,
    from: Left<'a>,
) -> Result<(Option<EnablingTree>, Left<'a>), NoMemory>
    ensures { IfOk result (λ x. (x.0, rest_of x.1) ≡ enabling_at fuel (rest_of from.entry)) }
{
    let start = from.after();
    if from.choice() != 0 {
        return Ok((None, start));
    }
    let place = start.place();
    let (condition, from) = expr_of(alloc, fuel, start.behind())?;
    let (end, from) = end_of(alloc, from)?;
    let enabling = EnablingTree {
        place,
        condition,
        end,
    };
    Ok((Some(enabling), from))
}

/// `PROVIDED expr end [ priority ] transition`
#[tactic(auto, unfolding(crate::specs::Reading::provided_at))]
fn provided_of<'a>(
    alloc: Global,
    fuel: usize,
    from: Left<'a>,
) -> Result<(ProvidedTree, Left<'a>), NoMemory>
    ensures { IfOk result (λ x. (x.0, rest_of x.1) ≡ provided_at fuel (rest_of from.entry)) }
{
    let place = from.place();
    let (condition, from) = expr_of(alloc, fuel, from.behind())?;
    let (end, from) = end_of(alloc, from)?;
    let (priority, from) = maybe::<PriorityReader>(alloc, fuel, from)?;
    let (transition, from) = transition_of(alloc, fuel, from)?;
    let provided = ProvidedTree {
        place,
        condition,
        end,
        priority,
        transition,
    };
    Ok((provided, from))
}

/// `priority = PRIORITY number end`
struct PriorityReader;

impl Production for PriorityReader {
    type Tree = PriorityTree;

    ghost at = { λ n. priority_at };

    #[tactic(auto, unfolding(crate::specs::Reading::priority_at))]
    fn read<'a>(
        alloc: Global,
        _fuel: usize,
        from: Left<'a>,
    ) -> Result<(PriorityTree, Left<'a>), NoMemory> {
        let start = from.after();
        let place = start.place();
        let number = start.behind().number();
        let (end, from) = end_of(alloc, start.behind().behind())?;
        Ok((PriorityTree { place, number, end }, from))
    }
}

/// `CONNECT [ names ] end transition`
#[tactic(auto, unfolding(crate::specs::Reading::connect_at))]
fn connect_of<'a>(
    alloc: Global,
    fuel: usize,
    from: Left<'a>,
) -> Result<(ConnectTree, Left<'a>), NoMemory>
    ensures { IfOk result (λ x. (x.0, rest_of x.1) ≡ connect_at fuel (rest_of from.entry)) }
{
    let place = from.place();
    let (names, from) = list_or_none::<NameReader>(alloc, fuel, from.behind())?;
    let (end, from) = end_of(alloc, from)?;
    let (transition, from) = transition_of(alloc, fuel, from)?;
    let connect = ConnectTree {
        place,
        names,
        end,
        transition,
    };
    Ok((connect, from))
}

/// `SAVE names end`
#[tactic(auto, unfolding(crate::specs::Reading::save_at))]
fn save_of<'a>(alloc: Global, fuel: usize, from: Left<'a>) -> Result<(SaveTree, Left<'a>), NoMemory>
    ensures { IfOk result (λ x. (x.0, rest_of x.1) ≡ save_at (rest_of from.entry)) }
{
    let place = from.place();
    let (names, from) = Listed::<NameReader>::read(alloc, fuel, from.behind())?;
    let (end, from) = end_of(alloc, from)?;
    Ok((SaveTree { place, names, end }, from))
}

/// `points = direction "(" names ")" end`
pub struct PointsReader;

impl Production for PointsReader {
    type Tree = PointsTree;

    ghost at = { λ n. points_at };

    #[tactic(auto, unfolding(crate::specs::Reading::points_at))]
    fn read<'a>(
        alloc: Global,
        fuel: usize,
        from: Left<'a>,
    ) -> Result<(PointsTree, Left<'a>), NoMemory> {
        let ((place, out), from) = direction_of(from.after());
        let (names, from) = Listed::<NameReader>::read(alloc, fuel, from.behind())?;
        let (end, from) = end_of(alloc, from.behind())?;
        let points = PointsTree {
            place,
            out,
            names,
            end,
        };
        Ok((points, from))
    }
}

/// `direction = IN | OUT`, with its place.
#[tactic(auto, unfolding(crate::specs::Reading::direction_at))]
fn direction_of(from: Left<'_>) -> ((Place, bool), Left<'_>)
    ensures { (result.0, rest_of result.1) ≡ direction_at (rest_of from.entry) }
{
    let start = from.after();
    if from.choice() == 0 {
        ((start.place(), false), start.behind())
    } else {
        ((start.place(), true), start.behind())
    }
}

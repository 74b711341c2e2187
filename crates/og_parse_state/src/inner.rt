//! What stands in a process or in a composite state. `fuel` bounds how many composite states, decisions, expressions and the
//! like stand one inside the other.
ghost use Rattle.std.specs.Prelude.{◌≡◌, [], IfOk};
ghost use Rattle.og_reading.specs.Reading.{rest_of, more_of};
ghost use Rattle.og_parse_state.specs.Reading.{composite_body_at, one_state_at, partition_at, first_composite_at, aggregated_at, aggregation_body_at, after_one_at, after_state_name_at, aggregation_at, state_at, no_inner, inner_by, inner_at};

use crate::aggregation::{PlainReader, SoFar, begun_of, empty_of};
use crate::basic::{PointsReader, start_of};
use crate::state::{HeaderText, all_states_of, header_of, several_of, state_body_of};
use og_ast::{
    AggregationPart, AggregationTree, CompositeTree, EndTree, InnerTree, ListTree, Name, TimerTree,
};
use og_base::Place;
use og_names::NoMemory;
use og_parse_body::{closing_of, connection_of, dcl_of, end_of, procedure_of, timer_of};
use og_parse_expr::one_less;
use og_reading::{Left, Production, more_of, single};
use sqlite_items::Items;
use std::alloc::Global;

/// The same, as a production.
pub struct InnerReader;

impl Production for InnerReader {
    type Tree = InnerTree;

    ghost at = { inner_at };

    fn read<'a>(
        alloc: Global,
        fuel: usize,
        from: Left<'a>,
    ) -> Result<(InnerTree, Left<'a>), NoMemory> {
        inner_of(alloc, fuel, from)
    }
}

/// `inner = dcl | timer | procedure | start | STATE state | connection`
#[cycle(inner)]
#[tactic(auto, unfolding(crate::specs::Reading::inner_at))]
pub fn inner_of<'a>(
    alloc: Global,
    fuel: usize,
    from: Left<'a>,
) -> Result<(InnerTree, Left<'a>), NoMemory>
    ensures { IfOk result (λ x. (x.0, rest_of x.1) ≡ inner_at fuel (rest_of from.entry)) }
{
    let Some(less) = one_less(fuel) else {
        return Ok((no_inner(alloc, from), from));
    };
    inner_by(alloc, less, from)
}

/// What is made where nothing is left to go by.
fn no_inner(alloc: Global, from: Left<'_>) -> InnerTree
    ensures { result ≡ no_inner (rest_of from.entry) }
{
    let place = from.place();
    InnerTree::Timer(TimerTree {
        place,
        names: Items::new(alloc),
        end: EndTree {
            place,
            comment: None,
        },
    })
}

/// The same, with one state less further inside.
#[cycle(inner)]
#[tactic(auto, unfolding(crate::specs::Reading::inner_by))]
fn inner_by<'a>(
    alloc: Global,
    fuel: usize,
    from: Left<'a>,
) -> Result<(InnerTree, Left<'a>), NoMemory>
    ensures { IfOk result (λ x. (x.0, rest_of x.1) ≡ inner_by fuel (inner_at fuel) (rest_of from.entry)) }
{
    let start = from.after();
    match from.choice() {
        0 => {
            let (dcl, from) = dcl_of(alloc, fuel, start)?;
            Ok((InnerTree::Dcl(dcl), from))
        }
        1 => {
            let (timer, from) = timer_of(alloc, start)?;
            Ok((InnerTree::Timer(timer), from))
        }
        2 => {
            let (procedure, from) = procedure_of(alloc, fuel, start)?;
            Ok((InnerTree::Procedure(procedure), from))
        }
        3 => {
            let (start, from) = start_of(alloc, fuel, start)?;
            Ok((InnerTree::Start(start), from))
        }
        4 => state_of(alloc, fuel, start.place(), start.behind()),
        _ => {
            let (connection, from) = connection_of(alloc, fuel, start)?;
            Ok((InnerTree::Connection(connection), from))
        }
    }
}

/// `state = AGGREGATION .. | "*" .. | name after_state_name`, behind a STATE at this place.
#[cycle(inner)]
#[tactic(auto, unfolding(crate::specs::Reading::state_at))]
fn state_of<'a>(
    alloc: Global,
    fuel: usize,
    place: Place,
    from: Left<'a>,
) -> Result<(InnerTree, Left<'a>), NoMemory>
    ensures { IfOk result (λ x. (x.0, rest_of x.1) ≡ state_at fuel (inner_at fuel) place (rest_of from.entry)) }
{
    let start = from.after();
    match from.choice() {
        0 => aggregation_of(alloc, fuel, place, start),
        1 => all_states_of(alloc, fuel, place, start),
        _ => {
            let name = start.name(alloc)?;
            after_state_name_of(alloc, fuel, place, name, start.behind())
        }
    }
}

/// `AGGREGATION name end aggregation_body`
#[cycle(inner)]
#[tactic(auto, unfolding(crate::specs::Reading::aggregation_at))]
fn aggregation_of<'a>(
    alloc: Global,
    fuel: usize,
    place: Place,
    from: Left<'a>,
) -> Result<(InnerTree, Left<'a>), NoMemory>
    ensures { IfOk result (λ x. (x.0, rest_of x.1) ≡ aggregation_at fuel (inner_at fuel) place (rest_of from.entry)) }
{
    let start = from.behind();
    let name = start.name(alloc)?;
    let (end, from) = end_of(alloc, start.behind())?;
    let header = HeaderText { place, name, end };
    let (aggregation, from) = aggregation_body_of(alloc, fuel, header, from)?;
    Ok((InnerTree::Aggregation(aggregation), from))
}

/// `after_state_name = more_name { more_name } end state_body | end after_one_state`
#[cycle(inner)]
#[tactic(auto, unfolding(crate::specs::Reading::after_state_name_at))]
fn after_state_name_of<'a>(
    alloc: Global,
    fuel: usize,
    place: Place,
    name: Name,
    from: Left<'a>,
) -> Result<(InnerTree, Left<'a>), NoMemory>
    ensures { IfOk result (λ x. (x.0, rest_of x.1) ≡ after_state_name_at fuel (inner_at fuel) place name (rest_of from.entry)) }
{
    let start = from.after();
    if from.choice() == 0 {
        return several_of(alloc, fuel, place, name, start);
    }
    let (end, from) = end_of(alloc, start)?;
    let header = HeaderText { place, name, end };
    after_one_of(alloc, fuel, header, from)
}

/// `after_one_state = composite_body | state_body`
#[cycle(inner)]
#[tactic(auto, unfolding(crate::specs::Reading::after_one_at))]
fn after_one_of<'a>(
    alloc: Global,
    fuel: usize,
    header: HeaderText,
    from: Left<'a>,
) -> Result<(InnerTree, Left<'a>), NoMemory>
    ensures { IfOk result (λ x. (x.0, rest_of x.1) ≡ after_one_at fuel (inner_at fuel) header (rest_of from.entry)) }
{
    let start = from.after();
    if from.choice() == 0 {
        let (composite, from) = composite_body_of(alloc, fuel, header, start)?;
        return Ok((InnerTree::Composite(composite), from));
    }
    let list = ListTree::Names(single(alloc, header.name)?);
    let (state, from) = state_body_of(alloc, fuel, header.place, list, header.end, start)?;
    Ok((InnerTree::State(state), from))
}

/// `composite_body = SUBSTRUCTURE { points } { inner } ENDSUBSTRUCTURE closing`, behind the header of the state.
#[cycle(inner)]
#[tactic(auto, unfolding(crate::specs::Reading::composite_body_at))]
fn composite_body_of<'a>(
    alloc: Global,
    fuel: usize,
    header: HeaderText,
    from: Left<'a>,
) -> Result<(CompositeTree, Left<'a>), NoMemory>
    ensures { IfOk result (λ x. (x.0, rest_of x.1) ≡ composite_body_at (inner_at fuel) header (rest_of from.entry)) }
{
    let start = from.after().behind();
    let (points, from) = more_of::<PointsReader>(alloc, fuel, Items::new(alloc), start)?;
    let (parts, from) = inners_of(alloc, fuel, from)?;
    let (closing, from) = closing_of(alloc, from.place(), from.behind())?;
    let composite = CompositeTree {
        place: header.place,
        name: header.name,
        end: header.end,
        points,
        parts,
        closing,
    };
    Ok((composite, from))
}

/// `{ inner }`
#[cycle(inner)]
#[tactic(auto, using(og_reading::proofs::Turns::loop_turns))]
fn inners_of<'a>(
    alloc: Global,
    fuel: usize,
    from: Left<'a>,
) -> Result<(Items<InnerTree>, Left<'a>), NoMemory>
    ensures { IfOk result (λ x. (x.0, rest_of x.1) ≡ more_of (inner_at fuel) [] (rest_of from.entry)) }
{
    let mut parts = Items::new(alloc);
    let mut rest = from;
    for _ in 0..from.choices.len() {
        if !rest.goes_on() {
            return Ok((parts, rest.after()));
        }
        let (part, more) = inner_of(alloc, fuel, rest.after())?;
        parts.push(part)?;
        rest = more;
    }
    Ok((parts, rest))
}

/// `aggregation_body = SUBSTRUCTURE { points } .. ENDSUBSTRUCTURE closing`, behind the header of the aggregation.
#[cycle(inner)]
#[tactic(auto, unfolding(crate::specs::Reading::aggregation_body_at))]
fn aggregation_body_of<'a>(
    alloc: Global,
    fuel: usize,
    header: HeaderText,
    from: Left<'a>,
) -> Result<(AggregationTree, Left<'a>), NoMemory>
    ensures { IfOk result (λ x. (x.0, rest_of x.1) ≡ aggregation_body_at fuel (inner_at fuel) header (rest_of from.entry)) }
{
    let start = from.after().behind();
    let (points, from) = more_of::<PointsReader>(alloc, fuel, Items::new(alloc), start)?;
    let (parts, from) = aggregated_of(alloc, fuel, from)?;
    let (closing, from) = closing_of(alloc, from.place(), from.behind())?;
    let aggregation = AggregationTree {
        place: header.place,
        name: header.name,
        end: header.end,
        points,
        parts,
        closing,
    };
    Ok((aggregation, from))
}

/// `{ plain } header { again } composite_body { partition }`
#[cycle(inner)]
#[tactic(auto, unfolding(crate::specs::Reading::aggregated_at))]
fn aggregated_of<'a>(
    alloc: Global,
    fuel: usize,
    from: Left<'a>,
) -> Result<(Items<AggregationPart>, Left<'a>), NoMemory>
    ensures { IfOk result (λ x. (x.0, rest_of x.1) ≡ aggregated_at fuel (inner_at fuel) (rest_of from.entry)) }
{
    let (so_far, from) = begun_of(alloc, fuel, from)?;
    let (parts, from) = first_composite_of(alloc, fuel, so_far, from)?;
    partitions_of(alloc, fuel, parts, from)
}

/// The parts so far and the first composite state, behind its header.
#[cycle(inner)]
#[tactic(auto, unfolding(crate::specs::Reading::first_composite_at))]
fn first_composite_of<'a>(
    alloc: Global,
    fuel: usize,
    so_far: SoFar,
    from: Left<'a>,
) -> Result<(Items<AggregationPart>, Left<'a>), NoMemory>
    ensures { IfOk result (λ x. (x.0, rest_of x.1) ≡ first_composite_at (inner_at fuel) so_far (rest_of from.entry)) }
{
    let (mut parts, header) = so_far;
    let (composite, from) = composite_body_of(alloc, fuel, header, from)?;
    parts.push(AggregationPart::Composite(composite))?;
    Ok((parts, from))
}

/// `{ partition }`, behind these.
#[cycle(inner)]
#[tactic(auto, using(og_reading::proofs::Turns::loop_turns))]
fn partitions_of<'a>(
    alloc: Global,
    fuel: usize,
    first: Items<AggregationPart>,
    from: Left<'a>,
) -> Result<(Items<AggregationPart>, Left<'a>), NoMemory>
    ensures { IfOk result (λ x. (x.0, rest_of x.1) ≡ more_of (partition_at fuel (inner_at fuel)) first (rest_of from.entry)) }
{
    let mut parts = first;
    let mut rest = from;
    for _ in 0..from.choices.len() {
        if !rest.goes_on() {
            return Ok((parts, rest.after()));
        }
        let (part, more) = partition_of(alloc, fuel, rest.after())?;
        parts.push(part)?;
        rest = more;
    }
    Ok((parts, rest))
}

/// `partition = plain | header one_state`
#[cycle(inner)]
#[tactic(auto, unfolding(crate::specs::Reading::partition_at))]
fn partition_of<'a>(
    alloc: Global,
    fuel: usize,
    from: Left<'a>,
) -> Result<(AggregationPart, Left<'a>), NoMemory>
    ensures { IfOk result (λ x. (x.0, rest_of x.1) ≡ partition_at fuel (inner_at fuel) (rest_of from.entry)) }
{
    let start = from.after();
    if from.choice() == 0 {
        return PlainReader::read(alloc, fuel, start);
    }
    let (header, from) = header_of(alloc, start)?;
    one_state_of(alloc, fuel, header, from)
}

/// `one_state = composite_body | empty_state`
#[cycle(inner)]
#[tactic(auto, unfolding(crate::specs::Reading::one_state_at))]
fn one_state_of<'a>(
    alloc: Global,
    fuel: usize,
    header: HeaderText,
    from: Left<'a>,
) -> Result<(AggregationPart, Left<'a>), NoMemory>
    ensures { IfOk result (λ x. (x.0, rest_of x.1) ≡ one_state_at (inner_at fuel) header (rest_of from.entry)) }
{
    let start = from.after();
    if from.choice() == 0 {
        let (composite, from) = composite_body_of(alloc, fuel, header, start)?;
        return Ok((AggregationPart::Composite(composite), from));
    }
    let (state, from) = empty_of(alloc, header, start)?;
    Ok((AggregationPart::Empty(state), from))
}

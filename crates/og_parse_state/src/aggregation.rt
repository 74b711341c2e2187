//! What stands in an aggregation beside composite states.
ghost use Rattle.std.specs.Prelude.{◌≡◌, IfOk};
ghost use Rattle.og_reading.specs.Reading.{rest_of, onto};
ghost use Rattle.og_parse_state.specs.Reading.{plain_at, empty_at, again_at, begun_at};

use crate::state::{HeaderText, header_of};
use og_ast::{AggregationPart, EmptyStateTree};
use og_names::NoMemory;
use og_parse_body::{closing_of, dcl_of, procedure_of, timer_of};
use og_reading::{Left, Production, more_of};
use sqlite_items::Items;
use std::alloc::Global;

/// The parts so far, and the header of the state that comes next.
pub type SoFar = (Items<AggregationPart>, HeaderText);

/// `plain = dcl | timer | procedure`
pub struct PlainReader;

impl Production for PlainReader {
    type Tree = AggregationPart;

    ghost at = { plain_at };

    #[tactic(auto, unfolding(crate::specs::Reading::plain_at))]
    fn read<'a>(
        alloc: Global,
        fuel: usize,
        from: Left<'a>,
    ) -> Result<(AggregationPart, Left<'a>), NoMemory> {
        let start = from.after();
        match from.choice() {
            0 => {
                let (dcl, from) = dcl_of(alloc, fuel, start)?;
                Ok((AggregationPart::Dcl(dcl), from))
            }
            1 => {
                let (timer, from) = timer_of(alloc, start)?;
                Ok((AggregationPart::Timer(timer), from))
            }
            _ => {
                let (procedure, from) = procedure_of(alloc, fuel, start)?;
                Ok((AggregationPart::Procedure(procedure), from))
            }
        }
    }
}

/// `empty_state = ENDSTATE closing`, behind the header of the state.
#[tactic(auto, unfolding(crate::specs::Reading::empty_at))]
pub fn empty_of<'a>(
    alloc: Global,
    header: HeaderText,
    from: Left<'a>,
) -> Result<(EmptyStateTree, Left<'a>), NoMemory>
    ensures { IfOk result (λ x. (x.0, rest_of x.1) ≡ empty_at header (rest_of from.entry)) }
{
    let start = from.after();
    let (closing, from) = closing_of(alloc, start.place(), start.behind())?;
    let state = EmptyStateTree {
        place: header.place,
        name: header.name,
        end: header.end,
        closing,
    };
    Ok((state, from))
}

/// `again = empty_state { plain } header`
#[tactic(auto, unfolding(crate::specs::Reading::again_at))]
fn again_of<'a>(
    alloc: Global,
    fuel: usize,
    so_far: SoFar,
    from: Left<'a>,
) -> Result<(SoFar, Left<'a>), NoMemory>
    ensures { IfOk result (λ x. (x.0, rest_of x.1) ≡ again_at fuel so_far (rest_of from.entry)) }
{
    let (mut parts, header) = so_far;
    let (state, from) = empty_of(alloc, header, from.after())?;
    parts.push(AggregationPart::Empty(state))?;
    let (parts, from) = more_of::<PlainReader>(alloc, fuel, parts, from)?;
    let (header, from) = header_of(alloc, from)?;
    Ok(((parts, header), from))
}

/// `{ plain } header { again }`, up to the header of the first composite state.
#[tactic(auto, unfolding(crate::specs::Reading::begun_at))]
pub fn begun_of<'a>(
    alloc: Global,
    fuel: usize,
    from: Left<'a>,
) -> Result<(SoFar, Left<'a>), NoMemory>
    ensures { IfOk result (λ x. (x.0, rest_of x.1) ≡ begun_at fuel (rest_of from.entry)) }
{
    let (plains, from) = more_of::<PlainReader>(alloc, fuel, Items::new(alloc), from)?;
    let (header, from) = header_of(alloc, from)?;
    agains_of(alloc, fuel, (plains, header), from)
}

/// States that name a partition, as often as they stand there.
#[tactic(auto, using(og_reading::proofs::Turns::loop_turns))]
fn agains_of<'a>(
    alloc: Global,
    fuel: usize,
    first: SoFar,
    from: Left<'a>,
) -> Result<(SoFar, Left<'a>), NoMemory>
    ensures { IfOk result (λ x. (x.0, rest_of x.1) ≡ onto (again_at fuel) first (rest_of from.entry)) }
{
    let mut so_far = first;
    let mut rest = from;
    for _ in 0..from.choices.len() {
        if !rest.goes_on() {
            return Ok((so_far, rest.after()));
        }
        let (longer, more) = again_of(alloc, fuel, so_far, rest.after())?;
        so_far = longer;
        rest = more;
    }
    Ok((so_far, rest))
}

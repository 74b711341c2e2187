//! Processes and references to them.
ghost use Rattle.std.specs.Prelude.{◌≡◌, IfOk};
ghost use Rattle.og_reading.specs.Reading.{rest_of};
ghost use Rattle.og_parse.specs.Reading.{count_at, process_body_at, process_at, process_or_reference_at, block_process_at};

use og_ast::{BlockPart, CountTree, Name, ProcessTree, ReferenceTree};
use og_base::Place;
use og_names::NoMemory;
use og_parse_body::{closing_of, end_of};
use og_parse_state::InnerReader;
use og_reading::{Left, Production, maybe, more_of};
use sqlite_items::Items;
use std::alloc::Global;

/// `count = "(" number "," number ")"`
struct CountReader;

impl Production for CountReader {
    type Tree = CountTree;

    ghost at = { λ n. count_at };

    #[tactic(auto, unfolding(crate::specs::Reading::count_at))]
    fn read<'a>(
        _alloc: Global,
        _fuel: usize,
        from: Left<'a>,
    ) -> Result<(CountTree, Left<'a>), NoMemory> {
        let start = from.after();
        let initial = start.behind();
        let most = initial.behind().behind();
        let count = CountTree {
            place: start.place(),
            initial: initial.number(),
            most: most.number(),
        };
        Ok((count, most.behind().behind()))
    }
}

/// `process = PROCESS name [ count ] process_body`
#[tactic(auto, unfolding(crate::specs::Reading::process_at))]
pub fn process_of<'a>(
    alloc: Global,
    fuel: usize,
    from: Left<'a>,
) -> Result<(ProcessTree, Left<'a>), NoMemory>
    ensures { IfOk result (λ x. (x.0, rest_of x.1) ≡ process_at fuel (rest_of from.entry)) }
{
    let start = from.after();
    let place = start.place();
    let name = start.behind().name(alloc)?;
    let (count, from) = maybe::<CountReader>(alloc, fuel, start.behind().behind())?;
    process_body_of(alloc, fuel, place, name, count, from)
}

/// `process_body = end { inner } ENDPROCESS closing`, behind the name of the process and its count.
#[tactic(auto, unfolding(crate::specs::Reading::process_body_at))]
fn process_body_of<'a>(
    alloc: Global,
    fuel: usize,
    place: Place,
    name: Name,
    count: Option<CountTree>,
    from: Left<'a>,
) -> Result<(ProcessTree, Left<'a>), NoMemory>
    ensures { IfOk result (λ x. (x.0, rest_of x.1) ≡ process_body_at fuel place name count (rest_of from.entry)) }
{
    let (end, from) = end_of(alloc, from.after())?;
    let (parts, from) = more_of::<InnerReader>(alloc, fuel, Items::new(alloc), from)?;
    let (closing, from) = closing_of(alloc, from.place(), from.behind())?;
    let process = ProcessTree {
        place,
        name,
        count,
        end,
        parts,
        closing,
    };
    Ok((process, from))
}

/// `PROCESS name [ count ] process_or_reference`
#[tactic(auto, unfolding(crate::specs::Reading::block_process_at))]
pub fn block_process_of<'a>(
    alloc: Global,
    fuel: usize,
    start: Left<'a>,
) -> Result<(BlockPart, Left<'a>), NoMemory>
    ensures { IfOk result (λ x. (x.0, rest_of x.1) ≡ block_process_at fuel (rest_of start.entry)) }
{
    let place = start.place();
    let name = start.behind().name(alloc)?;
    let (count, from) = maybe::<CountReader>(alloc, fuel, start.behind().behind())?;
    process_or_reference_of(alloc, fuel, place, name, count, from)
}

/// `process_or_reference = REFERENCED end | process_body`, behind the name of the process and its count.
#[tactic(auto, unfolding(crate::specs::Reading::process_or_reference_at))]
fn process_or_reference_of<'a>(
    alloc: Global,
    fuel: usize,
    place: Place,
    name: Name,
    count: Option<CountTree>,
    from: Left<'a>,
) -> Result<(BlockPart, Left<'a>), NoMemory>
    ensures { IfOk result (λ x. (x.0, rest_of x.1) ≡ process_or_reference_at fuel place name count (rest_of from.entry)) }
{
    let start = from.after();
    if from.choice() != 0 {
        let (process, from) = process_body_of(alloc, fuel, place, name, count, start)?;
        return Ok((BlockPart::Process(process), from));
    }
    let (end, from) = end_of(alloc, start.behind())?;
    let reference = ReferenceTree {
        place,
        name,
        count,
        end,
    };
    Ok((BlockPart::Reference(reference), from))
}

//! Blocks.
ghost use Rattle.std.specs.Prelude.{◌≡◌, IfOk};
ghost use Rattle.og_reading.specs.Reading.{rest_of};
ghost use Rattle.og_parse.specs.Reading.{block_part_at, block_at};

use crate::ground::{link_of, route_of, signal_of};
use crate::process::block_process_of;
use og_ast::{BlockPart, BlockTree};
use og_names::NoMemory;
use og_parse_body::{closing_of, end_of};
use og_reading::{Left, Production, more_of};
use sqlite_items::Items;
use std::alloc::Global;

/// `block = BLOCK name end { block_part } ENDBLOCK closing`
#[tactic(auto, unfolding(crate::specs::Reading::block_at))]
pub fn block_of<'a>(
    alloc: Global,
    fuel: usize,
    from: Left<'a>,
) -> Result<(BlockTree, Left<'a>), NoMemory>
    ensures { IfOk result (λ x. (x.0, rest_of x.1) ≡ block_at fuel (rest_of from.entry)) }
{
    let start = from.after();
    let place = start.place();
    let name = start.behind().name(alloc)?;
    let (end, from) = end_of(alloc, start.behind().behind())?;
    let (parts, from) = more_of::<PartReader>(alloc, fuel, Items::new(alloc), from)?;
    let (closing, from) = closing_of(alloc, from.place(), from.behind())?;
    let block = BlockTree {
        place,
        name,
        end,
        parts,
        closing,
    };
    Ok((block, from))
}

/// `block_part = signal | route | link | PROCESS name [ count ] process_or_reference`
struct PartReader;

impl Production for PartReader {
    type Tree = BlockPart;

    ghost at = { block_part_at };

    #[tactic(auto, unfolding(crate::specs::Reading::block_part_at))]
    fn read<'a>(
        alloc: Global,
        fuel: usize,
        from: Left<'a>,
    ) -> Result<(BlockPart, Left<'a>), NoMemory> {
        let start = from.after();
        match from.choice() {
            0 => {
                let (signal, from) = signal_of(alloc, start)?;
                Ok((BlockPart::Signal(signal), from))
            }
            1 => {
                let (route, from) = route_of(alloc, start)?;
                Ok((BlockPart::Route(route), from))
            }
            2 => {
                let (link, from) = link_of(alloc, start)?;
                Ok((BlockPart::Link(link), from))
            }
            _ => block_process_of(alloc, fuel, start),
        }
    }
}

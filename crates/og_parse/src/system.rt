//! Systems and the units of a file.
ghost use Rattle.std.specs.Prelude.{◌≡◌, IfOk};
ghost use Rattle.og_reading.specs.Reading.{rest_of};
ghost use Rattle.og_parse.specs.Reading.{system_part_at, system_at, unit_at, units_at};

use crate::block::block_of;
use crate::ground::{channel_of, signal_of, use_of};
use crate::process::process_of;
use og_ast::{SystemPart, SystemTree, Unit};
use og_names::NoMemory;
use og_parse_body::{closing_of, end_of, procedure_of};
use og_reading::{Left, Production, more_of};
use sqlite_items::Items;
use std::alloc::Global;

/// `file = { unit }`
#[tactic(auto, unfolding(crate::specs::Reading::units_at))]
pub fn units_of<'a>(
    alloc: Global,
    fuel: usize,
    from: Left<'a>,
) -> Result<(Items<Unit>, Left<'a>), NoMemory>
    ensures { IfOk result (λ x. (x.0, rest_of x.1) ≡ units_at fuel (rest_of from.entry)) }
{
    more_of::<UnitReader>(alloc, fuel, Items::new(alloc), from.after())
}

/// `unit = use | system | process`
struct UnitReader;

impl Production for UnitReader {
    type Tree = Unit;

    ghost at = { unit_at };

    #[tactic(auto, unfolding(crate::specs::Reading::unit_at))]
    fn read<'a>(alloc: Global, fuel: usize, from: Left<'a>) -> Result<(Unit, Left<'a>), NoMemory> {
        let start = from.after();
        match from.choice() {
            0 => {
                let (module, from) = use_of(alloc, start)?;
                Ok((Unit::Use(module), from))
            }
            1 => {
                let (system, from) = system_of(alloc, fuel, start)?;
                Ok((Unit::System(system), from))
            }
            _ => {
                let (process, from) = process_of(alloc, fuel, start)?;
                Ok((Unit::Process(process), from))
            }
        }
    }
}

/// `system = SYSTEM name end { system_part } ENDSYSTEM closing`
#[tactic(auto, unfolding(crate::specs::Reading::system_at))]
fn system_of<'a>(
    alloc: Global,
    fuel: usize,
    from: Left<'a>,
) -> Result<(SystemTree, Left<'a>), NoMemory>
    ensures { IfOk result (λ x. (x.0, rest_of x.1) ≡ system_at fuel (rest_of from.entry)) }
{
    let start = from.after();
    let place = start.place();
    let name = start.behind().name(alloc)?;
    let (end, from) = end_of(alloc, start.behind().behind())?;
    let (parts, from) = more_of::<PartReader>(alloc, fuel, Items::new(alloc), from)?;
    let (closing, from) = closing_of(alloc, from.place(), from.behind())?;
    let system = SystemTree {
        place,
        name,
        end,
        parts,
        closing,
    };
    Ok((system, from))
}

/// `system_part = use | signal | channel | procedure | block`
struct PartReader;

impl Production for PartReader {
    type Tree = SystemPart;

    ghost at = { system_part_at };

    #[tactic(auto, unfolding(crate::specs::Reading::system_part_at))]
    fn read<'a>(
        alloc: Global,
        fuel: usize,
        from: Left<'a>,
    ) -> Result<(SystemPart, Left<'a>), NoMemory> {
        let start = from.after();
        match from.choice() {
            0 => {
                let (module, from) = use_of(alloc, start)?;
                Ok((SystemPart::Use(module), from))
            }
            1 => {
                let (signal, from) = signal_of(alloc, start)?;
                Ok((SystemPart::Signal(signal), from))
            }
            2 => {
                let (channel, from) = channel_of(alloc, start)?;
                Ok((SystemPart::Channel(channel), from))
            }
            3 => {
                let (procedure, from) = procedure_of(alloc, fuel, start)?;
                Ok((SystemPart::Procedure(procedure), from))
            }
            _ => {
                let (block, from) = block_of(alloc, fuel, start)?;
                Ok((SystemPart::Block(block), from))
            }
        }
    }
}

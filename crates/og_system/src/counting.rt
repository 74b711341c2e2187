//! How many bodies there are.
#![tactic(auto, using(crate::proofs::Counted::counts))]

ghost use Rattle.std.specs.Prelude.{◌≡◌, Option, flat_map};
ghost use Rattle.og_system.specs.Bodies.{Home as HomeOf, home_at, body_at, bodies, bodies_of_unit, bodies_of_system_part, bodies_of_block_part, miscounted};
ghost use Rattle.og_system.specs.Counting.{counted, one_more, as_violations};
ghost use Rattle.og_base.specs.Order.{first_of};

use og_ast::{BlockPart, BlockTree, ProcessTree, SystemPart, SystemTree, Unit};
use og_base::{Place, Rule, Violation};

/// None, one, or more, with the place of the second one's name.
#[derive(Clone, Copy, Debug, PartialEq, Eq)]
pub enum Count {
    Nothing,
    One,
    More(Place),
}

impl Count {
    fn violation(self, file: u32) -> Option<Violation>
        ensures { result ≡ first_of (as_violations file self) }
    {
        let rule = Rule::N5;
        match self {
            Count::Nothing => {
                let place = Place {
                    file,
                    line: 1,
                    column: 1,
                };
                Some(Violation { rule, place })
            }
            Count::One => None,
            Count::More(place) => Some(Violation { rule, place }),
        }
    }
}

/// N5 at the beginning of the first file, where there is no body, or at the name of the second one.
pub fn first_miscount(file: u32, units: &[Unit]) -> Option<Violation>
    ensures { result ≡ first_of (miscounted file (bodies units.now)) }
{
    let mut count = Count::Nothing;
    count_units(units, &mut count);
    count.violation(file)
}

fn count_units(units: &[Unit], count: &mut Count)
    ensures { count.new ≡ counted count.old (flat_map bodies_of_unit units.now) }
{
    for unit in units {
        count_unit(unit, count);
    }
}

fn count_unit(unit: &Unit, count: &mut Count)
    ensures { count.new ≡ counted count.old (bodies_of_unit unit.now) }
{
    match unit {
        Unit::Use(_) => {}
        Unit::System(system) => count_system_parts(system, system.parts.as_slice(), count),
        Unit::Process(process) => count_one(process, count),
    }
}

fn count_one(process: &ProcessTree, count: &mut Count)
    ensures { (home : Option HomeOf) → count.new ≡ one_more count.old (body_at process.now home) }
{
    *count = match *count {
        Count::Nothing => Count::One,
        Count::One => Count::More(process.name.place),
        Count::More(second) => Count::More(second),
    };
}

fn count_system_parts(system: &SystemTree, parts: &[SystemPart], count: &mut Count)
    ensures { count.new ≡ counted count.old (flat_map (bodies_of_system_part system.now) parts.now) }
{
    for part in parts {
        count_system_part(system, part, count);
    }
}

fn count_system_part(system: &SystemTree, part: &SystemPart, count: &mut Count)
    ensures { count.new ≡ counted count.old (bodies_of_system_part system.now part.now) }
{
    if let SystemPart::Block(block) = part {
        count_block_parts(system, block, block.parts.as_slice(), count);
    }
}

fn count_block_parts(system: &SystemTree, block: &BlockTree, parts: &[BlockPart], count: &mut Count)
    ensures { count.new ≡ counted count.old (flat_map (bodies_of_block_part (home_at system.now block.now)) parts.now) }
{
    for part in parts {
        count_block_part(system, block, part, count);
    }
}

fn count_block_part(system: &SystemTree, block: &BlockTree, part: &BlockPart, count: &mut Count)
    ensures { count.new ≡ counted count.old (bodies_of_block_part (home_at system.now block.now) part.now) }
{
    if let BlockPart::Process(process) = part {
        count_one(process, count);
    }
}

//! The bodies of processes, and the blocks that they belong to.
#![tactic(auto, using(crate::proofs::Foremost::foremosts))]

ghost use Rattle.std.specs.Prelude.{◌≡◌, flat_map};
ghost use Rattle.std.specs.List.{filter, list_any};
ghost use Rattle.std.specs.Option.{option_map};
ghost use Rattle.og_system.specs.Scopes.{is_among};
ghost use Rattle.og_system.specs.Bodies.{is_referred_to, foremost, bodies_of_unit, bodies_of_system_part, bodies_of_block_part, homes_of_unit, homes_of_system_part, refers as home_refers, references_of_block_part, process_of as process_in, home_of as home_in};
ghost use Rattle.og_system.specs.Lent.{read_body, read_home};

use crate::known::folds_as;
use og_ast::{BlockPart, BlockTree, ProcessTree, SystemPart, SystemTree, Unit};

/// A block, and the system in which it stands.
#[derive(Clone, Copy)]
pub struct Home<'u> {
    pub system: &'u SystemTree,
    pub block: &'u BlockTree,
}

/// The body of a process, and the block in which it stands. At file level it stands in none.
#[derive(Clone, Copy)]
pub struct Body<'u> {
    pub process: &'u ProcessTree,
    pub stands_in: Option<Home<'u>>,
}

/// The first body in the units of all files, which is the process.
pub fn process_of(units: &[Unit]) -> Option<Body<'_>>
    ensures { option_map read_body result ≡ process_in units.now }
{
    for unit in units {
        if let Some(body) = body_in_unit(unit) {
            return Some(body);
        }
    }
    None
}

fn body_in_unit(unit: &Unit) -> Option<Body<'_>>
    ensures { option_map read_body result ≡ foremost (bodies_of_unit unit.now) }
{
    match unit {
        Unit::Use(_) => None,
        Unit::System(system) => body_in_system(system, system.parts.as_slice()),
        Unit::Process(process) => Some(Body {
            process,
            stands_in: None,
        }),
    }
}

fn body_in_system<'u>(system: &'u SystemTree, parts: &'u [SystemPart]) -> Option<Body<'u>>
    ensures { option_map read_body result ≡ foremost (flat_map (bodies_of_system_part system.now) parts.now) }
{
    for part in parts {
        if let Some(body) = body_in_system_part(system, part) {
            return Some(body);
        }
    }
    None
}

fn body_in_system_part<'u>(system: &'u SystemTree, part: &'u SystemPart) -> Option<Body<'u>>
    ensures { option_map read_body result ≡ foremost (bodies_of_system_part system.now part.now) }
{
    if let SystemPart::Block(block) = part {
        return body_in_block(Home { system, block }, block.parts.as_slice());
    }
    None
}

fn body_in_block<'u>(home: Home<'u>, parts: &'u [BlockPart]) -> Option<Body<'u>>
    ensures { option_map read_body result ≡ foremost (flat_map (bodies_of_block_part (read_home home.entry)) parts.now) }
{
    for part in parts {
        if let BlockPart::Process(process) = part {
            return Some(Body {
                process,
                stands_in: Some(home),
            });
        }
    }
    None
}

/// The block that a body belongs to: the one in which it stands, or, at file level, the first one with a reference to it.
pub fn home_of<'u>(units: &'u [Unit], body: &Body<'u>) -> Option<Home<'u>>
    ensures { option_map read_home result ≡ home_in units.now (read_body body.now) }
{
    match body.stands_in {
        Some(home) => Some(home),
        None => home_with_reference(units, body.process),
    }
}

fn home_with_reference<'u>(units: &'u [Unit], process: &ProcessTree) -> Option<Home<'u>>
    ensures { option_map read_home result ≡ foremost (filter (home_refers process.now) (flat_map homes_of_unit units.now)) }
{
    for unit in units {
        if let Some(home) = home_in_unit(unit, process) {
            return Some(home);
        }
    }
    None
}

fn home_in_unit<'u>(unit: &'u Unit, process: &ProcessTree) -> Option<Home<'u>>
    ensures { option_map read_home result ≡ foremost (filter (home_refers process.now) (homes_of_unit unit.now)) }
{
    match unit {
        Unit::Use(_) => None,
        Unit::System(system) => home_in_system(system, system.parts.as_slice(), process),
        Unit::Process(_) => None,
    }
}

fn home_in_system<'u>(
    system: &'u SystemTree,
    parts: &'u [SystemPart],
    process: &ProcessTree,
) -> Option<Home<'u>>
    ensures { option_map read_home result ≡ foremost (filter (home_refers process.now) (flat_map (homes_of_system_part system.now) parts.now)) }
{
    for part in parts {
        if let Some(home) = home_in_system_part(system, part, process) {
            return Some(home);
        }
    }
    None
}

fn home_in_system_part<'u>(
    system: &'u SystemTree,
    part: &'u SystemPart,
    process: &ProcessTree,
) -> Option<Home<'u>>
    ensures { option_map read_home result ≡ foremost (filter (home_refers process.now) (homes_of_system_part system.now part.now)) }
{
    if let SystemPart::Block(block) = part {
        if refers(block, process) {
            return Some(Home { system, block });
        }
    }
    None
}

/// Whether a block has a reference to the process.
fn refers(block: &BlockTree, process: &ProcessTree) -> bool
    ensures { result ≡ is_referred_to block.now process.now }
{
    has_reference_to(block.parts.as_slice(), process)
}

fn has_reference_to(parts: &[BlockPart], process: &ProcessTree) -> bool
    ensures { result ≡ list_any (λ part. is_among (references_of_block_part part) process.now.name) parts.now }
{
    parts.iter().any(|part| is_reference_to(part, process))
}

fn is_reference_to(part: &BlockPart, process: &ProcessTree) -> bool
    ensures { result ≡ is_among (references_of_block_part part.now) process.now.name }
{
    match part {
        BlockPart::Reference(reference) => folds_as(&process.name, &reference.name),
        _ => false,
    }
}

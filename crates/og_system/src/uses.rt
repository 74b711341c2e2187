//! N1 and N3: names that channels, routes, CONNECT and references use.
#![tactic(auto, using(crate::proofs::Noticed::notes))]

ghost use Rattle.std.specs.Prelude.{◌≡◌, flat_map};
ghost use Rattle.og_base.specs.Order.{first_from};
ghost use Rattle.og_system.specs.Scopes.{used, in_point, in_path, in_channel, in_route, in_link, in_reference};
ghost use Rattle.og_system.specs.Tables.{seen_by_system, seen_by_block};

use crate::noting::note_looked_up;
use crate::tables::{AroundTables, BlockTables, SystemTables, is_in};
use og_ast::{ChannelTree, LinkTree, Name, PathTree, PointTree, ReferenceTree, RouteTree};
use og_base::Violation;

// ---- in a system

/// The names in a channel.
pub fn note_channel(
    around: &AroundTables,
    system: &SystemTables,
    channel: &ChannelTree,
    first: &mut Option<Violation>,
)
    ensures { first.new ≡ first_from first.old (in_channel (seen_by_system around.now system.now) channel.now) }
{
    let paths = channel.paths.as_slice();
    for path in paths {
        note_path_of_channel(around, system, path, first);
    }
}

fn note_path_of_channel(
    around: &AroundTables,
    system: &SystemTables,
    path: &PathTree,
    first: &mut Option<Violation>,
)
    ensures { first.new ≡ first_from first.old (in_path (seen_by_system around.now system.now).block (seen_by_system around.now system.now) path.now) }
{
    note_end_of_channel(around, system, &path.from, first);
    note_end_of_channel(around, system, &path.to, first);
    note_signals_of_channel(around, system, path.signals.as_slice(), first);
}

fn note_end_of_channel(
    around: &AroundTables,
    system: &SystemTables,
    end: &PointTree,
    first: &mut Option<Violation>,
)
    ensures { first.new ≡ first_from first.old (in_point (seen_by_system around.now system.now).block (seen_by_system around.now system.now) end.now) }
{
    if let PointTree::Name(name) = end {
        let own = is_in(&system.blocks, name);
        note_looked_up(own, system.sees(around, name), name, first);
    }
}

fn note_signals_of_channel(
    around: &AroundTables,
    system: &SystemTables,
    signals: &[Name],
    first: &mut Option<Violation>,
)
    ensures { first.new ≡ first_from first.old (flat_map (used (seen_by_system around.now system.now).signal (seen_by_system around.now system.now)) signals.now) }
{
    for name in signals {
        let own = is_in(&system.signals, name);
        note_looked_up(own, system.sees(around, name), name, first);
    }
}

// ---- in a block

/// The names in a route.
pub fn note_route(
    around: &AroundTables,
    system: &SystemTables,
    block: &BlockTables,
    route: &RouteTree,
    first: &mut Option<Violation>,
)
    ensures { first.new ≡ first_from first.old (in_route (seen_by_block around.now system.now block.now) route.now) }
{
    let paths = route.paths.as_slice();
    for path in paths {
        note_path_of_route(around, system, block, path, first);
    }
}

fn note_path_of_route(
    around: &AroundTables,
    system: &SystemTables,
    block: &BlockTables,
    path: &PathTree,
    first: &mut Option<Violation>,
)
    ensures { first.new ≡ first_from first.old (in_path (seen_by_block around.now system.now block.now).process (seen_by_block around.now system.now block.now) path.now) }
{
    note_end_of_route(around, system, block, &path.from, first);
    note_end_of_route(around, system, block, &path.to, first);
    note_signals_of_route(around, system, block, path.signals.as_slice(), first);
}

fn note_end_of_route(
    around: &AroundTables,
    system: &SystemTables,
    block: &BlockTables,
    end: &PointTree,
    first: &mut Option<Violation>,
)
    ensures { first.new ≡ first_from first.old (in_point (seen_by_block around.now system.now block.now).process (seen_by_block around.now system.now block.now) end.now) }
{
    if let PointTree::Name(name) = end {
        let own = is_in(&block.processes, name) || is_in(&around.bodies, name);
        note_looked_up(own, block.sees(around, system, name), name, first);
    }
}

fn note_signals_of_route(
    around: &AroundTables,
    system: &SystemTables,
    block: &BlockTables,
    signals: &[Name],
    first: &mut Option<Violation>,
)
    ensures { first.new ≡ first_from first.old (flat_map (used (seen_by_block around.now system.now block.now).signal (seen_by_block around.now system.now block.now)) signals.now) }
{
    for name in signals {
        let own = is_in(&block.signals, name) || is_in(&system.signals, name);
        note_looked_up(own, block.sees(around, system, name), name, first);
    }
}

/// The names in CONNECT.
pub fn note_link(
    around: &AroundTables,
    system: &SystemTables,
    block: &BlockTables,
    link: &LinkTree,
    first: &mut Option<Violation>,
)
    ensures { first.new ≡ first_from first.old (in_link (seen_by_block around.now system.now block.now) link.now) }
{
    note_channels(around, system, block, link.channels.as_slice(), first);
    note_routes(around, system, block, link.routes.as_slice(), first);
}

fn note_channels(
    around: &AroundTables,
    system: &SystemTables,
    block: &BlockTables,
    names: &[Name],
    first: &mut Option<Violation>,
)
    ensures { first.new ≡ first_from first.old (flat_map (used (seen_by_block around.now system.now block.now).channel (seen_by_block around.now system.now block.now)) names.now) }
{
    for name in names {
        let own = is_in(&system.channels, name);
        note_looked_up(own, block.sees(around, system, name), name, first);
    }
}

fn note_routes(
    around: &AroundTables,
    system: &SystemTables,
    block: &BlockTables,
    names: &[Name],
    first: &mut Option<Violation>,
)
    ensures { first.new ≡ first_from first.old (flat_map (used (seen_by_block around.now system.now block.now).route (seen_by_block around.now system.now block.now)) names.now) }
{
    for name in names {
        let own = is_in(&block.routes, name);
        note_looked_up(own, block.sees(around, system, name), name, first);
    }
}

/// The name of a reference, which has to be that of a body at file level.
pub fn note_reference(
    around: &AroundTables,
    system: &SystemTables,
    block: &BlockTables,
    reference: &ReferenceTree,
    first: &mut Option<Violation>,
)
    ensures { first.new ≡ first_from first.old (in_reference (seen_by_block around.now system.now block.now) reference.now) }
{
    let name = &reference.name;
    let has_body = is_in(&around.bodies, name);
    let is_process = is_in(&block.processes, name) || has_body;
    let other = !is_process && block.sees(around, system, name);
    note_looked_up(has_body, other, name, first);
}

//! The signals of all systems and blocks, which of them are visible where the process stands, and which reach and leave it.
#![tactic(auto, using(crate::proofs::Along::along_ways))]

ghost use Rattle.std.specs.Prelude.{◌≡◌, ◌++◌, false, map, flat_map, IfOk, OnOk};
ghost use Rattle.std.specs.List.{list_any};
ghost use Rattle.og_system.specs.Lent.{read_home};
ghost use Rattle.og_system.specs.Scopes.{routes_in_block, routes_of_block_part};
ghost use Rattle.og_system.specs.Tables.{with_names};
ghost use Rattle.og_system.specs.Ways.{along, ways as ways_in, is_at as is_at_end, is_named as is_named_by, has_any, carried, paths_of_block_part, paths_of_routes, paths_of_system_part, paths_of_channels, directed_signals, same_place as same_place_in, declaration, declared_in_unit, declared_in_system_part, declared_in_block_part};
ghost use Rattle.og_system.specs.WayTables.{nothing_carried, with_path, with_paths, way_tables as tables_of_ways, directed_by, read_directed};

use crate::bodies::Home;
use crate::declared::add_names;
use crate::known::folds_as;
use crate::tables::is_in;
use og_ast::{
    BlockPart, BlockTree, Name, PathTree, PointTree, ProcessTree, SigTree, SystemPart, SystemTree,
    Unit,
};
use og_base::Place;
use og_names::{Names, NoMemory};
use std::alloc::Global;

/// A declared signal, and which ways it goes.
#[derive(Clone, Copy)]
pub struct DirectedSignal<'u> {
    pub signal: &'u SigTree,
    /// Whether the block of the process declares it, or its system.
    pub visible: bool,
    /// Whether a way that carries it leads to the process.
    pub incoming: bool,
    /// Whether a way that carries it leads from the process.
    pub outgoing: bool,
}

/// The signals that the ways of the process carry to it and from it, or that each signal goes both ways.
#[derive(Drop)]
pub struct WayTables {
    pub both: bool,
    pub incoming: Names,
    pub outgoing: Names,
}

/// The signals of all systems and blocks in the order of the text, with the ways that they go for a process and its block.
pub fn signals_of<'u>(
    alloc: Global,
    units: &'u [Unit],
    process: &ProcessTree,
    home: &Home<'_>,
) -> Result<Vec<DirectedSignal<'u>>, NoMemory>
    ensures { IfOk result (λ signals. map read_directed signals.items ≡ directed_signals units.now process.now (read_home home.now)) }
{
    let tables = WayTables::of(alloc, process, home)?;
    let mut signals = Vec::new(alloc);
    add_units(
        &mut signals,
        &tables,
        home.system.place,
        home.block.place,
        units,
    )?;
    Ok(signals)
}

fn add_units<'u>(
    signals: &mut Vec<DirectedSignal<'u>>,
    tables: &WayTables,
    system: Place,
    block: Place,
    units: &'u [Unit],
) -> Result<(), NoMemory>
    ensures { OnOk result (map read_directed signals.new.items ≡ map read_directed signals.old.items ++ map (directed_by tables.now) (flat_map (declared_in_unit system block) units.now)) }
{
    for unit in units {
        add_unit(signals, tables, system, block, unit)?;
    }
    Ok(())
}

fn add_unit<'u>(
    signals: &mut Vec<DirectedSignal<'u>>,
    tables: &WayTables,
    system: Place,
    block: Place,
    unit: &'u Unit,
) -> Result<(), NoMemory>
    ensures { OnOk result (map read_directed signals.new.items ≡ map read_directed signals.old.items ++ map (directed_by tables.now) (declared_in_unit system block unit.now)) }
{
    if let Unit::System(tree) = unit {
        let visible = same_place(tree.place, system);
        add_system_parts(signals, tables, visible, block, tree.parts.as_slice())?;
    }
    Ok(())
}

fn add_system_parts<'u>(
    signals: &mut Vec<DirectedSignal<'u>>,
    tables: &WayTables,
    visible: bool,
    block: Place,
    parts: &'u [SystemPart],
) -> Result<(), NoMemory>
    ensures { OnOk result (map read_directed signals.new.items ≡ map read_directed signals.old.items ++ map (directed_by tables.now) (flat_map (declared_in_system_part visible block) parts.now)) }
{
    for part in parts {
        add_system_part(signals, tables, visible, block, part)?;
    }
    Ok(())
}

fn add_system_part<'u>(
    signals: &mut Vec<DirectedSignal<'u>>,
    tables: &WayTables,
    visible: bool,
    block: Place,
    part: &'u SystemPart,
) -> Result<(), NoMemory>
    ensures { OnOk result (map read_directed signals.new.items ≡ map read_directed signals.old.items ++ map (directed_by tables.now) (declared_in_system_part visible block part.now)) }
{
    match part {
        SystemPart::Signal(tree) => {
            add_signals(signals, tables, visible, tree.signals.as_slice())?;
            Ok(())
        }
        SystemPart::Block(tree) => {
            let visible = same_place(tree.place, block);
            add_block_parts(signals, tables, visible, tree.parts.as_slice())?;
            Ok(())
        }
        _ => Ok(()),
    }
}

fn same_place(a: Place, b: Place) -> bool
    ensures { result ≡ same_place_in a b }
{
    a.file == b.file && (a.line == b.line && a.column == b.column)
}

fn add_block_parts<'u>(
    signals: &mut Vec<DirectedSignal<'u>>,
    tables: &WayTables,
    visible: bool,
    parts: &'u [BlockPart],
) -> Result<(), NoMemory>
    ensures { OnOk result (map read_directed signals.new.items ≡ map read_directed signals.old.items ++ map (directed_by tables.now) (flat_map (declared_in_block_part visible) parts.now)) }
{
    for part in parts {
        add_block_part(signals, tables, visible, part)?;
    }
    Ok(())
}

fn add_block_part<'u>(
    signals: &mut Vec<DirectedSignal<'u>>,
    tables: &WayTables,
    visible: bool,
    part: &'u BlockPart,
) -> Result<(), NoMemory>
    ensures { OnOk result (map read_directed signals.new.items ≡ map read_directed signals.old.items ++ map (directed_by tables.now) (declared_in_block_part visible part.now)) }
{
    if let BlockPart::Signal(tree) = part {
        add_signals(signals, tables, visible, tree.signals.as_slice())?;
    }
    Ok(())
}

fn add_signals<'u>(
    signals: &mut Vec<DirectedSignal<'u>>,
    tables: &WayTables,
    visible: bool,
    trees: &'u [SigTree],
) -> Result<(), NoMemory>
    ensures { OnOk result (map read_directed signals.new.items ≡ map read_directed signals.old.items ++ map (directed_by tables.now) (map (declaration visible) trees.now)) }
{
    for tree in trees {
        let directed = tables.directed(tree, visible);
        signals.push(directed)?;
    }
    Ok(())
}

impl WayTables {
    fn of(alloc: Global, process: &ProcessTree, home: &Home<'_>) -> Result<WayTables, NoMemory>
        ensures { IfOk result (λ tables. tables ≡ tables_of_ways (ways_in process.now (read_home home.now))) }
    {
        if has_route(home.block) {
            let tables = tables_of_routes(alloc, &process.name, home.block)?;
            return Ok(tables);
        }
        if has_channel_path(home.system, &home.block.name) {
            let tables = tables_of_channels(alloc, &home.block.name, home.system)?;
            return Ok(tables);
        }
        Ok(no_signals(alloc, true))
    }

    fn directed<'u>(&self, signal: &'u SigTree, visible: bool) -> DirectedSignal<'u>
        ensures { read_directed result ≡ directed_by self.now (declaration visible signal.now) }
    {
        let incoming = self.both || is_in(&self.incoming, &signal.name);
        let outgoing = self.both || is_in(&self.outgoing, &signal.name);
        DirectedSignal {
            signal,
            visible,
            incoming,
            outgoing,
        }
    }
}

fn has_route(block: &BlockTree) -> bool
    ensures { result ≡ has_any (routes_in_block block.now) }
{
    is_any_route(block.parts.as_slice())
}

fn is_any_route(parts: &[BlockPart]) -> bool
    ensures { result ≡ list_any (λ part. has_any (routes_of_block_part part)) parts.now }
{
    parts.iter().any(|part| is_route(part))
}

fn is_route(part: &BlockPart) -> bool
    ensures { result ≡ has_any (routes_of_block_part part.now) }
{
    match part {
        BlockPart::Route(_) => true,
        _ => false,
    }
}

/// Whether a path of a channel has the name at an end.
fn has_channel_path(system: &SystemTree, name: &Name) -> bool
    ensures { result ≡ has_any (along name.now (paths_of_channels system.now)).paths }
{
    has_any_path(system.parts.as_slice(), name)
}

fn has_any_path(parts: &[SystemPart], name: &Name) -> bool
    ensures { result ≡ list_any (λ part. list_any (is_named_by name.now) (paths_of_system_part part)) parts.now }
{
    parts.iter().any(|part| has_path(part, name))
}

fn has_path(part: &SystemPart, name: &Name) -> bool
    ensures { result ≡ list_any (is_named_by name.now) (paths_of_system_part part.now) }
{
    match part {
        SystemPart::Channel(channel) => is_any_named(channel.paths.as_slice(), name),
        _ => false,
    }
}

fn is_any_named(paths: &[PathTree], name: &Name) -> bool
    ensures { result ≡ list_any (is_named_by name.now) paths.now }
{
    paths.iter().any(|path| is_named(path, name))
}

fn is_named(path: &PathTree, name: &Name) -> bool
    ensures { result ≡ is_named_by name.now path.now }
{
    is_at(&path.from, name) || is_at(&path.to, name)
}

fn is_at(end: &PointTree, name: &Name) -> bool
    ensures { result ≡ is_at_end name.now end.now }
{
    match end {
        PointTree::Env(_) => false,
        PointTree::Name(other) => folds_as(name, other),
    }
}

/// A table of each direction, without signals.
fn no_signals(alloc: Global, both: bool) -> WayTables
    ensures { result ≡ nothing_carried both }
{
    WayTables {
        both,
        incoming: Names::new(alloc),
        outgoing: Names::new(alloc),
    }
}

/// What the routes of a block carry to the name and from it.
fn tables_of_routes(alloc: Global, name: &Name, block: &BlockTree) -> Result<WayTables, NoMemory>
    ensures { IfOk result (λ tables. tables ≡ with_paths name.now (nothing_carried false) (paths_of_routes block.now)) }
{
    let mut tables = no_signals(alloc, false);
    add_routes(&mut tables, name, block.parts.as_slice())?;
    Ok(tables)
}

fn add_routes(tables: &mut WayTables, name: &Name, parts: &[BlockPart]) -> Result<(), NoMemory>
    ensures { OnOk result (tables.new ≡ with_paths name.now tables.old (flat_map paths_of_block_part parts.now)) }
{
    for part in parts {
        add_route(tables, name, part)?;
    }
    Ok(())
}

fn add_route(tables: &mut WayTables, name: &Name, part: &BlockPart) -> Result<(), NoMemory>
    ensures { OnOk result (tables.new ≡ with_paths name.now tables.old (paths_of_block_part part.now)) }
{
    if let BlockPart::Route(route) = part {
        add_paths(tables, name, route.paths.as_slice())?;
    }
    Ok(())
}

/// What the channels of a system carry to the name and from it.
fn tables_of_channels(
    alloc: Global,
    name: &Name,
    system: &SystemTree,
) -> Result<WayTables, NoMemory>
    ensures { IfOk result (λ tables. tables ≡ with_paths name.now (nothing_carried false) (paths_of_channels system.now)) }
{
    let mut tables = no_signals(alloc, false);
    add_channels(&mut tables, name, system.parts.as_slice())?;
    Ok(tables)
}

fn add_channels(tables: &mut WayTables, name: &Name, parts: &[SystemPart]) -> Result<(), NoMemory>
    ensures { OnOk result (tables.new ≡ with_paths name.now tables.old (flat_map paths_of_system_part parts.now)) }
{
    for part in parts {
        add_channel(tables, name, part)?;
    }
    Ok(())
}

fn add_channel(tables: &mut WayTables, name: &Name, part: &SystemPart) -> Result<(), NoMemory>
    ensures { OnOk result (tables.new ≡ with_paths name.now tables.old (paths_of_system_part part.now)) }
{
    if let SystemPart::Channel(channel) = part {
        add_paths(tables, name, channel.paths.as_slice())?;
    }
    Ok(())
}

fn add_paths(tables: &mut WayTables, name: &Name, paths: &[PathTree]) -> Result<(), NoMemory>
    ensures { OnOk result (tables.new ≡ with_paths name.now tables.old paths.now) }
{
    for path in paths {
        add_path(tables, name, path)?;
    }
    Ok(())
}

fn add_path(tables: &mut WayTables, name: &Name, path: &PathTree) -> Result<(), NoMemory>
    ensures { OnOk result (tables.new ≡ with_path name.now tables.old path.now) }
{
    let signals = path.signals.as_slice();
    add_carried(&mut tables.incoming, is_at(&path.to, name), signals)?;
    add_carried(&mut tables.outgoing, is_at(&path.from, name), signals)?;
    Ok(())
}

fn add_carried(table: &mut Names, is_way: bool, signals: &[Name]) -> Result<(), NoMemory>
    ensures { OnOk result (table.new ≡ with_names table.old (carried is_way signals.now)) }
{
    if is_way {
        add_names(table, signals)?;
    }
    Ok(())
}

//! Signals, and what leads to processes.
ghost use Rattle.std.specs.Prelude.{◌≡◌, IfOk};
ghost use Rattle.og_reading.specs.Reading.{rest_of};
ghost use Rattle.og_parse.specs.Reading.{use_at, sig_at, signal_at, point_at, path_at, paths_at, channel_at, route_at, link_at};

use og_ast::{ChannelTree, LinkTree, PathTree, PointTree, RouteTree, SigTree, SignalTree, UseTree};
use og_names::NoMemory;
use og_parse_body::{HnameReader, NameReader, closing_of, end_of, hname_of};
use og_reading::{Left, Listed, Production, list_in_brackets, more_of, single};
use sqlite_items::Items;
use std::alloc::Global;

/// `use = USE hname end`
#[tactic(auto, unfolding(crate::specs::Reading::use_at))]
pub fn use_of<'a>(alloc: Global, from: Left<'a>) -> Result<(UseTree, Left<'a>), NoMemory>
    ensures { IfOk result (λ x. (x.0, rest_of x.1) ≡ use_at (rest_of from.entry)) }
{
    let start = from.after();
    let place = start.place();
    let (module, from) = hname_of(alloc, start.behind())?;
    let (end, from) = end_of(alloc, from)?;
    Ok((UseTree { place, module, end }, from))
}

/// `signal = SIGNAL sigs end`
#[tactic(auto, unfolding(crate::specs::Reading::signal_at))]
pub fn signal_of<'a>(alloc: Global, from: Left<'a>) -> Result<(SignalTree, Left<'a>), NoMemory>
    ensures { IfOk result (λ x. (x.0, rest_of x.1) ≡ signal_at (rest_of from.entry)) }
{
    let start = from.after();
    let place = start.place();
    let (signals, from) = Listed::<SigReader>::read(alloc, 0, start.behind())?;
    let (end, from) = end_of(alloc, from)?;
    let signal = SignalTree {
        place,
        signals,
        end,
    };
    Ok((signal, from))
}

/// `sig = name [ sorts ]`
struct SigReader;

impl Production for SigReader {
    type Tree = SigTree;

    ghost at = { λ n. sig_at };

    #[tactic(auto, unfolding(crate::specs::Reading::sig_at))]
    fn read<'a>(
        alloc: Global,
        fuel: usize,
        from: Left<'a>,
    ) -> Result<(SigTree, Left<'a>), NoMemory> {
        let start = from.after();
        let name = start.name(alloc)?;
        let (sorts, from) = list_in_brackets::<HnameReader>(alloc, fuel, start.behind())?;
        Ok((SigTree { name, sorts }, from))
    }
}

/// `point = ENV | name`
#[tactic(auto, unfolding(crate::specs::Reading::point_at))]
fn point_of<'a>(alloc: Global, from: Left<'a>) -> Result<(PointTree, Left<'a>), NoMemory>
    ensures { IfOk result (λ x. (x.0, rest_of x.1) ≡ point_at (rest_of from.entry)) }
{
    let start = from.after();
    if from.choice() == 0 {
        return Ok((PointTree::Env(start.place()), start.behind()));
    }
    let name = start.name(alloc)?;
    Ok((PointTree::Name(name), start.behind()))
}

/// `path = FROM point TO point WITH names end`
struct PathReader;

impl Production for PathReader {
    type Tree = PathTree;

    ghost at = { λ n. path_at };

    #[tactic(auto, unfolding(crate::specs::Reading::path_at))]
    fn read<'a>(
        alloc: Global,
        fuel: usize,
        from: Left<'a>,
    ) -> Result<(PathTree, Left<'a>), NoMemory> {
        let start = from.after();
        let place = start.place();
        let (begin, rest) = point_of(alloc, start.behind())?;
        let (to, rest) = point_of(alloc, rest.behind())?;
        let (signals, rest) = Listed::<NameReader>::read(alloc, fuel, rest.behind())?;
        let (end, rest) = end_of(alloc, rest)?;
        let path = PathTree {
            place,
            from: begin,
            to,
            signals,
            end,
        };
        Ok((path, rest))
    }
}

/// `path { path }`
#[tactic(auto, unfolding(crate::specs::Reading::paths_at))]
fn paths_of<'a>(alloc: Global, from: Left<'a>) -> Result<(Items<PathTree>, Left<'a>), NoMemory>
    ensures { IfOk result (λ x. (x.0, rest_of x.1) ≡ paths_at (rest_of from.entry)) }
{
    let (first, from) = PathReader::read(alloc, 0, from)?;
    more_of::<PathReader>(alloc, 0, single(alloc, first)?, from)
}

/// `channel = CHANNEL name path { path } ENDCHANNEL closing`
#[tactic(auto, unfolding(crate::specs::Reading::channel_at))]
pub fn channel_of<'a>(alloc: Global, from: Left<'a>) -> Result<(ChannelTree, Left<'a>), NoMemory>
    ensures { IfOk result (λ x. (x.0, rest_of x.1) ≡ channel_at (rest_of from.entry)) }
{
    let start = from.after();
    let place = start.place();
    let name = start.behind().name(alloc)?;
    let (paths, from) = paths_of(alloc, start.behind().behind())?;
    let (closing, from) = closing_of(alloc, from.place(), from.behind())?;
    let channel = ChannelTree {
        place,
        name,
        paths,
        closing,
    };
    Ok((channel, from))
}

/// `route = SIGNALROUTE name path { path }`
#[tactic(auto, unfolding(crate::specs::Reading::route_at))]
pub fn route_of<'a>(alloc: Global, from: Left<'a>) -> Result<(RouteTree, Left<'a>), NoMemory>
    ensures { IfOk result (λ x. (x.0, rest_of x.1) ≡ route_at (rest_of from.entry)) }
{
    let start = from.after();
    let place = start.place();
    let name = start.behind().name(alloc)?;
    let (paths, from) = paths_of(alloc, start.behind().behind())?;
    Ok((RouteTree { place, name, paths }, from))
}

/// `link = CONNECT names AND names end`
#[tactic(auto, unfolding(crate::specs::Reading::link_at))]
pub fn link_of<'a>(alloc: Global, from: Left<'a>) -> Result<(LinkTree, Left<'a>), NoMemory>
    ensures { IfOk result (λ x. (x.0, rest_of x.1) ≡ link_at (rest_of from.entry)) }
{
    let start = from.after();
    let place = start.place();
    let (channels, from) = Listed::<NameReader>::read(alloc, 0, start.behind())?;
    let (routes, from) = Listed::<NameReader>::read(alloc, 0, from.behind())?;
    let (end, from) = end_of(alloc, from)?;
    let link = LinkTree {
        place,
        channels,
        routes,
        end,
    };
    Ok((link, from))
}

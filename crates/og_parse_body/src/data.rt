//! Variables, timers and parameters.
ghost use Rattle.std.specs.Prelude.{◌≡◌, IfOk};
ghost use Rattle.og_reading.specs.Reading.{rest_of};
ghost use Rattle.og_parse_body.specs.Reading.{initial_at, declared_at, dcl_at, timer_at, and_out_at, passing_at, formal_at, fpar_at, returns_at};

use crate::ground::{NameReader, end_of, hname_of};
use og_ast::{DclTree, ExprTree, FormalTree, FparTree, ItemTree, Passing, ReturnsTree, TimerTree};
use og_names::NoMemory;
use og_parse_expr::expr_of;
use og_reading::{Left, Listed, Production, maybe};
use std::alloc::Global;

/// `dcl = DCL declarations end`
#[tactic(auto, unfolding(crate::specs::Reading::dcl_at))]
pub fn dcl_of<'a>(
    alloc: Global,
    fuel: usize,
    from: Left<'a>,
) -> Result<(DclTree, Left<'a>), NoMemory>
    ensures { IfOk result (λ x. (x.0, rest_of x.1) ≡ dcl_at fuel (rest_of from.entry)) }
{
    let start = from.after();
    let place = start.place();
    let (items, from) = Listed::<ItemReader>::read(alloc, fuel, start.behind())?;
    let (end, from) = end_of(alloc, from)?;
    Ok((DclTree { place, items, end }, from))
}

/// The same, as a production.
pub struct DclReader;

impl Production for DclReader {
    type Tree = DclTree;

    ghost at = { dcl_at };

    fn read<'a>(
        alloc: Global,
        fuel: usize,
        from: Left<'a>,
    ) -> Result<(DclTree, Left<'a>), NoMemory> {
        dcl_of(alloc, fuel, from)
    }
}

/// `declared = names hname [ initial ]`
struct ItemReader;

impl Production for ItemReader {
    type Tree = ItemTree;

    ghost at = { declared_at };

    #[tactic(auto, unfolding(crate::specs::Reading::declared_at))]
    fn read<'a>(
        alloc: Global,
        fuel: usize,
        from: Left<'a>,
    ) -> Result<(ItemTree, Left<'a>), NoMemory> {
        let (names, from) = Listed::<NameReader>::read(alloc, fuel, from.after())?;
        let (sort, from) = hname_of(alloc, from)?;
        let (initial, from) = maybe::<InitialReader>(alloc, fuel, from)?;
        let item = ItemTree {
            names,
            sort,
            initial,
        };
        Ok((item, from))
    }
}

/// `initial = ":=" expr`
struct InitialReader;

impl Production for InitialReader {
    type Tree = ExprTree;

    ghost at = { initial_at };

    #[tactic(auto, unfolding(crate::specs::Reading::initial_at))]
    fn read<'a>(
        alloc: Global,
        fuel: usize,
        from: Left<'a>,
    ) -> Result<(ExprTree, Left<'a>), NoMemory> {
        expr_of(alloc, fuel, from.after().behind())
    }
}

/// `timer = TIMER names end`
#[tactic(auto, unfolding(crate::specs::Reading::timer_at))]
pub fn timer_of<'a>(alloc: Global, from: Left<'a>) -> Result<(TimerTree, Left<'a>), NoMemory>
    ensures { IfOk result (λ x. (x.0, rest_of x.1) ≡ timer_at (rest_of from.entry)) }
{
    let start = from.after();
    let place = start.place();
    let (names, from) = Listed::<NameReader>::read(alloc, 0, start.behind())?;
    let (end, from) = end_of(alloc, from)?;
    Ok((TimerTree { place, names, end }, from))
}

/// `fpar = FPAR formals end`
pub struct FparReader;

impl Production for FparReader {
    type Tree = FparTree;

    ghost at = { λ n. fpar_at };

    #[tactic(auto, unfolding(crate::specs::Reading::fpar_at))]
    fn read<'a>(
        alloc: Global,
        fuel: usize,
        from: Left<'a>,
    ) -> Result<(FparTree, Left<'a>), NoMemory> {
        let start = from.after();
        let place = start.place();
        let (formals, from) = Listed::<FormalReader>::read(alloc, fuel, start.behind())?;
        let (end, from) = end_of(alloc, from)?;
        let fpar = FparTree {
            place,
            formals,
            end,
        };
        Ok((fpar, from))
    }
}

/// `formal = [ IN [ "/" OUT ] ] names hname`
struct FormalReader;

impl Production for FormalReader {
    type Tree = FormalTree;

    ghost at = { λ n. formal_at };

    #[tactic(auto, unfolding(crate::specs::Reading::formal_at))]
    fn read<'a>(
        alloc: Global,
        fuel: usize,
        from: Left<'a>,
    ) -> Result<(FormalTree, Left<'a>), NoMemory> {
        let (passing, from) = passing_of(from.after());
        let (names, from) = Listed::<NameReader>::read(alloc, fuel, from)?;
        let (sort, from) = hname_of(alloc, from)?;
        let formal = FormalTree {
            passing,
            names,
            sort,
        };
        Ok((formal, from))
    }
}

/// How a parameter is passed.
#[tactic(auto, unfolding(crate::specs::Reading::passing_at))]
fn passing_of(from: Left<'_>) -> (Passing, Left<'_>)
    ensures { (result.0, rest_of result.1) ≡ passing_at (rest_of from.entry) }
{
    if from.goes_on() {
        and_out_of(from.after().after().behind())
    } else {
        (Passing::Unsaid, from.after())
    }
}

/// The same, behind IN.
#[tactic(auto, unfolding(crate::specs::Reading::and_out_at))]
fn and_out_of(from: Left<'_>) -> (Passing, Left<'_>)
    ensures { (result.0, rest_of result.1) ≡ and_out_at (rest_of from.entry) }
{
    if from.goes_on() {
        (Passing::InOut, from.after().after().behind().behind())
    } else {
        (Passing::In, from.after())
    }
}

/// `returns = RETURNS hname end`
pub struct ReturnsReader;

impl Production for ReturnsReader {
    type Tree = ReturnsTree;

    ghost at = { λ n. returns_at };

    #[tactic(auto, unfolding(crate::specs::Reading::returns_at))]
    fn read<'a>(
        alloc: Global,
        _fuel: usize,
        from: Left<'a>,
    ) -> Result<(ReturnsTree, Left<'a>), NoMemory> {
        let start = from.after();
        let place = start.place();
        let (sort, from) = hname_of(alloc, start.behind())?;
        let (end, from) = end_of(alloc, from)?;
        Ok((ReturnsTree { place, sort, end }, from))
    }
}

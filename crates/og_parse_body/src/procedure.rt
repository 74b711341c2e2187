//! Connections and procedures.
ghost use Rattle.std.specs.Prelude.{◌≡◌, IfOk};
ghost use Rattle.og_reading.specs.Reading.{rest_of};
ghost use Rattle.og_parse_body.specs.Reading.{connection_at, own_body_at, body_at, procedure_at};

use crate::data::{DclReader, FparReader, ReturnsReader};
use crate::ground::{closing_of, end_of};
use crate::transition::transition_of;
use og_ast::{ConnectionTree, ProcedureBody, ProcedureTree};
use og_names::NoMemory;
use og_reading::{Left, Production, maybe, more_of};
use sqlite_items::Items;
use std::alloc::Global;

/// `connection = CONNECTION name ":" transition ENDCONNECTION end`
#[tactic(auto, unfolding(crate::specs::Reading::connection_at))]
pub fn connection_of<'a>(
    alloc: Global,
    fuel: usize,
    from: Left<'a>,
) -> Result<(ConnectionTree, Left<'a>), NoMemory>
    ensures { IfOk result (λ x. (x.0, rest_of x.1) ≡ connection_at fuel (rest_of from.entry)) }
{
    let start = from.after();
    let place = start.place();
    let label = start.behind().name(alloc)?;
    let (transition, from) = transition_of(alloc, fuel, start.behind().behind().behind())?;
    let (end, from) = end_of(alloc, from.behind())?;
    let connection = ConnectionTree {
        place,
        label,
        transition,
        end,
    };
    Ok((connection, from))
}

/// The same, as a production.
pub struct ConnectionReader;

impl Production for ConnectionReader {
    type Tree = ConnectionTree;

    ghost at = { connection_at };

    fn read<'a>(
        alloc: Global,
        fuel: usize,
        from: Left<'a>,
    ) -> Result<(ConnectionTree, Left<'a>), NoMemory> {
        connection_of(alloc, fuel, from)
    }
}

/// `procedure = PROCEDURE name end [ fpar ] [ returns ] procedure_body`
#[tactic(auto, unfolding(crate::specs::Reading::procedure_at))]
pub fn procedure_of<'a>(
    alloc: Global,
    fuel: usize,
    from: Left<'a>,
) -> Result<(ProcedureTree, Left<'a>), NoMemory>
    ensures { IfOk result (λ x. (x.0, rest_of x.1) ≡ procedure_at fuel (rest_of from.entry)) }
{
    let start = from.after();
    let place = start.place();
    let name = start.behind().name(alloc)?;
    let (end, from) = end_of(alloc, start.behind().behind())?;
    let (fpar, from) = maybe::<FparReader>(alloc, fuel, from)?;
    let (returns, from) = maybe::<ReturnsReader>(alloc, fuel, from)?;
    let (body, from) = body_of(alloc, fuel, from)?;
    let procedure = ProcedureTree {
        place,
        name,
        end,
        fpar,
        returns,
        body,
    };
    Ok((procedure, from))
}

/// `procedure_body = EXTERNAL end |` its own body
#[tactic(auto, unfolding(crate::specs::Reading::body_at))]
fn body_of<'a>(
    alloc: Global,
    fuel: usize,
    from: Left<'a>,
) -> Result<(ProcedureBody, Left<'a>), NoMemory>
    ensures { IfOk result (λ x. (x.0, rest_of x.1) ≡ body_at fuel (rest_of from.entry)) }
{
    let start = from.after();
    if from.choice() != 0 {
        return own_body_of(alloc, fuel, start);
    }
    let place = start.place();
    let (end, from) = end_of(alloc, start.behind())?;
    Ok((ProcedureBody::External(place, end), from))
}

/// `{ dcl } START end transition { connection } ENDPROCEDURE closing`
#[tactic(auto, unfolding(crate::specs::Reading::own_body_at))]
fn own_body_of<'a>(
    alloc: Global,
    fuel: usize,
    from: Left<'a>,
) -> Result<(ProcedureBody, Left<'a>), NoMemory>
    ensures { IfOk result (λ x. (x.0, rest_of x.1) ≡ own_body_at fuel (rest_of from.entry)) }
{
    let (dcls, from) = more_of::<DclReader>(alloc, fuel, Items::new(alloc), from)?;
    let place = from.place();
    let (end, from) = end_of(alloc, from.behind())?;
    let (transition, from) = transition_of(alloc, fuel, from)?;
    let (connections, from) = more_of::<ConnectionReader>(alloc, fuel, Items::new(alloc), from)?;
    let (closing, from) = closing_of(alloc, from.place(), from.behind())?;
    let body = ProcedureBody::Own {
        dcls,
        place,
        end,
        transition,
        connections,
        closing,
    };
    Ok((body, from))
}

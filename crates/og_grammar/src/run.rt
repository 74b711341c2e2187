//! The state of a reader, and its steps before a token.
ghost use Rattle.std.specs.Prelude.{◌≡◌, ◌++◌, ◌∷◌, [], OnOk, IfOk, IsTrue, length, reverse, slice_get};
ghost use Rattle.og_grammar.specs.Sentence.{expected, entered};
ghost use Rattle.og_grammar.specs.Predictive.{part_at, is_predictive};
ghost use Rattle.og_grammar.specs.Rows.{rows_below, choice_of, place_in, row_choice, row_at, way_of};
ghost use Rattle.og_grammar.specs.Steps.{StepsTo, by_choice, met, stepped};
ghost use Rattle.og_grammar.specs.Standing.{symbols_due, IsBottomed, IsReady, Reaches};

use crate::rows::{Row, has, part_at};
use crate::{Due, Nesting, Part, Symbol};
use sqlite_items::Items;
use std::alloc::AllocError;

/// What is still due, the last first, the nesting, and the choices so far.
#[derive(Drop)]
pub struct Run {
    pub due: Items<Due>,
    pub count: usize,
    pub choices: Items<u8>,
}

/// What a step comes to: it goes on, it meets the token, which does this to the nesting, or the token is wrong.
#[derive(Clone, Copy, Debug, PartialEq, Eq)]
pub enum Step {
    On,
    Met(Nesting),
    Wrong,
}

/// Steps up to the next token, of this kind: it is due, or it is wrong.
pub fn reach(
    table: &[Symbol],
    rows: &[Items<Row>],
    parts: &[Part],
    last: u8,
    kind: u8,
    run: &mut Run,
) -> Result<Step, AllocError>
    requires test { IsTrue (is_predictive table.now parts.now last) }
    requires rows { rows.now ≡ rows_below table.now parts.now (length parts.now) }
    requires ready { IsReady table.now parts.now (symbols_due (reverse run.old.due)) }
    requires bottom { IsBottomed last (reverse run.old.due) }
    ensures { IfOk result (λ by. Reaches table.now parts.now last kind run.old run.new by) }
{
    'steps: loop {
        match take_step(rows, parts, kind, run)? {
            Step::On => {}
            met => return Ok(met),
        }
    }
}

/// One step before a token of this kind.
pub fn take_step(
    rows: &[Items<Row>],
    parts: &[Part],
    kind: u8,
    run: &mut Run,
) -> Result<Step, AllocError>
    ensures { IfOk result (λ by. StepsTo run.old run.new by (stepped rows.now parts.now kind run.old.count (reverse run.old.due))) }
{
    match run.due.pop() {
        None => Ok(Step::Wrong),
        Some(Due::Restore(count)) => {
            run.count = count;
            Ok(Step::On)
        }
        Some(Due::Expect(symbol)) => meet(rows, parts, kind, symbol, run),
    }
}

/// The same, where this symbol is due.
fn meet(
    rows: &[Items<Row>],
    parts: &[Part],
    kind: u8,
    symbol: Symbol,
    run: &mut Run,
) -> Result<Step, AllocError>
    ensures { IfOk result (λ by. StepsTo run.old run.new by (met rows.now parts.now kind run.old.count symbol (reverse run.old.due))) }
{
    match symbol {
        Symbol::Rule(_) => Ok(Step::Wrong),
        Symbol::Token(due, nesting) => Ok(if due == kind {
            Step::Met(nesting)
        } else {
            Step::Wrong
        }),
        Symbol::NotBefore(barred) => Ok(if barred == kind {
            Step::Wrong
        } else {
            Step::On
        }),
        Symbol::Part(_) | Symbol::Scope(_) | Symbol::Maybe(_) | Symbol::Many(_) => {
            match choice(rows, parts, symbol, kind) {
                None => Ok(Step::Wrong),
                Some(choice) => {
                    enter(rows, symbol, choice, run)?;
                    Ok(Step::On)
                }
            }
        }
    }
}

/// The choice that the kind makes.
fn choice(rows: &[Items<Row>], parts: &[Part], symbol: Symbol, kind: u8) -> Option<u8>
    ensures { result ≡ choice_of rows.now parts.now symbol kind }
{
    match symbol {
        Symbol::Part(part) | Symbol::Scope(part) => row_choice(rows, part, kind),
        Symbol::Maybe(part) | Symbol::Many(part) => {
            Some(if has(part_at(parts, part).begins, kind) {
                1
            } else {
                0
            })
        }
        _ => None,
    }
}

/// The row of a part at which the kind is taken.
fn row_choice(rows: &[Items<Row>], part: u8, kind: u8) -> Option<u8>
    ensures { result ≡ row_choice (slice_get rows.now part) kind }
{
    match rows.get(usize::from(part)) {
        None => None,
        Some(own) => match place_of(own.as_slice(), kind) {
            None => None,
            Some(place) => Some((place % 256) as u8),
        },
    }
}

/// The place of the first row at which the kind is taken.
#[tactic(auto, unfolding(crate::specs::Rows::place_in))]
fn place_of(rows: &[Row], kind: u8) -> Option<usize>
    ensures { result ≡ place_in rows.now kind }
{
    rows.iter().position(|row| has(row.ahead, kind))
}

/// The choice is made: what it puts in the place of the symbol is due.
fn enter(rows: &[Items<Row>], symbol: Symbol, choice: u8, run: &mut Run) -> Result<(), AllocError>
    ensures due { OnOk result (reverse run.new.due ≡ entered run.old.count symbol (way_of rows.now symbol choice) (reverse run.old.due)) }
    ensures count { OnOk result (run.new.count ≡ run.old.count) }
    ensures choices { OnOk result (run.new.choices ≡ run.old.choices ++ choice ∷ []) }
{
    match symbol {
        Symbol::Part(part) => push_row(rows, part, choice, &mut run.due)?,
        Symbol::Scope(part) => {
            run.due.push(Due::Restore(run.count))?;
            push_row(rows, part, choice, &mut run.due)?
        }
        Symbol::Maybe(part) => {
            if choice == 1 {
                run.due.push(Due::Expect(Symbol::Part(part)))?;
            }
        }
        Symbol::Many(part) => {
            if choice == 1 {
                run.due.push(Due::Expect(symbol))?;
                run.due.push(Due::Expect(Symbol::Part(part)))?;
            }
        }
        _ => {}
    }
    run.choices.push(choice)?;
    Ok(())
}

/// The symbols of a row are due.
fn push_row(
    rows: &[Items<Row>],
    part: u8,
    choice: u8,
    due: &mut Items<Due>,
) -> Result<(), AllocError>
    ensures { OnOk result (reverse due.new ≡ expected (row_at (slice_get rows.now part) choice) (reverse due.old)) }
{
    match rows.get(usize::from(part)) {
        None => Ok(()),
        Some(own) => match own.get(usize::from(choice)) {
            None => Ok(()),
            Some(row) => push_all(row.symbols.as_slice(), due),
        },
    }
}

/// These symbols are due, the first of them first.
fn push_all(symbols: &[Symbol], due: &mut Items<Due>) -> Result<(), AllocError>
    ensures { OnOk result (reverse due.new ≡ expected symbols.now (reverse due.old)) }
{
    match symbols {
        [] => Ok(()),
        [first, rest @ ..] => {
            push_all(rest, due)?;
            due.push(Due::Expect(*first))?;
            Ok(())
        }
    }
}

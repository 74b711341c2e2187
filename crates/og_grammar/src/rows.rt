//! The rules of a table, each with the kinds that lead into it.
ghost use Rattle.std.specs.Prelude.{◌≡◌, ◌<◌, [], ◌∷◌, IfOk, IsTrue, length};
ghost use Rattle.og_grammar.specs.Sentence.{body_of};
ghost use Rattle.og_grammar.specs.Predictive.{has, without, part_at, is_empty, ahead_of, ahead, are_known};
ghost use Rattle.og_grammar.specs.Rows.{row_of, rows_of, rows_below};

use crate::{Part, Symbol};
use sqlite_items::Items;
use std::alloc::{AllocError, Global};

/// A rule: its symbols, and the kinds of a next token at which it is taken.
#[derive(Drop)]
pub struct Row {
    pub symbols: Items<Symbol>,
    pub ahead: u128,
}

/// What is said of a part that is not there.
const NO_PART: Part = Part {
    begins: 0,
    follows: 0,
    empty: false,
    weight: 0,
    rank: 0,
    least: 0,
    lead: 0,
    bars: 0,
};

/// The rows of all parts.
pub fn all_rows(
    alloc: Global,
    table: &[Symbol],
    parts: &[Part],
) -> Result<Items<Items<Row>>, AllocError>
    requires { IsTrue (are_known (length parts.now) table.now) }
    ensures { IfOk result (λ rows. rows ≡ rows_below table.now parts.now (length parts.now)) }
{
    let mut rows = Items::new(alloc);
    for (at, part) in parts.iter().enumerate() {
        let own = rows_for(alloc, table, parts, at, part.follows)?;
        rows.push(own)?;
    }
    Ok(rows)
}

/// The rows of one part.
#[tactic(auto, using(crate::proofs::Known::tail_known))]
fn rows_for(
    alloc: Global,
    table: &[Symbol],
    parts: &[Part],
    part: usize,
    follows: u128,
) -> Result<Items<Row>, AllocError>
    requires { IsTrue (are_known (length parts.now) table.now) }
    ensures { IfOk result (λ rows. rows ≡ rows_of part table.now parts.now follows) }
{
    let mut rows = Items::new(alloc);
    let mut rest = table;
    while let [first, more @ ..] = rest {
        rest = more;
        if let Symbol::Rule(name) = first {
            if usize::from(*name) == part {
                let row = row_for(alloc, parts, rest, follows)?;
                rows.push(row)?;
            }
        }
    }
    Ok(rows)
}

/// The row of the rule whose symbols stand in front.
#[tactic(auto, using(crate::proofs::Known::body_known))]
fn row_for(
    alloc: Global,
    parts: &[Part],
    table: &[Symbol],
    follows: u128,
) -> Result<Row, AllocError>
    requires { IsTrue (are_known (length parts.now) table.now) }
    ensures { IfOk result (λ row. row ≡ row_of parts.now follows (body_of table.now)) }
{
    let symbols = body_of(alloc, table)?;
    let ahead = ahead(parts, symbols.as_slice(), follows);
    Ok(Row { symbols, ahead })
}

/// The symbols up to the next rule.
fn body_of(alloc: Global, table: &[Symbol]) -> Result<Items<Symbol>, AllocError>
    ensures { IfOk result (λ symbols. symbols ≡ body_of table.now) }
{
    let mut symbols = Items::new(alloc);
    let mut rest = table;
    while let [first, more @ ..] = rest {
        rest = more;
        if let Symbol::Rule(_) = first {
            return Ok(symbols);
        }
        symbols.push(*first)?;
    }
    Ok(symbols)
}

/// The kinds with which a text of the symbols begins, where the kinds behind it are these.
fn ahead(parts: &[Part], symbols: &[Symbol], behind: u128) -> u128
    requires { IsTrue (are_known (length parts.now) symbols.now) }
    ensures { result ≡ ahead parts.now symbols.now behind }
{
    match symbols {
        [] => behind,
        [first, rest @ ..] => {
            let behind = ahead(parts, rest, behind);
            ahead_of(parts, *first, behind)
        }
    }
}

/// The same, of one symbol.
fn ahead_of(parts: &[Part], symbol: Symbol, behind: u128) -> u128
    requires { IsTrue (are_known (length parts.now) (symbol ∷ [])) }
    ensures { result ≡ ahead_of parts.now symbol behind }
{
    match symbol {
        Symbol::Rule(_) => 0,
        Symbol::Token(kind, _) => 1 << kind,
        Symbol::Part(part) | Symbol::Scope(part) => {
            let part = part_at(parts, part);
            if part.empty {
                part.begins | behind
            } else {
                part.begins | 0
            }
        }
        Symbol::Maybe(part) | Symbol::Many(part) => part_at(parts, part).begins | behind,
        Symbol::NotBefore(kind) => without(behind, kind),
    }
}

/// What is said of a part.
pub fn part_at(parts: &[Part], part: u8) -> Part
    ensures { result ≡ part_at parts.now part }
{
    match parts.get(usize::from(part)) {
        Some(part) => *part,
        None => NO_PART,
    }
}

/// Whether the kind is one of the set.
pub fn has(set: u128, kind: u8) -> bool
    ensures { result ≡ has set kind }
{
    kind < 128 && (set >> kind) & 1 == 1
}

/// The set without the kind.
fn without(set: u128, kind: u8) -> u128
    requires { kind < 128 }
    ensures { result ≡ without set kind }
{
    if has(set, kind) {
        set ^ (1 << kind)
    } else {
        set
    }
}

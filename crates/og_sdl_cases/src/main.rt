//! Each line of the input is a word and a text of SDL/PR, in which `\n` stands for the end of a line. What is written is
//! the line, and behind `file` or `expr` the tree of the text: each construct with its place, on a line of its own, and
//! what an operator binds in square brackets; or the rule that the text violates first, and where. Behind `where` it is
//! `right` in place of the tree, and behind `units` and the name of a file how many units this file has.
#![tactic(auto)]

mod data;
mod expression;
mod ground;
mod out;
mod state;
mod system;
mod transition;

ghost use Rattle.og_lexer.specs.Texts.{EndsOnce};

use crate::expression::put_expression;
use crate::out::{Out, put_all};
use og_ast::Unit;
use og_base::{ModelError, Violation};
use og_lexer::{Spanned, lex_sdl};
use og_parse::parse_units;
use og_parse_expr::parse_expr;
use std::alloc::{AllocError, Global};
use std::{fs, io};

/// The longest text that the lexer takes.
const LONGEST: usize = 67108864;

/// What is told of a text.
#[derive(Clone, Copy)]
enum Asked {
    /// The trees of a file.
    Trees,
    /// The tree of an expression.
    Expression,
    /// Whether it is a file.
    Place,
    /// How many units a file has.
    Count,
}

fn main(rt: HostRuntime) -> io::Result<()> {
    for line in rt.lines(rt.alloc()) {
        let line = line?;
        let line = line.as_str();
        if line.is_empty() || line.starts_with('#') {
            continue;
        }
        let (word, text) = match line.split_once(' ') {
            None => (line, ""),
            Some(both) => both,
        };
        let answer = if word == "units" {
            let read = fs::read_to_string(&rt, text)?;
            answer_of(rt.alloc(), Asked::Count, read.as_bytes())?
        } else {
            let bytes = text_of(rt.alloc(), text)?;
            answer_of(rt.alloc(), asked_by(word), bytes.as_slice())?
        };
        println!(rt; "== {line}\n{answer}")?;
    }
    Ok(())
}

fn asked_by(word: &str) -> Asked {
    match word {
        "file" => Asked::Trees,
        "where" => Asked::Place,
        _ => Asked::Expression,
    }
}

/// The bytes of a text. `\n` stands for the end of a line.
fn text_of(alloc: Global, text: &str) -> Result<Vec<u8>, AllocError> {
    let mut bytes = Vec::new(alloc);
    let mut rest = text.as_bytes();
    for _ in 0..text.len() {
        rest = match rest {
            [] => break,
            [b'\\', b'n', behind @ ..] => {
                bytes.push(b'\n')?;
                behind
            }
            [byte, behind @ ..] => {
                bytes.push(*byte)?;
                behind
            }
        };
    }
    Ok(bytes)
}

/// What is answered for a text.
fn answer_of(alloc: Global, asked: Asked, text: &[u8]) -> Result<String, AllocError> {
    let mut out = Out::new(alloc);
    put_text(alloc, asked, text, &mut out);
    out.finished()
}

fn put_text(alloc: Global, asked: Asked, text: &[u8], out: &mut Out) {
    if text.len() > LONGEST {
        out.put("too long\n");
        return;
    }
    match lex_sdl(alloc, 0, text) {
        Ok(lexed) => put_tokens(alloc, asked, lexed.tokens.as_slice(), out),
        Err(error) => put_error(error, out),
    }
}

/// Appends what is told of these tokens, or the rule that they violate.
fn put_tokens(alloc: Global, asked: Asked, tokens: &[Spanned], out: &mut Out)
    requires { EndsOnce tokens.now }
{
    match asked {
        Asked::Expression => match parse_expr(alloc, tokens) {
            Ok(tree) => {
                put_expression(out, &tree);
                out.put("\n");
            }
            Err(error) => put_error(error, out),
        },
        _ => match parse_units(alloc, tokens) {
            Ok(units) => put_units(asked, units.as_slice(), out),
            Err(error) => put_error(error, out),
        },
    }
}

fn put_units(asked: Asked, units: &[Unit], out: &mut Out) {
    match asked {
        Asked::Trees => put_all(out, units, ""),
        Asked::Count => {
            out.number(units.len() as u64);
            out.put("\n");
        }
        _ => out.put("right\n"),
    }
}

fn put_error(error: ModelError, out: &mut Out) {
    match error {
        ModelError::Broken(Violation { rule, place }) => out.violation(rule, place),
        ModelError::NoMemory(_) => out.put("no memory\n"),
    }
}

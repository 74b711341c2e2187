//! One pass over a text: its tokens, where it goes wrong, and where it nests too deep.
ghost use Rattle.std.specs.Prelude.{◌≡◌, ◌+◌, ◌-◌, ◌^◌, ◌<◌, ◌++◌, ℕ, List, length, IfOk, IfErr, MatchOption};
ghost use Rattle.og_csubset.specs.Tokens.{first_line as first_line_bytes};
ghost use Rattle.og_clex.specs.Views.{tokens_view};
ghost use Rattle.og_clex.specs.Places.{place_on};
ghost use Rattle.og_clex.specs.Told.{TellsBad, TellsDeep, IsReadAs};

use crate::CReadError;
use crate::lex::{first_token, space_len};
use crate::machine::{Symbol, may_end, push_all, step};
use crate::nest::{Level, Nest};
use crate::token::Token;
use og_base::Place;
use sqlite_items::Items;
use std::alloc::Global;

/// The tokens of a text that is a program nested at most 256 deep, in time linear in the bytes.
pub fn tokens_of(alloc: Global, bytes: &[u8]) -> Result<Items<Token>, CReadError>
    requires small { length bytes.now < 2 ^ 32 - 1 }
    ensures read { IfOk result (λ tokens. IsReadAs bytes.now (tokens_view tokens)) }
    ensures bad { IfErr result (TellsBad bytes.now) }
    ensures deep { IfErr result (TellsDeep bytes.now) }
{
    let Some(mut rest) = behind_first_line(bytes) else {
        return Err(CReadError::Bad(Place {
            file: 0,
            line: 1,
            column: 1,
        }));
    };
    let mut place = Place {
        file: 0,
        line: 2,
        column: 1,
    };
    let mut tokens = Items::new(alloc);
    let mut stack = Vec::new(alloc);
    push_all(
        &mut stack,
        &[Symbol::Structs, Symbol::Globals, Symbol::Declarations],
    )?;
    let mut nest = Nest {
        in_struct: false,
        level: Level {
            is_block: true,
            base: 0,
            depth: 0,
        },
        outward: Vec::new(alloc),
    };
    loop {
        let (space, here) = rest.split_at(space_len(rest));
        place = place_after(place, space);
        let Some((token, behind)) = first_token(alloc, here)? else {
            if here.is_empty() && may_end(&mut stack) {
                return Ok(tokens);
            }
            return Err(CReadError::Bad(place));
        };
        if !step(&mut stack, &token)? {
            return Err(CReadError::Bad(place));
        }
        nest.go_on(&token)?;
        if nest.level.depth > 256 {
            return Err(CReadError::TooDeep(place));
        }
        let (text, _) = here.split_at(here.len() - behind.len());
        place = place_after(place, text);
        tokens.push(token)?;
        rest = behind;
    }
}

/// The bytes behind the first line.
fn behind_first_line(bytes: &[u8]) -> Option<&[u8]>
    ensures { MatchOption result ((body : List ℕ) → bytes.now ≡ first_line_bytes ++ body → ⊥) (λ body. bytes.now ≡ first_line_bytes ++ body.now) }
{
    bytes.strip_prefix(b"#include <stdint.h>\n")
}

/// The place behind these bytes, from the place of their first byte on.
fn place_after(place: Place, text: &[u8]) -> Place
    requires lines { place.line + length text.now < 2 ^ 32 }
    requires columns { place.column + length text.now < 2 ^ 32 }
    ensures { result ≡ place_on place text.now }
{
    let Place {
        file,
        mut line,
        mut column,
    } = place;
    for byte in text {
        if *byte == b'\n' {
            line += 1;
            column = 1;
        } else {
            column += 1;
        }
    }
    Place { file, line, column }
}

//! Texts of the C subset are read as programs: the tree that a text spells, or the place where it goes wrong or nests too
//! deep. A text is first cut into tokens that are known to be a program (og_clex), and its tree is then read off these tokens
//! (`declaration`, `statement`, `expression`, over `number` and `take`).
#![tactic(auto)]

mod declaration;
mod expression;
mod number;
mod statement;
mod take;

ghost use Rattle.std.specs.Prelude.{◌≤◌, ◌-◌, ◌^◌, length, IfOk, IfErr, MatchResult};
ghost use Rattle.og_csubset.specs.Spelling.{CSpells};
ghost use Rattle.og_csubset.specs.Nesting.{IsWithinNesting};
ghost use Rattle.og_clex.specs.Told.{TellsBad, TellsDeep, IsOutOfMemory};

use declaration::program_of;
pub use og_clex::CReadError;
use og_clex::tokens_of;
use og_csubset::CProgram;
use og_names::NoMemory;
use std::alloc::Global;

/// Reads the texts of programs that nest at most 256 deep, in time linear in the bytes. Of the two rules the one that is
/// broken first counts, and K1 at one token. A text of 2^32 - 1 bytes or more is not read: the answer is `NoMemory`.
pub fn read_c(alloc: Global, bytes: &[u8]) -> Result<CProgram, CReadError>
    // The text spells the program that is read, and nests at most 256 deep.
    ensures read { IfOk result (λ program. CSpells program bytes.now) }
    ensures within { IfOk result (λ program. IsWithinNesting 256 bytes.now) }
    // A refused text is refused at its place.
    ensures bad { IfErr result (TellsBad bytes.now) }
    ensures deep { IfErr result (TellsDeep bytes.now) }
    // A text whose places may not be told is not read.
    ensures long { 2 ^ 32 - 1 ≤ length bytes.now → MatchResult result (λ _. ⊥) IsOutOfMemory }
{
    if bytes.len() >= LONGEST {
        return Err(CReadError::NoMemory(NoMemory::past_numbers(bytes.len())));
    }
    let tokens = tokens_of(alloc, bytes)?;
    Ok(program_of(alloc, tokens.as_slice())?)
}

/// Lines and columns of shorter texts are below 2^32.
const LONGEST: usize = (1 << 32) - 1;

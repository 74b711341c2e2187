//! The public call: the units of a file from its tokens.
ghost use Rattle.std.specs.Prelude.{◌≡◌, List, IfOk, IfErr, IsTrue};
ghost use Rattle.og_lexer.specs.Texts.{EndsOnce};
ghost use Rattle.og_ast.specs.declared.system.Unit.{Unit as UnitTree};
ghost use Rattle.og_sdl.specs.declared.table.TheConstants.{SDL};
ghost use Rattle.og_reading.specs.declared.kind.TheConstants.{LAST};
ghost use Rattle.og_reading.specs.Sentences.{lacks, Refuses, SaysWrong};
ghost use Rattle.og_parse.specs.Reading.{units_of};
ghost use Rattle.og_parse.specs.Grammar.{IsFile, AreUnits};

use crate::system::units_of;
use og_ast::Unit;
use og_base::ModelError;
use og_lexer::Spanned;
use og_names::NoMemory;
use og_reading::{Left, choices_of};
use og_sdl::{SDL, SDL_PARTS, can_be_read};
use sqlite_items::Items;
use std::alloc::Global;

/// The units of the tokens of a file, in time linear in their number. A violation is the first of class S: S1 at the first
/// token that no file has there, S2 at the first that nests more than 64 deep. At one token S1 comes first.
pub fn parse_units(alloc: Global, tokens: &[Spanned]) -> Result<Items<Unit>, ModelError>
    requires { EndsOnce tokens.now }
    // The tokens are those of these units.
    ensures found { IfOk result (λ units. AreUnits units tokens.now) }
    // They are those of no others.
    ensures only { IfOk result (λ units. (others : List UnitTree) → AreUnits others tokens.now → others ≡ units) }
    // A violation is the first of class S, and then they are those of none.
    ensures broken { IfErr result (Refuses SDL IsFile tokens.now) }
    // S1 stands at the first token such that no text begins with the tokens up to and including it.
    ensures wrong { IfErr result (SaysWrong IsFile tokens.now) }
{
    can_be_read();
    has_no_end();
    match choices_of(alloc, &SDL, &SDL_PARTS, tokens) {
        Ok(choices) => {
            let units = units_by(alloc, choices.as_slice(), tokens)?;
            Ok(units)
        }
        Err(error) => Err(error),
    }
}

/// The end of a file stands in no production.
fn has_no_end()
    ensures { IsTrue (lacks LAST SDL) }
{}

/// The units by the choices of a derivation.
fn units_by(alloc: Global, choices: &[u8], tokens: &[Spanned]) -> Result<Items<Unit>, NoMemory>
    ensures { IfOk result (λ units. units ≡ units_of choices.now tokens.now) }
{
    let (units, _) = units_of(alloc, choices.len(), Left { choices, tokens })?;
    Ok(units)
}

//! The box in which a violation stands.
ghost use Rattle.std.specs.Prelude.{◌≡◌, ◌<◌, ◌≤◌, ◌^◌, ◌-◌, length, take, IfOk, IfErr};
ghost use Rattle.og_base.specs.Order.{is_before as comes_before};
ghost use Rattle.og_lexer.specs.Places.{first_place as first_of, next_place as next_of};
ghost use Rattle.og_lexer.specs.Texts.{LexesIn, RefusesIn, AreCommentsInPlaceIn};
ghost use Rattle.og_cif.specs.File.{StandInFile};
ghost use Rattle.og_report.specs.Report.{IsReportOf, IsBoxFor, IsLastBoxOf, count_before as counted};

use crate::Report;
use og_base::{ModelError, Place, Violation};
use og_cif::{CifBox, attach, is_before, lexed_comments_stand};
use og_lexer::{Language, Lexed, lex_asn, lex_sdl};
use og_names::NoMemory;
use std::alloc::Global;

/// The report of a violation in the file with these bytes.
pub fn report_of(
    alloc: Global,
    language: Language,
    bytes: &[u8],
    violation: Violation,
) -> Result<Report, NoMemory>
    requires { length bytes.now < 2 ^ 32 - 1 }
    ensures { IfOk result (λ report. IsReportOf language bytes.now violation report) }
{
    let Violation { rule, place } = violation;
    let frame = box_for(alloc, language, bytes, place)?;
    Ok(Report { rule, place, frame })
}

/// The last box before the place, where the bytes before it lex.
fn box_for(
    alloc: Global,
    language: Language,
    bytes: &[u8],
    place: Place,
) -> Result<Option<CifBox>, NoMemory>
    requires { length bytes.now < 2 ^ 32 - 1 }
    ensures { IfOk result (IsBoxFor language bytes.now place) }
{
    lexed_comments_stand();
    let front = &bytes[..count_before(place, bytes)];
    match lex(alloc, language, place.file, front) {
        Ok(lexed) => Ok(last_box(alloc, &lexed, front, place)?),
        Err(ModelError::Broken(_)) => Ok(None),
        Err(ModelError::NoMemory(met)) => Err(met),
    }
}

/// The tokens and comments of bytes in the language.
fn lex(alloc: Global, language: Language, file: u32, bytes: &[u8]) -> Result<Lexed, ModelError>
    requires { length bytes.now < 2 ^ 32 - 1 }
    ensures found { IfOk result (λ lexed. LexesIn language file bytes.now lexed.tokens lexed.comments) }
    ensures broken { IfErr result (RefusesIn language file bytes.now) }
    ensures comments_in_place { IfOk result (λ lexed. AreCommentsInPlaceIn language file bytes.now 0 lexed.comments) }
{
    match language {
        Language::Sdl => lex_sdl(alloc, file, bytes),
        Language::Asn => lex_asn(alloc, file, bytes),
    }
}

/// The last box among the comments that ends at or before the place.
fn last_box(
    alloc: Global,
    lexed: &Lexed,
    bytes: &[u8],
    place: Place,
) -> Result<Option<CifBox>, NoMemory>
    requires few { length bytes.now < 2 ^ 32 - 1 }
    requires placed { StandInFile bytes.now lexed.now.comments }
    ensures { IfOk result (IsLastBoxOf bytes.now lexed.now.comments place) }
{
    let boxes = attach(alloc, lexed.comments.as_slice(), bytes)?;
    Ok(boxes.before(place))
}

/// How many of the bytes stand before the place.
fn count_before(place: Place, bytes: &[u8]) -> usize
    requires { length bytes.now < 2 ^ 32 - 1 }
    ensures counted { result ≡ counted place (first_of place.file) bytes.now }
    ensures within { result ≤ length bytes.now }
{
    let mut here = Place {
        file: place.file,
        line: 1,
        column: 1,
    };
    for (count, byte) in bytes.iter().enumerate() {
        if !is_before(here, place) {
            return count;
        }
        here = next_place(here, *byte);
    }
    bytes.len()
}

/// The place one byte on.
fn next_place(place: Place, byte: u8) -> Place
    requires lines { place.line < 2 ^ 32 - 1 }
    requires columns { place.column < 2 ^ 32 - 1 }
    ensures { result ≡ next_of place byte }
{
    let Place { file, line, column } = place;
    if byte == b'\n' {
        Place {
            file,
            line: line + 1,
            column: 1,
        }
    } else {
        Place {
            file,
            line,
            column: column + 1,
        }
    }
}

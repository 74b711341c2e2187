//! The form of a line: a name, and the texts of values in brackets behind it.
ghost use Rattle.std.specs.Prelude.{◌≡◌, map, length, IfOk};
ghost use Rattle.std.specs.Option.{option_map};
ghost use Rattle.og_stim.specs.Scans.{ended as ended_with, piece_in, texts_in as texts_found, form_behind as form_found, form_in as form_of_line};

use crate::lines::is_all_blank;
use og_names::NoMemory;
use og_value::forms::form_at;
use og_value::tokens::{name_at, past_blanks};
use std::alloc::Global;

/// The most braces and colons that may be open in a text of a value.
const DEEPEST: usize = 64;

/// The name of a line, and the texts of its values.
#[derive(Drop)]
pub struct Form<'a> {
    pub name: &'a [u8],
    pub texts: Vec<&'a [u8]>,
}

/// The text of a value in a list, and what stands behind the comma behind it, or nothing where it is the last.
#[derive(Drop)]
struct Piece<'a> {
    text: &'a [u8],
    more: Option<&'a [u8]>,
}

/// The form of a line, where it has one.
#[tactic(auto, unfolding(crate::specs::Scans::form_in))]
pub fn form_in(alloc: Global, line: &[u8]) -> Result<Option<Form<'_>>, NoMemory>
    ensures { IfOk result (λ form. option_map (λ f. (f.name.now, map (λ t. t.now) f.texts.items)) form ≡ form_of_line line.now) }
{
    let Some((name, rest)) = name_at(past_blanks(line)) else {
        return Ok(None);
    };
    let form = form_behind(alloc, name, past_blanks(rest))?;
    Ok(form)
}

fn form_behind<'a>(
    alloc: Global,
    name: &'a [u8],
    behind: &'a [u8],
) -> Result<Option<Form<'a>>, NoMemory>
    ensures { IfOk result (λ form. option_map (λ f. (f.name.now, map (λ t. t.now) f.texts.items)) form ≡ form_found name.now behind.now) }
{
    match behind {
        [] => {
            let texts = Vec::new(alloc);
            Ok(Some(Form { name, texts }))
        }
        [first, more @ ..] if *first == b'(' => {
            let Some(texts) = texts_in(alloc, more)? else {
                return Ok(None);
            };
            Ok(Some(Form { name, texts }))
        }
        _ => Ok(None),
    }
}

/// The texts of the values up to the closing bracket.
fn texts_in(alloc: Global, bytes: &[u8]) -> Result<Option<Vec<&[u8]>>, NoMemory>
    ensures { IfOk result (λ texts. option_map (λ ts. map (λ t. t.now) ts.items) texts ≡ texts_found bytes.now) }
{
    let mut texts = Vec::new(alloc);
    let mut rest = bytes;
    for _ in 0..bytes.len() {
        let Some(piece) = piece_at(rest) else {
            return Ok(None);
        };
        texts.push(piece.text)?;
        match piece.more {
            None => return Ok(Some(texts)),
            Some(more) => rest = more,
        }
    }
    Ok(None)
}

/// A value of the list, behind blanks.
#[tactic(auto, using(og_value::proofs::Longest::rest_within), unfolding(crate::specs::Scans::piece_in))]
fn piece_at(bytes: &[u8]) -> Option<Piece<'_>>
    ensures { option_map (λ p. (p.text.now, option_map (λ m. m.now) p.more)) result ≡ piece_in bytes.now }
{
    let front = past_blanks(bytes);
    let behind = form_at(DEEPEST, front)?;
    let (text, _) = front.split_at(front.len() - behind.len());
    ended(text, past_blanks(behind))
}

/// A text with what stands behind it and blanks.
fn ended<'a>(text: &'a [u8], behind: &'a [u8]) -> Option<Piece<'a>>
    ensures { option_map (λ p. (p.text.now, option_map (λ m. m.now) p.more)) result ≡ ended_with text.now behind.now }
{
    match behind {
        [] => None,
        [first, more @ ..] => {
            if *first == b',' {
                let more = Some(more);
                return Some(Piece { text, more });
            }
            if *first == b')' && is_all_blank(more) {
                return Some(Piece { text, more: None });
            }
            None
        }
    }
}

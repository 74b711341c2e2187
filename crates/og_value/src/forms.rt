//! Texts that have the form of a value, whatever its type.
#![tactic(auto, using(crate::proofs::Steps::steps))]

ghost use Rattle.std.specs.Prelude.{◌≡◌, length, option_map};
ghost use Rattle.og_value.specs.Bytes.{truth_of};
ghost use Rattle.og_value.specs.Scans.{past_all, part_by, braces_by, colon_by, past_word, form_at, inner_form, comma_by};

use crate::tokens::{
    digits_at, mark_at, mark_here, minus_digits_at, name_at, one_less, past_blanks, truth_of,
    word_at,
};

/// What stands behind the longest text of a value in front that nests at most so deep.
#[cycle(forms)]
#[tactic(auto, using(crate::proofs::Steps::steps), unfolding(crate::specs::Scans::form_by))]
pub fn form_at(depth: usize, bytes: &[u8]) -> Option<&[u8]>
    ensures { option_map (λ rest. (tt, rest.now)) result ≡ form_at depth bytes.now }
{
    if let Some((_, rest)) = digits_at(bytes) {
        return Some(rest);
    }
    if let Some((_, rest)) = minus_digits_at(bytes) {
        return Some(rest);
    }
    if let Some((word, rest)) = word_at(bytes) {
        return Some(past_word(depth, word, rest));
    }
    let inner = one_less(depth)?;
    let more = mark_here(b'{', bytes)?;
    braces_at(inner, past_blanks(more))
}

/// What stands behind a word and the value that belongs to it.
#[cycle(forms)]
fn past_word<'a>(depth: usize, word: &[u8], rest: &'a [u8]) -> &'a [u8]
    ensures { result.now ≡ past_word (inner_form depth) (truth_of word.now) rest.now }
{
    if truth_of(word).is_some() {
        return rest;
    }
    let Some(inner) = one_less(depth) else {
        return rest;
    };
    match colon_at(inner, rest) {
        Some(behind) => behind,
        None => rest,
    }
}

/// What stands behind a colon and a value.
#[cycle(forms)]
#[tactic(auto, unfolding(crate::specs::Scans::colon_by))]
fn colon_at(depth: usize, bytes: &[u8]) -> Option<&[u8]>
    ensures { option_map (λ rest. (tt, rest.now)) result ≡ colon_by (form_at depth) bytes.now }
{
    let more = mark_at(b':', bytes)?;
    form_at(depth, past_blanks(more))
}

/// What stands behind braces, of which the first is passed.
#[cycle(forms)]
#[tactic(auto, unfolding(crate::specs::Scans::braces_by, crate::specs::Scans::closed_by))]
fn braces_at(depth: usize, bytes: &[u8]) -> Option<&[u8]>
    ensures { option_map (λ rest. (tt, rest.now)) result ≡ braces_by (form_at depth) bytes.now }
{
    if let Some(rest) = mark_here(b'}', bytes) {
        return Some(rest);
    }
    if let Some(rest) = part_at(depth, bytes) {
        return mark_at(b'}', past_parts(depth, rest));
    }
    let rest = form_at(depth, bytes)?;
    mark_at(b'}', past_items(depth, rest))
}

/// What stands behind a component.
#[cycle(forms)]
#[tactic(auto, unfolding(crate::specs::Scans::part_by))]
fn part_at(depth: usize, bytes: &[u8]) -> Option<&[u8]>
    ensures { option_map (λ rest. (tt, rest.now)) result ≡ part_by (form_at depth) bytes.now }
{
    let (_, rest) = name_at(bytes)?;
    form_at(depth, past_blanks(rest))
}

/// What stands behind values, each with a comma before it.
#[cycle(forms)]
fn past_items(depth: usize, bytes: &[u8]) -> &[u8]
    ensures { result.now ≡ past_all (comma_by (form_at depth)) (length bytes.now) bytes.now }
{
    let mut rest = bytes;
    for _ in 0..bytes.len() {
        match comma_item(depth, rest) {
            Some(behind) => rest = behind,
            None => return rest,
        }
    }
    rest
}

#[cycle(forms)]
#[tactic(auto, unfolding(crate::specs::Scans::comma_by))]
fn comma_item(depth: usize, bytes: &[u8]) -> Option<&[u8]>
    ensures { option_map (λ rest. (tt, rest.now)) result ≡ comma_by (form_at depth) bytes.now }
{
    let more = mark_at(b',', bytes)?;
    form_at(depth, past_blanks(more))
}

/// What stands behind components, each with a comma before it.
#[cycle(forms)]
fn past_parts(depth: usize, bytes: &[u8]) -> &[u8]
    ensures { result.now ≡ past_all (comma_by (part_by (form_at depth))) (length bytes.now) bytes.now }
{
    let mut rest = bytes;
    for _ in 0..bytes.len() {
        match comma_part(depth, rest) {
            Some(behind) => rest = behind,
            None => return rest,
        }
    }
    rest
}

#[cycle(forms)]
#[tactic(auto, unfolding(crate::specs::Scans::comma_by))]
fn comma_part(depth: usize, bytes: &[u8]) -> Option<&[u8]>
    ensures { option_map (λ rest. (tt, rest.now)) result ≡ comma_by (part_by (form_at depth)) bytes.now }
{
    let more = mark_at(b',', bytes)?;
    part_at(depth, past_blanks(more))
}

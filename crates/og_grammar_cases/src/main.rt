//! Each line of the input is a limit of nesting and the words of a text; `3*(` stands for a word three times, and `3*,~a` for
//! two words three times. The answer for the grammar for trial is written: the choices of the derivation, the place of the first wrong word, the place of the
//! first that nests too deep, or that the text breaks off. Places count words from 0.
#![tactic(auto)]

mod kind;
mod part;
mod table;

use crate::table::{LAST, TRIAL, TRIAL_PARTS};
use og_grammar::{Refusal, derive};
use std::alloc::{AllocError, Global};
use std::io;

fn main(rt: HostRuntime) -> io::Result<()> {
    for line in rt.lines(rt.alloc()) {
        let line = line?;
        let answer = answer(rt.alloc(), line.as_str())?;
        println!(rt; "{answer}")?;
    }
    Ok(())
}

/// What is answered for a line.
fn answer(alloc: Global, line: &str) -> Result<String, AllocError> {
    let (limit, words) = match line.split_once(' ') {
        None => (line, ""),
        Some(both) => both,
    };
    let limit = limit.parse::<usize>().unwrap_or(0);
    let kinds = kinds_of(alloc, words)?;
    match derive(alloc, &TRIAL, &TRIAL_PARTS, LAST, limit, kinds.as_slice()) {
        Ok(choices) => shown(alloc, choices.as_slice()),
        Err(Refusal::Wrong(place)) => format!(in alloc; "wrong at {place}"),
        Err(Refusal::TooDeep(place)) => format!(in alloc; "too deep at {place}"),
        Err(Refusal::CutOff) => format!(in alloc; "cut off"),
        Err(Refusal::NoMemory(met)) => Err(met),
    }
}

/// The choices, unless they are many.
fn shown(alloc: Global, choices: &[u8]) -> Result<String, AllocError> {
    if choices.len() > 12 {
        return format!(in alloc; "a sentence");
    }
    let mut text = format!(in alloc; "a sentence:")?;
    for choice in choices {
        let next = format!(in alloc; " {choice}")?;
        text.push_str(next.as_str())?;
    }
    Ok(text)
}

/// The kinds of the words.
fn kinds_of(alloc: Global, words: &str) -> Result<Vec<u8>, AllocError> {
    let mut kinds = Vec::new(alloc);
    for word in words.split(' ').filter(|word| !word.is_empty()) {
        let (times, group) = match word.split_once('*') {
            Some((times, group)) if !times.is_empty() => {
                (times.parse::<u32>().unwrap_or(1), group)
            }
            _ => (1, word),
        };
        let group = kinds_of_group(alloc, group)?;
        for _ in 0..times {
            for kind in group.as_slice() {
                kinds.push(*kind)?;
            }
        }
    }
    Ok(kinds)
}

/// The kinds of words that are joined by `~`.
fn kinds_of_group(alloc: Global, group: &str) -> Result<Vec<u8>, AllocError> {
    let mut kinds = Vec::new(alloc);
    for word in group.split('~') {
        kinds.push(kind_of(word))?;
    }
    Ok(kinds)
}

/// The kind of a word.
fn kind_of(word: &str) -> u8 {
    let mut at = 0u8;
    for known in kind::WORDS {
        if known == word {
            return at;
        }
        at = at.wrapping_add(1);
    }
    match word.as_bytes() {
        [b'0'..=b'9', ..] => kind::NUMBER,
        [b'\'', ..] => kind::TEXT,
        _ => kind::NAME,
    }
}

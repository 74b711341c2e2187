//! A case, as its lines make it.

use crate::action::{Action, action_of};
use crate::command::written_by;
use crate::escape::put_bytes;
use og_base::MemFile;
use std::alloc::{AllocError, AllocFailed, Global};
use thiserror::Error;

/// Why a case cannot be carried out.
#[derive(Debug, Drop, Error)]
pub enum Wrong {
    #[error("no such line")]
    Line,
    #[error("no such escape")]
    Escape,
    #[error("no number")]
    Number,
    #[error("a word that is not UTF-8")]
    Word,
    #[error("other words are wanted")]
    Words,
    #[error("no such file")]
    File,
    #[error("a line of a file before the file")]
    Outside,
    #[error("memory could not be had")]
    NoMemory,
}

impl From<AllocError> for Wrong {
    fn from(_error: AllocError) -> Wrong {
        Wrong::NoMemory
    }
}

impl<T: Drop> From<AllocFailed<T>> for Wrong {
    fn from(_error: AllocFailed<T>) -> Wrong {
        Wrong::NoMemory
    }
}

/// How an output is shown.
#[derive(Drop)]
pub enum Shown {
    Whole,
    /// The lines of these numbers, counted from 1.
    Lines(Vec<u64>),
    /// How many bytes it has, and so many of its first and of its last lines.
    Ends(u64),
    /// Whether it is this file of the case.
    As(String),
}

/// A case: what it tries, its files, and the calls of the store and of the sink that fail.
#[derive(Drop)]
pub struct Case {
    pub action: Action,
    pub words: Vec<String>,
    pub files: Vec<MemFile>,
    pub reads: Vec<u64>,
    pub writes: Vec<u64>,
    pub shown: Shown,
    /// What `\=` stands for.
    pub with: Vec<u8>,
}

impl Case {
    pub fn new(alloc: Global, with: Vec<u8>) -> Case {
        Case {
            action: Action::Words,
            words: Vec::new(alloc),
            files: Vec::new(alloc),
            reads: Vec::new(alloc),
            writes: Vec::new(alloc),
            shown: Shown::Whole,
            with,
        }
    }

    /// The first file of this name.
    pub fn file(&self, name: &str) -> Option<&[u8]> {
        for file in &self.files {
            if file.name.as_slice() == name.as_bytes() {
                return Some(file.bytes.as_slice());
            }
        }
        None
    }

    /// Takes a line of a case or of its head. What comes later stands in the place of what came before.
    pub fn take(&mut self, alloc: Global, line: &str) -> Result<(), Wrong> {
        if line.is_empty() || line.starts_with('#') {
            return Ok(());
        }
        if let Some(text) = line.strip_prefix('|') {
            return self.add_text(alloc, 1, text, b"\n");
        }
        if let Some(text) = line.strip_prefix('+') {
            return self.add_text(alloc, 1, text, b"");
        }
        match line.split_once(' ') {
            Some((word, rest)) => self.take_words(alloc, word, rest),
            None => self.take_words(alloc, line, ""),
        }
    }

    fn take_words(&mut self, alloc: Global, word: &str, rest: &str) -> Result<(), Wrong> {
        if let Some(action) = action_of(word) {
            self.action = action;
            self.words = words_of(alloc, rest, &self.with)?;
            return Ok(());
        }
        match word {
            "file" => self.begin_file(alloc, rest)?,
            "by" => self.add_output(alloc, rest)?,
            "reads" => self.reads = numbers_of(alloc, rest)?,
            "writes" => self.writes = numbers_of(alloc, rest)?,
            "show" => self.shown = shown_of(alloc, rest)?,
            _ => self.add_often(alloc, word, rest)?,
        }
        Ok(())
    }

    /// `file NAME`: the lines behind it are those of this file.
    fn begin_file(&mut self, alloc: Global, name: &str) -> Result<(), Wrong> {
        let name = Vec::from_slice(alloc, name.as_bytes())?;
        self.files
            .retain(|file| file.name.as_slice() != name.as_slice());
        self.files.push(MemFile {
            name,
            bytes: Vec::new(alloc),
        })?;
        Ok(())
    }

    /// `N |TEXT` or `N +TEXT`: N times a line, or a text without a line end.
    fn add_often(&mut self, alloc: Global, word: &str, rest: &str) -> Result<(), Wrong> {
        let Ok(times) = word.parse::<u32>() else {
            return Err(Wrong::Line);
        };
        if let Some(text) = rest.strip_prefix('|') {
            return self.add_text(alloc, times, text, b"\n");
        }
        match rest.strip_prefix('+') {
            Some(text) => self.add_text(alloc, times, text, b""),
            None => Err(Wrong::Line),
        }
    }

    /// Adds a text to the last file, so many times. It is made anew where the count stands in it.
    fn add_text(&mut self, alloc: Global, times: u32, text: &str, end: &[u8]) -> Result<(), Wrong> {
        let Some(file) = self.files.last_mut() else {
            return Err(Wrong::Outside);
        };
        let is_counted = text.contains("\\#") || text.contains("\\+");
        let mut piece = Vec::new(alloc);
        for count in 0..times {
            if count == 0 || is_counted {
                piece.clear();
                put_bytes(text, &self.with, u64::from(count), &mut piece)?;
                piece.extend_from_slice(end)?;
            }
            file.bytes.extend_from_slice(piece.as_slice())?;
        }
        Ok(())
    }

    /// `by WORD ..`: adds what the tool writes that is called with these words.
    fn add_output(&mut self, alloc: Global, rest: &str) -> Result<(), Wrong> {
        let words = words_of(alloc, rest, &self.with)?;
        let text = written_by(alloc, &mut self.files, &words);
        let Some(file) = self.files.last_mut() else {
            return Err(Wrong::Outside);
        };
        file.bytes.extend_from_slice(text.as_slice())?;
        Ok(())
    }
}

/// Words with a blank between two of them, and escapes.
fn words_of(alloc: Global, text: &str, with: &[u8]) -> Result<Vec<String>, Wrong> {
    let mut words = Vec::new(alloc);
    if text.is_empty() {
        return Ok(words);
    }
    for word in text.split(' ') {
        let mut bytes = Vec::new(alloc);
        put_bytes(word, with, 0, &mut bytes)?;
        match String::from_utf8(bytes) {
            Ok(word) => words.push(word)?,
            Err(_) => return Err(Wrong::Word),
        }
    }
    Ok(words)
}

fn numbers_of(alloc: Global, text: &str) -> Result<Vec<u64>, Wrong> {
    let mut numbers = Vec::new(alloc);
    for word in text.split(' ') {
        numbers.push(number_of(word)?)?;
    }
    Ok(numbers)
}

pub fn number_of(word: &str) -> Result<u64, Wrong> {
    match word.parse::<u64>() {
        Ok(number) => Ok(number),
        Err(_) => Err(Wrong::Number),
    }
}

/// How an output is shown: `whole`, `lines N ..`, `ends N` or `as FILE`.
fn shown_of(alloc: Global, text: &str) -> Result<Shown, Wrong> {
    match text.split_once(' ') {
        None if text == "whole" => Ok(Shown::Whole),
        Some(("lines", numbers)) => Ok(Shown::Lines(numbers_of(alloc, numbers)?)),
        Some(("ends", number)) => Ok(Shown::Ends(number_of(number)?)),
        Some(("as", file)) => Ok(Shown::As(String::from_str(alloc, file)?)),
        _ => Err(Wrong::Line),
    }
}

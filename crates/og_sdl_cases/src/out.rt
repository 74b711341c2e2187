//! The text that is written.

use og_ast::{Name, TextTree};
use og_base::{Place, Rule};
use og_lexer::Keyword;
use std::alloc::{AllocError, Global};

/// A text that grows. What finds no memory is left out of it, and then there is no text in the end.
#[derive(Drop)]
pub struct Out {
    written: String,
    failure: Option<AllocError>,
}

impl Out {
    pub fn new(alloc: Global) -> Self {
        Self {
            written: String::new(alloc),
            failure: None,
        }
    }

    /// The whole text, where memory was never wanting.
    pub fn finished(self) -> Result<String, AllocError> {
        match self.failure {
            None => Ok(self.written),
            Some(failure) => Err(failure),
        }
    }

    /// What is said of a part that was appended or found no memory.
    fn note(&mut self, done: Result<(), AllocError>) {
        if let Err(failure) = done {
            self.failure = Some(failure);
        }
    }

    pub fn put(&mut self, part: &str) {
        let done = self.written.push_str(part);
        self.note(done);
    }

    pub fn number(&mut self, number: u64) {
        let done = write!(self.written, "{number}");
        self.note(done);
    }

    pub fn keyword(&mut self, word: Keyword) {
        let done = write!(self.written, "{word:?}");
        self.note(done);
    }

    /// The line and the column, with a blank behind them.
    pub fn at(&mut self, place: Place) {
        let line = place.line;
        let column = place.column;
        let done = write!(self.written, "{line}:{column} ");
        self.note(done);
    }

    pub fn violation(&mut self, rule: Rule, place: Place) {
        let line = place.line;
        let column = place.column;
        let done = write!(self.written, "{rule:?} {line}:{column}\n");
        self.note(done);
    }

    pub fn name(&mut self, name: &Name) {
        self.bytes(name.bytes());
    }

    pub fn text(&mut self, text: &TextTree) {
        self.put("'");
        self.bytes(text.text.bytes.as_slice());
        self.put("'");
    }

    /// Bytes, with escapes for those that are no signs of ASCII.
    fn bytes(&mut self, bytes: &[u8]) {
        for byte in bytes {
            self.byte(*byte);
        }
    }

    fn byte(&mut self, byte: u8) {
        let done = match byte {
            b'\\' => self.written.push_str("\\\\"),
            b'\n' => self.written.push_str("\\n"),
            b'\r' => self.written.push_str("\\r"),
            b'\t' => self.written.push_str("\\t"),
            b' '..=b'~' => self.written.push(char::from(byte)),
            _ => write!(self.written, "\\x{byte:02X}"),
        };
        self.note(done);
    }
}

/// A tree that is written in one way.
pub trait Shown {
    fn show(&self, out: &mut Out);
}

/// Trees one behind the other, with a text between two.
pub fn put_all<T: Shown>(out: &mut Out, trees: &[T], between: &str) {
    let mut is_first = true;
    for tree in trees {
        if !is_first {
            out.put(between);
        }
        tree.show(out);
        is_first = false;
    }
}

/// Trees with commas between them.
pub fn put_list<T: Shown>(out: &mut Out, trees: &[T]) {
    put_all(out, trees, ", ");
}

/// Trees in brackets, if there are any.
pub fn put_bracketed<T: Shown>(out: &mut Out, trees: &[T]) {
    if trees.is_empty() {
        return;
    }
    out.put("(");
    put_list(out, trees);
    out.put(")");
}

/// A tree behind a text, if there is one.
pub fn put_some<T: Shown>(out: &mut Out, before: &str, tree: &Option<T>, behind: &str) {
    if let Some(tree) = tree {
        out.put(before);
        tree.show(out);
        out.put(behind);
    }
}

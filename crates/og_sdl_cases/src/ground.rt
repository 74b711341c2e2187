//! Names and what ends a construct.

use crate::out::{Out, Shown, put_all, put_some};
use og_ast::{ClosingTree, EndTree, HyphenedName, Name, TextTree};

impl Shown for Name {
    fn show(&self, out: &mut Out) {
        out.name(self);
    }
}

impl Shown for TextTree {
    fn show(&self, out: &mut Out) {
        out.text(self);
    }
}

impl Shown for HyphenedName {
    fn show(&self, out: &mut Out) {
        put_all(out, self.parts.as_slice(), "-");
    }
}

/// The comment before a semicolon, if there is one, and the end of the line.
impl Shown for EndTree {
    fn show(&self, out: &mut Out) {
        put_some(out, " comment ", &self.comment, "");
        out.put("\n");
    }
}

/// A line for what closes a construct.
impl Shown for ClosingTree {
    fn show(&self, out: &mut Out) {
        out.at(self.place);
        out.put("end");
        put_some(out, " ", &self.name, "");
        self.end.show(out);
    }
}

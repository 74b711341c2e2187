//! The boxes of a file.
ghost use Rattle.std.specs.Prelude.{◌≡◌, ◌+◌, ◌<◌, ◌≤◌, ◌^◌, ◌-◌, ◌++◌, List, [], ◌∷◌, length, IfOk, OnOk};
ghost use Rattle.og_base.specs.Order.{is_before};
ghost use Rattle.og_lexer.specs.Places.{place_after};
ghost use Rattle.og_cif.specs.File.{StandsInFile, StandInFile, IsBoxOf, AreBoxes, each_of, or_else, ended, box_before};

use crate::{BoxEnd, Boxes, CifBox, read_cif};
use og_base::Place;
use og_lexer::Comment;
use og_names::NoMemory;
use sqlite_items::Items;
use std::alloc::Global;

/// The boxes among the comments of a file, each with the place just behind its comment.
#[tactic(auto, using(crate::proofs::Attaching::attaching))]
pub fn attach(alloc: Global, comments: &[Comment], bytes: &[u8]) -> Result<Boxes, NoMemory>
    requires few { length bytes.now < 2 ^ 32 - 1 }
    // The comments are those of a text with these bytes.
    requires placed { StandInFile bytes.now comments.now }
    // There is one box for each comment that is one, in their order.
    ensures { IfOk result (λ boxes. AreBoxes bytes.now comments.now boxes.list) }
{
    let mut list = Items::new(alloc);
    for comment in comments {
        keep(&mut list, box_of(*comment, bytes))?;
    }
    Ok(Boxes { list })
}

/// Puts the box, where there is one, behind the others.
fn keep(list: &mut Items<BoxEnd>, one: Option<BoxEnd>) -> Result<(), NoMemory>
    ensures { OnOk result (list.new ≡ list.old ++ each_of one) }
{
    if let Some(one) = one {
        list.push(one)?;
    }
    Ok(())
}

/// The box that the comment is, with the place just behind it.
fn box_of(comment: Comment, bytes: &[u8]) -> Option<BoxEnd>
    requires few { length bytes.now < 2 ^ 32 - 1 }
    requires placed { StandsInFile bytes.now comment }
    ensures { IsBoxOf bytes.now comment result }
{
    let text = &bytes[comment.start as usize..comment.end as usize];
    let frame = read_cif(text)?;
    let end = place_after(comment.place, text);
    Some(BoxEnd { end, frame })
}

/// The place behind these bytes, from the place of their first byte on.
fn place_after(place: Place, text: &[u8]) -> Place
    requires lines { place.line + length text.now < 2 ^ 32 }
    requires columns { place.column + length text.now < 2 ^ 32 }
    ensures { result ≡ place_after place text.now }
{
    let Place {
        file,
        mut line,
        mut column,
    } = place;
    for byte in text {
        if *byte == b'\n' {
            line += 1;
            column = 1;
        } else {
            column += 1;
        }
    }
    Place { file, line, column }
}

impl Boxes {
    /// The last box whose comment ends at or before the place.
    pub fn before(&self, place: Place) -> Option<CifBox>
        ensures { result ≡ box_before self.now.list place }
    {
        let mut last = None;
        for one in self.list.as_slice() {
            last = later(last, *one, place);
        }
        last
    }
}

/// The box, where it ends at or before the place, and else the last one so far.
fn later(last: Option<CifBox>, one: BoxEnd, place: Place) -> Option<CifBox>
    ensures { result ≡ or_else (ended one place) last }
{
    if is_before(place, one.end) {
        last
    } else {
        Some(one.frame)
    }
}

/// Whether the first place stands before the other: by file, then by line, then by column.
pub fn is_before(a: Place, b: Place) -> bool
    ensures { result ≡ is_before a b }
{
    a.file < b.file
        || a.file == b.file && (a.line < b.line || a.line == b.line && a.column < b.column)
}

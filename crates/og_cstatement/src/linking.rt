//! A program with its names resolved.
#![tactic(auto, using(og_names::proofs::Loops::loops, og_cload::proofs::Grown::grown), unfolding(crate::specs::Links::linked_of))]

ghost use Rattle.std.specs.Prelude.{◌≡◌, IfOk};
ghost use Rattle.og_ccells.specs.Layouts.{layout_of};
ghost use Rattle.og_cstatement.specs.Links.{linked_of};

use crate::code::Body;
use crate::resolving::body;
use og_ccells::Layout;
use og_cload::fields::events_of;
use og_csubset::CProgram;
use og_model::Model;
use og_names::NoMemory;
use sqlite_items::Items;
use std::alloc::Global;

/// A program whose names are replaced by numbers.
#[derive(Drop)]
pub struct Linked {
    pub(crate) functions: Items<Body>,
}

/// Resolves the names of a program, by the layout of its globals, with the events of a model.
pub fn link(
    alloc: Global,
    program: &CProgram,
    model: &Model,
    layout: &Layout,
) -> Result<Linked, NoMemory>
    requires { layout.now ≡ layout_of program.now }
    ensures { IfOk result (λ linked. linked ≡ linked_of program.now model.now) }
{
    let events = events_of(alloc, model)?;
    let mut functions = Items::new(alloc);
    for function in program.functions.as_slice() {
        functions.push(body(alloc, program, layout, model, events.as_slice(), function)?)?;
    }
    Ok(Linked { functions })
}

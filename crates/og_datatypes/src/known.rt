//! Which types are supported, with all types that they need, and how deep they are.
ghost use Rattle.std.specs.Prelude.{◌≡◌, ℕ, suc, Bool, IfOk, map, slice_get};
ghost use Rattle.std.specs.List.{list_all};
ghost use Rattle.og_flat.specs.declared.flat.PartNode.{PartNode};
ghost use Rattle.og_dataview.specs.View.{same_as, node_of_part, needed, is_made_of, is_within, is_own};
ghost use Rattle.og_datatypes.specs.Kept.{is_marked, form_at, AreMarked, AreSame};

use crate::limits::Limited;
use crate::ranges::ranges_of;
use crate::sames::sames_of;
use crate::values::Valued;
use og_dataview::{Scope, counted, next_in};
use og_flat::{Node, PartNode};
use og_names::NoMemory;
use std::alloc::Global;

/// What is known of each type of a scope: its numbers, its form, and the type with which it shares its number.
#[derive(Drop)]
pub struct Known {
    pub limited: Limited,
    pub forms: Vec<bool>,
    pub sames: Vec<u32>,
    pub ghost are_forms: { AreMarked (form_at limited.valued.scope.flat) forms.items },
    pub ghost are_same: { AreSame limited.valued.scope.flat sames.items },
}

/// Whether the list has a mark at this place.
pub fn is_set(marks: &[bool], place: u32) -> bool
    ensures { result ≡ is_marked marks.now place }
{
    marks.get(place as usize).copied().unwrap_or(false)
}

impl Known {
    /// What is known of the types of a scope.
    pub fn new(alloc: Global, scope: Scope) -> Result<Known, NoMemory>
        ensures { IfOk result (λ known. known.limited.valued.scope.flat ≡ scope.flat) }
    {
        let valued = Valued::new(alloc, scope)?;
        let ranges = ranges_of(alloc, &valued)?;
        let sames = sames_of(alloc, &valued.scope)?;
        let limited = Limited { valued, ranges };
        let forms = limited.forms(alloc)?;
        Ok(Known {
            limited,
            forms,
            sames,
        })
    }

    /// The type with which a type shares its number.
    pub fn same_as(&self, place: u32) -> u32
        ensures { result ≡ same_as self.now.limited.valued.scope.flat place }
    {
        next_in(self.sames.as_slice(), place)
    }

    /// Whether a type shares the number of no other one.
    pub fn is_own(&self, place: u32) -> bool
        ensures { result ≡ is_own self.now.limited.valued.scope.flat place }
    {
        self.same_as(place) == place
    }

    /// The types that are one deeper than those that are marked, and these too.
    #[tactic(auto, using(crate::proofs::Depths::depths))]
    pub fn one_deeper(&self, alloc: Global, within: &[bool]) -> Result<Vec<bool>, NoMemory>
        ensures { IfOk result (λ next. (depth : ℕ) → AreMarked (is_within self.now.limited.valued.scope.flat depth) within.now → AreMarked (is_within self.now.limited.valued.scope.flat (suc depth)) next.items) }
    {
        let count = counted(self.limited.valued.scope.flat.nodes.len())?;
        let mut next = Vec::new(alloc);
        for place in 0..count {
            next.push(self.is_made_of(within, self.same_as(place)))?;
        }
        Ok(next)
    }

    /// Whether a type has a form that is supported, and all types that it needs are marked.
    fn is_made_of(&self, within: &[bool], place: u32) -> bool
        ensures { result ≡ is_made_of self.now.limited.valued.scope.flat (is_marked within.now) place }
    {
        is_set(self.forms.as_slice(), place) && self.needs_marked(within, place)
    }

    fn needs_marked(&self, within: &[bool], place: u32) -> bool
        ensures { result ≡ list_all (is_marked within.now) (needed (slice_get self.now.limited.valued.scope.flat.nodes place)) }
    {
        match self.limited.valued.scope.flat.nodes.get(place as usize) {
            Some(Node::Choice { parts, .. } | Node::Sequence { parts, .. }) => {
                are_marked(within, parts.as_slice())
            }
            Some(Node::SequenceOf { item, .. }) => is_set(within, *item),
            _ => true,
        }
    }
}

#[tactic(auto, using(crate::proofs::Depths::loops))]
fn are_marked(within: &[bool], parts: &[PartNode]) -> bool
    ensures { result ≡ list_all (is_marked within.now) (map node_of_part parts.now) }
{
    for part in parts {
        if !is_set(within, part.node) {
            return false;
        }
    }
    true
}

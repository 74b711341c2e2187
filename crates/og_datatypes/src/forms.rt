//! Which types have a form that is supported, their parts left aside.
ghost use Rattle.std.specs.Prelude.{◌≡◌, ℕ, IfOk, slice_get, length};
ghost use Rattle.std.specs.List.{list_all, flat_map};
ghost use Rattle.og_types.specs.Table.{in_64_bits};
ghost use Rattle.og_dataview.specs.Violations.{given};
ghost use Rattle.og_dataview.specs.View.{has_form, is_truth};
ghost use Rattle.og_datatypes.specs.Kept.{form_at, AreMarked};

use crate::limits::Limited;
use og_asn1::Name;
use og_dataview::{as_number, counted, is_boolean, within_64_bits};
use og_flat::{Enumerator, Limits, Node};
use og_names::NoMemory;
use std::alloc::Global;

impl Limited {
    /// Marks for the types that have a form that is supported.
    #[tactic(auto, using(crate::proofs::Lists::lists))]
    pub fn forms(&self, alloc: Global) -> Result<Vec<bool>, NoMemory>
        ensures { IfOk result (λ forms. AreMarked (form_at self.now.valued.scope.flat) forms.items) }
    {
        let count = counted(self.valued.scope.flat.nodes.len())?;
        let mut forms = Vec::new(alloc);
        for place in 0..count {
            forms.push(self.has_form(place))?;
        }
        Ok(forms)
    }

    fn has_form(&self, place: u32) -> bool
        ensures { result ≡ form_at self.now.valued.scope.flat place }
    {
        match self.valued.scope.flat.nodes.get(place as usize) {
            Some(Node::Integer { .. }) => self.bounds(place).is_some(),
            Some(Node::Boolean) => true,
            Some(Node::Reference { name, limits }) => {
                self.is_truth(name, limits) || self.bounds(place).is_some()
            }
            Some(Node::Enumerated { items, is_open }) => {
                !*is_open && (!items.is_empty() && fit_64_bits(items.as_slice()))
            }
            Some(Node::Choice { parts, is_plain }) => *is_plain && !parts.is_empty(),
            Some(Node::Sequence { is_plain, .. }) => *is_plain,
            Some(Node::SequenceOf { limits, .. }) => self.size_of(limits).is_some(),
            Some(Node::Other { .. }) | None => false,
        }
    }

    /// Whether a reference is BOOLEAN by its other name.
    pub fn is_truth(&self, name: &Name, limits: &Limits) -> bool
        ensures { result ≡ is_truth self.now.valued.scope.flat name.now limits.now }
    {
        match limits {
            Limits::Absent => is_boolean(name) && self.valued.scope.find_type(name).is_none(),
            _ => false,
        }
    }
}

/// Whether all numbers that are written lie in 64 bits.
#[tactic(auto, using(crate::proofs::Fitting::fitting))]
fn fit_64_bits(items: &[Enumerator]) -> bool
    ensures { result ≡ list_all in_64_bits (flat_map given items.now) }
{
    for item in items {
        if !fits_64_bits(item) {
            return false;
        }
    }
    true
}

fn fits_64_bits(item: &Enumerator) -> bool
    ensures { result ≡ list_all in_64_bits (given item.now) }
{
    match item.number {
        Some(number) => within_64_bits(as_number(number)).is_some(),
        None => true,
    }
}

//! Types by the numbers of names and types.
ghost use Rattle.std.specs.Prelude.{◌≡◌, IfOk, map, true, slice_get, if◌then◌else◌};
ghost use Rattle.std.specs.List.{list_all, flat_map};
ghost use Rattle.og_types.specs.Table.{in_64_bits};
ghost use Rattle.og_types.specs.declared.Sort.TheVariants.{Bool, Enumerated};
ghost use Rattle.og_dataview.specs.Following.{bounds};
ghost use Rattle.og_dataview.specs.Violations.{given};
ghost use Rattle.og_dataview.specs.View.{name_number, is_truth, is_supported, type_number, part_by, integer_sort, items_sort, size_of};
ghost use Rattle.og_dataview.specs.View.{sort_by, sort_of, enumerator_numbers as numbers_of_items};
ghost use Rattle.og_datatypes.specs.Fitting.{IsFew};

use crate::numbers::Numbered;
use og_asn1::Name;
use og_datatypes::{enumerator_numbers, is_set};
use og_flat::{Enumerator, Limits, Node, PartNode};
use og_names::{NameId, Names, NoMemory};
use og_types::{Part, Sort};
use sqlite_items::Items;
use std::alloc::Global;

/// The number of a name that the table has.
pub fn name_number(names: &Names, name: &Name) -> NameId
    ensures { result ≡ name_number names.now name.now }
{
    match names.find(name.word.bytes.as_slice()) {
        Some(id) => id,
        None => NameId(0),
    }
}

impl Numbered {
    /// A type, which is opaque where it is not supported.
    pub fn sort_of(&self, alloc: Global, names: &Names, place: u32) -> Result<Sort, NoMemory>
        ensures is { IfOk result (λ sort. sort ≡ sort_of self.now.known.limited.valued.scope.flat names.now place) }
        ensures few { IfOk result IsFew }
    {
        if is_set(self.order.supported.as_slice(), place) {
            self.sort_by(alloc, names, place)
        } else {
            Ok(Sort::Opaque)
        }
    }

    /// A type that is supported.
    fn sort_by(&self, alloc: Global, names: &Names, place: u32) -> Result<Sort, NoMemory>
        requires { is_supported self.now.known.limited.valued.scope.flat place ≡ true }
        ensures is { IfOk result (λ sort. sort ≡ sort_by self.now.known.limited.valued.scope.flat names.now
            (type_number self.now.known.limited.valued.scope.flat) place (slice_get self.now.known.limited.valued.scope.flat.nodes place)) }
        ensures few { IfOk result IsFew }
    {
        match self
            .known
            .limited
            .valued
            .scope
            .flat
            .nodes
            .get(place as usize)
        {
            Some(Node::Integer { .. }) => Ok(self.integer(place)),
            Some(Node::Boolean) => Ok(Sort::Bool),
            Some(Node::Reference { name, limits }) => Ok(self.reference(place, name, limits)),
            Some(Node::Enumerated { items, .. }) => enumerated(alloc, names, items.as_slice()),
            Some(Node::Choice { parts, .. }) => {
                let parts = self.parts(alloc, names, parts.as_slice())?;
                Ok(Sort::Choice { parts })
            }
            Some(Node::Sequence { parts, .. }) => {
                let parts = self.parts(alloc, names, parts.as_slice())?;
                Ok(Sort::Sequence { parts })
            }
            Some(Node::SequenceOf { limits, item }) => Ok(self.items(limits, *item)),
            Some(Node::Other { .. }) | None => Ok(Sort::Opaque),
        }
    }

    fn integer(&self, place: u32) -> Sort
        ensures is { result ≡ integer_sort (bounds self.now.known.limited.valued.scope.flat place) }
        ensures few { IsFew result }
    {
        match self.known.limited.bounds(place) {
            Some(bounds) => Sort::Int {
                lo: bounds.lo,
                hi: bounds.hi,
            },
            None => Sort::Opaque,
        }
    }

    fn reference(&self, place: u32, name: &Name, limits: &Limits) -> Sort
        ensures is { result ≡ (if is_truth self.now.known.limited.valued.scope.flat name.now limits.now then Bool
            else integer_sort (bounds self.now.known.limited.valued.scope.flat place)) }
        ensures few { IsFew result }
    {
        if self.known.limited.is_truth(name, limits) {
            Sort::Bool
        } else {
            self.integer(place)
        }
    }

    fn items(&self, limits: &Limits, item: u32) -> Sort
        ensures is { result ≡ items_sort (size_of self.now.known.limited.valued.scope.flat limits.now)
            (type_number self.now.known.limited.valued.scope.flat item) }
        ensures few { IsFew result }
    {
        match self.known.limited.size_of(limits) {
            Some(lengths) => Sort::SeqOf {
                lo: lengths.lo,
                hi: lengths.hi,
                item: self.number(item),
            },
            None => Sort::Opaque,
        }
    }

    fn parts(
        &self,
        alloc: Global,
        names: &Names,
        parts: &[PartNode],
    ) -> Result<Items<Part>, NoMemory>
        ensures { IfOk result (λ list. list ≡ map (part_by names.now (type_number self.now.known.limited.valued.scope.flat)) parts.now) }
    {
        let mut list = Items::new(alloc);
        for part in parts {
            list.push(self.part(names, part))?;
        }
        Ok(list)
    }

    fn part(&self, names: &Names, part: &PartNode) -> Part
        ensures { result ≡ part_by names.now (type_number self.now.known.limited.valued.scope.flat) part.now }
    {
        Part {
            name: name_number(names, &part.name),
            sort: self.number(part.node),
        }
    }
}

/// An enumeration whose written numbers lie in 64 bits.
fn enumerated(alloc: Global, names: &Names, items: &[Enumerator]) -> Result<Sort, NoMemory>
    requires { list_all in_64_bits (flat_map given items.now) ≡ true }
    ensures is { IfOk result (λ sort. sort ≡ Enumerated (map (λ item. name_number names.now item.name) items.now)
        (numbers_of_items items.now)) }
    ensures few { IfOk result IsFew }
{
    let numbers = enumerator_numbers(alloc, items)?;
    let names = item_names(alloc, names, items)?;
    Ok(Sort::Enumerated { names, numbers })
}

fn item_names(alloc: Global, names: &Names, items: &[Enumerator]) -> Result<Items<NameId>, NoMemory>
    ensures { IfOk result (λ list. list ≡ map (λ item. name_number names.now item.name) items.now) }
{
    let mut list = Items::new(alloc);
    for item in items {
        list.push(name_number(names, &item.name))?;
    }
    Ok(list)
}

//! N1 and N3: names of types and constants that are used.
ghost use Rattle.std.specs.Prelude.{◌≡◌, map, IfOk, OnOk};
ghost use Rattle.std.specs.Option.{option_copied};
ghost use Rattle.std.specs.List.{flat_map};
ghost use Rattle.og_base.specs.Order.{first_from};
ghost use Rattle.og_dataview.specs.Violations.{built_in_again, used_type, used_constant, used_by_bound, used_by_range, used_by_limits, used_as_value, used_by_part, used_by_constant, in_parts, in_enumerators, in_node, in_flat};

use crate::known::{is_built_in, is_operator, is_predefined, is_procedure};
use crate::notes::{note_if, note_looked_up};
use crate::repeats::{note_repeated_names, note_repeated_numbers};
use crate::scope::Scope;
use og_asn1::Name;
use og_base::{Rule, Violation};
use og_flat::{
    Bound, ConstantNode, ConstantValue, Enumerator, Limits, Node, PartNode, Range, TypeNode,
};
use og_names::NoMemory;
use std::alloc::Global;

impl Scope {
    /// A name that is used as that of a type.
    fn note_used_type(&self, name: &Name, first: &mut Option<Violation>)
        ensures { first.new ≡ first_from first.old (used_type self.now.flat name.now) }
    {
        let own = self.find_type(name).is_some() || (is_built_in(name) || is_predefined(name));
        let other = self.find_constant(name).is_some() || (is_procedure(name) || is_operator(name));
        note_looked_up(own, other, name, first);
    }

    /// A name that is used as that of a constant.
    fn note_used_constant(&self, name: &Name, first: &mut Option<Violation>)
        ensures { first.new ≡ first_from first.old (used_constant self.now.flat name.now) }
    {
        let own = self.find_constant(name).is_some() || is_operator(name);
        let other = self.find_type(name).is_some() || (is_built_in(name) || is_procedure(name));
        note_looked_up(own, other, name, first);
    }

    fn note_bound(&self, bound: &Bound, first: &mut Option<Violation>)
        ensures { first.new ≡ first_from first.old (used_by_bound self.now.flat bound.now) }
    {
        if let Bound::Named { name } = bound {
            self.note_used_constant(name, first);
        }
    }

    #[tactic(auto, using(crate::proofs::Noting::notes))]
    fn note_range(&self, range: &Range, first: &mut Option<Violation>)
        ensures { first.new ≡ first_from first.old (used_by_range self.now.flat range.now) }
    {
        self.note_bound(&range.lo, first);
        self.note_bound(&range.hi, first);
    }

    fn note_limits(&self, limits: &Limits, first: &mut Option<Violation>)
        ensures { first.new ≡ first_from first.old (used_by_limits self.now.flat limits.now) }
    {
        if let Limits::Range { range } | Limits::Size { range } = limits {
            self.note_range(range, first);
        }
    }

    /// A name as the value of a type is one of a constant where that type is INTEGER.
    fn note_value(&self, place: u32, name: Option<&Name>, first: &mut Option<Violation>)
        ensures { first.new ≡ first_from first.old (used_as_value self.now.flat place (option_copied name.entry)) }
    {
        if let Some(name) = name {
            if self.is_integer_type(place) {
                self.note_used_constant(name, first);
            }
        }
    }

    fn note_part(&self, part: &PartNode, first: &mut Option<Violation>)
        ensures { first.new ≡ first_from first.old (used_by_part self.now.flat part.now) }
    {
        self.note_value(part.node, part.default.as_ref(), first);
    }

    fn note_constant(&self, constant: &ConstantNode, first: &mut Option<Violation>)
        ensures { first.new ≡ first_from first.old (used_by_constant self.now.flat constant.now) }
    {
        if let ConstantValue::Named { name } = &constant.value {
            self.note_value(constant.node, Some(name), first);
        }
    }

    #[tactic(auto, using(crate::proofs::Noting::notes))]
    fn note_each_part(&self, parts: &[PartNode], first: &mut Option<Violation>)
        ensures { first.new ≡ first_from first.old (flat_map (used_by_part self.now.flat) parts.now) }
    {
        for part in parts {
            self.note_part(part, first);
        }
    }

    #[tactic(auto, using(crate::proofs::Noting::notes))]
    fn note_parts(
        &self,
        alloc: Global,
        parts: &[PartNode],
        first: &mut Option<Violation>,
    ) -> Result<(), NoMemory>
        ensures { OnOk result (first.new ≡ first_from first.old (in_parts self.now.flat parts.now)) }
    {
        note_repeated_names(alloc, parts, first)?;
        self.note_each_part(parts, first);
        Ok(())
    }

    /// The violations in one type, its parts left aside.
    #[tactic(auto, using(crate::proofs::Noting::notes))]
    fn note_node(
        &self,
        alloc: Global,
        node: &Node,
        first: &mut Option<Violation>,
    ) -> Result<(), NoMemory>
        ensures { OnOk result (first.new ≡ first_from first.old (in_node self.now.flat node.now)) }
    {
        match node {
            Node::Reference { name, limits } => {
                self.note_used_type(name, first);
                self.note_limits(limits, first);
                Ok(())
            }
            Node::Integer { limits } | Node::SequenceOf { limits, .. } | Node::Other { limits } => {
                self.note_limits(limits, first);
                Ok(())
            }
            Node::Boolean => Ok(()),
            Node::Enumerated { items, .. } => {
                note_enumerators(alloc, items.as_slice(), first)?;
                Ok(())
            }
            Node::Choice { parts, .. } | Node::Sequence { parts, .. } => {
                self.note_parts(alloc, parts.as_slice(), first)?;
                Ok(())
            }
        }
    }

    #[tactic(auto, using(crate::proofs::Noting::notes))]
    fn note_nodes(
        &self,
        alloc: Global,
        nodes: &[Node],
        first: &mut Option<Violation>,
    ) -> Result<(), NoMemory>
        ensures { OnOk result (first.new ≡ first_from first.old (flat_map (in_node self.now.flat) nodes.now)) }
    {
        for node in nodes {
            self.note_node(alloc, node, first)?;
        }
        Ok(())
    }

    #[tactic(auto, using(crate::proofs::Noting::notes))]
    fn note_constants(&self, constants: &[ConstantNode], first: &mut Option<Violation>)
        ensures { first.new ≡ first_from first.old (flat_map (used_by_constant self.now.flat) constants.now) }
    {
        for constant in constants {
            self.note_constant(constant, first);
        }
    }

    /// All violations of what is declared.
    #[tactic(auto, using(crate::proofs::Noting::notes))]
    pub fn note_all(&self, alloc: Global, first: &mut Option<Violation>) -> Result<(), NoMemory>
        ensures { OnOk result (first.new ≡ first_from first.old (in_flat self.now.flat)) }
    {
        note_repeated_names(alloc, self.flat.types.as_slice(), first)?;
        note_built_in_again(self.flat.types.as_slice(), first);
        note_repeated_names(alloc, self.flat.constants.as_slice(), first)?;
        self.note_nodes(alloc, self.flat.nodes.as_slice(), first)?;
        self.note_constants(self.flat.constants.as_slice(), first);
        Ok(())
    }
}

/// Names and numbers of enumerators that were met before.
#[tactic(auto, using(crate::proofs::Noting::notes))]
fn note_enumerators(
    alloc: Global,
    items: &[Enumerator],
    first: &mut Option<Violation>,
) -> Result<(), NoMemory>
    ensures { OnOk result (first.new ≡ first_from first.old (in_enumerators items.now)) }
{
    note_repeated_names(alloc, items, first)?;
    note_repeated_numbers(alloc, items, first)?;
    Ok(())
}

/// N7 at types with the name of one that needs no declaration.
#[tactic(auto, using(crate::proofs::Noting::notes))]
fn note_built_in_again(types: &[TypeNode], first: &mut Option<Violation>)
    ensures { first.new ≡ first_from first.old (flat_map built_in_again types.now) }
{
    for declared in types {
        note_if(is_built_in(&declared.name), Rule::N7, &declared.name, first);
    }
}

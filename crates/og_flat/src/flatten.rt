//! Modules laid out flat.
ghost use Rattle.std.specs.Prelude.{◌≡◌, ◌∷◌, [], ◌++◌, ◌-◌, ◌&&◌, length, IfOk, OnOk};
ghost use Rattle.std.specs.Option.{option_copied};
ghost use Rattle.og_asn1.specs.declared.syntax.BaseTree.{out-BaseTree};
ghost use Rattle.og_flat.specs.Flattening.{written_number, enumerator_of, enumerators_of, is_open, name_alone, constant_value, default_of, last_of, one_part, parts_of, nodes_by, nodes_of, with_assignment, with_assignments, flat_of};

use crate::flat::{
    ConstantNode, ConstantValue, Enumerator, Flat, Limits, Node, PartNode, TypeNode, Written,
};
use crate::limits::{limits_of, limits_of_size};
use og_asn1::{
    AssignmentTree, BaseTree, CompTree, EnumTree, ModuleTree, Name, PresenceTree, SignedTree,
    TypeTree, ValueNode, ValueTree,
};
use og_names::NoMemory;
use sqlite_items::Items;
use std::alloc::Global;

/// All that the modules declare.
pub fn flat_of(alloc: Global, modules: &[ModuleTree]) -> Result<Flat, NoMemory>
    ensures { IfOk result (λ flat. flat ≡ flat_of modules.now) }
{
    let mut flat = Flat {
        nodes: Items::new(alloc),
        types: Items::new(alloc),
        constants: Items::new(alloc),
    };
    for module in modules {
        add_assignments(alloc, &mut flat, module.assignments.as_slice())?;
    }
    Ok(flat)
}

fn add_assignments(
    alloc: Global,
    flat: &mut Flat,
    assignments: &[AssignmentTree],
) -> Result<(), NoMemory>
    ensures { OnOk result (flat.new ≡ with_assignments flat.old assignments.now) }
{
    for assignment in assignments {
        add_assignment(alloc, flat, assignment)?;
    }
    Ok(())
}

/// One declaration more.
fn add_assignment(
    alloc: Global,
    flat: &mut Flat,
    assignment: &AssignmentTree,
) -> Result<(), NoMemory>
    ensures { OnOk result (flat.new ≡ with_assignment flat.old assignment.now) }
{
    match assignment {
        AssignmentTree::Type { name, is } => {
            let node = add_type(alloc, &mut flat.nodes, is)?;
            let name = name.copy(alloc)?;
            flat.types.push(TypeNode { name, node })?;
            Ok(())
        }
        AssignmentTree::Value { name, of, is } => {
            let node = add_type(alloc, &mut flat.nodes, of)?;
            let name = name.copy(alloc)?;
            let value = constant_value(alloc, is)?;
            flat.constants.push(ConstantNode { name, node, value })?;
            Ok(())
        }
    }
}

/// Adds the types in a type, and the type itself behind them. Its number is that of the last one.
#[cycle(nodes)]
fn add_type(alloc: Global, nodes: &mut Items<Node>, tree: &TypeTree) -> Result<u32, NoMemory>
    ensures nodes { OnOk result (nodes.new ≡ nodes.old ++ nodes_of (length nodes.old) tree.now) }
    ensures number { IfOk result (λ n. n ≡ last_of (length nodes.old) (nodes_of (length nodes.old) tree.now)) }
{
    let node = node_of(alloc, nodes, &tree.base)?;
    nodes.push(node)?;
    let number = last_number(nodes.len())?;
    Ok(number)
}

/// The number of the last of so many.
fn last_number(count: usize) -> Result<u32, NoMemory>
    ensures { IfOk result (λ n. n ≡ count - 1) }
{
    if count > u32::MAX as usize {
        return Err(NoMemory::past_numbers(count));
    }
    Ok(count.saturating_sub(1) as u32)
}

/// Adds the types in a type, and gives the type itself.
#[cycle(nodes)]
fn node_of(alloc: Global, nodes: &mut Items<Node>, base: &BaseTree) -> Result<Node, NoMemory>
    ensures { IfOk result (λ node. nodes.new ++ node ∷ [] ≡ nodes.old ++ nodes_by nodes_of (length nodes.old) (out-BaseTree base.now)) }
{
    match base {
        BaseTree::Integer { limits, .. } => {
            let limits = limits_of(alloc, limits.as_ref())?;
            Ok(Node::Integer { limits })
        }
        BaseTree::Boolean => Ok(Node::Boolean),
        BaseTree::Reference { name, limits } => {
            let name = name.copy(alloc)?;
            let limits = limits_of(alloc, limits.as_ref())?;
            Ok(Node::Reference { name, limits })
        }
        BaseTree::Enumerated { items } => {
            let is_open = is_open(items.as_slice());
            let items = enumerators_of(alloc, items.as_slice())?;
            Ok(Node::Enumerated { items, is_open })
        }
        BaseTree::Choice { comps } => {
            let Parts { parts, is_plain } = parts_of(alloc, nodes, comps.as_slice())?;
            Ok(Node::Choice { parts, is_plain })
        }
        BaseTree::Sequence { comps } => {
            let Parts { parts, is_plain } = parts_of(alloc, nodes, comps.as_slice())?;
            Ok(Node::Sequence { parts, is_plain })
        }
        BaseTree::SequenceOf { of } => {
            let item = add_type(alloc, nodes, of.item.get())?;
            let limits = limits_of_size(alloc, of.size.as_ref())?;
            Ok(Node::SequenceOf { limits, item })
        }
        BaseTree::SetOf { of } => {
            add_type(alloc, nodes, of.item.get())?;
            let limits = limits_of_size(alloc, of.size.as_ref())?;
            Ok(Node::Other { limits })
        }
        BaseTree::Real { limits } | BaseTree::OctetString { limits } => {
            let limits = limits_of(alloc, limits.as_ref())?;
            Ok(Node::Other { limits })
        }
        BaseTree::BitString { limits, .. } => {
            let limits = limits_of(alloc, limits.as_ref())?;
            Ok(Node::Other { limits })
        }
        BaseTree::Set { .. } | BaseTree::Null | BaseTree::ObjectIdentifier => Ok(Node::Other {
            limits: Limits::Absent,
        }),
    }
}

/// The parts of a choice or a sequence.
#[derive(Drop)]
struct Parts {
    parts: Items<PartNode>,
    is_plain: bool,
}

/// Adds the types in parts, and gives the parts.
#[cycle(nodes)]
fn parts_of(alloc: Global, nodes: &mut Items<Node>, comps: &[CompTree]) -> Result<Parts, NoMemory>
    ensures nodes { OnOk result (nodes.new ≡ nodes.old ++ (parts_of nodes_of comps.now (length nodes.old)).nodes) }
    ensures parts { IfOk result (λ p. p.parts ≡ (parts_of nodes_of comps.now (length nodes.old)).parts) }
    ensures plain { IfOk result (λ p. p.is_plain ≡ (parts_of nodes_of comps.now (length nodes.old)).is_plain) }
{
    let mut so_far = Parts {
        parts: Items::new(alloc),
        is_plain: true,
    };
    for comp in comps {
        add_part(alloc, nodes, &mut so_far, comp)?;
    }
    Ok(so_far)
}

/// Adds the types in a part, and the part.
#[cycle(nodes)]
fn add_part(
    alloc: Global,
    nodes: &mut Items<Node>,
    so_far: &mut Parts,
    comp: &CompTree,
) -> Result<(), NoMemory>
    ensures nodes { OnOk result (nodes.new ≡ nodes.old ++ (one_part nodes_of (length nodes.old) comp.now).nodes) }
    ensures parts { OnOk result (so_far.new.parts ≡ so_far.old.parts ++ (one_part nodes_of (length nodes.old) comp.now).parts) }
    ensures plain { OnOk result (so_far.new.is_plain ≡ (so_far.old.is_plain && (one_part nodes_of (length nodes.old) comp.now).is_plain)) }
{
    match comp {
        CompTree::Part { name, of, presence } => {
            let node = add_type(alloc, nodes, of)?;
            let name = name.copy(alloc)?;
            let default = default_of(alloc, presence.as_ref())?;
            so_far.parts.push(PartNode {
                name,
                node,
                default,
            })?;
            so_far.is_plain = so_far.is_plain && presence.is_none();
            Ok(())
        }
        CompTree::Extension { .. } => {
            so_far.is_plain = false;
            Ok(())
        }
    }
}

/// The name that is a default value, where it is a name alone.
fn default_of(alloc: Global, presence: Option<&PresenceTree>) -> Result<Option<Name>, NoMemory>
    ensures { IfOk result (λ name. name ≡ default_of (option_copied presence.entry)) }
{
    match presence {
        Some(PresenceTree::Default { value, .. }) => name_alone(alloc, value),
        _ => Ok(None),
    }
}

fn name_alone(alloc: Global, value: &ValueTree) -> Result<Option<Name>, NoMemory>
    ensures { IfOk result (λ name. name ≡ name_alone value.now) }
{
    match &value.node {
        ValueNode::Named { name, value: None } => Ok(Some(name.copy(alloc)?)),
        _ => Ok(None),
    }
}

/// The value of a constant.
fn constant_value(alloc: Global, value: &ValueTree) -> Result<ConstantValue, NoMemory>
    ensures { IfOk result (λ constant. constant ≡ constant_value value.now) }
{
    match &value.node {
        ValueNode::Number {
            is_negative,
            digits,
            fraction: None,
        } => {
            let number = Written {
                is_negative: *is_negative,
                digits: *digits,
            };
            Ok(ConstantValue::Number { number })
        }
        ValueNode::Named { name, value: None } => {
            let name = name.copy(alloc)?;
            Ok(ConstantValue::Named { name })
        }
        _ => Ok(ConstantValue::Other),
    }
}

/// Whether the mark `...` stands among enumerators.
fn is_open(items: &[EnumTree]) -> bool
    ensures { result ≡ is_open items.now }
{
    for item in items {
        if let EnumTree::Extension { .. } = item {
            return true;
        }
    }
    false
}

fn enumerators_of(alloc: Global, items: &[EnumTree]) -> Result<Items<Enumerator>, NoMemory>
    ensures { IfOk result (λ enumerators. enumerators ≡ enumerators_of items.now) }
{
    let mut enumerators = Items::new(alloc);
    for item in items {
        add_enumerator(alloc, &mut enumerators, item)?;
    }
    Ok(enumerators)
}

fn add_enumerator(
    alloc: Global,
    enumerators: &mut Items<Enumerator>,
    item: &EnumTree,
) -> Result<(), NoMemory>
    ensures { OnOk result (enumerators.new ≡ enumerators.old ++ enumerator_of item.now) }
{
    match item {
        EnumTree::Item { name, number } => {
            let name = name.copy(alloc)?;
            let number = written_number(*number);
            enumerators.push(Enumerator { name, number })?;
            Ok(())
        }
        EnumTree::Extension { .. } => Ok(()),
    }
}

fn written_number(number: Option<SignedTree>) -> Option<Written>
    ensures { result ≡ written_number number }
{
    let number = number?;
    Some(Written {
        is_negative: number.is_negative,
        digits: number.digits,
    })
}

//! The names that modules declare, added to a table in the order of the text.
ghost use Rattle.std.specs.Prelude.{◌≡◌, map, OnOk};
ghost use Rattle.std.specs.List.{flat_map};
ghost use Rattle.og_asn1.specs.declared.syntax.BaseTree.{out-BaseTree};
ghost use Rattle.og_dataview.specs.Naming.{IsFront};
ghost use Rattle.og_asn1.specs.declared.syntax.CompTree.{out-CompTree};
ghost use Rattle.og_flat.specs.Flattening.{enumerator_of, enumerators_of};
ghost use Rattle.og_dataview.specs.View.{name_of_item, names_in, names_by, names_in_parts, names_by_part, names_declared_by, with_names, names_after};

use crate::index::add_name;
use og_asn1::{AssignmentTree, BaseTree, CompTree, EnumTree, ModuleTree, TypeTree};
use og_names::{Names, NoMemory};

/// Adds all names that the modules declare.
#[tactic(auto, using(crate::proofs::Adding::adds))]
pub fn add_all(names: &mut Names, modules: &[ModuleTree]) -> Result<(), NoMemory>
    ensures added { OnOk result (names.new ≡ names_after names.old modules.now) }
    ensures front { IsFront names.old names.new }
{
    for tree in modules {
        add_declared(names, tree.assignments.as_slice())?;
    }
    Ok(())
}

#[tactic(auto, using(crate::proofs::Adding::adds))]
fn add_declared(names: &mut Names, assignments: &[AssignmentTree]) -> Result<(), NoMemory>
    ensures added { OnOk result (names.new ≡ with_names names.old (flat_map names_declared_by assignments.now)) }
    ensures front { IsFront names.old names.new }
{
    for assignment in assignments {
        add_assignment(names, assignment)?;
    }
    Ok(())
}

#[tactic(auto, using(crate::proofs::Adding::adds))]
fn add_assignment(names: &mut Names, assignment: &AssignmentTree) -> Result<(), NoMemory>
    ensures added { OnOk result (names.new ≡ with_names names.old (names_declared_by assignment.now)) }
    ensures front { IsFront names.old names.new }
{
    match assignment {
        AssignmentTree::Type { name, is } => {
            add_name(names, name)?;
            add_type(names, is)?;
            Ok(())
        }
        AssignmentTree::Value { name, of, .. } => {
            add_name(names, name)?;
            add_type(names, of)?;
            Ok(())
        }
    }
}

/// Adds the names of parts and enumerators in a type.
#[cycle(names)]
#[tactic(auto, using(crate::proofs::Adding::adds))]
fn add_type(names: &mut Names, tree: &TypeTree) -> Result<(), NoMemory>
    ensures added { OnOk result (names.new ≡ with_names names.old (names_in tree.now)) }
    ensures front { IsFront names.old names.new }
{
    add_base(names, &tree.base)?;
    Ok(())
}

#[cycle(names)]
#[tactic(auto, using(crate::proofs::Adding::adds))]
fn add_base(names: &mut Names, base: &BaseTree) -> Result<(), NoMemory>
    ensures added { OnOk result (names.new ≡ with_names names.old (names_by names_in (out-BaseTree base.now))) }
    ensures front { IsFront names.old names.new }
{
    match base {
        BaseTree::Enumerated { items } => {
            add_enumerators(names, items.as_slice())?;
            Ok(())
        }
        BaseTree::Choice { comps } | BaseTree::Sequence { comps } => {
            add_parts(names, comps.as_slice())?;
            Ok(())
        }
        BaseTree::SequenceOf { of } | BaseTree::SetOf { of } => {
            add_type(names, of.item.get())?;
            Ok(())
        }
        _ => Ok(()),
    }
}

/// Adds the names of parts, and those in their types.
#[cycle(names)]
#[tactic(auto, using(crate::proofs::Adding::adds))]
fn add_parts(names: &mut Names, comps: &[CompTree]) -> Result<(), NoMemory>
    ensures added { OnOk result (names.new ≡ with_names names.old (names_in_parts names_in comps.now)) }
    ensures front { IsFront names.old names.new }
{
    for comp in comps {
        add_part(names, comp)?;
    }
    Ok(())
}

#[cycle(names)]
#[tactic(auto, using(crate::proofs::Adding::adds))]
fn add_part(names: &mut Names, comp: &CompTree) -> Result<(), NoMemory>
    ensures added { OnOk result (names.new ≡ with_names names.old (names_by_part names_in (out-CompTree comp.now))) }
    ensures front { IsFront names.old names.new }
{
    match comp {
        CompTree::Part { name, of, .. } => {
            add_name(names, name)?;
            add_type(names, of)?;
            Ok(())
        }
        CompTree::Extension { .. } => Ok(()),
    }
}

#[tactic(auto, using(crate::proofs::Adding::adds))]
fn add_enumerators(names: &mut Names, items: &[EnumTree]) -> Result<(), NoMemory>
    ensures added { OnOk result (names.new ≡ with_names names.old (map name_of_item (enumerators_of items.now))) }
    ensures front { IsFront names.old names.new }
{
    for item in items {
        add_enumerator(names, item)?;
    }
    Ok(())
}

#[tactic(auto, using(crate::proofs::Adding::adds))]
fn add_enumerator(names: &mut Names, item: &EnumTree) -> Result<(), NoMemory>
    ensures added { OnOk result (names.new ≡ with_names names.old (map name_of_item (enumerator_of item.now))) }
    ensures front { IsFront names.old names.new }
{
    match item {
        EnumTree::Item { name, .. } => {
            add_name(names, name)?;
            Ok(())
        }
        EnumTree::Extension { .. } => Ok(()),
    }
}

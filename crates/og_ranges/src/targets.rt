//! The types of what stands at targets.
ghost use Rattle.std.specs.Prelude.{◌≡◌, map, slice_get, Option};
ghost use Rattle.std.specs.Option.{option_copied, option_map, option_and_then};
ghost use Rattle.og_types.specs.declared.TypeId.{TypeId};
ghost use Rattle.og_types.specs.declared.Part.{Part};
ghost use Rattle.og_model.specs.declared.Select.{Select, out-Select};
ghost use Rattle.og_model.specs.Expressions.{sort_after, sort_at};
ghost use Rattle.og_model.specs.WellSorted.{hop_of, sort_of_variable, type_of as type_of_target};
ghost use Rattle.og_ranges.specs.Ranges.{sort_of_target as sort_at_target};
ghost use Rattle.og_ranges.specs.Calls.{data_of, hops_of};

use og_model::{Select, Target, VarId, Variable};
use og_types::{Part, Sort, TypeId, TypeTable};

/// What an expression can name: the types, the variables of the process, and those of the procedure where it stands.
#[derive(Clone, Copy)]
pub struct Declared<'a> {
    pub types: &'a TypeTable,
    pub variables: &'a [Variable],
    pub locals: &'a [Variable],
}

/// The type of what stands at a target, None where its selectors lead nowhere.
pub fn sort_of_target<'a>(declared: Declared<'a>, target: &Target) -> Option<&'a Sort>
    ensures { option_copied result ≡ sort_at_target (data_of declared.entry) target.now }
{
    let own = type_of_variable(declared, target.variable);
    let id = type_along(declared.types, own, target.path.as_slice())?;
    declared.types.get(id)
}

fn type_of_variable(declared: Declared, variable: VarId) -> Option<TypeId>
    ensures { result ≡ sort_of_variable (data_of declared.entry) variable }
{
    let declaration = match variable {
        VarId::Process(n) => declared.variables.get(n as usize)?,
        VarId::Local(n) => declared.locals.get(n as usize)?,
    };
    Some(declaration.sort)
}

/// The type to which selectors lead from a place of this type.
fn type_along(types: &TypeTable, from: Option<TypeId>, path: &[Select]) -> Option<TypeId>
    ensures { result ≡ sort_at types.now from (hops_of path.now) }
{
    match path {
        [] => from,
        [select, path @ ..] => type_along(types, type_behind(types, from, select), path),
    }
}

/// The type to which one selector leads.
fn type_behind(types: &TypeTable, from: Option<TypeId>, select: &Select) -> Option<TypeId>
    ensures { result ≡ option_and_then (λ (i : TypeId). option_and_then (sort_after (hop_of (out-Select select.now))) (slice_get types.now i.0)) from }
{
    match (select, types.get(from?)?) {
        (Select::Part(k), Sort::Sequence { parts }) => sort_of_part(parts.as_slice(), *k),
        (Select::Alternative(k), Sort::Choice { parts }) => sort_of_part(parts.as_slice(), *k),
        (Select::At(_), Sort::SeqOf { item, .. }) => Some(*item),
        _ => None,
    }
}

fn sort_of_part(parts: &[Part], k: u32) -> Option<TypeId>
    ensures { result ≡ option_map (λ (p : Part). p.sort) (slice_get parts.now k) }
{
    let part = parts.get(k as usize)?;
    Some(part.sort)
}

//! Types of the C subset that are as the values of a model's type ask.
#![tactic(auto, using(crate::proofs::Pairs::pairs, crate::proofs::Shaped::shaped))]

ghost use Rattle.std.specs.Prelude.{◌≡◌, ℕ, Some};
ghost use Rattle.og_csubset.specs.Loading as loading;
ghost use Rattle.og_csubset.specs.Loading.{is_shaped as is_shaped_as};
ghost use Rattle.og_cload.specs.Fields.{shape_of};
ghost use Rattle.og_cload.specs.Shaping as shaping;

use crate::fields::Shape;
use crate::kinds::members_of;
use og_csubset::{CMember, CStruct, CType};
use og_types::{Part, Sort, TypeId};

fn is_int64(kind: &CType) -> bool
    ensures { result ≡ loading.is_int64 kind.now }
{
    match kind {
        CType::Int64 => true,
        CType::Struct(_) => false,
    }
}

/// A member that is one number.
fn is_one_number(member: &CMember) -> bool
    ensures { result ≡ loading.is_one_number member.now }
{
    if member.size.is_some() {
        return false;
    }
    is_int64(&member.kind)
}

/// The C type is as a value of the shape asks.
pub fn is_shaped(structs: &[CStruct], sorts: &[Sort], shape: Shape, kind: &CType) -> bool
    ensures { result ≡ is_shaped_as structs.now sorts.now (shape_of shape) kind.now }
{
    match shape {
        Shape::Number => is_int64(kind),
        Shape::Typed(id) => shape_within(id.0 as usize + 1, structs, sorts, kind, id),
    }
}

#[cycle(shapes)]
fn shape_within(depth: usize, structs: &[CStruct], sorts: &[Sort], kind: &CType, id: TypeId) -> bool
    ensures { result ≡ loading.shape_within depth structs.now sorts.now kind.now id }
{
    if depth == 0 {
        return false;
    }
    match sorts.get(id.0 as usize) {
        None => false,
        Some(sort) => has_sort(depth - 1, structs, sorts, kind, sort),
    }
}

#[cycle(shapes)]
fn has_sort(depth: usize, structs: &[CStruct], sorts: &[Sort], kind: &CType, sort: &Sort) -> bool
    ensures { result ≡ loading.shape_by (loading.shape_within depth structs.now sorts.now) structs.now kind.now (Some sort.now) }
{
    match sort {
        Sort::Int { .. } => is_int64(kind),
        Sort::Bool => is_int64(kind),
        Sort::Enumerated { .. } => is_int64(kind),
        Sort::Sequence { parts } => is_sequence(depth, structs, sorts, kind, parts.as_slice()),
        Sort::Choice { parts } => match members_of(structs, kind) {
            None => false,
            Some(members) => is_choice(depth, structs, sorts, parts.as_slice(), members),
        },
        Sort::SeqOf { hi, item, .. } => match members_of(structs, kind) {
            None => false,
            Some(members) => is_seq_of(depth, structs, sorts, *hi, *item, members),
        },
        Sort::Opaque => false,
    }
}

#[cycle(shapes)]
fn is_sequence(
    depth: usize,
    structs: &[CStruct],
    sorts: &[Sort],
    kind: &CType,
    parts: &[Part],
) -> bool
    ensures { result ≡ shaping.sequence_by (loading.shape_within depth structs.now sorts.now) structs.now kind.now parts.now }
{
    if parts.is_empty() {
        return is_int64(kind);
    }
    match members_of(structs, kind) {
        None => false,
        Some(members) => have_shapes(depth, structs, sorts, members, parts),
    }
}

/// The members are so many parts, none of them an array, with the parts' shapes.
#[cycle(shapes)]
fn have_shapes(
    depth: usize,
    structs: &[CStruct],
    sorts: &[Sort],
    members: &[CMember],
    parts: &[Part],
) -> bool
    ensures { result ≡ loading.have_shapes (loading.shape_within depth structs.now sorts.now) members.now parts.now }
{
    if members.len() != parts.len() {
        return false;
    }
    for (place, member) in members.iter().enumerate() {
        let part = parts[place];
        if member.size.is_some() {
            return false;
        }
        if !shape_within(depth, structs, sorts, &member.kind, part.sort) {
            return false;
        }
    }
    true
}

/// The number of the alternative, then the alternatives.
#[cycle(shapes)]
fn is_choice(
    depth: usize,
    structs: &[CStruct],
    sorts: &[Sort],
    parts: &[Part],
    members: &[CMember],
) -> bool
    ensures { result ≡ loading.is_choice (loading.shape_within depth structs.now sorts.now) parts.now members.now }
{
    match members.split_first() {
        None => false,
        Some((number, alternatives)) => {
            is_one_number(number) && have_shapes(depth, structs, sorts, alternatives, parts)
        }
    }
}

/// The length, then an array of the greatest length, which is left out where that is 0.
#[cycle(shapes)]
fn is_seq_of(
    depth: usize,
    structs: &[CStruct],
    sorts: &[Sort],
    hi: u32,
    item: TypeId,
    members: &[CMember],
) -> bool
    ensures { result ≡ loading.is_seq_of (loading.shape_within depth structs.now sorts.now) hi item members.now }
{
    match members.split_first() {
        None => false,
        Some((length, array)) => {
            is_one_number(length) && has_array(depth, structs, sorts, hi, item, array)
        }
    }
}

#[cycle(shapes)]
fn has_array(
    depth: usize,
    structs: &[CStruct],
    sorts: &[Sort],
    hi: u32,
    item: TypeId,
    members: &[CMember],
) -> bool
    ensures { result ≡ shaping.array_by (loading.shape_within depth structs.now sorts.now) hi item members.now }
{
    if hi == 0 {
        return members.is_empty();
    }
    match members.split_first() {
        None => false,
        Some((array, more)) => more.is_empty() && is_array(depth, structs, sorts, hi, item, array),
    }
}

#[cycle(shapes)]
fn is_array(
    depth: usize,
    structs: &[CStruct],
    sorts: &[Sort],
    length: u32,
    item: TypeId,
    member: &CMember,
) -> bool
    ensures { result ≡ loading.is_array (loading.shape_within depth structs.now sorts.now) length item member.now }
{
    match member.size {
        None => false,
        Some(size) => size == length && shape_within(depth, structs, sorts, &member.kind, item),
    }
}

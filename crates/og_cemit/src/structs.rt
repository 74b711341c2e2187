//! Structs: one for each structured type that a slot has, or that such a type is made of.
#![tactic(auto, using(og_names::proofs::Loops::loops, crate::proofs::StructLoops::struct_loops))]

ghost use Rattle.std.specs.Prelude.{◌≡◌, ◌++◌, ◌≤◌, IfOk, OnOk};
ghost use Rattle.og_cemit.specs.Structs as structs;
ghost use Rattle.og_cemit.specs.Structs.{struct_word as struct_word_at, type_of as type_at, type_of_slot as type_of_slot_at, member_words, part_members, array_members, members_of_sort, is_structured as is_structured_at, struct_at, structs_from, prefix_of};

use crate::marks::{is_marked, needed_of};
use crate::words::struct_word;
use og_csubset::{CMember, CStruct, CType};
use og_ir::{Ir, SlotSort};
use og_model::Model;
use og_names::{NoMemory, Word};
use og_types::{Part, Sort, TypeId};
use sqlite_items::Items;
use std::alloc::Global;

/// The structs of a program, each behind those that it uses.
pub fn structs_of(
    alloc: Global,
    ir: &Ir,
    model: &Model,
    prefix: &[u8],
    words: &[Items<Word>],
) -> Result<Items<CStruct>, NoMemory>
    requires prefix { prefix.now ≡ prefix_of ir.now }
    requires words { words.now ≡ member_words model.now }
    ensures { IfOk result (λ made. made ≡ structs.structs_of ir.now model.now) }
{
    let marks = needed_of(alloc, ir, model)?;
    marked_structs(
        alloc,
        model.types.as_slice(),
        prefix,
        words,
        marks.as_slice(),
    )
}

fn marked_structs(
    alloc: Global,
    sorts: &[Sort],
    prefix: &[u8],
    words: &[Items<Word>],
    marks: &[bool],
) -> Result<Items<CStruct>, NoMemory>
    ensures { IfOk result (λ structs. structs ≡ structs_from prefix.now sorts.now words.now marks.now 0 sorts.now) }
{
    let mut structs = Items::new(alloc);
    for (number, sort) in sorts.iter().enumerate() {
        if is_marked(marks, number) && is_structured(sort) {
            structs.push(struct_of(alloc, sorts, prefix, words, number, sort)?)?;
        }
    }
    Ok(structs)
}

/// Whether values of the type are more than one number.
fn is_structured(sort: &Sort) -> bool
    ensures { result ≡ is_structured_at sort.now }
{
    match sort {
        Sort::Sequence { parts } => !parts.is_empty(),
        Sort::Choice { .. } => true,
        Sort::SeqOf { .. } => true,
        _ => false,
    }
}

fn struct_of(
    alloc: Global,
    sorts: &[Sort],
    prefix: &[u8],
    words: &[Items<Word>],
    number: usize,
    sort: &Sort,
) -> Result<CStruct, NoMemory>
    ensures { IfOk result (λ made. made ≡ struct_at prefix.now sorts.now words.now number sort.now) }
{
    let members = match words.get(number) {
        Some(words) => members_of(alloc, sorts, prefix, words.as_slice(), sort)?,
        None => members_of(alloc, sorts, prefix, &[], sort)?,
    };
    Ok(CStruct {
        name: struct_word(alloc, prefix, number)?,
        members,
    })
}

fn members_of(
    alloc: Global,
    sorts: &[Sort],
    prefix: &[u8],
    words: &[Word],
    sort: &Sort,
) -> Result<Items<CMember>, NoMemory>
    ensures { IfOk result (λ members. members ≡ members_of_sort prefix.now sorts.now words.now sort.now) }
{
    let mut members = Items::new(alloc);
    match sort {
        Sort::Sequence { parts } => {
            push_parts(
                alloc,
                &mut members,
                sorts,
                prefix,
                words,
                0,
                parts.as_slice(),
            )?;
        }
        Sort::Choice { parts } => {
            members.push(number_member(alloc, b"choice")?)?;
            push_parts(
                alloc,
                &mut members,
                sorts,
                prefix,
                words,
                1,
                parts.as_slice(),
            )?;
        }
        Sort::SeqOf { hi, item, .. } => {
            members.push(number_member(alloc, b"length")?)?;
            push_array(alloc, &mut members, sorts, prefix, *hi, *item)?;
        }
        _ => {}
    }
    Ok(members)
}

fn number_member(alloc: Global, name: &[u8]) -> Result<CMember, NoMemory>
    ensures { IfOk result (λ member. member ≡ structs.number_member (record { bytes = name.now })) }
{
    Ok(CMember {
        kind: CType::Int64,
        name: Word {
            bytes: Items::from_slice(alloc, name)?,
        },
        size: None,
    })
}

/// Adds a member for each part. The names of the members begin at a number.
fn push_parts(
    alloc: Global,
    members: &mut Items<CMember>,
    sorts: &[Sort],
    prefix: &[u8],
    words: &[Word],
    from: usize,
    parts: &[Part],
) -> Result<(), NoMemory>
    requires small { from ≤ 1 }
    ensures { OnOk result (members.new ≡ members.old ++ part_members prefix.now sorts.now words.now from parts.now) }
{
    for (number, part) in parts.iter().enumerate() {
        members.push(CMember {
            kind: type_of(alloc, sorts, prefix, part.sort)?,
            name: word_at(alloc, words, from + number)?,
            size: None,
        })?;
    }
    Ok(())
}

/// Adds the array of items, which is left out where there can be none.
fn push_array(
    alloc: Global,
    members: &mut Items<CMember>,
    sorts: &[Sort],
    prefix: &[u8],
    hi: u32,
    item: TypeId,
) -> Result<(), NoMemory>
    ensures { OnOk result (members.new ≡ members.old ++ array_members prefix.now sorts.now hi item) }
{
    if hi > 0 {
        members.push(CMember {
            kind: type_of(alloc, sorts, prefix, item)?,
            name: Word {
                bytes: Items::from_slice(alloc, b"items")?,
            },
            size: Some(hi),
        })?;
    }
    Ok(())
}

/// The name of this number, or no letters past the end.
pub fn word_at(alloc: Global, words: &[Word], number: usize) -> Result<Word, NoMemory>
    ensures { IfOk result (λ word. word ≡ structs.word_at words.now number) }
{
    match words.get(number) {
        Some(word) => Ok(word.copy(alloc)?),
        None => Ok(Word {
            bytes: Items::new(alloc),
        }),
    }
}

/// The C type of a type of data.
pub fn type_of(alloc: Global, sorts: &[Sort], prefix: &[u8], id: TypeId) -> Result<CType, NoMemory>
    ensures { IfOk result (λ kind. kind ≡ type_at prefix.now sorts.now id) }
{
    let number = id.0 as usize;
    match sorts.get(number) {
        Some(sort) => {
            if is_structured(sort) {
                Ok(CType::Struct(struct_word(alloc, prefix, number)?))
            } else {
                Ok(CType::Int64)
            }
        }
        None => Ok(CType::Int64),
    }
}

/// The C type of a slot.
pub fn type_of_slot(
    alloc: Global,
    sorts: &[Sort],
    prefix: &[u8],
    sort: SlotSort,
) -> Result<CType, NoMemory>
    ensures { IfOk result (λ kind. kind ≡ type_of_slot_at prefix.now sorts.now sort) }
{
    match sort {
        SlotSort::Cell => Ok(CType::Int64),
        SlotSort::Shaped(id) => type_of(alloc, sorts, prefix, id),
    }
}

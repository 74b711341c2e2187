//! The text that a value shows.
#![tactic(auto, using(crate::proofs::Written::writing))]

ghost use Rattle.std.specs.Prelude.{◌≡◌, ◌++◌, Some, OnOk, OnErr, map, if◌then◌else◌, codes, slice_get};
ghost use Rattle.std.specs.Fmt.{signed_decimal};
ghost use Rattle.og_types.specs.declared.Value.{out-Value};
ghost use Rattle.og_value.specs.Shows.{shown, text_within, text_of_sort, name_text, enumerator_text, truth_text, part_text, part_texts, alternative_text, separated, comma_before};
ghost use Rattle.og_value.specs.Answers.{Keeps};

use crate::tokens::one_less;
use itoa::Buffer;
use og_names::{NameId, Names, NoMemory};
use og_types::{Part, Sort, TypeId, TypeTable, Value};
use sqlite_items::at;

/// Appends the text that the value shows. Where memory cannot be had, the bytes stay as they were.
pub fn write_value(
    types: &TypeTable,
    names: &Names,
    id: TypeId,
    value: &Value,
    out: &mut Vec<u8>,
) -> Result<(), NoMemory>
    ensures shown { OnOk result (out.new.items ≡ out.old.items ++ shown types.now names.now id value.now) }
    ensures refused { OnErr result (out.new.items ≡ out.old.items) }
{
    let len = out.len();
    match put_value(id.0 as usize + 1, types.as_slice(), names, id, value, out) {
        Ok(()) => Ok(()),
        Err(met) => {
            out.truncate(len);
            Err(met)
        }
    }
}

fn put(out: &mut Vec<u8>, bytes: &[u8]) -> Result<(), NoMemory>
    ensures ok { OnOk result (out.new.items ≡ out.old.items ++ bytes.now) }
    ensures kept { Keeps out.old.items out.new.items }
{
    out.extend_from_slice(bytes)?;
    Ok(())
}

fn put_number(number: i64, out: &mut Vec<u8>) -> Result<(), NoMemory>
    ensures ok { OnOk result (out.new.items ≡ out.old.items ++ signed_decimal number) }
    ensures kept { Keeps out.old.items out.new.items }
{
    let mut buffer = Buffer::new();
    put(out, buffer.format(number).as_bytes())
}

fn put_truth(truth: bool, out: &mut Vec<u8>) -> Result<(), NoMemory>
    ensures ok { OnOk result (out.new.items ≡ out.old.items ++ truth_text truth) }
    ensures kept { Keeps out.old.items out.new.items }
{
    if truth {
        put(out, b"TRUE")
    } else {
        put(out, b"FALSE")
    }
}

fn put_name(names: &Names, id: NameId, out: &mut Vec<u8>) -> Result<(), NoMemory>
    ensures ok { OnOk result (out.new.items ≡ out.old.items ++ name_text names.now id) }
    ensures kept { Keeps out.old.items out.new.items }
{
    match names.text(id) {
        None => Ok(()),
        Some(text) => put(out, text),
    }
}

fn put_enumerator(
    names: &Names,
    ids: &[NameId],
    place: u32,
    out: &mut Vec<u8>,
) -> Result<(), NoMemory>
    ensures ok { OnOk result (out.new.items ≡ out.old.items ++ enumerator_text names.now (slice_get ids.now place)) }
    ensures kept { Keeps out.old.items out.new.items }
{
    match at(ids, place as usize) {
        None => Ok(()),
        Some(id) => put_name(names, *id, out),
    }
}

/// What stands before the value or component that comes after so many others.
fn put_comma(before: usize, out: &mut Vec<u8>) -> Result<(), NoMemory>
    ensures ok { OnOk result (out.new.items ≡ out.old.items ++ comma_before before) }
    ensures kept { Keeps out.old.items out.new.items }
{
    if before == 0 {
        return Ok(());
    }
    put(out, b", ")
}

/// The text of a value of the type, going down at most so many times.
#[cycle(writing)]
#[tactic(auto, using(crate::proofs::Written::text_is))]
fn put_value(
    depth: usize,
    sorts: &[Sort],
    names: &Names,
    id: TypeId,
    value: &Value,
    out: &mut Vec<u8>,
) -> Result<(), NoMemory>
    ensures ok { OnOk result (out.new.items ≡ out.old.items ++ text_within depth sorts.now names.now id value.now) }
    ensures kept { Keeps out.old.items out.new.items }
{
    let Some(inner) = one_less(depth) else {
        return Ok(());
    };
    match at(sorts, id.0 as usize) {
        None => Ok(()),
        Some(sort) => put_sort(inner, sorts, names, sort, value, out),
    }
}

#[cycle(writing)]
fn put_sort(
    depth: usize,
    sorts: &[Sort],
    names: &Names,
    sort: &Sort,
    value: &Value,
    out: &mut Vec<u8>,
) -> Result<(), NoMemory>
    ensures ok { OnOk result (out.new.items ≡ out.old.items ++ text_of_sort (text_within depth sorts.now names.now) names.now (Some sort.now) (out-Value value.now)) }
    ensures kept { Keeps out.old.items out.new.items }
{
    match value {
        Value::Int(number) => match sort {
            Sort::Int { .. } => put_number(*number, out),
            _ => Ok(()),
        },
        Value::Bool(truth) => match sort {
            Sort::Bool => put_truth(*truth, out),
            _ => Ok(()),
        },
        Value::Enumerated(place) => match sort {
            Sort::Enumerated { names: ids, .. } => {
                put_enumerator(names, ids.as_slice(), *place, out)
            }
            _ => Ok(()),
        },
        Value::Sequence(values) => match sort {
            Sort::Sequence { parts } => {
                put(out, b"{")?;
                put_parts(
                    depth,
                    sorts,
                    names,
                    parts.as_slice(),
                    values.as_slice(),
                    out,
                )?;
                put(out, b"}")
            }
            _ => Ok(()),
        },
        Value::Choice(place, value) => match sort {
            Sort::Choice { parts } => match at(parts.as_slice(), *place as usize) {
                None => Ok(()),
                Some(part) => put_alternative(depth, sorts, names, part, value.get(), out),
            },
            _ => Ok(()),
        },
        Value::SeqOf(values) => match sort {
            Sort::SeqOf { item, .. } => {
                put(out, b"{")?;
                put_items(depth, sorts, names, *item, values.as_slice(), out)?;
                put(out, b"}")
            }
            _ => Ok(()),
        },
    }
}

#[cycle(writing)]
fn put_alternative(
    depth: usize,
    sorts: &[Sort],
    names: &Names,
    part: &Part,
    value: &Value,
    out: &mut Vec<u8>,
) -> Result<(), NoMemory>
    ensures ok { OnOk result (out.new.items ≡ out.old.items ++ alternative_text (text_within depth sorts.now names.now) names.now (Some part.now) value.now) }
    ensures kept { Keeps out.old.items out.new.items }
{
    put_name(names, part.name, out)?;
    put(out, b": ")?;
    put_value(depth, sorts, names, part.sort, value, out)
}

#[cycle(writing)]
fn put_part(
    depth: usize,
    sorts: &[Sort],
    names: &Names,
    part: &Part,
    value: &Value,
    out: &mut Vec<u8>,
) -> Result<(), NoMemory>
    ensures ok { OnOk result (out.new.items ≡ out.old.items ++ part_text (text_within depth sorts.now names.now) names.now part.now value.now) }
    ensures kept { Keeps out.old.items out.new.items }
{
    put_name(names, part.name, out)?;
    put(out, b" ")?;
    put_value(depth, sorts, names, part.sort, value, out)
}

/// The components with their names, as many as there are values.
#[cycle(writing)]
fn put_parts(
    depth: usize,
    sorts: &[Sort],
    names: &Names,
    parts: &[Part],
    values: &[Value],
    out: &mut Vec<u8>,
) -> Result<(), NoMemory>
    ensures ok { OnOk result (out.new.items ≡ out.old.items ++ separated (part_texts (text_within depth sorts.now names.now) names.now parts.now values.now)) }
    ensures kept { Keeps out.old.items out.new.items }
{
    for (place, part) in parts.iter().enumerate() {
        let Some(value) = at(values, place) else {
            return Ok(());
        };
        put_comma(place, out)?;
        put_part(depth, sorts, names, part, value, out)?;
    }
    Ok(())
}

#[cycle(writing)]
fn put_items(
    depth: usize,
    sorts: &[Sort],
    names: &Names,
    item: TypeId,
    values: &[Value],
    out: &mut Vec<u8>,
) -> Result<(), NoMemory>
    ensures ok { OnOk result (out.new.items ≡ out.old.items ++ separated (map (text_within depth sorts.now names.now item) values.now)) }
    ensures kept { Keeps out.old.items out.new.items }
{
    for (place, value) in values.iter().enumerate() {
        put_comma(place, out)?;
        put_value(depth, sorts, names, item, value, out)?;
    }
    Ok(())
}

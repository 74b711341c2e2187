//! Names of structs and of their members.
#![tactic(auto, using(og_names::proofs::Loops::loops, crate::proofs::StructLoops::struct_loops))]

ghost use Rattle.std.specs.Prelude.{◌≡◌, ◌++◌, [], ◌∷◌, IfOk, OnOk, map};
ghost use Rattle.std.specs.List.{list_all};
ghost use Rattle.og_csubset.specs.Tokens.{is_word_byte as is_word_byte_at};
ghost use Rattle.og_cload.specs.Names.{names_in};
ghost use Rattle.og_cemit.specs.Structs as structs;
ghost use Rattle.og_cemit.specs.Structs.{leading, most_from, struct_word as struct_word_at, by_name as by_name_at, by_number as by_number_at, numbered_from, are_clear as are_clear_names, part_words, names_of_parts as names_of_parts_at, words_of_sort as words_of_sort_at, member_words, AreFew, has_few_parts};

use itoa::Buffer;
use og_cload::fields::name_of;
use og_cload::names::has_twice;
use og_ir::{FlatFn, Ir, SlotDef};
use og_model::Model;
use og_names::{NoMemory, Word};
use og_types::{Part, Sort};
use sqlite_items::Items;
use std::alloc::Global;

/// One letter T more than any name of the code begins with, which no struct then shares its name with.
pub fn prefix_of(alloc: Global, ir: &Ir) -> Result<Vec<u8>, NoMemory>
    ensures { IfOk result (λ prefix. prefix.items ≡ structs.prefix_of ir.now) }
{
    let most = most_of_slots(0, ir.slots.as_slice());
    let most = most_of_words(most, ir.events.as_slice());
    let most = most_of_functions(most, ir.functions.as_slice());
    let mut prefix = vec![in alloc; b'T'; most]?;
    prefix.push(b'T')?;
    Ok(prefix)
}

fn most_of_slots(so_far: usize, slots: &[SlotDef]) -> usize
    ensures { result ≡ most_from so_far (map (λ s. s.name.bytes) slots.now) }
{
    let mut most = so_far;
    for slot in slots {
        most = most.max(leading_of(slot.name.bytes.as_slice()));
    }
    most
}

fn most_of_words(so_far: usize, words: &[Word]) -> usize
    ensures { result ≡ most_from so_far (map (λ w. w.bytes) words.now) }
{
    let mut most = so_far;
    for word in words {
        most = most.max(leading_of(word.bytes.as_slice()));
    }
    most
}

fn most_of_functions(so_far: usize, functions: &[FlatFn]) -> usize
    ensures { result ≡ most_from so_far (map (λ f. f.name.bytes) functions.now) }
{
    let mut most = so_far;
    for function in functions {
        most = most.max(leading_of(function.name.bytes.as_slice()));
    }
    most
}

/// How many letters T a name begins with.
fn leading_of(name: &[u8]) -> usize
    ensures { result ≡ leading name.now }
{
    for (place, byte) in name.iter().enumerate() {
        if *byte != b'T' {
            return place;
        }
    }
    name.len()
}

/// The name of the struct of the type of this number.
pub fn struct_word(alloc: Global, prefix: &[u8], number: usize) -> Result<Word, NoMemory>
    ensures { IfOk result (λ word. word ≡ struct_word_at prefix.now number) }
{
    let mut buffer = Buffer::new();
    let mut text = Vec::from_slice(alloc, prefix)?;
    text.extend_from_slice(buffer.format(number).as_bytes())?;
    Ok(Word {
        bytes: Items::from_vec(text),
    })
}

/// The names of the members of each type. Each list that was numbered has fewer items than 2^64.
pub fn words_of(alloc: Global, model: &Model) -> Result<Items<Items<Word>>, NoMemory>
    ensures words { IfOk result (λ words. words ≡ member_words model.now) }
    ensures few { OnOk result (AreFew model.now.types) }
{
    let sorts = model.types.as_slice();
    let mut words = Items::new(alloc);
    for sort in sorts {
        words.push(words_of_sort(alloc, model, sort)?)?;
    }
    Ok(words)
}

fn words_of_sort(alloc: Global, model: &Model, sort: &Sort) -> Result<Items<Word>, NoMemory>
    ensures words { IfOk result (λ words. words ≡ words_of_sort_at model.now sort.now) }
    ensures few { OnOk result (has_few_parts sort.now) }
{
    let mut words = Items::new(alloc);
    match sort {
        Sort::Sequence { parts } => {
            push_words(alloc, &mut words, model, parts.as_slice())?;
        }
        Sort::Choice { parts } => {
            push_fixed(alloc, &mut words, b"choice")?;
            push_words(alloc, &mut words, model, parts.as_slice())?;
        }
        Sort::SeqOf { .. } => {
            push_fixed(alloc, &mut words, b"length")?;
            push_fixed(alloc, &mut words, b"items")?;
        }
        _ => {}
    }
    Ok(words)
}

fn push_fixed(alloc: Global, words: &mut Items<Word>, name: &[u8]) -> Result<(), NoMemory>
    ensures { OnOk result (words.new ≡ words.old ++ record { bytes = name.now } ∷ []) }
{
    words.push(Word {
        bytes: Items::from_slice(alloc, name)?,
    })?;
    Ok(())
}

/// Adds a name for each part: its own where all are words and differ, and else its number.
fn push_words(
    alloc: Global,
    words: &mut Items<Word>,
    model: &Model,
    parts: &[Part],
) -> Result<(), NoMemory>
    ensures { OnOk result (words.new ≡ words.old ++ part_words (names_of_parts_at model.now parts.now)) }
{
    let names = names_of_parts(alloc, model, parts)?;
    if are_clear(names.as_slice()) {
        push_named(alloc, words, names.as_slice())
    } else {
        push_numbered(alloc, words, names.as_slice())
    }
}

fn names_of_parts<'m>(
    alloc: Global,
    model: &'m Model,
    parts: &[Part],
) -> Result<Vec<&'m [u8]>, NoMemory>
    ensures { IfOk result (λ names. names_in names.items ≡ names_of_parts_at model.now parts.now) }
{
    let mut names = Vec::new(alloc);
    for part in parts {
        names.push(name_of(model, part.name))?;
    }
    Ok(names)
}

/// Each is made of letters, digits and `_`, and no two are the same.
fn are_clear(names: &[&[u8]]) -> bool
    ensures { result ≡ are_clear_names (names_in names.now) }
{
    are_tails(names) && !has_twice(names)
}

fn are_tails(names: &[&[u8]]) -> bool
    ensures { result ≡ list_all (list_all is_word_byte_at) (names_in names.now) }
{
    for name in names {
        if !is_tail(name) {
            return false;
        }
    }
    true
}

fn is_tail(name: &[u8]) -> bool
    ensures { result ≡ list_all is_word_byte_at name.now }
{
    for byte in name {
        if !is_word_byte(*byte) {
            return false;
        }
    }
    true
}

fn is_word_byte(byte: u8) -> bool
    ensures { result ≡ is_word_byte_at byte }
{
    matches!(byte, b'A'..=b'Z' | b'a'..=b'z') || matches!(byte, b'0'..=b'9') || byte == b'_'
}

fn push_named(alloc: Global, words: &mut Items<Word>, names: &[&[u8]]) -> Result<(), NoMemory>
    ensures { OnOk result (words.new ≡ words.old ++ map by_name_at (names_in names.now)) }
{
    for name in names {
        words.push(by_name(alloc, name)?)?;
    }
    Ok(())
}

fn push_numbered(alloc: Global, words: &mut Items<Word>, names: &[&[u8]]) -> Result<(), NoMemory>
    ensures { OnOk result (words.new ≡ words.old ++ numbered_from 0 (names_in names.now)) }
{
    for (number, _) in names.iter().enumerate() {
        words.push(by_number(alloc, number)?)?;
    }
    Ok(())
}

fn by_name(alloc: Global, name: &[u8]) -> Result<Word, NoMemory>
    ensures { IfOk result (λ word. word ≡ by_name_at name.now) }
{
    let mut text = Vec::from_slice(alloc, b"m_")?;
    text.extend_from_slice(name)?;
    Ok(Word {
        bytes: Items::from_vec(text),
    })
}

fn by_number(alloc: Global, number: usize) -> Result<Word, NoMemory>
    ensures { IfOk result (λ word. word ≡ by_number_at number) }
{
    let mut buffer = Buffer::new();
    let mut text = Vec::from_slice(alloc, b"m")?;
    text.extend_from_slice(buffer.format(number).as_bytes())?;
    Ok(Word {
        bytes: Items::from_vec(text),
    })
}

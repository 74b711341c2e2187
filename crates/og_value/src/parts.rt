//! One part of a text as a value of a type.
#![tactic(auto, using(og_names::proofs::Loops::loops))]

ghost use Rattle.std.specs.Prelude.{◌≡◌, ◌≤◌, ◌<◌, ◌^◌, false, Some, MatchOption};
ghost use Rattle.og_types.specs.Table.{in_64_bits};
ghost use Rattle.og_value.specs.Bytes.{number_of};
ghost use Rattle.og_value.specs.Reads.{integer, as_number, as_truth, as_name, place_among, place_of_word, names_of, chosen, alternative_of, as_items, is_called};
ghost use Rattle.og_value.specs.Answers.{Gives};

use crate::ValueError;
use og_names::{NameId, Names, NoMemory};
use og_types::{Part, Sort, TypeId, Value};
use sqlite_items::{Items, at};

/// A number above this one has more than 64 bits once a further digit stands behind it.
const TENTH: u64 = 922_337_203_685_477_580;

/// The number of the digits, where it is at most 2^63.
fn magnitude(digits: &[u8]) -> Option<u64>
    ensures { MatchOption result (2 ^ 63 < number_of digits.now) (λ number. (number ≡ number_of digits.now) × (number ≤ 2 ^ 63)) }
{
    let mut number: u64 = 0;
    for digit in digits {
        if number > TENTH {
            return None;
        }
        number = 10 * number + u64::from(digit.saturating_sub(b'0'));
    }
    if number > 1 << 63 { None } else { Some(number) }
}

/// The number with its sign, where it has 64 bits.
fn integer_of(negative: bool, digits: &[u8]) -> Option<i64>
    ensures { MatchOption result (in_64_bits (integer negative digits.now) ≡ false) (λ number. number ≡ integer negative digits.now) }
{
    let magnitude = magnitude(digits)?;
    if magnitude == 1 << 63 {
        return if negative { Some(i64::MIN) } else { None };
    }
    let number = magnitude as i64;
    Some(if negative { -number } else { number })
}

/// A number as a value of the type.
pub fn as_number(sort: &Sort, negative: bool, digits: &[u8]) -> Result<Value, ValueError>
    ensures { Gives (λ value. value) result (as_number (Some sort.now) (integer negative digits.now)) }
{
    let Sort::Int { lo, hi } = sort else {
        return Err(ValueError::Bad);
    };
    let (lo, hi) = (*lo, *hi);
    match integer_of(negative, digits) {
        Some(number) if lo <= number && number <= hi => Ok(Value::Int(number)),
        _ => Err(ValueError::Bad),
    }
}

/// A truth value as a value of the type.
pub fn as_truth(sort: &Sort, truth: bool) -> Result<Value, ValueError>
    ensures { Gives (λ value. value) result (as_truth (Some sort.now) truth) }
{
    match sort {
        Sort::Bool => Ok(Value::Bool(truth)),
        _ => Err(ValueError::Bad),
    }
}

/// The place of a name among others. What would pass numbers of 32 bits is told as want of memory.
fn place_among(ids: &[NameId], name: NameId) -> Result<u32, ValueError>
    ensures { Gives (λ place. place) result (place_among ids.now name.0) }
{
    for (place, id) in ids.iter().enumerate() {
        if *id == name {
            if place > u32::MAX as usize {
                return Err(ValueError::NoMemory(NoMemory::past_numbers(place)));
            }
            return Ok(place as u32);
        }
    }
    Err(ValueError::Bad)
}

/// The same among the names of components.
fn place_among_parts(parts: &[Part], name: NameId) -> Result<u32, ValueError>
    ensures { Gives (λ place. place) result (place_among (names_of parts.now) name.0) }
{
    for (place, part) in parts.iter().enumerate() {
        if part.name == name {
            if place > u32::MAX as usize {
                return Err(ValueError::NoMemory(NoMemory::past_numbers(place)));
            }
            return Ok(place as u32);
        }
    }
    Err(ValueError::Bad)
}

/// A name as a value of the type.
pub fn as_name(names: &Names, sort: &Sort, word: &[u8]) -> Result<Value, ValueError>
    ensures { Gives (λ value. value) result (as_name names.now (Some sort.now) word.now) }
{
    let Sort::Enumerated { names: ids, .. } = sort else {
        return Err(ValueError::Bad);
    };
    let Some(name) = names.find(word) else {
        return Err(ValueError::Bad);
    };
    let place = place_among(ids.as_slice(), name)?;
    Ok(Value::Enumerated(place))
}

/// The place and the type of the alternative of this name.
pub fn alternative_of(names: &Names, sort: &Sort, word: &[u8]) -> Result<(u32, TypeId), ValueError>
    ensures { Gives (λ found. chosen found.0 found.1) result (alternative_of names.now (Some sort.now) word.now) }
{
    let Sort::Choice { parts } = sort else {
        return Err(ValueError::Bad);
    };
    let Some(name) = names.find(word) else {
        return Err(ValueError::Bad);
    };
    let place = place_among_parts(parts.as_slice(), name)?;
    match at(parts.as_slice(), place as usize) {
        None => Err(ValueError::Bad),
        Some(part) => Ok((place, part.sort)),
    }
}

/// Items as a value of the type.
pub fn as_items(sort: &Sort, items: Items<Value>) -> Result<Value, ValueError>
    ensures { Gives (λ value. value) result (as_items (Some sort.now) items) }
{
    match sort {
        Sort::SeqOf { lo, hi, .. } => {
            if *lo as usize <= items.len() && items.len() <= *hi as usize {
                return Ok(Value::SeqOf(items));
            }
            Err(ValueError::Bad)
        }
        Sort::Sequence { parts } => {
            if parts.is_empty() && items.is_empty() {
                return Ok(Value::Sequence(items));
            }
            Err(ValueError::Bad)
        }
        _ => Err(ValueError::Bad),
    }
}

/// The word is the name of this number.
pub fn is_called(names: &Names, word: &[u8], id: NameId) -> bool
    ensures { result ≡ is_called names.now word.now id }
{
    match names.find(word) {
        None => false,
        Some(name) => id == name,
    }
}

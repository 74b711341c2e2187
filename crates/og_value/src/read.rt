//! The value that the text at a place reads as.
ghost use Rattle.std.specs.Prelude.{◌≡◌, ◌≤◌, ◌+◌, ℕ, length, MatchOption, IfSome, IfOk, IsTrue, IsErrOf};
ghost use Rattle.og_types.specs.declared.Value.{Value};
ghost use Rattle.og_types.specs.Values.{is_in};
ghost use Rattle.og_value.specs.declared.ValueError.TheVariants.{Bad};
ghost use Rattle.og_value.specs.Forms.{HasTextAt, HasNoText};
ghost use Rattle.og_value.specs.Reads.{IsReadAt};
ghost use Rattle.og_value.specs.Scans.{found_in};
ghost use Rattle.og_value.specs.Answers.{Gives};

use crate::ValueError;
use crate::forms::form_at;
use crate::values::value_at;
use og_names::Names;
use og_types::{Sort, TypeId, TypeTable, Value};
use std::alloc::Global;

/// The most braces and colons that may be open in a text of a value.
const DEEPEST: usize = 64;

/// A value, and the place behind its text.
#[derive(Debug, Drop)]
pub struct ReadValue {
    pub value: Value,
    pub next: usize,
}

/// The place behind the longest text of a value at a place, of whatever type, where there is one.
#[tactic(auto, using(crate::proofs::Longest::rest_within, crate::proofs::Longest::text_at, crate::proofs::Longest::no_text_at))]
pub fn value_end(text: &[u8], at: usize) -> Option<usize>
    requires { at ≤ length text.now }
    ensures end { MatchOption result (HasNoText text.now at) (λ next. HasTextAt text.now at next) }
    ensures within { IfSome result (λ next. next ≤ length text.now) }
{
    let (_, bytes) = text.split_at(at);
    match form_at(DEEPEST, bytes) {
        None => None,
        Some(rest) => Some(text.len() - rest.len()),
    }
}

/// Reads the longest text of a value at a place, as a value of the type. A text that begins with a blank is none.
pub fn read_value(
    alloc: Global,
    types: &TypeTable,
    names: &Names,
    id: TypeId,
    text: &[u8],
    at: usize,
) -> Result<ReadValue, ValueError>
    requires { at ≤ length text.now }
    // The longest text of a value there reads as this value, and ends there.
    ensures found { IfOk result (λ read. IsReadAt types.now names.now id text.now at read.value read.next) }
    ensures within { IfOk result (λ read. read.next ≤ length text.now) }
    ensures in_type { IfOk result (λ read. IsTrue (is_in types.now id read.value)) }
    // It reads as none, or there is none.
    ensures bad { IsErrOf result ValueError.Bad → (value : Value) (next : ℕ) → IsReadAt types.now names.now id text.now at value next → ⊥ }
{
    // With the number of types it is said that they are a table.
    let _ = types.len();
    let (_, bytes) = text.split_at(at);
    match found_in(alloc, types.as_slice(), names, id, bytes) {
        Ok((value, len)) => Ok(ReadValue {
            value,
            next: at + len,
        }),
        Err(error) => Err(error),
    }
}

/// The value of the longest text in front, and how many bytes it has.
#[tactic(auto, using(crate::proofs::Longest::rest_within), unfolding(crate::specs::Scans::found_in))]
fn found_in(
    alloc: Global,
    sorts: &[Sort],
    names: &Names,
    id: TypeId,
    bytes: &[u8],
) -> Result<(Value, usize), ValueError>
    ensures found { Gives (λ x. x) result (found_in sorts.now names.now id bytes.now) }
    ensures within { IfOk result (λ found. found.1 ≤ length bytes.now) }
{
    let Some(rest) = form_at(DEEPEST, bytes) else {
        return Err(ValueError::Bad);
    };
    let len = bytes.len() - rest.len();
    let (text, _) = bytes.split_at(len);
    let (value, _) = value_at(alloc, DEEPEST, sorts, names, id, text)?;
    Ok((value, len))
}

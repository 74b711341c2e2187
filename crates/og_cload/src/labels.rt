//! Labels, cases and calls that are there (C99 6.2.1, 6.8.1 and 6.8.4.2).
#![tactic(auto, using(og_names::proofs::Loops::loops, crate::proofs::Labelled::labelled))]

ghost use Rattle.std.specs.Prelude.{◌≡◌, ◌++◌, IfOk, OnOk};
ghost use Rattle.std.specs.List.{list_all, list_any};
ghost use Rattle.og_ir.specs.Arithmetic.{is_same};
ghost use Rattle.og_csubset.specs.Kinds.{is_in as is_among};
ghost use Rattle.og_csubset.specs.Loading.{labels_of as labels_in, targets_of, has_equal_cases as are_equal_in, repeats_case as repeats_case_in, has_labels as has_labels_in, calls_known as calls_known_among, functions_known as functions_known_among, breaks_K6, breaks_K7};
ghost use Rattle.og_cload.specs.Names.{names_in};

use crate::names::{event_names, has_twice, is_in};
use og_csubset::{CCase, CFunction, CProgram, CStmt};
use og_names::NoMemory;
use std::alloc::Global;

/// A label that its function lacks or has twice, or two equal cases.
pub fn breaks_k6(alloc: Global, program: &CProgram) -> Result<bool, NoMemory>
    ensures { IfOk result (λ broken. broken ≡ breaks_K6 program.now) }
{
    for function in program.functions.as_slice() {
        if !has_labels(alloc, function)? {
            return Ok(true);
        }
    }
    Ok(false)
}

fn has_labels(alloc: Global, function: &CFunction) -> Result<bool, NoMemory>
    ensures { IfOk result (λ has. has ≡ has_labels_in function.now) }
{
    let body = function.body.as_slice();
    let labels = labels_of(alloc, body)?;
    if has_twice(labels.as_slice()) {
        return Ok(false);
    }
    if !has_targets(body, labels.as_slice()) {
        return Ok(false);
    }
    Ok(!repeats_case(body))
}

fn labels_of(alloc: Global, body: &[CStmt]) -> Result<Vec<&[u8]>, NoMemory>
    ensures { IfOk result (λ labels. names_in labels.items ≡ labels_in body.now) }
{
    let mut labels = Vec::new(alloc);
    for statement in body {
        if let CStmt::Label(name) = statement {
            labels.push(name.bytes.as_slice())?;
        }
    }
    Ok(labels)
}

/// Every label that a statement of the body jumps to is there.
fn has_targets(body: &[CStmt], labels: &[&[u8]]) -> bool
    ensures { result ≡ list_all (λ s. list_all (λ label. is_among label (names_in labels.now)) (targets_of s)) body.now }
{
    for statement in body {
        if !finds_targets(statement, labels) {
            return false;
        }
    }
    true
}

fn finds_targets(statement: &CStmt, labels: &[&[u8]]) -> bool
    ensures { result ≡ list_all (λ label. is_among label (names_in labels.now)) (targets_of statement.now) }
{
    match statement {
        CStmt::IfGoto(_, label) => is_in(label.bytes.as_slice(), labels),
        CStmt::Goto(label) => is_in(label.bytes.as_slice(), labels),
        CStmt::Switch(_, cases, otherwise) => {
            is_in(otherwise.bytes.as_slice(), labels) && has_cases(cases.as_slice(), labels)
        }
        CStmt::Assign(_, _) => true,
        CStmt::Label(_) => true,
        CStmt::Call(_) => true,
        CStmt::Return => true,
    }
}

fn has_cases(cases: &[CCase], labels: &[&[u8]]) -> bool
    ensures { result ≡ list_all (λ c. is_among c.label.bytes (names_in labels.now)) cases.now }
{
    for case in cases {
        if !is_in(case.label.bytes.as_slice(), labels) {
            return false;
        }
    }
    true
}

fn repeats_case(body: &[CStmt]) -> bool
    ensures { result ≡ list_any repeats_case_in body.now }
{
    for statement in body {
        if has_equal_cases(statement) {
            return true;
        }
    }
    false
}

fn has_equal_cases(statement: &CStmt) -> bool
    ensures { result ≡ repeats_case_in statement.now }
{
    match statement {
        CStmt::Switch(_, cases, _) => are_equal(cases.as_slice()),
        CStmt::Assign(_, _) => false,
        CStmt::IfGoto(_, _) => false,
        CStmt::Goto(_) => false,
        CStmt::Label(_) => false,
        CStmt::Call(_) => false,
        CStmt::Return => false,
    }
}

fn are_equal(cases: &[CCase]) -> bool
    ensures { result ≡ are_equal_in cases.now }
{
    for (place, case) in cases.iter().enumerate() {
        let (_, later) = cases.split_at(place + 1);
        if is_value(case.value, later) {
            return true;
        }
    }
    false
}

/// One of the cases has the value.
fn is_value(value: i64, cases: &[CCase]) -> bool
    ensures { result ≡ list_any (λ c. is_same value c.value) cases.now }
{
    for case in cases {
        if value == case.value {
            return true;
        }
    }
    false
}

/// A call of neither an event nor a function defined earlier.
pub fn breaks_k7(alloc: Global, program: &CProgram) -> Result<bool, NoMemory>
    ensures { IfOk result (λ broken. broken ≡ breaks_K7 program.now) }
{
    let names = event_names(alloc, program)?;
    Ok(!functions_known(program.functions.as_slice(), names)?)
}

fn functions_known<'a>(functions: &'a [CFunction], names: Vec<&'a [u8]>) -> Result<bool, NoMemory>
    ensures { IfOk result (λ known. known ≡ functions_known_among (names_in names.entry.items) functions.now) }
{
    let mut names = names;
    for function in functions {
        if !calls_known(function.body.as_slice(), names.as_slice()) {
            return Ok(false);
        }
        names.push(function.name.bytes.as_slice())?;
    }
    Ok(true)
}

fn calls_known(body: &[CStmt], names: &[&[u8]]) -> bool
    ensures { result ≡ list_all (calls_known_among (names_in names.now)) body.now }
{
    for statement in body {
        if !is_known_call(statement, names) {
            return false;
        }
    }
    true
}

fn is_known_call(statement: &CStmt, names: &[&[u8]]) -> bool
    ensures { result ≡ calls_known_among (names_in names.now) statement.now }
{
    match statement {
        CStmt::Call(name) => is_in(name.bytes.as_slice(), names),
        CStmt::Assign(_, _) => true,
        CStmt::IfGoto(_, _) => true,
        CStmt::Goto(_) => true,
        CStmt::Label(_) => true,
        CStmt::Switch(_, _, _) => true,
        CStmt::Return => true,
    }
}

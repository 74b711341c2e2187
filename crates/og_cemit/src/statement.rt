//! Statements of instructions.
ghost use Rattle.std.specs.Prelude.{◌≡◌, ◌++◌, [], ◌∷◌, IfOk, OnOk, map, slice_get};
ghost use Rattle.og_csubset.specs.FlatText.{slot_word, operator_of as operator_at, relation_of as relation_at};
ghost use Rattle.og_cemit.specs.Emitted.{label_at, hint, step_behind, selectors, selector_of as selector_at, place_of as place_at, number_of as number_at, test_of as test_at, case_at, statement_at};
ghost use Rattle.og_cemit.specs.Structs.{member_words, member_word};
ghost use Rattle.og_cemit.specs.Standing.{held};

use crate::standing::{Standing, standing_after, standing_in};
use crate::structs::word_at;
use itoa::Buffer;
use og_csubset::{CCase, CExpr, COp, CPlace, CRel, CStep, CStmt, CTest};
use og_ir::{Case, Flat, FlatFn, FlatOp, FlatRel, Instr, Ir, Slot, Step2, Test};
use og_model::Model;
use og_names::{NoMemory, Word};
use sqlite_items::{Boxed, Items};
use std::alloc::Global;

/// The statement of an instruction. What the code names is there in fair code.
pub fn statement_of(
    alloc: Global,
    ir: &Ir,
    model: &Model,
    words: &[Items<Word>],
    function: &FlatFn,
    instruction: &Instr,
) -> Result<CStmt, NoMemory>
    requires words { words.now ≡ member_words model.now }
    ensures { IfOk result (λ statement. statement ≡ statement_at ir.now model.now function.now instruction.now) }
{
    match instruction {
        Instr::Set(slot, number) => Ok(CStmt::Assign(
            place_of(alloc, ir, model, words, slot)?,
            number_of(alloc, ir, model, words, number)?,
        )),
        Instr::Copy(to, from) => Ok(CStmt::Assign(
            place_of(alloc, ir, model, words, to)?,
            CExpr::Read(place_of(alloc, ir, model, words, from)?),
        )),
        Instr::Branch(test, to) => Ok(CStmt::IfGoto(
            test_of(alloc, ir, model, words, test)?,
            label_of(alloc, function, *to as usize)?,
        )),
        Instr::Goto(to) => Ok(CStmt::Goto(label_of(alloc, function, *to as usize)?)),
        Instr::Table(number, cases, otherwise) => Ok(CStmt::Switch(
            number_of(alloc, ir, model, words, number)?,
            cases_of(alloc, function, cases.as_slice())?,
            label_of(alloc, function, *otherwise as usize)?,
        )),
        Instr::Call(callee) => match ir.functions.get(*callee as usize) {
            Some(callee) => Ok(CStmt::Call(callee.name.copy(alloc)?)),
            None => Ok(CStmt::Return),
        },
        Instr::Emit(event) => match ir.events.get(*event as usize) {
            Some(event) => Ok(CStmt::Call(event.copy(alloc)?)),
            None => Ok(CStmt::Return),
        },
        Instr::Back => Ok(CStmt::Return),
    }
}

fn cases_of(alloc: Global, function: &FlatFn, cases: &[Case]) -> Result<Items<CCase>, NoMemory>
    ensures { IfOk result (λ made. made ≡ map (case_at function.now) cases.now) }
{
    let mut made = Items::new(alloc);
    for case in cases {
        made.push(CCase {
            value: case.value,
            label: label_of(alloc, function, case.to as usize)?,
        })?;
    }
    Ok(made)
}

/// The label of a place: what the code there is for, then `__` and the place, so that no two labels meet.
#[tactic(auto, unfolding(crate::specs::Emitted::label_text))]
pub fn label_of(alloc: Global, function: &FlatFn, place: usize) -> Result<Word, NoMemory>
    ensures { IfOk result (λ label. label ≡ label_at function.now place) }
{
    let mut text = hint_of(alloc, function, place)?;
    let mut buffer = Buffer::new();
    text.extend_from_slice(b"__")?;
    text.extend_from_slice(buffer.format(place).as_bytes())?;
    Ok(Word {
        bytes: Items::from_vec(text),
    })
}

/// The word of a place, or `at` where there is none.
fn hint_of(alloc: Global, function: &FlatFn, place: usize) -> Result<Vec<u8>, NoMemory>
    ensures { IfOk result (λ text. text.items ≡ hint (slice_get function.now.labels place)) }
{
    match function.labels.get(place) {
        None => Ok(Vec::from_slice(alloc, b"at")?),
        Some(label) => {
            if label.bytes.is_empty() {
                Ok(Vec::from_slice(alloc, b"at")?)
            } else {
                Ok(Vec::from_slice(alloc, label.bytes.as_slice())?)
            }
        }
    }
}

/// A slot, or a part of it: what each selector leads to says what the next member is named.
#[cycle(expression)]
fn place_of(
    alloc: Global,
    ir: &Ir,
    model: &Model,
    words: &[Items<Word>],
    slot: &Slot,
) -> Result<CPlace, NoMemory>
    requires words { words.now ≡ member_words model.now }
    ensures { IfOk result (λ place. place ≡ place_at ir.now model.now slot.now) }
{
    let mut path = Items::new(alloc);
    let mut standing = standing_in(ir, model, slot.base);
    for selector in slot.path.as_slice() {
        path.push(selector_of(alloc, ir, model, words, standing, selector)?)?;
        standing = standing_after(model, standing, selector);
    }
    Ok(CPlace {
        name: name_of(alloc, ir, slot.base)?,
        path,
    })
}

#[cycle(expression)]
#[tactic(auto, using(crate::proofs::Opens::opens))]
fn selector_of(
    alloc: Global,
    ir: &Ir,
    model: &Model,
    words: &[Items<Word>],
    standing: Standing,
    selector: &Step2,
) -> Result<CStep, NoMemory>
    requires words { words.now ≡ member_words model.now }
    ensures { IfOk result (λ step. step ≡ step_behind (member_words model.now) (held standing) (selector_at ir.now model.now selector.now)) }
{
    match selector {
        Step2::Field(field) => Ok(CStep::Member(member_of(alloc, words, standing, *field)?)),
        Step2::Index(index) => Ok(CStep::At(number_of(alloc, ir, model, words, index)?)),
    }
}

/// The name of a member of what stands there.
fn member_of(
    alloc: Global,
    words: &[Items<Word>],
    standing: Standing,
    field: u32,
) -> Result<Word, NoMemory>
    ensures { IfOk result (λ word. word ≡ member_word words.now (held standing) field) }
{
    if let Standing::Whole(id) = standing {
        if let Some(words) = words.get(id.0 as usize) {
            return word_at(alloc, words.as_slice(), field as usize);
        }
    }
    Ok(Word {
        bytes: Items::new(alloc),
    })
}

fn name_of(alloc: Global, ir: &Ir, base: u32) -> Result<Word, NoMemory>
    ensures { IfOk result (λ name. name ≡ slot_word (slice_get ir.now.slots base)) }
{
    match ir.slots.get(base as usize) {
        Some(slot) => Ok(slot.name.copy(alloc)?),
        None => Ok(Word {
            bytes: Items::new(alloc),
        }),
    }
}

#[tactic(auto, using(crate::proofs::Opens::opens))]
#[cycle(expression)]
fn number_of(
    alloc: Global,
    ir: &Ir,
    model: &Model,
    words: &[Items<Word>],
    number: &Flat,
) -> Result<CExpr, NoMemory>
    requires words { words.now ≡ member_words model.now }
    ensures { IfOk result (λ expression. expression ≡ number_at ir.now model.now number.now) }
{
    match number {
        Flat::Number(number) => Ok(CExpr::Number(*number)),
        Flat::Read(slot) => Ok(CExpr::Read(place_of(alloc, ir, model, words, slot)?)),
        Flat::Op(op, left, right) => Ok(CExpr::Op(
            operator_of(*op),
            Boxed::new(alloc, number_of(alloc, ir, model, words, left.get())?)?,
            Boxed::new(alloc, number_of(alloc, ir, model, words, right.get())?)?,
        )),
    }
}

fn operator_of(op: FlatOp) -> COp
    ensures { result ≡ operator_at op }
{
    match op {
        FlatOp::Add => COp::Add,
        FlatOp::Sub => COp::Sub,
        FlatOp::Mul => COp::Mul,
        FlatOp::Div => COp::Div,
        FlatOp::Rem => COp::Rem,
    }
}

fn test_of(
    alloc: Global,
    ir: &Ir,
    model: &Model,
    words: &[Items<Word>],
    test: &Test,
) -> Result<CTest, NoMemory>
    requires words { words.now ≡ member_words model.now }
    ensures { IfOk result (λ made. made ≡ test_at ir.now model.now test.now) }
{
    Ok(CTest {
        op: relation_of(test.op),
        left: Boxed::new(alloc, number_of(alloc, ir, model, words, &test.left)?)?,
        right: Boxed::new(alloc, number_of(alloc, ir, model, words, &test.right)?)?,
    })
}

fn relation_of(op: FlatRel) -> CRel
    ensures { result ≡ relation_at op }
{
    match op {
        FlatRel::Eq => CRel::Eq,
        FlatRel::Ne => CRel::Ne,
        FlatRel::Lt => CRel::Lt,
        FlatRel::Le => CRel::Le,
        FlatRel::Gt => CRel::Gt,
        FlatRel::Ge => CRel::Ge,
    }
}

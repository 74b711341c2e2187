//! Copies of programs of the C subset and of their parts. Each copy equals what it copies.
ghost use Rattle.std.specs.Prelude.{◌≡◌, IfOk};

use crate::{
    CCase, CExpr, CFunction, CGlobal, CMember, CPlace, CProgram, CStep, CStmt, CStruct, CTest,
    CType,
};
use og_names::{NoMemory, Word};
use sqlite_items::{Boxed, Items};
use std::alloc::Global;

impl CProgram {
    /// The same program once more.
    pub fn copy(&self, alloc: Global) -> Result<CProgram, NoMemory>
        ensures { IfOk result (λ copied. copied ≡ self.now) }
    {
        Ok(CProgram {
            structs: copy_structs(alloc, self.structs.as_slice())?,
            globals: copy_globals(alloc, self.globals.as_slice())?,
            events: copy_words(alloc, self.events.as_slice())?,
            functions: copy_functions(alloc, self.functions.as_slice())?,
        })
    }
}

impl CStruct {
    /// The same struct type once more.
    pub fn copy(&self, alloc: Global) -> Result<CStruct, NoMemory>
        ensures { IfOk result (λ copied. copied ≡ self.now) }
    {
        Ok(CStruct {
            name: self.name.copy(alloc)?,
            members: copy_members(alloc, self.members.as_slice())?,
        })
    }
}

impl CMember {
    /// The same member once more.
    pub fn copy(&self, alloc: Global) -> Result<CMember, NoMemory>
        ensures { IfOk result (λ copied. copied ≡ self.now) }
    {
        Ok(CMember {
            kind: self.kind.copy(alloc)?,
            name: self.name.copy(alloc)?,
            size: self.size,
        })
    }
}

impl CGlobal {
    /// The same global once more.
    pub fn copy(&self, alloc: Global) -> Result<CGlobal, NoMemory>
        ensures { IfOk result (λ copied. copied ≡ self.now) }
    {
        Ok(CGlobal {
            kind: self.kind.copy(alloc)?,
            name: self.name.copy(alloc)?,
        })
    }
}

impl CType {
    /// The same type once more.
    pub fn copy(&self, alloc: Global) -> Result<CType, NoMemory>
        ensures { IfOk result (λ copied. copied ≡ self.now) }
    {
        Ok(match self {
            CType::Int64 => CType::Int64,
            CType::Struct(name) => CType::Struct(name.copy(alloc)?),
        })
    }
}

impl CFunction {
    /// The same function once more.
    pub fn copy(&self, alloc: Global) -> Result<CFunction, NoMemory>
        ensures { IfOk result (λ copied. copied ≡ self.now) }
    {
        Ok(CFunction {
            name: self.name.copy(alloc)?,
            body: copy_statements(alloc, self.body.as_slice())?,
        })
    }
}

impl CStmt {
    /// The same statement once more.
    pub fn copy(&self, alloc: Global) -> Result<CStmt, NoMemory>
        ensures { IfOk result (λ copied. copied ≡ self.now) }
    {
        Ok(match self {
            CStmt::Assign(place, number) => {
                CStmt::Assign(place.copy(alloc)?, number.copy(alloc)?)
            }
            CStmt::IfGoto(test, label) => CStmt::IfGoto(test.copy(alloc)?, label.copy(alloc)?),
            CStmt::Goto(label) => CStmt::Goto(label.copy(alloc)?),
            CStmt::Label(label) => CStmt::Label(label.copy(alloc)?),
            CStmt::Switch(number, cases, otherwise) => CStmt::Switch(
                number.copy(alloc)?,
                copy_cases(alloc, cases.as_slice())?,
                otherwise.copy(alloc)?,
            ),
            CStmt::Call(name) => CStmt::Call(name.copy(alloc)?),
            CStmt::Return => CStmt::Return,
        })
    }
}

impl CCase {
    /// The same case once more.
    pub fn copy(&self, alloc: Global) -> Result<CCase, NoMemory>
        ensures { IfOk result (λ copied. copied ≡ self.now) }
    {
        Ok(CCase {
            value: self.value,
            label: self.label.copy(alloc)?,
        })
    }
}

impl CPlace {
    /// The same place once more.
    #[cycle(copying)]
    pub fn copy(&self, alloc: Global) -> Result<CPlace, NoMemory>
        ensures { IfOk result (λ copied. copied ≡ self.now) }
    {
        Ok(CPlace {
            name: self.name.copy(alloc)?,
            path: copy_steps(alloc, self.path.as_slice())?,
        })
    }
}

impl CStep {
    /// The same step of a place once more.
    #[cycle(copying)]
    pub fn copy(&self, alloc: Global) -> Result<CStep, NoMemory>
        ensures { IfOk result (λ copied. copied ≡ self.now) }
    {
        Ok(match self {
            CStep::Member(name) => CStep::Member(name.copy(alloc)?),
            CStep::At(index) => CStep::At(index.copy(alloc)?),
        })
    }
}

impl CExpr {
    /// The same expression once more.
    #[cycle(copying)]
    pub fn copy(&self, alloc: Global) -> Result<CExpr, NoMemory>
        ensures { IfOk result (λ copied. copied ≡ self.now) }
    {
        Ok(match self {
            CExpr::Number(number) => CExpr::Number(*number),
            CExpr::Read(place) => CExpr::Read(place.copy(alloc)?),
            CExpr::Minus(inner) => CExpr::Minus(Boxed::new(alloc, inner.get().copy(alloc)?)?),
            CExpr::Op(op, left, right) => CExpr::Op(
                *op,
                Boxed::new(alloc, left.get().copy(alloc)?)?,
                Boxed::new(alloc, right.get().copy(alloc)?)?,
            ),
            CExpr::Pick(test, first, second) => CExpr::Pick(
                test.copy(alloc)?,
                Boxed::new(alloc, first.get().copy(alloc)?)?,
                Boxed::new(alloc, second.get().copy(alloc)?)?,
            ),
        })
    }
}

impl CTest {
    /// The same test once more.
    #[cycle(copying)]
    pub fn copy(&self, alloc: Global) -> Result<CTest, NoMemory>
        ensures { IfOk result (λ copied. copied ≡ self.now) }
    {
        Ok(CTest {
            op: self.op,
            left: Boxed::new(alloc, self.left.get().copy(alloc)?)?,
            right: Boxed::new(alloc, self.right.get().copy(alloc)?)?,
        })
    }
}

fn copy_structs(alloc: Global, structs: &[CStruct]) -> Result<Items<CStruct>, NoMemory>
    ensures { IfOk result (λ copied. copied ≡ structs.now) }
{
    let mut copied = Items::new(alloc);
    for one in structs {
        copied.push(one.copy(alloc)?)?;
    }
    Ok(copied)
}

fn copy_globals(alloc: Global, globals: &[CGlobal]) -> Result<Items<CGlobal>, NoMemory>
    ensures { IfOk result (λ copied. copied ≡ globals.now) }
{
    let mut copied = Items::new(alloc);
    for global in globals {
        copied.push(global.copy(alloc)?)?;
    }
    Ok(copied)
}

fn copy_words(alloc: Global, words: &[Word]) -> Result<Items<Word>, NoMemory>
    ensures { IfOk result (λ copied. copied ≡ words.now) }
{
    let mut copied = Items::new(alloc);
    for word in words {
        copied.push(word.copy(alloc)?)?;
    }
    Ok(copied)
}

fn copy_functions(alloc: Global, functions: &[CFunction]) -> Result<Items<CFunction>, NoMemory>
    ensures { IfOk result (λ copied. copied ≡ functions.now) }
{
    let mut copied = Items::new(alloc);
    for function in functions {
        copied.push(function.copy(alloc)?)?;
    }
    Ok(copied)
}

fn copy_members(alloc: Global, members: &[CMember]) -> Result<Items<CMember>, NoMemory>
    ensures { IfOk result (λ copied. copied ≡ members.now) }
{
    let mut copied = Items::new(alloc);
    for member in members {
        copied.push(member.copy(alloc)?)?;
    }
    Ok(copied)
}

fn copy_statements(alloc: Global, statements: &[CStmt]) -> Result<Items<CStmt>, NoMemory>
    ensures { IfOk result (λ copied. copied ≡ statements.now) }
{
    let mut copied = Items::new(alloc);
    for statement in statements {
        copied.push(statement.copy(alloc)?)?;
    }
    Ok(copied)
}

fn copy_cases(alloc: Global, cases: &[CCase]) -> Result<Items<CCase>, NoMemory>
    ensures { IfOk result (λ copied. copied ≡ cases.now) }
{
    let mut copied = Items::new(alloc);
    for case in cases {
        copied.push(case.copy(alloc)?)?;
    }
    Ok(copied)
}

#[cycle(copying)]
fn copy_steps(alloc: Global, steps: &[CStep]) -> Result<Items<CStep>, NoMemory>
    ensures { IfOk result (λ copied. copied ≡ steps.now) }
{
    let mut copied = Items::new(alloc);
    for step in steps {
        copied.push(step.copy(alloc)?)?;
    }
    Ok(copied)
}

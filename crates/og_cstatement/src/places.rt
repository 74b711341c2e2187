//! The places of expressions in the vector of cells. Names are looked up once, at load.
#![tactic(auto, using(og_names::proofs::Loops::loops, og_cload::proofs::Places::places, og_cload::proofs::Grown::grown, crate::proofs::Numbered::numbered))]

ghost use Rattle.std.specs.Prelude.{◌≡◌, ◌++◌, [], IfOk, OnOk, map, unwrap_or, slice_get};
ghost use Rattle.std.specs.Option.{option_copied, option_map};
ghost use Rattle.og_csubset.specs.Kinds.{place_in, global_kind as kind_of_global};
ghost use Rattle.og_cload.specs.Held.{kind_of};
ghost use Rattle.og_ccells.specs.Layouts.{capped, layout_of};
ghost use Rattle.og_cstatement.specs.declared.code.Expression.{Minus as minus_of, Op as op_of, Choice as choice_of};
ghost use Rattle.og_cstatement.specs.Resolved.{expression_of, selector_of as selector_in, place_of as place_for, test_of as test_for, path_of as path_in, all_kind, global_offset as offset_of_global, size_in, members_after, offset_after, width_in as width_of_kind, width_at as width_of_place, with_term};

use crate::code::{Expression, Place, Term, Test};
use og_ccells::{Extent, Layout, type_width, width_before};
use og_cload::kinds::{Held, element_of, global_kind, member_of, members_of, type_of_one};
use og_csubset::{CExpr, CGlobal, CMember, COp, CPlace, CProgram, CStep, CStruct, CTest};
use og_names::NoMemory;
use sqlite_items::{Boxed, Items, at};
use std::alloc::Global;

/// An expression.
#[cycle(places)]
pub fn expression(
    alloc: Global,
    number: &CExpr,
    program: &CProgram,
    layout: &Layout,
) -> Result<Expression, NoMemory>
    requires { layout.now ≡ layout_of program.now }
    ensures { IfOk result (λ made. made ≡ expression_of program.now number.now) }
{
    match number {
        CExpr::Number(number) => Ok(Expression::Literal(*number)),
        CExpr::Read(place) => {
            let place = place_of(alloc, place, program, layout)?;
            Ok(Expression::Read(place))
        }
        CExpr::Minus(operand) => {
            let operand = expression(alloc, operand.get(), program, layout)?;
            let made = minus(alloc, operand)?;
            Ok(made)
        }
        CExpr::Op(operator, left, right) => {
            let left = expression(alloc, left.get(), program, layout)?;
            let right = expression(alloc, right.get(), program, layout)?;
            let made = operation(alloc, *operator, left, right)?;
            Ok(made)
        }
        CExpr::Pick(test, yes, no) => {
            let test = test_of(alloc, test, program, layout)?;
            let yes = expression(alloc, yes.get(), program, layout)?;
            let no = expression(alloc, no.get(), program, layout)?;
            let made = choice(alloc, test, yes, no)?;
            Ok(made)
        }
    }
}

fn minus(alloc: Global, operand: Expression) -> Result<Expression, NoMemory>
    ensures { IfOk result (λ made. made ≡ minus_of operand) }
{
    let operand = Boxed::new(alloc, operand)?;
    Ok(Expression::Minus(operand))
}

fn operation(
    alloc: Global,
    operator: COp,
    left: Expression,
    right: Expression,
) -> Result<Expression, NoMemory>
    ensures { IfOk result (λ made. made ≡ op_of operator left right) }
{
    let left = Boxed::new(alloc, left)?;
    let right = Boxed::new(alloc, right)?;
    Ok(Expression::Op(operator, left, right))
}

fn choice(
    alloc: Global,
    test: Test,
    yes: Expression,
    no: Expression,
) -> Result<Expression, NoMemory>
    ensures { IfOk result (λ made. made ≡ choice_of test yes no) }
{
    let yes = Boxed::new(alloc, yes)?;
    let no = Boxed::new(alloc, no)?;
    Ok(Expression::Choice(test, yes, no))
}

#[cycle(places)]
pub fn test_of(
    alloc: Global,
    test: &CTest,
    program: &CProgram,
    layout: &Layout,
) -> Result<Test, NoMemory>
    requires { layout.now ≡ layout_of program.now }
    ensures { IfOk result (λ made. made ≡ test_for program.now test.now) }
{
    let left = expression(alloc, test.left.get(), program, layout)?;
    let right = expression(alloc, test.right.get(), program, layout)?;
    let left = Boxed::new(alloc, left)?;
    let right = Boxed::new(alloc, right)?;
    Ok(Test {
        op: test.op,
        left,
        right,
    })
}

/// A place: the offsets of its global and of its members in all, and a term for each index.
#[cycle(places)]
pub fn place_of(
    alloc: Global,
    place: &CPlace,
    program: &CProgram,
    layout: &Layout,
) -> Result<Place, NoMemory>
    requires { layout.now ≡ layout_of program.now }
    ensures { IfOk result (λ made. made ≡ place_for program.now place.now) }
{
    let name = place.name.bytes.as_slice();
    let mut held = global_kind(program, name);
    let mut offset = global_offset(program, layout, name);
    let mut terms = Items::new(alloc);
    for step in place.path.as_slice() {
        let term = term_of(alloc, step, program, layout, held)?;
        add_term(&mut terms, term)?;
        offset = offset.saturating_add(member_offset(program, layout, held, step));
        held = selected(program, held, step);
    }
    Ok(Place { offset, terms })
}

/// Puts an index behind those so far.
fn add_term(terms: &mut Items<Term>, term: Option<Term>) -> Result<(), NoMemory>
    ensures { OnOk result (terms.new ≡ terms.old ++ with_term term []) }
{
    match term {
        None => Ok(()),
        Some(term) => {
            terms.push(term)?;
            Ok(())
        }
    }
}

/// What an index adds to a place.
#[cycle(places)]
fn term_of<'a>(
    alloc: Global,
    step: &CStep,
    program: &CProgram,
    layout: &Layout,
    held: Option<Held<'a>>,
) -> Result<Option<Term>, NoMemory>
    requires { layout.now ≡ layout_of program.now }
    ensures { IfOk result (λ made. made ≡ (selector_in program.now step.now (option_map kind_of held.entry)).term) }
{
    match step {
        CStep::Member(_) => Ok(None),
        CStep::At(index) => {
            let index = expression(alloc, index, program, layout)?;
            Ok(Some(Term {
                bound: size_of(held),
                stride: width_of(program, layout, held),
                index,
            }))
        }
    }
}

/// The size of an array.
fn size_of<'a>(held: Option<Held<'a>>) -> u32
    ensures { result ≡ size_in (option_map kind_of held.entry) }
{
    match held {
        None => 0,
        Some(held) => match held.size {
            None => 0,
            Some(size) => size,
        },
    }
}

/// How many cells one of what stands at a place has.
fn width_of<'a>(program: &CProgram, layout: &Layout, held: Option<Held<'a>>) -> u32
    requires { layout.now ≡ layout_of program.now }
    ensures { result ≡ width_of_kind program.now (option_map kind_of held.entry) }
{
    match held {
        None => 0,
        Some(held) => type_width(
            layout.widths.as_slice(),
            program.structs.as_slice(),
            held.of,
        ),
    }
}

/// How many cells stand before a member.
fn member_offset<'a>(
    program: &CProgram,
    layout: &Layout,
    held: Option<Held<'a>>,
    step: &CStep,
) -> u32
    requires { layout.now ≡ layout_of program.now }
    ensures { result ≡ capped (selector_in program.now step.now (option_map kind_of held.entry)).offset }
{
    match step {
        CStep::Member(name) => offset_of(program, layout, held, name.bytes.as_slice()),
        CStep::At(_) => 0,
    }
}

/// The same of the member of a name, or 0 where nothing has members.
fn offset_of<'a>(program: &CProgram, layout: &Layout, held: Option<Held<'a>>, name: &[u8]) -> u32
    requires { layout.now ≡ layout_of program.now }
    ensures { result ≡ capped (offset_after program.now (option_map kind_of held.entry) name.now) }
{
    let structs = program.structs.as_slice();
    match members_in(structs, held) {
        None => 0,
        Some(members) => width_before(layout.widths.as_slice(), structs, name, members),
    }
}

/// The members of what stands at a place.
fn members_in<'a>(structs: &'a [CStruct], held: Option<Held<'a>>) -> Option<&'a [CMember]>
    ensures { option_copied result ≡ members_after structs.now (option_map kind_of held.entry) }
{
    let kind = type_of_one(held?)?;
    let members = members_of(structs, kind)?;
    Some(members)
}

/// What is selected.
fn selected<'a>(program: &'a CProgram, held: Option<Held<'a>>, step: &CStep) -> Option<Held<'a>>
    ensures { option_map kind_of result ≡ (selector_in program.now step.now (option_map kind_of held.entry)).kind }
{
    match step {
        CStep::Member(name) => {
            let (_, next) = member_of(program.structs.as_slice(), held?, name.bytes.as_slice())?;
            Some(next)
        }
        CStep::At(_) => element_of(held?),
    }
}

/// Where a global lies.
fn global_offset(program: &CProgram, layout: &Layout, name: &[u8]) -> u32
    requires { layout.now ≡ layout_of program.now }
    ensures { result ≡ offset_of_global program.now name.now }
{
    let found = place_of_global(name, program.globals.as_slice());
    match found {
        None => 0,
        Some(place) => offset_at(layout.extents.as_slice(), place),
    }
}

fn offset_at(extents: &[Extent], place: usize) -> u32
    ensures { result ≡ unwrap_or (option_map (λ e. e.offset) (slice_get extents.now place)) 0 }
{
    match at(extents, place) {
        None => 0,
        Some(extent) => extent.offset,
    }
}

/// How many cells stand at a place that is no array.
pub fn width_at(program: &CProgram, layout: &Layout, place: &CPlace) -> u32
    requires { layout.now ≡ layout_of program.now }
    ensures { result ≡ width_of_place program.now place.now }
{
    let held = held_at(program, place);
    width_of(program, layout, held)
}

/// What stands at a place.
fn held_at<'a>(program: &'a CProgram, place: &CPlace) -> Option<Held<'a>>
    ensures { option_map kind_of result ≡ all_kind (path_in program.now place.now.path) (kind_of_global program.now place.now.name.bytes) }
{
    let mut held = global_kind(program, place.name.bytes.as_slice());
    for step in place.path.as_slice() {
        held = selected(program, held, step);
    }
    held
}

/// The number of a global.
fn place_of_global(name: &[u8], globals: &[CGlobal]) -> Option<usize>
    ensures { result ≡ place_in name.now (map (λ g. g.name.bytes) globals.now) }
{
    for (place, global) in globals.iter().enumerate() {
        if name == global.name.bytes.as_slice() {
            return Some(place);
        }
    }
    None
}

//! Where the globals of a program lie in one vector of cells (C99 6.2.5). Numbers of cells are counted no further than to
//! 2^32 - 1; a program that breaks no load rule has at most 16,777,216.
#![tactic(auto, using(og_names::proofs::Loops::loops, og_cload::proofs::Places::places, og_cload::proofs::Grown::grown, crate::proofs::Widths::widths), unfolding(crate::specs::Layouts::layout_of))]

ghost use Rattle.std.specs.Prelude.{◌≡◌, [], true, IfOk, map, unwrap_or, slice_get};
ghost use Rattle.og_csubset.specs.Kinds.{place_in, struct_names, total, times, width_of};
ghost use Rattle.og_csubset.specs.Loading.{structs_known, is_int64};
ghost use Rattle.og_ccells.specs.Layouts.{capped, known_width as width_known, widths_of as widths_in, width_before as before_member, extents_from, layout_of};

use og_csubset::{CGlobal, CMember, CProgram, CStruct, CType};
use og_names::NoMemory;
use sqlite_items::{Items, at};
use std::alloc::Global;

/// Where a global lies: from which cell on, over how many, and whether it is one number.
#[derive(Clone, Copy, Debug, PartialEq, Eq)]
pub struct Extent {
    pub offset: u32,
    pub width: u32,
    pub is_number: bool,
}

/// How many cells each struct of a program has, and where its globals lie.
#[derive(Drop)]
pub struct Layout {
    pub widths: Items<u32>,
    pub extents: Items<Extent>,
}

/// How many cells each struct has. Each holds only structs before it.
fn widths_of(alloc: Global, structs: &[CStruct]) -> Result<Items<u32>, NoMemory>
    requires { structs_known [] structs.now ≡ true }
    ensures { IfOk result (λ widths. widths ≡ widths_in structs.now) }
{
    let mut widths = Items::new(alloc);
    for one in structs {
        let width = members_width(widths.as_slice(), structs, one.members.as_slice());
        widths.push(width)?;
    }
    Ok(widths)
}

/// How many cells the members have, by the widths of structs.
fn members_width(widths: &[u32], structs: &[CStruct], members: &[CMember]) -> u32
    ensures { result ≡ capped (total (map (λ m. times m.size (width_known widths.now structs.now m.kind)) members.now)) }
{
    let mut width = 0u32;
    for member in members {
        width = width.saturating_add(member_width(widths, structs, member));
    }
    width
}

#[tactic(auto, unfolding(crate::specs::Layouts::up_to))]
fn member_width(widths: &[u32], structs: &[CStruct], member: &CMember) -> u32
    ensures { result ≡ capped (times member.now.size (width_known widths.now structs.now member.now.kind)) }
{
    let width = known_width(widths, structs, &member.kind);
    match member.size {
        None => width,
        Some(size) => size.saturating_mul(width),
    }
}

/// How many cells a type has, by the widths of all structs.
pub fn type_width(widths: &[u32], structs: &[CStruct], kind: &CType) -> u32
    requires { widths.now ≡ widths_in structs.now }
    ensures { result ≡ capped (width_of structs.now kind.now) }
{
    known_width(widths, structs, kind)
}

/// The same by the widths of the structs so far.
fn known_width(widths: &[u32], structs: &[CStruct], kind: &CType) -> u32
    ensures { result ≡ width_known widths.now structs.now kind.now }
{
    match kind {
        CType::Int64 => 1,
        CType::Struct(name) => match struct_place(name.bytes.as_slice(), structs) {
            None => 0,
            Some(place) => width_at(widths, place),
        },
    }
}

fn width_at(widths: &[u32], place: usize) -> u32
    ensures { result ≡ unwrap_or (slice_get widths.now place) 0 }
{
    match at(widths, place) {
        None => 0,
        Some(width) => *width,
    }
}

/// The number of a struct.
fn struct_place(name: &[u8], structs: &[CStruct]) -> Option<usize>
    ensures { result ≡ place_in name.now (map (λ s. s.name.bytes) structs.now) }
{
    for (place, one) in structs.iter().enumerate() {
        if name == one.name.bytes.as_slice() {
            return Some(place);
        }
    }
    None
}

/// How many cells stand before the member of a name, or all of them where there is none.
pub fn width_before(widths: &[u32], structs: &[CStruct], name: &[u8], members: &[CMember]) -> u32
    requires { widths.now ≡ widths_in structs.now }
    ensures { result ≡ capped (before_member structs.now name.now members.now) }
{
    let mut width = 0u32;
    for member in members {
        if name == member.name.bytes.as_slice() {
            return width;
        }
        width = width.saturating_add(member_width(widths, structs, member));
    }
    width
}

/// Where the globals lie, by the widths of all structs.
fn extents_of(
    alloc: Global,
    widths: &[u32],
    structs: &[CStruct],
    globals: &[CGlobal],
) -> Result<Items<Extent>, NoMemory>
    requires { widths.now ≡ widths_in structs.now }
    ensures { IfOk result (λ extents. extents ≡ extents_from 0 structs.now globals.now) }
{
    let mut extents = Items::new(alloc);
    let mut offset = 0u32;
    for global in globals {
        let width = type_width(widths, structs, &global.kind);
        let is_number = is_number(&global.kind);
        extents.push(Extent {
            offset,
            width,
            is_number,
        })?;
        offset = offset.saturating_add(width);
    }
    Ok(extents)
}

/// A type that is one number.
fn is_number(kind: &CType) -> bool
    ensures { result ≡ is_int64 kind.now }
{
    match kind {
        CType::Int64 => true,
        CType::Struct(_) => false,
    }
}

impl Layout {
    /// The layout of a program whose structs hold only structs before them.
    pub fn of(alloc: Global, program: &CProgram) -> Result<Layout, NoMemory>
        requires { structs_known [] program.now.structs ≡ true }
        ensures { IfOk result (λ layout. layout ≡ layout_of program.now) }
    {
        let structs = program.structs.as_slice();
        let widths = widths_of(alloc, structs)?;
        let extents = extents_of(
            alloc,
            widths.as_slice(),
            structs,
            program.globals.as_slice(),
        )?;
        Ok(Layout { widths, extents })
    }
}

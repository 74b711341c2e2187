//! How many cells the globals have (C99 6.2.5).
#![tactic(auto, using(og_names::proofs::Loops::loops, crate::proofs::Widths::widths))]

ghost use Rattle.std.specs.Prelude.{◌≡◌, ◌+◌, ◌≤◌, ◌<◌, ℕ, map, nat_eq, length};
ghost use Rattle.og_csubset.specs.Kinds.{width_within as width_within_of, width_of as width_of_type, total, times as times_of};
ghost use Rattle.og_csubset.specs.Loading.{cells_of_globals as cells_of_all, breaks_K8};
ghost use Rattle.og_cload.specs.Widths.{many, capped};

use crate::kinds::members_of;
use og_csubset::{CGlobal, CMember, CProgram, CStruct, CType};

/// More cells than this are not counted: it is one more than a program may have.
const MANY: u64 = 16_777_217;

/// More than 16,777,216 cells.
pub fn breaks_k8(program: &CProgram) -> bool
    ensures { result ≡ breaks_K8 program.now }
{
    is_many(cells_of_globals(program.structs.as_slice(), program.globals.as_slice()))
}

fn cells_of_globals(structs: &[CStruct], globals: &[CGlobal]) -> u64
    ensures { result ≡ capped (total (map (λ g. width_of_type structs.now g.kind) globals.now)) }
{
    let mut cells = 0;
    for global in globals {
        if is_many(cells) {
            return cells;
        }
        cells = sum(
            cells,
            width_within(structs.len() + 1, structs, &global.kind),
        );
    }
    cells
}

#[tactic(auto, unfolding(crate::specs::Widths::many))]
fn is_many(cells: u64) -> bool
    ensures { result ≡ nat_eq many cells }
{
    cells == MANY
}

/// The sum of two numbers of cells, as far as it is counted.
#[tactic(auto, unfolding(crate::specs::Widths::many, crate::specs::Widths::capped))]
fn sum(left: u64, right: u64) -> u64
    requires left { left ≤ many }
    requires right { right ≤ many }
    ensures { result ≡ capped (left + right) }
{
    let both = left + right;
    if both < MANY { both } else { MANY }
}

/// So many times a number of cells, as far as it is counted.
#[tactic(auto, unfolding(crate::specs::Widths::many, crate::specs::Widths::capped))]
fn times(size: Option<u32>, width: u64) -> u64
    requires { width ≤ many }
    ensures { result ≡ capped (times_of size width) }
{
    match size {
        None => width,
        Some(size) => {
            let all = u64::from(size) * width;
            if all < MANY { all } else { MANY }
        }
    }
}

/// How many cells a type has whose structs lie at most so deep in one another.
#[cycle(width)]
fn width_within(depth: usize, structs: &[CStruct], kind: &CType) -> u64
    ensures { result ≡ capped (width_within_of depth structs.now kind.now) }
{
    if depth == 0 {
        return 0;
    }
    match kind {
        CType::Int64 => 1,
        CType::Struct(_) => match members_of(structs, kind) {
            None => 0,
            Some(members) => members_width(depth - 1, structs, members),
        },
    }
}

/// How many cells the members have.
#[cycle(width)]
fn members_width(depth: usize, structs: &[CStruct], members: &[CMember]) -> u64
    ensures { result ≡ capped (total (map (λ m. times_of m.size (width_within_of depth structs.now m.kind)) members.now)) }
{
    let mut cells = 0;
    for member in members {
        if is_many(cells) {
            return cells;
        }
        cells = sum(cells, member_width(depth, structs, member));
    }
    cells
}

#[cycle(width)]
fn member_width(depth: usize, structs: &[CStruct], member: &CMember) -> u64
    ensures { result ≡ capped (times_of member.now.size (width_within_of depth structs.now member.now.kind)) }
{
    if let Some(size) = member.size {
        if size == 0 {
            return 0;
        }
    }
    times(member.size, width_within(depth, structs, &member.kind))
}

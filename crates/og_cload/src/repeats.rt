//! Names that stand twice (C99 6.2.1).
#![tactic(auto, using(og_names::proofs::Loops::loops))]

ghost use Rattle.std.specs.Prelude.{◌≡◌, map, IfOk};
ghost use Rattle.std.specs.List.{list_any};
ghost use Rattle.og_csubset.specs.Loading.{has_twice as stands_twice, breaks_K3};

use crate::names::{add_members, all_names, has_twice};
use og_csubset::{CMember, CProgram, CStruct};
use og_names::NoMemory;
use std::alloc::Global;

/// A name of the program, or a member of a struct, stands twice.
pub fn breaks_k3(alloc: Global, program: &CProgram) -> Result<bool, NoMemory>
    ensures { IfOk result (λ broken. broken ≡ breaks_K3 program.now) }
{
    let names = all_names(alloc, program)?;
    if has_twice(names.as_slice()) {
        return Ok(true);
    }
    repeats_member(alloc, program.structs.as_slice())
}

fn repeats_member(alloc: Global, structs: &[CStruct]) -> Result<bool, NoMemory>
    ensures { IfOk result (λ broken. broken ≡ list_any (λ s. stands_twice (map (λ m. m.name.bytes) s.members)) structs.now) }
{
    for one in structs {
        if members_repeat(alloc, one.members.as_slice())? {
            return Ok(true);
        }
    }
    Ok(false)
}

fn members_repeat(alloc: Global, members: &[CMember]) -> Result<bool, NoMemory>
    ensures { IfOk result (λ broken. broken ≡ stands_twice (map (λ m. m.name.bytes) members.now)) }
{
    let mut names = Vec::new(alloc);
    add_members(&mut names, members)?;
    Ok(has_twice(names.as_slice()))
}

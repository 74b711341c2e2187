//! Struct types are defined before they are used (C99 6.7.7).
#![tactic(auto, using(og_names::proofs::Loops::loops))]

ghost use Rattle.std.specs.Prelude.{◌≡◌, [], IfOk};
ghost use Rattle.std.specs.List.{list_all};
ghost use Rattle.og_csubset.specs.Loading.{is_known as is_known_among, structs_known as structs_known_among, breaks_K4};
ghost use Rattle.og_cload.specs.Names.{names_in};

use crate::names::{is_in, struct_names};
use og_csubset::{CGlobal, CMember, CProgram, CStruct, CType};
use og_names::NoMemory;
use std::alloc::Global;

/// A struct type is used before its definition, or has none.
pub fn breaks_k4(alloc: Global, program: &CProgram) -> Result<bool, NoMemory>
    ensures { IfOk result (λ broken. broken ≡ breaks_K4 program.now) }
{
    if !structs_known(alloc, program.structs.as_slice())? {
        return Ok(true);
    }
    let names = struct_names(alloc, program)?;
    Ok(!globals_known(program.globals.as_slice(), names.as_slice()))
}

fn structs_known(alloc: Global, structs: &[CStruct]) -> Result<bool, NoMemory>
    ensures { IfOk result (λ known. known ≡ structs_known_among [] structs.now) }
{
    let mut names = Vec::new(alloc);
    for one in structs {
        if !members_known(one.members.as_slice(), names.as_slice()) {
            return Ok(false);
        }
        names.push(one.name.bytes.as_slice())?;
    }
    Ok(true)
}

fn members_known(members: &[CMember], names: &[&[u8]]) -> bool
    ensures { result ≡ list_all (λ m. is_known_among (names_in names.now) m.kind) members.now }
{
    for member in members {
        if !is_known(&member.kind, names) {
            return false;
        }
    }
    true
}

fn globals_known(globals: &[CGlobal], names: &[&[u8]]) -> bool
    ensures { result ≡ list_all (λ g. is_known_among (names_in names.now) g.kind) globals.now }
{
    for global in globals {
        if !is_known(&global.kind, names) {
            return false;
        }
    }
    true
}

fn is_known(kind: &CType, names: &[&[u8]]) -> bool
    ensures { result ≡ is_known_among (names_in names.now) kind.now }
{
    match kind {
        CType::Int64 => true,
        CType::Struct(name) => is_in(name.bytes.as_slice(), names),
    }
}

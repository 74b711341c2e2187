//! Names of a program, as bytes.
#![tactic(auto, using(og_names::proofs::Loops::loops))]

ghost use Rattle.std.specs.Prelude.{◌≡◌, map, IfOk, OnOk, ◌++◌};
ghost use Rattle.og_csubset.specs.Kinds.{is_in as is_among, function_names as names_of_functions, event_names as names_of_events, global_names as names_of_globals, struct_names as names_of_structs};
ghost use Rattle.og_csubset.specs.Loading.{has_twice as stands_twice, all_names as names_of_all};
ghost use Rattle.og_cload.specs.Names.{names_in};

use og_csubset::{CFunction, CGlobal, CMember, CProgram, CStruct};
use og_names::{NoMemory, Word};
use std::alloc::Global;

/// The name stands among the names.
pub fn is_in(name: &[u8], names: &[&[u8]]) -> bool
    ensures { result ≡ is_among name.now (names_in names.now) }
{
    for other in names {
        if name == *other {
            return true;
        }
    }
    false
}

/// A name stands twice.
pub fn has_twice(names: &[&[u8]]) -> bool
    ensures { result ≡ stands_twice (names_in names.now) }
{
    for (place, name) in names.iter().enumerate() {
        let (_, later) = names.split_at(place + 1);
        if is_in(name, later) {
            return true;
        }
    }
    false
}

/// Adds the names of struct types.
pub fn add_structs<'a>(names: &mut Vec<&'a [u8]>, structs: &'a [CStruct]) -> Result<(), NoMemory>
    ensures { OnOk result (names_in names.new.items ≡ names_in names.old.items ++ map (λ s. s.name.bytes) structs.now) }
{
    for one in structs {
        names.push(one.name.bytes.as_slice())?;
    }
    Ok(())
}

/// Adds the names of members.
pub fn add_members<'a>(names: &mut Vec<&'a [u8]>, members: &'a [CMember]) -> Result<(), NoMemory>
    ensures { OnOk result (names_in names.new.items ≡ names_in names.old.items ++ map (λ m. m.name.bytes) members.now) }
{
    for member in members {
        names.push(member.name.bytes.as_slice())?;
    }
    Ok(())
}

/// Adds the names of globals.
pub fn add_globals<'a>(names: &mut Vec<&'a [u8]>, globals: &'a [CGlobal]) -> Result<(), NoMemory>
    ensures { OnOk result (names_in names.new.items ≡ names_in names.old.items ++ map (λ g. g.name.bytes) globals.now) }
{
    for global in globals {
        names.push(global.name.bytes.as_slice())?;
    }
    Ok(())
}

/// Adds the names of events.
pub fn add_events<'a>(names: &mut Vec<&'a [u8]>, events: &'a [Word]) -> Result<(), NoMemory>
    ensures { OnOk result (names_in names.new.items ≡ names_in names.old.items ++ map (λ e. e.bytes) events.now) }
{
    for event in events {
        names.push(event.bytes.as_slice())?;
    }
    Ok(())
}

/// Adds the names of functions.
pub fn add_functions<'a>(
    names: &mut Vec<&'a [u8]>,
    functions: &'a [CFunction],
) -> Result<(), NoMemory>
    ensures { OnOk result (names_in names.new.items ≡ names_in names.old.items ++ map (λ f. f.name.bytes) functions.now) }
{
    for function in functions {
        names.push(function.name.bytes.as_slice())?;
    }
    Ok(())
}

/// The names of struct types.
pub fn struct_names(alloc: Global, program: &CProgram) -> Result<Vec<&[u8]>, NoMemory>
    ensures { IfOk result (λ names. names_in names.items ≡ names_of_structs program.now) }
{
    let mut names = Vec::new(alloc);
    add_structs(&mut names, program.structs.as_slice())?;
    Ok(names)
}

/// The names of events.
pub fn event_names(alloc: Global, program: &CProgram) -> Result<Vec<&[u8]>, NoMemory>
    ensures { IfOk result (λ names. names_in names.items ≡ names_of_events program.now) }
{
    let mut names = Vec::new(alloc);
    add_events(&mut names, program.events.as_slice())?;
    Ok(names)
}

/// The names of functions.
pub fn function_names(alloc: Global, program: &CProgram) -> Result<Vec<&[u8]>, NoMemory>
    ensures { IfOk result (λ names. names_in names.items ≡ names_of_functions program.now) }
{
    let mut names = Vec::new(alloc);
    add_functions(&mut names, program.functions.as_slice())?;
    Ok(names)
}

/// All names of a program outside structs and functions.
pub fn all_names(alloc: Global, program: &CProgram) -> Result<Vec<&[u8]>, NoMemory>
    ensures { IfOk result (λ names. names_in names.items ≡ names_of_all program.now) }
{
    let mut names = Vec::new(alloc);
    add_structs(&mut names, program.structs.as_slice())?;
    add_globals(&mut names, program.globals.as_slice())?;
    add_events(&mut names, program.events.as_slice())?;
    add_functions(&mut names, program.functions.as_slice())?;
    Ok(names)
}

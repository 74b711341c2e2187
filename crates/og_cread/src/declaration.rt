//! Structs, globals, events, functions and the whole program.
ghost use Rattle.std.specs.Prelude.{◌≡◌, IfOk, option_map};
ghost use Rattle.og_csubset.specs.Spelling.{IsProgram};
ghost use Rattle.og_clex.specs.Told.{IsSomeProgram};
ghost use Rattle.og_csubset.specs.Reading.{each_at};
ghost use Rattle.og_cread.specs.Trees.{Gives, type_front, size_front, member_front, members_front, struct_front, global_front, head_front, event_front, statement_front, function_front, program_front, tree_of};
ghost use Rattle.og_clex.specs.Views.{tokens_view};

use crate::statement::{label_of, statements_of};
use crate::take::{
    TreeError, digits_of, keyword_of, mark_of, name_of, passed_keyword, passed_mark,
};
use og_clex::{Keyword, Mark, Token};
use og_csubset::{CFunction, CGlobal, CMember, CProgram, CStruct, CType};
use og_names::{NoMemory, Word};
use sqlite_items::Items;
use std::alloc::Global;

/// The program that these tokens are, in time linear in their number.
#[tactic(auto, using(crate::proofs::Programs::tree_is_program, crate::proofs::Programs::program_has_tree))]
pub fn program_of(alloc: Global, tokens: &[Token]) -> Result<CProgram, NoMemory>
    requires { IsSomeProgram (tokens_view tokens.now) }
    ensures { IfOk result (λ program. IsProgram program (tokens_view tokens.now)) }
{
    match whole_of(alloc, tokens) {
        Ok(program) => Ok(program),
        Err(TreeError::NoMemory(met)) => Err(met),
        Err(TreeError::NoTree) => unreachable!(),
    }
}

/// The tree of all of the tokens.
#[tactic(auto, using(crate::proofs::Turns::not_whole), unfolding(crate::specs::Trees::tree_of))]
fn whole_of(alloc: Global, tokens: &[Token]) -> Result<CProgram, TreeError>
    ensures { Gives (λ x. x) result (tree_of (tokens_view tokens.now)) }
{
    let (program, rest) = parts_of(alloc, tokens.len(), tokens)?;
    match rest {
        [] => Ok(program),
        [_, ..] => Err(TreeError::NoTree),
    }
}

/// Structs, globals, events and functions, in this order.
#[tactic(auto, unfolding(crate::specs::Trees::program_front))]
fn parts_of(
    alloc: Global,
    depth: usize,
    tokens: &[Token],
) -> Result<(CProgram, &[Token]), TreeError>
    ensures { Gives (λ x. (x.0, tokens_view x.1.now)) result (program_front depth (tokens_view tokens.now)) }
{
    let (structs, rest) = structs_of(alloc, depth, tokens)?;
    let (globals, rest) = globals_of(alloc, depth, rest)?;
    let (events, rest) = events_of(alloc, depth, rest)?;
    let (functions, rest) = functions_of(alloc, depth, rest)?;
    let program = CProgram {
        structs,
        globals,
        events,
        functions,
    };
    Ok((program, rest))
}

/// The structs in front.
#[tactic(auto, using(crate::proofs::Turns::turns))]
fn structs_of(
    alloc: Global,
    depth: usize,
    tokens: &[Token],
) -> Result<(Items<CStruct>, &[Token]), TreeError>
    ensures { Gives (λ x. (x.0, tokens_view x.1.now)) result (each_at (struct_front depth) depth (tokens_view tokens.now)) }
{
    let mut structs = Items::new(alloc);
    let mut rest = tokens;
    for _ in 0..depth {
        match struct_of(alloc, depth, rest) {
            Ok((one, behind)) => {
                structs.push(one)?;
                rest = behind;
            }
            Err(TreeError::NoTree) => return Ok((structs, rest)),
            Err(TreeError::NoMemory(met)) => return Err(TreeError::NoMemory(met)),
        }
    }
    Ok((structs, rest))
}

/// A struct type (C99 6.7.2.1): typedef struct { members } name ;
#[tactic(auto, unfolding(crate::specs::Trees::struct_front))]
fn struct_of(
    alloc: Global,
    depth: usize,
    tokens: &[Token],
) -> Result<(CStruct, &[Token]), TreeError>
    ensures { Gives (λ x. (x.0, tokens_view x.1.now)) result (struct_front depth (tokens_view tokens.now)) }
{
    let rest = keyword_of(Keyword::Typedef, tokens)?;
    let rest = keyword_of(Keyword::Struct, rest)?;
    let rest = mark_of(Mark::OpenBrace, rest)?;
    let (members, rest) = some_members_of(alloc, depth, rest)?;
    let rest = mark_of(Mark::CloseBrace, rest)?;
    let (name, rest) = label_of(alloc, rest)?;
    Ok((CStruct { name, members }, rest))
}

/// The members in front, of which there is one at least.
#[tactic(auto, unfolding(crate::specs::Trees::members_front))]
fn some_members_of(
    alloc: Global,
    depth: usize,
    tokens: &[Token],
) -> Result<(Items<CMember>, &[Token]), TreeError>
    ensures { Gives (λ x. (x.0, tokens_view x.1.now)) result (members_front depth (tokens_view tokens.now)) }
{
    let (members, rest) = members_of(alloc, depth, tokens)?;
    match members.as_slice() {
        [] => Err(TreeError::NoTree),
        [_, ..] => Ok((members, rest)),
    }
}

/// The members in front.
#[tactic(auto, using(crate::proofs::Turns::turns))]
fn members_of(
    alloc: Global,
    turns: usize,
    tokens: &[Token],
) -> Result<(Items<CMember>, &[Token]), TreeError>
    ensures { Gives (λ x. (x.0, tokens_view x.1.now)) result (each_at member_front turns (tokens_view tokens.now)) }
{
    let mut members = Items::new(alloc);
    let mut rest = tokens;
    for _ in 0..turns {
        match member_of(alloc, rest) {
            Ok((member, behind)) => {
                members.push(member)?;
                rest = behind;
            }
            Err(TreeError::NoTree) => return Ok((members, rest)),
            Err(TreeError::NoMemory(met)) => return Err(TreeError::NoMemory(met)),
        }
    }
    Ok((members, rest))
}

/// A member: type name ; or type name [ size ] ;
#[tactic(auto, unfolding(crate::specs::Trees::member_front))]
fn member_of(alloc: Global, tokens: &[Token]) -> Result<(CMember, &[Token]), TreeError>
    ensures { Gives (λ x. (x.0, tokens_view x.1.now)) result (member_front (tokens_view tokens.now)) }
{
    let (kind, rest) = type_of(alloc, tokens)?;
    let (name, rest) = name_of(alloc, rest)?;
    let Some((size, rest)) = size_of(rest) else {
        return Err(TreeError::NoTree);
    };
    let rest = mark_of(Mark::Semicolon, rest)?;
    Ok((CMember { kind, name, size }, rest))
}

/// The size of an array, from 1 to 65,536, where there is one.
#[tactic(auto, unfolding(crate::specs::Trees::size_front))]
fn size_of(tokens: &[Token]) -> Option<(Option<u32>, &[Token])>
    ensures { option_map (λ p. (p.0, tokens_view p.1.now)) result ≡ size_front (tokens_view tokens.now) }
{
    let Some(behind) = passed_mark(Mark::OpenSquare, tokens) else {
        return Some((None, tokens));
    };
    let (size, rest) = digits_of(behind)?;
    if size == 0 || size > 65536 {
        return None;
    }
    let rest = passed_mark(Mark::CloseSquare, rest)?;
    Some((Some(size as u32), rest))
}

/// int64_t, or the name of a struct type.
#[tactic(auto, unfolding(crate::specs::Trees::type_front))]
fn type_of(alloc: Global, tokens: &[Token]) -> Result<(CType, &[Token]), TreeError>
    ensures { Gives (λ x. (x.0, tokens_view x.1.now)) result (type_front (tokens_view tokens.now)) }
{
    if let Some(rest) = passed_keyword(Keyword::Int64Type, tokens) {
        return Ok((CType::Int64, rest));
    }
    let (name, rest) = name_of(alloc, tokens)?;
    Ok((CType::Struct(name), rest))
}

/// The globals in front.
#[tactic(auto, using(crate::proofs::Turns::turns))]
fn globals_of(
    alloc: Global,
    turns: usize,
    tokens: &[Token],
) -> Result<(Items<CGlobal>, &[Token]), TreeError>
    ensures { Gives (λ x. (x.0, tokens_view x.1.now)) result (each_at global_front turns (tokens_view tokens.now)) }
{
    let mut globals = Items::new(alloc);
    let mut rest = tokens;
    for _ in 0..turns {
        match global_of(alloc, rest) {
            Ok((global, behind)) => {
                globals.push(global)?;
                rest = behind;
            }
            Err(TreeError::NoTree) => return Ok((globals, rest)),
            Err(TreeError::NoMemory(met)) => return Err(TreeError::NoMemory(met)),
        }
    }
    Ok((globals, rest))
}

/// A global: type name ;
#[tactic(auto, unfolding(crate::specs::Trees::global_front))]
fn global_of(alloc: Global, tokens: &[Token]) -> Result<(CGlobal, &[Token]), TreeError>
    ensures { Gives (λ x. (x.0, tokens_view x.1.now)) result (global_front (tokens_view tokens.now)) }
{
    let (kind, rest) = type_of(alloc, tokens)?;
    let (name, rest) = label_of(alloc, rest)?;
    Ok((CGlobal { kind, name }, rest))
}

/// The events in front.
#[tactic(auto, using(crate::proofs::Turns::turns))]
fn events_of(
    alloc: Global,
    turns: usize,
    tokens: &[Token],
) -> Result<(Items<Word>, &[Token]), TreeError>
    ensures { Gives (λ x. (x.0, tokens_view x.1.now)) result (each_at event_front turns (tokens_view tokens.now)) }
{
    let mut events = Items::new(alloc);
    let mut rest = tokens;
    for _ in 0..turns {
        match event_of(alloc, rest) {
            Ok((event, behind)) => {
                events.push(event)?;
                rest = behind;
            }
            Err(TreeError::NoTree) => return Ok((events, rest)),
            Err(TreeError::NoMemory(met)) => return Err(TreeError::NoMemory(met)),
        }
    }
    Ok((events, rest))
}

/// An event: void name ( void ) ;
#[tactic(auto, unfolding(crate::specs::Trees::event_front))]
fn event_of(alloc: Global, tokens: &[Token]) -> Result<(Word, &[Token]), TreeError>
    ensures { Gives (λ x. (x.0, tokens_view x.1.now)) result (event_front (tokens_view tokens.now)) }
{
    let (name, rest) = head_of(alloc, tokens)?;
    let rest = mark_of(Mark::Semicolon, rest)?;
    Ok((name, rest))
}

/// void name ( void )
#[tactic(auto, unfolding(crate::specs::Trees::head_front))]
fn head_of(alloc: Global, tokens: &[Token]) -> Result<(Word, &[Token]), TreeError>
    ensures { Gives (λ x. (x.0.bytes, tokens_view x.1.now)) result (head_front (tokens_view tokens.now)) }
{
    let rest = keyword_of(Keyword::Void, tokens)?;
    let (name, rest) = name_of(alloc, rest)?;
    let rest = mark_of(Mark::OpenRound, rest)?;
    let rest = keyword_of(Keyword::Void, rest)?;
    let rest = mark_of(Mark::CloseRound, rest)?;
    Ok((name, rest))
}

/// The functions in front.
#[tactic(auto, using(crate::proofs::Turns::turns))]
fn functions_of(
    alloc: Global,
    depth: usize,
    tokens: &[Token],
) -> Result<(Items<CFunction>, &[Token]), TreeError>
    ensures { Gives (λ x. (x.0, tokens_view x.1.now)) result (each_at (function_front depth) depth (tokens_view tokens.now)) }
{
    let mut functions = Items::new(alloc);
    let mut rest = tokens;
    for _ in 0..depth {
        match function_of(alloc, depth, rest) {
            Ok((function, behind)) => {
                functions.push(function)?;
                rest = behind;
            }
            Err(TreeError::NoTree) => return Ok((functions, rest)),
            Err(TreeError::NoMemory(met)) => return Err(TreeError::NoMemory(met)),
        }
    }
    Ok((functions, rest))
}

/// A function (C99 6.9.1): void name ( void ) { statements }
#[tactic(auto, unfolding(crate::specs::Trees::function_front))]
fn function_of(
    alloc: Global,
    depth: usize,
    tokens: &[Token],
) -> Result<(CFunction, &[Token]), TreeError>
    ensures { Gives (λ x. (x.0, tokens_view x.1.now)) result (function_front depth (tokens_view tokens.now)) }
{
    let (name, rest) = head_of(alloc, tokens)?;
    let rest = mark_of(Mark::OpenBrace, rest)?;
    let (body, rest) = statements_of(alloc, depth, rest)?;
    let rest = mark_of(Mark::CloseBrace, rest)?;
    Ok((CFunction { name, body }, rest))
}

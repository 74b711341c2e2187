//! What the names of a program stand for (C99 6.2.5).
#![tactic(auto, using(og_names::proofs::Loops::loops, crate::proofs::Places::places))]

ghost use Rattle.std.specs.Prelude.{◌≡◌, Some, None, map, ℕ, ◌+◌};
ghost use Rattle.std.specs.List.{find};
ghost use Rattle.std.specs.Option.{option_copied, option_map};
ghost use Rattle.std.specs.Str.{bytes_eq};
ghost use Rattle.og_csubset.specs.Kinds.{same_type, type_of_one as type_of_one_in, members_of as members_of_type, member_in as member_among, member_of as member_of_kind, element_of as element_of_kind, global_kind as kind_of_global};
ghost use Rattle.og_cload.specs.Held.{kind_of, place_of};

use og_csubset::{CGlobal, CMember, CProgram, CStruct, CType};

/// What stands at a place: one of a type, or an array of so many of it.
#[derive(Clone, Copy)]
pub struct Held<'a> {
    pub of: &'a CType,
    pub size: Option<u32>,
}

/// Both types are the same.
pub fn is_same_type(left: &CType, right: &CType) -> bool
    ensures { result ≡ same_type left.now right.now }
{
    match left {
        CType::Int64 => match right {
            CType::Int64 => true,
            CType::Struct(_) => false,
        },
        CType::Struct(name) => match right {
            CType::Int64 => false,
            CType::Struct(other) => name.bytes.as_slice() == other.bytes.as_slice(),
        },
    }
}

/// The type of a place that is no array.
pub fn type_of_one<'a>(held: Held<'a>) -> Option<&'a CType>
    ensures { option_copied result ≡ type_of_one_in (kind_of held.entry) }
{
    match held.size {
        None => Some(held.of),
        Some(_) => None,
    }
}

fn struct_named<'a>(structs: &'a [CStruct], name: &[u8]) -> Option<&'a CStruct>
    ensures { option_copied result ≡ find (λ s. bytes_eq name.now s.name.bytes) structs.now }
{
    for one in structs {
        if name == one.name.bytes.as_slice() {
            return Some(one);
        }
    }
    None
}

/// The members of a struct type.
pub fn members_of<'a>(structs: &'a [CStruct], kind: &CType) -> Option<&'a [CMember]>
    ensures { option_copied result ≡ members_of_type structs.now kind.now }
{
    match kind {
        CType::Int64 => None,
        CType::Struct(name) => {
            let found = struct_named(structs, name.bytes.as_slice())?;
            Some(found.members.as_slice())
        }
    }
}

/// The place of a member, and what it is.
pub fn member_in<'a>(name: &[u8], members: &'a [CMember]) -> Option<(usize, Held<'a>)>
    ensures { option_map place_of result ≡ member_among name.now members.now }
{
    for (place, member) in members.iter().enumerate() {
        if name == member.name.bytes.as_slice() {
            let held = Held {
                of: &member.kind,
                size: member.size,
            };
            return Some((place, held));
        }
    }
    None
}

/// The same of what a place holds.
pub fn member_of<'a>(
    structs: &'a [CStruct],
    held: Held<'a>,
    name: &[u8],
) -> Option<(usize, Held<'a>)>
    ensures { option_map place_of result ≡ member_of_kind structs.now (kind_of held.entry) name.now }
{
    let kind = type_of_one(held)?;
    let members = members_of(structs, kind)?;
    member_in(name, members)
}

/// What an element of an array is.
pub fn element_of<'a>(held: Held<'a>) -> Option<Held<'a>>
    ensures { option_map kind_of result ≡ element_of_kind (kind_of held.entry) }
{
    match held.size {
        None => None,
        Some(_) => Some(Held {
            of: held.of,
            size: None,
        }),
    }
}

fn global_named<'a>(globals: &'a [CGlobal], name: &[u8]) -> Option<&'a CGlobal>
    ensures { option_copied result ≡ find (λ g. bytes_eq name.now g.name.bytes) globals.now }
{
    for global in globals {
        if name == global.name.bytes.as_slice() {
            return Some(global);
        }
    }
    None
}

/// What a global is.
pub fn global_kind<'a>(program: &'a CProgram, name: &[u8]) -> Option<Held<'a>>
    ensures { option_map kind_of result ≡ kind_of_global program.now name.now }
{
    let global = global_named(program.globals.as_slice(), name)?;
    Some(Held {
        of: &global.kind,
        size: None,
    })
}

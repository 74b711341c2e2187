//! The scope of all modules together: which types and constants names stand for.
ghost use Rattle.std.specs.Prelude.{◌≡◌, ℕ, suc, length, map, IfOk};
ghost use Rattle.og_dataview.specs.Scope.{key, type_keys, constant_keys, find_type, find_constant};
ghost use Rattle.og_dataview.specs.Following.{node_of, next_type, is_integer_type};
ghost use Rattle.og_dataview.specs.Index.{IsIndex};
ghost use Rattle.og_dataview.specs.Ways.{Leads, step_in};

use crate::counting::counted;
use crate::index::Index;
use crate::known::is_integer;
use crate::ways::{next_in, walked};
use og_asn1::Name;
use og_flat::{ConstantNode, Flat, Node, TypeNode};
use og_names::NoMemory;
use std::alloc::Global;

/// What modules declare, with an index of its names, and the type at which each way along references ends.
#[derive(Drop)]
pub struct Scope {
    pub flat: Flat,
    pub types: Index,
    pub constants: Index,
    pub ends: Vec<u32>,
    pub ghost finds_types: { IsIndex (type_keys flat) types },
    pub ghost finds_constants: { IsIndex (constant_keys flat) constants },
    pub ghost leads: { Leads (next_type flat) (suc (length flat.types)) ends.items },
}

impl Scope {
    /// The scope of these declarations.
    pub fn new(alloc: Global, flat: Flat) -> Result<Scope, NoMemory>
        ensures { IfOk result (λ scope. scope.flat ≡ flat) }
    {
        let types = types_of(alloc, flat.types.as_slice())?;
        let constants = constants_of(alloc, flat.constants.as_slice())?;
        let ends = ends_of(alloc, &flat, &types)?;
        Ok(Scope {
            flat,
            types,
            constants,
            ends,
        })
    }

    /// The first declared type of this name, by its place among those declared.
    pub fn find_type(&self, name: &Name) -> Option<u32>
        ensures { result ≡ find_type self.now.flat name.now }
    {
        self.types.find(name)
    }

    /// The first declared constant of this name, by its place among those declared.
    pub fn find_constant(&self, name: &Name) -> Option<u32>
        ensures { result ≡ find_constant self.now.flat name.now }
    {
        self.constants.find(name)
    }

    /// Whether a type is INTEGER when all references are followed.
    pub fn is_integer_type(&self, place: u32) -> bool
        ensures { result ≡ is_integer_type self.now.flat place }
    {
        let end = next_in(self.ends.as_slice(), place);
        match self.flat.nodes.get(end as usize) {
            Some(Node::Integer { .. }) => true,
            Some(Node::Reference { name, .. }) => {
                self.find_type(name).is_none() && is_integer(name)
            }
            _ => false,
        }
    }
}

fn types_of(alloc: Global, types: &[TypeNode]) -> Result<Index, NoMemory>
    ensures { IfOk result (λ index. IsIndex (map (λ t. key t.name) types.now) index) }
{
    let count = counted(types.len())?;
    let mut index = Index::new(alloc);
    for place in 0..count {
        index.add(&types[place as usize].name, place)?;
    }
    Ok(index)
}

fn constants_of(alloc: Global, constants: &[ConstantNode]) -> Result<Index, NoMemory>
    ensures { IfOk result (λ index. IsIndex (map (λ c. key c.name) constants.now) index) }
{
    let count = counted(constants.len())?;
    let mut index = Index::new(alloc);
    for place in 0..count {
        index.add(&constants[place as usize].name, place)?;
    }
    Ok(index)
}

/// The type at which each way along references ends.
fn ends_of(alloc: Global, flat: &Flat, types: &Index) -> Result<Vec<u32>, NoMemory>
    requires { IsIndex (type_keys flat.now) types.now }
    ensures { IfOk result (λ ends. Leads (next_type flat.now) (suc (length flat.now.types)) ends.items) }
{
    let steps = counted(flat.types.len())?;
    let nexts = next_types(alloc, flat, types)?;
    let ends = walked(alloc, nexts.as_slice(), steps as usize + 1)?;
    Ok(ends)
}

/// The type to which each reference leads. Each other type leads to itself.
pub fn next_types(alloc: Global, flat: &Flat, types: &Index) -> Result<Vec<u32>, NoMemory>
    requires { IsIndex (type_keys flat.now) types.now }
    ensures each { IfOk result (λ nexts. (p : ℕ) → step_in nexts.items p ≡ next_type flat.now p) }
    ensures length { IfOk result (λ nexts. length nexts.items ≡ length flat.now.nodes) }
{
    let count = counted(flat.nodes.len())?;
    let mut nexts = Vec::new(alloc);
    for place in 0..count {
        nexts.push(next_type(flat, types, place))?;
    }
    Ok(nexts)
}

/// The type to which a reference leads. Another type leads to itself.
fn next_type(flat: &Flat, types: &Index, place: u32) -> u32
    requires { IsIndex (type_keys flat.now) types.now }
    ensures { result ≡ next_type flat.now place }
{
    match flat.nodes.get(place as usize) {
        Some(Node::Reference { name, .. }) => node_of(flat, types, name).unwrap_or(place),
        _ => place,
    }
}

/// The declared type that a name stands for.
pub fn node_of(flat: &Flat, types: &Index, name: &Name) -> Option<u32>
    requires { IsIndex (type_keys flat.now) types.now }
    ensures { result ≡ node_of flat.now name.now }
{
    let place = types.find(name)?;
    let declared = flat.types.get(place as usize)?;
    Some(declared.node)
}

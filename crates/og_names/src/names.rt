ghost use Rattle.std.specs.Prelude.{◌≡◌, ◌+◌, ◌-◌, ◌^◌, ◌<◌, ◌≤◌, [], Some, length, slice_get, take, IfOk, OnErr};
ghost use Rattle.std.specs.Option.{option_copied, option_map};
ghost use Rattle.og_names.specs.Folding.{fold_byte as folded_byte, folded, place_of, with_name};
ghost use Rattle.og_names.specs.Table.{IsTable};

use crate::{NameId, NoMemory};
use indexmap::IndexSet;
use std::alloc::Global;
use std::marker::Model;

/// The most bytes that a name may have.
const LONGEST: usize = 64;

/// The folded names so far, each once, in the order of their first appearance. The number of a name is its place there.
#[derive(Drop)]
pub struct Names {
    set: IndexSet<Vec<u8>>,
    alloc: Global,
}

impl Model for Names {
    ghost use Rattle.std.specs.Prelude.{ℕ, List, map};
    ghost use Rattle.std.specs.Coded.{coded_list, coded_ℕ};
    ghost use Rattle.og_names.specs.Table.{IsTable};

    ghost Value = { List (List ℕ) };

    ghost coded = { coded_list (coded_list coded_ℕ) };

    ghost view = { λ n. map (λ word. word.items) n.set.keys };

    ghost invariant = { λ n. IsTable (map (λ word. word.items) n.set.keys) };
}

/// A byte in the form in which names are compared.
fn fold_byte(byte: u8) -> u8
    ensures { result ≡ folded_byte byte }
{
    match byte {
        b'A'..=b'Z' => byte + 32,
        b'-' => b'_',
        _ => byte,
    }
}

/// The folded form of a name.
fn fold_name(alloc: Global, name: &[u8]) -> Result<Vec<u8>, NoMemory>
    ensures { IfOk result (λ word. word.items ≡ folded name.now) }
{
    Ok(name.iter().map(|byte| fold_byte(*byte)).collect(alloc)?)
}

/// Writes the folded form of a name to the front of `room`.
fn fold_into(name: &[u8], room: &mut [u8])
    requires { length name.now ≤ length room.old }
    ensures { take (length name.now) room.new ≡ folded name.now }
{
    for (i, byte) in name.iter().enumerate() {
        room[i] = fold_byte(*byte);
    }
}

impl Names {
    /// A table without names.
    pub fn new(alloc: Global) -> Names
        ensures { result ≡ [] }
    {
        Names {
            set: IndexSet::new(alloc),
            alloc,
        }
    }

    /// How many names there are. What every table keeps is said here for callers.
    pub fn len(&self) -> usize
        ensures value { result ≡ length self.now }
        ensures table { IsTable self.now }
    {
        self.set.len()
    }

    /// Gives a name its number: a new one the next, a known one its own.
    pub fn add(&mut self, name: &[u8]) -> Result<NameId, NoMemory>
        requires short { length name.now ≤ 64 }
        requires few { length self.old < 2 ^ 32 - 1 }
        ensures added { IfOk result (λ id. self.new ≡ with_name self.old (folded name.now)) }
        ensures number { IfOk result (λ id. place_of self.new (folded name.now) ≡ Some id.0) }
        ensures refused { OnErr result (self.new ≡ self.old) }
    {
        let word = fold_name(self.alloc, name)?;
        let (place, _) = self.set.insert_full(word)?;
        Ok(NameId(place as u32))
    }

    /// The number of a name, where it has one.
    pub fn find(&self, name: &[u8]) -> Option<NameId>
        ensures { option_map (λ id. id.0) result ≡ place_of self.now (folded name.now) }
    {
        let set = &self.set;
        if name.len() > LONGEST {
            return None;
        }
        let mut room = [0; LONGEST];
        fold_into(name, &mut room);
        let (word, _) = room.split_at(name.len());
        let place = set.get_index_of(word)?;
        Some(NameId(place as u32))
    }

    /// The folded name that has this number.
    pub fn text(&self, id: NameId) -> Option<&[u8]>
        ensures { option_copied result ≡ slice_get self.now id.0 }
    {
        let word = self.set.get_index(id.0 as usize)?;
        Some(word.as_slice())
    }

    /// The same names with the same numbers.
    pub fn copy(&self, alloc: Global) -> Result<Names, NoMemory>
        ensures { IfOk result (λ names. names ≡ self.now) }
    {
        let mut set = IndexSet::new(alloc);
        for word in self.set.as_slice() {
            let copied = Vec::from_slice(alloc, word.as_slice())?;
            set.insert(copied)?;
        }
        Ok(Names { set, alloc })
    }
}

//! Where names are declared: an index by folded names, which finds the first declaration of a name.
ghost use Rattle.std.specs.Prelude.{◌≡◌, ◌∷◌, [], ◌++◌, List, ℕ, length, Some, IfOk, OnOk, OnErr};
ghost use Rattle.og_names.specs.Folding.{place_of, with_name};
ghost use Rattle.og_dataview.specs.Scope.{key};
ghost use Rattle.og_dataview.specs.Index.{IsIndex};
ghost use Rattle.og_dataview.specs.Naming.{IsFront};

use og_asn1::Name;
use og_names::{Names, NoMemory};
use std::alloc::Global;

/// The place of the first declaration of each folded name.
#[derive(Drop)]
pub struct Index {
    pub names: Names,
    pub firsts: Vec<u32>,
}

impl Index {
    /// An index without names.
    pub fn new(alloc: Global) -> Index
        ensures { IsIndex [] result }
    {
        Index {
            names: Names::new(alloc),
            firsts: Vec::new(alloc),
        }
    }

    /// Adds the name that is declared at this place, behind all others.
    #[tactic(auto, using(crate::proofs::Indexing::index_pushed, crate::proofs::Indexing::index_kept))]
    pub fn add(&mut self, name: &Name, at: u32) -> Result<(), NoMemory>
        ensures { OnOk result ((keys : List (List ℕ)) → IsIndex keys self.old → at ≡ length keys → IsIndex (keys ++ key name.now ∷ []) self.new) }
    {
        let id = add_name(&mut self.names, name)?;
        if id as usize == self.firsts.len() {
            self.firsts.push(at)?;
        }
        Ok(())
    }

    /// The place of the first declaration of the name.
    pub fn find(&self, name: &Name) -> Option<u32>
        ensures { (keys : List (List ℕ)) → IsIndex keys self.now → result ≡ place_of keys (key name.now) }
    {
        let id = self.names.find(name.word.bytes.as_slice())?;
        self.firsts.get(id.0 as usize).copied()
    }
}

/// Gives a name its number in a table: a new one the next, a known one its own.
#[tactic(auto, using(crate::proofs::Short::short, crate::proofs::Adding::front_equal, crate::proofs::Adding::front_name))]
pub fn add_name(names: &mut Names, name: &Name) -> Result<u32, NoMemory>
    ensures added { OnOk result (names.new ≡ with_name names.old (key name.now)) }
    ensures number { IfOk result (λ id. place_of names.new (key name.now) ≡ Some id) }
    ensures refused { OnErr result (names.new ≡ names.old) }
    ensures front { IsFront names.old names.new }
{
    let count = names.len();
    if count >= u32::MAX as usize {
        return Err(NoMemory::past_numbers(count));
    }
    let id = names.add(name.word.bytes.as_slice())?;
    Ok(id.0)
}

//! N2 and N7: names, and numbers of enumerators, that were met before in the same list.
ghost use Rattle.std.specs.Prelude.{◌≡◌, ◌∷◌, [], ◌++◌, ◌||◌, List, ℤ, ℕ, map, not, IfOk, OnOk};
ghost use Rattle.std.specs.Str.{bytes_eq};
ghost use Rattle.og_asn1.specs.declared.syntax.Name.{Name};
ghost use Rattle.og_base.specs.Order.{first_from};
ghost use Rattle.og_dataview.specs.Following.{as_number};
ghost use Rattle.og_dataview.specs.Violations.{repeated, repeated_names, given, given_again, repeated_numbers};
ghost use Rattle.og_dataview.specs.Met.{has_word, IsMet, AreMet};

use crate::index::add_name;
use crate::notes::note_if;
use crate::numbers::signed;
use indexmap::IndexSet;
use og_asn1::Name;
use og_base::{Rule, Violation};
use og_flat::{ConstantNode, Enumerator, PartNode, TypeNode, Written};
use og_names::{Names, NoMemory};
use std::alloc::Global;
use std::marker::Model;

/// What is declared by a name.
pub trait Declared {
    ghost name_of: { Self → Name };

    fn name(&self) -> &Name
        ensures { result.now ≡ name_of self.now };
}

impl Declared for TypeNode {
    ghost name_of = { λ t. t.name };

    fn name(&self) -> &Name {
        &self.name
    }
}

impl Declared for ConstantNode {
    ghost name_of = { λ c. c.name };

    fn name(&self) -> &Name {
        &self.name
    }
}

impl Declared for PartNode {
    ghost name_of = { λ p. p.name };

    fn name(&self) -> &Name {
        &self.name
    }
}

impl Declared for Enumerator {
    ghost name_of = { λ e. e.name };

    fn name(&self) -> &Name {
        &self.name
    }
}

/// Names that were met, as they are spelt and as they are compared.
#[derive(Drop)]
pub struct Met {
    pub spelt: Spellings,
    pub folded: Names,
}

/// Spellings of names.
#[derive(Drop)]
pub struct Spellings {
    set: IndexSet<Vec<u8>>,
}

impl Model for Spellings {
    ghost use Rattle.std.specs.Prelude.{ℕ, List, map};

    ghost Value = { List (List ℕ) };

    ghost view = { λ s. map (λ word. word.items) s.set.keys };
}

impl Spellings {
    fn new(alloc: Global) -> Spellings
        ensures { result ≡ [] }
    {
        Spellings {
            set: IndexSet::new(alloc),
        }
    }

    /// Adds a spelling, and says whether it is a new one.
    fn add(&mut self, alloc: Global, name: &Name) -> Result<bool, NoMemory>
        ensures new { IfOk result (λ is_new. is_new ≡ not (has_word self.old name.now.word.bytes)) }
        ensures more { OnOk result ((bytes : List ℕ) → has_word self.new bytes ≡ (has_word self.old bytes || bytes_eq bytes name.now.word.bytes)) }
    {
        let spelling = spelling_of(alloc, name)?;
        let (_, is_new) = self.set.insert_full(spelling)?;
        Ok(is_new)
    }
}

/// The bytes of a name.
fn spelling_of(alloc: Global, name: &Name) -> Result<Vec<u8>, NoMemory>
    ensures { IfOk result (λ word. word.items ≡ name.now.word.bytes) }
{
    let word = Vec::from_slice(alloc, name.word.bytes.as_slice())?;
    Ok(word)
}

/// The first violation among names of one list, where a name is spelt like an earlier one, or folds like one.
#[tactic(auto, using(crate::proofs::Meeting::meetings))]
pub fn note_repeated_names<T: Declared>(
    alloc: Global,
    declared: &[T],
    first: &mut Option<Violation>,
) -> Result<(), NoMemory>
    ensures { OnOk result (first.new ≡ first_from first.old (repeated_names (map T.name_of declared.now))) }
{
    let mut met = Met {
        spelt: Spellings::new(alloc),
        folded: Names::new(alloc),
    };
    for one in declared {
        note_repeated(alloc, &mut met, one.name(), first)?;
    }
    Ok(())
}

/// N2 or N7 at a name that was met before. The name is met from here on.
#[tactic(auto, using(crate::proofs::Meeting::met_more, crate::proofs::Meeting::noted_old, crate::proofs::Meeting::noted_new))]
fn note_repeated(
    alloc: Global,
    met: &mut Met,
    name: &Name,
    first: &mut Option<Violation>,
) -> Result<(), NoMemory>
    ensures first { OnOk result ((earlier : List Name) → IsMet earlier met.old → first.new ≡ first_from first.old (repeated earlier name.now)) }
    ensures met { OnOk result ((earlier : List Name) → IsMet earlier met.old → IsMet (earlier ++ name.now ∷ []) met.new) }
{
    let bytes = name.word.bytes.as_slice();
    let folds = met.folded.find(bytes).is_some();
    let is_new = met.spelt.add(alloc, name)?;
    add_name(&mut met.folded, name)?;
    if is_new {
        note_if(folds, Rule::N7, name, first);
    } else {
        note_if(true, Rule::N2, name, first);
    }
    Ok(())
}

/// N2 at enumerators with a number that an earlier one has.
#[tactic(auto, using(crate::proofs::Meeting::countings))]
pub fn note_repeated_numbers(
    alloc: Global,
    items: &[Enumerator],
    first: &mut Option<Violation>,
) -> Result<(), NoMemory>
    ensures { OnOk result (first.new ≡ first_from first.old (repeated_numbers items.now)) }
{
    let mut numbers = IndexSet::new(alloc);
    for item in items {
        note_given_again(&mut numbers, item, first)?;
    }
    Ok(())
}

fn note_given_again(
    numbers: &mut IndexSet<i128>,
    item: &Enumerator,
    first: &mut Option<Violation>,
) -> Result<(), NoMemory>
    ensures first { OnOk result ((earlier : List ℤ) → AreMet earlier numbers.old.keys → first.new ≡ first_from first.old (given_again earlier item.now)) }
    ensures met { OnOk result ((earlier : List ℤ) → AreMet earlier numbers.old.keys → AreMet (earlier ++ given item.now) numbers.new.keys) }
{
    let Some(number) = item.number else {
        return Ok(());
    };
    let (_, is_new) = numbers.insert_full(as_number(number))?;
    note_if(!is_new, Rule::N2, &item.name, first);
    Ok(())
}

/// The number that is written.
pub fn as_number(number: Written) -> i128
    ensures { result ≡ as_number number }
{
    signed(number.is_negative, number.digits)
}

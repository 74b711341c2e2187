//! The numbers of enumerators (X.680 clause 20): those without a written one take the least that are not written.
ghost use Rattle.std.specs.Prelude.{◌≡◌, ◌+◌, ◌-◌, ◌^◌, ◌≤◌, ◌<◌, ◌∷◌, ◌++◌, true, ℕ, List, ℤ, pos, IfOk, OnOk, length, map};
ghost use Rattle.std.specs.List.{list_all, flat_map};
ghost use Rattle.og_types.specs.Table.{in_64_bits};
ghost use Rattle.og_dataview.specs.Met.{AreMet};
ghost use Rattle.og_dataview.specs.Violations.{given, is_given};
ghost use Rattle.og_dataview.specs.View.{least_free, numbers_by, enumerator_numbers};
ghost use Rattle.og_datatypes.specs.Kept.{in_64_bits_or_0};

use indexmap::IndexSet;
use og_dataview::{as_number, counted, within_64_bits};
use og_flat::Enumerator;
use og_names::NoMemory;
use sqlite_items::Items;
use std::alloc::Global;

/// The numbers that are written, and how many there are.
#[derive(Drop)]
struct Given {
    numbers: IndexSet<i128>,
    count: u32,
}

/// The number of each enumerator, where all that are written lie in 64 bits.
#[tactic(auto, using(crate::proofs::Free::all_fit, crate::proofs::Free::few_numbers))]
pub fn enumerator_numbers(alloc: Global, items: &[Enumerator]) -> Result<Items<i64>, NoMemory>
    ensures numbers { IfOk result (λ numbers. list_all in_64_bits (flat_map given items.now) ≡ true → numbers ≡ enumerator_numbers items.now) }
    ensures few { IfOk result (λ numbers. length numbers < 2 ^ 32) }
{
    let written = given_in(alloc, items)?;
    let numbers = numbers_of(alloc, &written, items)?;
    Ok(numbers)
}

/// The numbers that are written.
#[tactic(auto, using(crate::proofs::Free::givens))]
fn given_in(alloc: Global, items: &[Enumerator]) -> Result<Given, NoMemory>
    ensures numbers { IfOk result (λ given_there. AreMet (flat_map given items.now) given_there.numbers.keys) }
    ensures count { IfOk result (λ given_there. given_there.count ≡ length (flat_map given items.now)) }
{
    let _count = counted(items.len())?;
    let mut written = Given {
        numbers: IndexSet::new(alloc),
        count: 0,
    };
    for item in items {
        note_given(&mut written, item)?;
    }
    Ok(written)
}

fn note_given(so_far: &mut Given, item: &Enumerator) -> Result<(), NoMemory>
    requires { so_far.old.count < 2 ^ 32 - 1 }
    ensures numbers { OnOk result ((earlier : List ℤ) → AreMet earlier so_far.old.numbers.keys → AreMet (earlier ++ given item.now) so_far.new.numbers.keys) }
    ensures count { OnOk result (so_far.new.count ≡ so_far.old.count + length (given item.now)) }
    ensures one { so_far.new.count ≤ so_far.old.count + 1 }
{
    if let Some(number) = item.number {
        so_far.numbers.insert(as_number(number))?;
        so_far.count += 1;
    }
    Ok(())
}

/// The numbers of enumerators, where those that are written are known. One that does not lie in 64 bits is 0.
#[tactic(auto, using(crate::proofs::Free::numberings))]
fn numbers_of(alloc: Global, written: &Given, items: &[Enumerator]) -> Result<Items<i64>, NoMemory>
    requires numbers { AreMet (flat_map given items.now) written.now.numbers.keys }
    requires count { written.now.count ≡ length (flat_map given items.now) }
    ensures numbers { IfOk result (λ numbers. numbers ≡ map in_64_bits_or_0 (enumerator_numbers items.now)) }
    ensures few { OnOk result (length items.now < 2 ^ 32) }
{
    let _count = counted(items.len())?;
    let mut numbers = Items::new(alloc);
    let mut next: u128 = 0;
    for item in items {
        let number = next_number(written, item, &mut next);
        numbers.push(clipped(number))?;
    }
    Ok(numbers)
}

/// The number, or 0 for one that does not lie in 64 bits.
fn clipped(number: i128) -> i64
    ensures { result ≡ in_64_bits_or_0 number }
{
    match within_64_bits(number) {
        Some(number) => number,
        None => 0,
    }
}

/// The number of an enumerator, where those without a written number go on from here.
#[tactic(auto, using(crate::proofs::Free::next_is))]
fn next_number(written: &Given, item: &Enumerator, next: &mut u128) -> i128
    requires { next.old < 2 ^ 100 }
    ensures number { (numbers : List ℤ) → AreMet numbers written.now.numbers.keys → written.now.count ≡ length numbers → (more : ℕ → List ℤ) → numbers_by numbers next.old item.now.number more ≡ result ∷ more next.new }
    ensures bound { next.new ≤ next.old + 2 ^ 32 }
{
    match item.number {
        Some(number) => as_number(number),
        None => {
            let free = least_free(&written.numbers, written.count, *next);
            *next = free + 1;
            free as i128
        }
    }
}

/// The least number from one on that is not written, where so many are.
#[tactic(auto, using(crate::proofs::Free::searching))]
fn least_free(written: &IndexSet<i128>, count: u32, from: u128) -> u128
    requires { from < 2 ^ 100 }
    ensures number { (numbers : List ℤ) → AreMet numbers written.now.keys → result ≡ least_free numbers count from }
    ensures bound { result ≤ from + count }
{
    for step in 0..count {
        let free = from + u128::from(step);
        if !is_given(written, free) {
            return free;
        }
    }
    from + u128::from(count)
}

fn is_given(written: &IndexSet<i128>, number: u128) -> bool
    requires { number < 2 ^ 101 }
    ensures { (numbers : List ℤ) → AreMet numbers written.now.keys → result ≡ is_given numbers (pos number) }
{
    written.contains(&(number as i128))
}

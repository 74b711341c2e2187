//! The numbers of constants, which may be given by other constants (X.680 clause 17).
ghost use Rattle.std.specs.Prelude.{◌≡◌, ℕ, suc, map, length, slice_get, IfOk};
ghost use Rattle.std.specs.List.{range_with_len};
ghost use Rattle.og_dataview.specs.Following.{within_64_bits, next_constant, own_number, number_of};
ghost use Rattle.og_dataview.specs.Ways.{step_in, Leads};

use crate::counting::counted;
use crate::numbers::signed;
use crate::scope::Scope;
use crate::ways::{next_in, walked};
use og_flat::ConstantValue;
use og_names::NoMemory;
use std::alloc::Global;

impl Scope {
    /// The number of each constant, where it has one, in the order of the declarations.
    pub fn constant_numbers(&self, alloc: Global) -> Result<Vec<Option<i64>>, NoMemory>
        ensures { IfOk result (λ numbers. numbers.items ≡ map (number_of self.now.flat) (range_with_len 0 (length self.now.flat.constants))) }
    {
        let lasts = self.last_constants(alloc)?;
        let numbers = self.numbers_by(alloc, lasts.as_slice())?;
        Ok(numbers)
    }

    /// The numbers, where it is known by which constant each is given in the end.
    #[tactic(auto, using(crate::proofs::Tables::tables))]
    fn numbers_by(&self, alloc: Global, lasts: &[u32]) -> Result<Vec<Option<i64>>, NoMemory>
        requires { Leads (next_constant self.now.flat) (suc (length self.now.flat.constants)) lasts.now }
        ensures { IfOk result (λ numbers. numbers.items ≡ map (number_of self.now.flat) (range_with_len 0 (length self.now.flat.constants))) }
    {
        let count = counted(self.flat.constants.len())?;
        let mut numbers = Vec::new(alloc);
        for place in 0..count {
            numbers.push(self.number_by(lasts, place))?;
        }
        Ok(numbers)
    }

    fn number_by(&self, lasts: &[u32], place: u32) -> Option<i64>
        requires { Leads (next_constant self.now.flat) (suc (length self.now.flat.constants)) lasts.now }
        ensures { result ≡ number_of self.now.flat place }
    {
        self.own_number(next_in(lasts, place))
    }

    /// The constant by which each one is given in the end.
    fn last_constants(&self, alloc: Global) -> Result<Vec<u32>, NoMemory>
        ensures { IfOk result (λ lasts. Leads (next_constant self.now.flat) (suc (length self.now.flat.constants)) lasts.items) }
    {
        let steps = counted(self.flat.constants.len())?;
        let nexts = self.next_constants(alloc)?;
        let lasts = walked(alloc, nexts.as_slice(), steps as usize + 1)?;
        Ok(lasts)
    }

    /// The constant by which each constant is given.
    #[tactic(auto, using(crate::proofs::Tables::tables))]
    fn next_constants(&self, alloc: Global) -> Result<Vec<u32>, NoMemory>
        ensures { IfOk result (λ nexts. (p : ℕ) → step_in nexts.items p ≡ next_constant self.now.flat p) }
    {
        let count = counted(self.flat.constants.len())?;
        let mut nexts = Vec::new(alloc);
        for place in 0..count {
            nexts.push(self.next_constant(place))?;
        }
        Ok(nexts)
    }

    /// The constant by which a constant of type INTEGER is given. Another one leads to itself.
    fn next_constant(&self, place: u32) -> u32
        ensures { result ≡ next_constant self.now.flat place }
    {
        let Some(constant) = self.flat.constants.get(place as usize) else {
            return place;
        };
        if !self.is_integer_type(constant.node) {
            return place;
        }
        match &constant.value {
            ConstantValue::Named { name } => self.find_constant(name).unwrap_or(place),
            _ => place,
        }
    }

    /// The number of a constant that is given by a number.
    fn own_number(&self, place: u32) -> Option<i64>
        ensures { result ≡ own_number self.now.flat (slice_get self.now.flat.constants place) }
    {
        let constant = self.flat.constants.get(place as usize)?;
        if !self.is_integer_type(constant.node) {
            return None;
        }
        match &constant.value {
            ConstantValue::Number { number } => {
                within_64_bits(signed(number.is_negative, number.digits))
            }
            _ => None,
        }
    }
}

/// The number, where it is one of 64 bits with a sign.
pub fn within_64_bits(number: i128) -> Option<i64>
    ensures { result ≡ within_64_bits number }
{
    if number >= i128::from(i64::MIN) && number <= i128::from(i64::MAX) {
        Some(number as i64)
    } else {
        None
    }
}

//! Constants in ranges, and the numbers that a type has by its own bracket (X.680 clauses 17, 49 and 51).
ghost use Rattle.std.specs.Prelude.{◌≡◌, ℕ, IfOk};
ghost use Rattle.og_dataview.specs.Following.{number_of, bound_of, interval_of, in_range, of_integer, of_reference, numbers_at};
ghost use Rattle.og_datatypes.specs.Kept.{AreValues};

use og_dataview::{Interval, Scope, signed};
use og_flat::{Bound, Limits, Node, Range};
use og_names::NoMemory;
use std::alloc::Global;

/// No number.
pub const NOTHING: Interval = Interval { lo: 1, hi: 0 };

/// Each number that a token can have, with each sign.
const EVERYTHING: Interval = Interval {
    lo: -18446744073709551616,
    hi: 18446744073709551616,
};

/// A scope with the number of each constant.
#[derive(Drop)]
pub struct Valued {
    pub scope: Scope,
    pub values: Vec<Option<i64>>,
    pub ghost are_values: { AreValues scope.flat values.items },
}

impl Valued {
    /// A scope with the numbers of its constants.
    #[tactic(auto, using(crate::proofs::Lists::values_kept))]
    pub fn new(alloc: Global, scope: Scope) -> Result<Valued, NoMemory>
        ensures { IfOk result (λ valued. valued.scope.flat ≡ scope.flat) }
    {
        let values = scope.constant_numbers(alloc)?;
        Ok(Valued { scope, values })
    }

    fn bound_of(&self, bound: &Bound) -> Option<i128>
        ensures { result ≡ bound_of self.now.scope.flat bound.now }
    {
        match bound {
            Bound::Number {
                is_negative,
                digits,
            } => Some(signed(*is_negative, *digits)),
            Bound::Named { name } => {
                let place = self.scope.find_constant(name)?;
                let value = self.value_of(place)?;
                Some(i128::from(value))
            }
        }
    }

    /// The number of a constant, where it has one.
    pub fn value_of(&self, place: u32) -> Option<i64>
        ensures { result ≡ number_of self.now.scope.flat place }
    {
        self.values.get(place as usize).copied().unwrap_or(None)
    }

    /// The numbers from one bound to the other, where both have a number.
    pub fn interval_of(&self, range: &Range) -> Option<Interval>
        ensures { result ≡ interval_of self.now.scope.flat range.now }
    {
        let lo = self.bound_of(&range.lo)?;
        let hi = self.bound_of(&range.hi)?;
        Some(Interval { lo, hi })
    }

    fn in_range(&self, range: &Range) -> Interval
        ensures { result ≡ in_range self.now.scope.flat range.now }
    {
        self.interval_of(range).unwrap_or(NOTHING)
    }

    fn of_integer(&self, limits: &Limits) -> Interval
        ensures { result ≡ of_integer self.now.scope.flat limits.now }
    {
        match limits {
            Limits::Range { range } => self.in_range(range),
            _ => NOTHING,
        }
    }

    fn of_reference(&self, limits: &Limits) -> Interval
        ensures { result ≡ of_reference self.now.scope.flat limits.now }
    {
        match limits {
            Limits::Absent => EVERYTHING,
            Limits::Range { range } => self.in_range(range),
            _ => NOTHING,
        }
    }

    /// The numbers that the bracket of a type leaves, and none where it is no integer type and no declared name.
    pub fn numbers_at(&self, place: u32) -> Interval
        ensures { result ≡ numbers_at self.now.scope.flat place }
    {
        match self.scope.flat.nodes.get(place as usize) {
            Some(Node::Integer { limits }) => self.of_integer(limits),
            Some(Node::Reference { name, limits }) => {
                if self.scope.find_type(name).is_some() {
                    self.of_reference(limits)
                } else {
                    NOTHING
                }
            }
            _ => NOTHING,
        }
    }
}

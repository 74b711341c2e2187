//! What holds of intervals. Each function does nothing, and its contract is the law.
ghost use Rattle.std.specs.Prelude.{◌+ℤ◌, ◌-ℤ◌, ◌*ℤ◌};
ghost use Rattle.og_model.specs.declared.BinaryOp.TheVariants.{Add, Sub, Mul, Div, Mod, Rem};
ghost use Rattle.og_ranges.specs.Intervals.{sum_of, difference_of, product_of, quotient_of, modulus_of, remainder_of};
ghost use Rattle.og_ranges.specs.Laws.{GivesIn, GivesInWherePositive, SignGivesIn, ReachesItsEnds, SignReachesItsEnds, ValuesLieInTheirIntervals, NumbersHaveIntervals};

/// What an operator gives of numbers of intervals, where it gives any, lies in the interval that it makes of them. Of `mod`
/// and `rem` it is so where the right interval has no negative number.
pub fn results_lie_in_their_intervals()
    ensures sums { GivesIn Add sum_of }
    ensures differences { GivesIn Sub difference_of }
    ensures signs { SignGivesIn }
    ensures products { GivesIn Mul product_of }
    ensures quotients { GivesIn Div quotient_of }
    ensures moduli { GivesInWherePositive Mod modulus_of }
    ensures rests { GivesInWherePositive Rem remainder_of }
{}

/// Both ends of the interval of a sum, a difference, a product and a sign are reached by numbers of the intervals.
pub fn ends_are_reached()
    ensures sums { ReachesItsEnds ◌+ℤ◌ sum_of }
    ensures differences { ReachesItsEnds ◌-ℤ◌ difference_of }
    ensures signs { SignReachesItsEnds }
    ensures products { ReachesItsEnds ◌*ℤ◌ product_of }
{}

/// An integer expression, whatever its variables hold of their types, has a value in its interval, or its evaluation faults.
pub fn values_lie_in_their_intervals()
    ensures { ValuesLieInTheirIntervals }
{}

/// The interval of an expression has a number, and lies within 64 bits; that of an expression that is no number is 0 to 0.
pub fn numbers_have_intervals()
    ensures { NumbersHaveIntervals }
{}

//! Flat code over a small model, with what it shows. The definitions of the examples are the texts in
//! specs/FlatExamples.antt.

ghost use Rattle.og_csubset.specs.FlatExamples.{NumbersAreUnbounded, NumbersOf64Bits, IndexIsOutside, DivisorIsZero, CopiesItems, CallsTwice, CutInACall, NotYetShown, ShownByTheSixth, TableTakesACase, TableTakesTheLast, CountsAndLeavesItsType, CountingIsFair, SumOfFortyNests};

/// Flat code computes, copies, chooses, calls and ends as worked out by hand, and an example of code that can be printed. How deep an
/// instruction nests is what its text nests.
pub fn flat_code_runs()
    ensures numbers_are_unbounded { NumbersAreUnbounded }
    ensures numbers_of_64_bits { NumbersOf64Bits }
    ensures index_is_outside { IndexIsOutside }
    ensures divisor_is_zero { DivisorIsZero }
    ensures copies_items { CopiesItems }
    ensures calls_twice { CallsTwice }
    ensures cut_in_a_call { CutInACall }
    ensures not_yet_shown { NotYetShown }
    ensures shown_by_the_sixth { ShownByTheSixth }
    ensures table_takes_a_case { TableTakesACase }
    ensures table_takes_the_last { TableTakesTheLast }
    ensures counts_and_leaves_its_type { CountsAndLeavesItsType }
    ensures counting_is_fair { CountingIsFair }
    ensures sum_of_forty_nests { SumOfFortyNests }
{}

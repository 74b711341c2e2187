//! Programs of the C subset over small models, with what they show. The definitions of the examples are the texts in
//! specs/Examples.antt.

ghost use Rattle.og_csubset.specs.Examples.{HandWrittenRuns, CutAtTwo, CutAtFour, CutAtNone, HandWrittenLoads, SumOverflows, DifferenceOverflows, SignOverflows, QuotientOverflows, RemainderOverflows, DividesByZero, RemainderByZero, TruncatesTowardZero, RemainderHasTheSign, LeftComesFirst, IndexComesFirst, NegativeIndex, PicksOneSide, CopiesAStruct, SwitchTakesACase, SwitchFallsToDefault, VariableOutOfRange, RegionOutOfRange, NoStateIsActive, ItemsPastTheLength, OutputOutOfRange, CutBeforeAnOutput, EndsWithAFault, NoSuchFault, CalledAfterStop, RunsOn, NothingToDoLoads, BreaksK3, BreaksK4, ArrayWithoutAnIndex, NumberIntoAStruct, UnknownGlobal, StructIntoANumber, IndexOfANumber, UnknownMember, MissingLabel, LabelTwice, EqualCases, CallsALaterFunction, TooManyCells, MissingFunction, ForeignEvent, EventOfAnySignal, FieldOfAnotherShape, FieldNotNeeded};

/// A text written by hand runs as worked out by hand, also where it is cut short.
pub fn hand_written_text_runs()
    ensures hand_written_loads { HandWrittenLoads }
    ensures hand_written_runs { HandWrittenRuns }
    ensures cut_at_two { CutAtTwo }
    ensures cut_at_four { CutAtFour }
    ensures cut_at_none { CutAtNone }
{}

/// Single statements compute, break and end as worked out by hand.
pub fn single_statements_compute()
    ensures sum_overflows { SumOverflows }
    ensures difference_overflows { DifferenceOverflows }
    ensures sign_overflows { SignOverflows }
    ensures quotient_overflows { QuotientOverflows }
    ensures remainder_overflows { RemainderOverflows }
    ensures divides_by_zero { DividesByZero }
    ensures remainder_by_zero { RemainderByZero }
    ensures truncates_toward_zero { TruncatesTowardZero }
    ensures remainder_has_the_sign { RemainderHasTheSign }
    ensures left_comes_first { LeftComesFirst }
    ensures index_comes_first { IndexComesFirst }
    ensures negative_index { NegativeIndex }
    ensures picks_one_side { PicksOneSide }
    ensures copies_a_struct { CopiesAStruct }
    ensures switch_takes_a_case { SwitchTakesACase }
    ensures switch_falls_to_default { SwitchFallsToDefault }
    ensures variable_out_of_range { VariableOutOfRange }
    ensures region_out_of_range { RegionOutOfRange }
    ensures no_state_is_active { NoStateIsActive }
    ensures items_past_the_length { ItemsPastTheLength }
    ensures output_out_of_range { OutputOutOfRange }
    ensures cut_before_an_output { CutBeforeAnOutput }
    ensures ends_with_a_fault { EndsWithAFault }
    ensures no_such_fault { NoSuchFault }
    ensures called_after_stop { CalledAfterStop }
    ensures runs_on { RunsOn }
{}

/// Programs that break one rule each, and programs that break none.
pub fn load_rules_are_reported()
    ensures nothing_to_do_loads { NothingToDoLoads }
    ensures breaks_k3 { BreaksK3 }
    ensures breaks_k4 { BreaksK4 }
    ensures array_without_an_index { ArrayWithoutAnIndex }
    ensures number_into_a_struct { NumberIntoAStruct }
    ensures unknown_global { UnknownGlobal }
    ensures struct_into_a_number { StructIntoANumber }
    ensures index_of_a_number { IndexOfANumber }
    ensures unknown_member { UnknownMember }
    ensures missing_label { MissingLabel }
    ensures label_twice { LabelTwice }
    ensures equal_cases { EqualCases }
    ensures calls_a_later_function { CallsALaterFunction }
    ensures too_many_cells { TooManyCells }
    ensures missing_function { MissingFunction }
    ensures foreign_event { ForeignEvent }
    ensures event_of_any_signal { EventOfAnySignal }
    ensures field_of_another_shape { FieldOfAnotherShape }
    ensures field_not_needed { FieldNotNeeded }
{}

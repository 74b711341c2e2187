//! Texts of values, computed from the definitions. Each function does nothing, and its contract says what the definitions
//! give.
#![tactic(auto, unfolding(crate::proofs::Computing::readings))]

ghost use Rattle.og_value.specs.Examples.{TheSampleIsATable, NumbersAreRead, WordsAreRead, SequencesAreRead, ItemsAreRead, ChoicesAreRead, TheLongestTextCounts, CutTextsAreBad, EachSortIsShown, NestingIsLimited};

pub fn the_sample_is_a_table()
    ensures { TheSampleIsATable }
{}

/// Bounds, zeros in front, a sign and blanks behind it, and many digits.
pub fn numbers_are_read()
    ensures { NumbersAreRead }
{}

/// TRUE and FALSE in capitals only, and names whatever their case.
pub fn words_are_read()
    ensures { WordsAreRead }
{}

/// Each component once and in order.
pub fn sequences_are_read()
    ensures { SequencesAreRead }
{}

/// As many items as the size allows.
pub fn items_are_read()
    ensures { ItemsAreRead }
{}

/// An alternative by its name.
pub fn choices_are_read()
    ensures { ChoicesAreRead }
{}

/// The longest text counts, whatever stands behind it.
pub fn the_longest_text_counts()
    ensures { TheLongestTextCounts }
{}

/// No text that is cut is one.
pub fn cut_texts_are_bad()
    ensures { CutTextsAreBad }
{}

pub fn each_sort_is_shown()
    ensures { EachSortIsShown }
{}

/// So many braces and colons may be open, and no more.
pub fn nesting_is_limited()
    ensures { NestingIsLimited }
{}

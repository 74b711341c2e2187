//! What holds of texts of values. Each function does nothing, and its contract is the law.
ghost use Rattle.og_value.specs.Laws.{TextsReadAsOneValue, WhatIsFoundIsRead, ReadValuesAreInTheirTypes, WholeTextsAreLongest, ShownTextsReadBack};

/// A text reads as one value of a type, and at a place there is one text that is read.
pub fn texts_read_as_one_value()
    ensures { TextsReadAsOneValue }
{}

/// What can be computed for given bytes is what the longest text in front of them reads as.
pub fn what_is_found_is_read()
    ensures { WhatIsFoundIsRead }
{}

/// What a text reads as is a value of the type.
pub fn read_values_are_in_their_types()
    ensures { ReadValuesAreInTheirTypes }
{}

/// A text that has the form of a value is the longest where nothing goes on with it.
pub fn whole_texts_are_longest()
    ensures { WholeTextsAreLongest }
{}

/// The text that a value shows gives the value where it is read.
pub fn shown_texts_read_back()
    ensures { ShownTextsReadBack }
{}

//! Laws of numbering names, each as the contract of a function that does nothing.
ghost use Rattle.og_names.specs.Laws.{OneNumberForOneName, NumbersLeadBack, AbsentNamesHaveNone, EarlierNumbersStay, FoldingTwice};

/// Two names have one number exactly where they fold alike.
pub fn one_number_for_one_name()
    ensures { OneNumberForOneName }
{}

/// At the number of a name stands its folded form.
pub fn numbers_lead_back()
    ensures { NumbersLeadBack }
{}

/// A name has no number exactly where its folded form stands nowhere.
pub fn absent_names_have_none()
    ensures { AbsentNamesHaveNone }
{}

/// A number stays when a further name is added.
pub fn earlier_numbers_stay()
    ensures { EarlierNumbersStay }
{}

/// Folding twice is folding once.
pub fn folding_twice()
    ensures { FoldingTwice }
{}

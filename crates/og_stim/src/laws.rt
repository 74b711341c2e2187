//! What holds of the lines of stimuli files. Each function does nothing, and its contract is the law.
ghost use Rattle.og_stim.specs.Laws.{LinesHaveTheirForms, ValuesAreRead};

/// A line has the form that is found in it, and no other.
pub fn lines_have_their_forms()
    ensures { LinesHaveTheirForms }
{}

/// A text of a value is read as what it means.
pub fn values_are_read()
    ensures { ValuesAreRead }
{}

//! Traces of small runs, worked out by hand.

ghost use Rattle.og_trace.specs.Examples.{BadLineIsShown, BadLineEnds, StuckBeforeABadLine, StuckEnds, CutAtFour, CutEnds, NoStatement, NoFunction, AllDone};

/// What a run over a file of stimuli writes, as worked out by hand.
pub fn traces_are_as_worked_out()
    ensures bad_line_is_shown { BadLineIsShown }
    ensures bad_line_ends { BadLineEnds }
    ensures stuck_before_a_bad_line { StuckBeforeABadLine }
    ensures stuck_ends { StuckEnds }
    ensures cut_at_four { CutAtFour }
    ensures cut_ends { CutEnds }
    ensures no_statement { NoStatement }
    ensures no_function { NoFunction }
    ensures all_done { AllDone }
{}

//! Worked examples, computed from the definitions. Each function does nothing, and its contract says what the definitions give.
ghost use Rattle.og_dataview.specs.Laws.{EachHasOneAnswer};
ghost use Rattle.og_dataview.specs.ViewExamples.{FreeNumbersInOrder, NumbersBelowZeroAndOpenOnes, RangesIntersect, OnlyWhatIsLeftCounts, ConstantsAreFollowed, TypesComeByDepth, OpaqueTypesAreFound, NamesWithoutDeclaration, UnknownNames, NamesThatAreNotLookedFor, NamesTwice, ThreeNames, NamesOfDifferentLists, ImportsAreChecked};

/// Views of modules.
pub fn views()
    ensures enumerators { FreeNumbersInOrder }
    ensures below_zero { NumbersBelowZeroAndOpenOnes }
    ensures ranges { RangesIntersect }
    ensures left { OnlyWhatIsLeftCounts }
    ensures constants { ConstantsAreFollowed }
    ensures depth { TypesComeByDepth }
    ensures opaque { OpaqueTypesAreFound }
    ensures without_declaration { NamesWithoutDeclaration }
{}

/// Violations of the rules on names.
pub fn violations()
    ensures unknown { UnknownNames }
    ensures not_looked_for { NamesThatAreNotLookedFor }
    ensures twice { NamesTwice }
    ensures three { ThreeNames }
    ensures apart { NamesOfDifferentLists }
    ensures imports { ImportsAreChecked }
{}

/// Modules keep all rules on names, or there is a first violation.
pub fn one_answer()
    ensures { EachHasOneAnswer }
{}

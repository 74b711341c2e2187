//! Laws of outlines, each as the contract of a function that does nothing.
ghost use Rattle.std.specs.Prelude.{◌≡◌, ◌||◌, ℕ, List, Some, None, IsTrue};
ghost use Rattle.og_ast.specs.declared.ground.Name.{Name as NameTree};
ghost use Rattle.og_ast.specs.declared.system.Unit.{Unit as UnitTree};
ghost use Rattle.og_base.specs.Order.{first_of};
ghost use Rattle.og_forms.specs.Forms.{unbuilt_in};
ghost use Rattle.og_system.specs.Scopes.{is_among, is_outside, seen_in_block};
ghost use Rattle.og_system.specs.Bodies.{Body, Home as HomeOf, process_of};
ghost use Rattle.og_system.specs.Closing.{first_unclosed};
ghost use Rattle.og_outline.specs.Outlines.{names_around, outline_of};
ghost use Rattle.og_outline.specs.Whole.{IsWhole, are_filled};
ghost use Rattle.og_outline.specs.Examples.{TextAndOutput, LeadsToAState, StopLeadsNowhere, ViaLeadsNowhere, OneStart, NamedStart, TwoHeaders, SeveralNames, HyphenedSort, SignalsOfRoutes, SameNameInTwoBlocks, Around, WholeOutline};

/// Where each form is built, and no START and no NEXTSTATE is missing, the outline has a start, and nothing of the process
/// and of the signals is left out.
pub fn outlines_are_closed()
    ensures { (units : List UnitTree) (body : Body) (home : HomeOf) → IsTrue (are_filled units) → first_of (unbuilt_in units) ≡ None → process_of units ≡ Some body → first_unclosed units body.process ≡ None → IsWhole units body.process home (outline_of units body.process home) }
{}

/// A declaration that is visible in the block of the process has a name exactly where the name is among those around the
/// process, or is one of the data, or is there without a declaration.
pub fn around_is_seen()
    ensures { (units : List UnitTree) (types : List (List ℕ)) (home : HomeOf) (name : NameTree) → (seen_in_block units types home.system home.block).any name ≡ (is_among (names_around units home) name || is_outside types name) }
{}

/// Worked examples of outlines.
pub fn outlines_of_texts()
    ensures transitions { TextAndOutput × LeadsToAState × StopLeadsNowhere × ViaLeadsNowhere }
    ensures parts { OneStart × NamedStart × TwoHeaders × SeveralNames }
    ensures signals { HyphenedSort × SignalsOfRoutes × SameNameInTwoBlocks }
    ensures around { Around }
    ensures whole { WholeOutline }
{}

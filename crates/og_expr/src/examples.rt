//! Worked examples, computed from the definitions. The function does nothing, and its contract says what the code
//! gives.
ghost use Rattle.og_expr.specs.Examples.{CodeGivesNumbers, CodeGivesTruths, CodeIsShort};

/// Code for expressions, run from slots that hold their variables.
#[tactic(auto, using(crate::proofs::Worked::numbers, crate::proofs::Worked::truths), unfolding(og_model::proofs::Computing::trees, og_ranges::specs::Ranges::range_of, crate::specs::Lowering::lowered))]
pub fn expressions()
    ensures numbers { CodeGivesNumbers }
    ensures truths { CodeGivesTruths }
    ensures short { CodeIsShort }
{}

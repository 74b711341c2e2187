//! What holds of the code of expressions. Each function does nothing, and its contract is the law.
ghost use Rattle.og_expr.specs.Bounds.{CodeIsBounded, TemporariesAreFew};

/// An expression has at most 40 instructions for each node.
#[tactic(auto, using(crate::proofs::Bounded::code_is_bounded))]
pub fn code_is_bounded()
    ensures { CodeIsBounded }
{}

/// An expression uses at most 65 temporaries, from its level on.
#[tactic(auto, using(crate::proofs::Bounded::temporaries_are_few))]
pub fn temporaries_are_few()
    ensures { TemporariesAreFew }
{}

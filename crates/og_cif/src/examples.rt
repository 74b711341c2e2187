//! Comments that are boxes, and others. Each function does nothing, and its contract says what the definitions give.
#![tactic(auto, unfolding(crate::proofs::Computing::boxes))]

ghost use Rattle.og_cif.specs.Examples.{BoxesAreRead, OthersArePlain};

/// Any case, any white space, signs, zeros in front, and both bounds.
pub fn boxes_are_read()
    ensures { BoxesAreRead }
{}

/// Other words and signs, numbers of more than 32 bits, and parts that are missing or too many.
pub fn others_are_plain()
    ensures { OthersArePlain }
{}

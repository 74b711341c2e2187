//! Worked examples, computed from the definitions. The function does nothing, and its contract says what they give.
ghost use Rattle.og_datatypes.specs.Examples.{BoundsAtTheirEdges, SizesAtTheirEdges, ConstantsBoundTypes, RangesLeaveLess, GapsAreFilled, NumbersAtTheirEdges, OpaquePartsAreOpaque, SixtyFourDeep};

/// Types of views.
#[tactic(auto, unfolding(og_dataview::specs::View::greatest_depth))]
pub fn types()
    ensures bounds { BoundsAtTheirEdges }
    ensures sizes { SizesAtTheirEdges }
    ensures constants { ConstantsBoundTypes }
    ensures ranges { RangesLeaveLess }
    ensures gaps { GapsAreFilled }
    ensures numbers { NumbersAtTheirEdges }
    ensures opaque { OpaquePartsAreOpaque }
    ensures depth { SixtyFourDeep }
{}

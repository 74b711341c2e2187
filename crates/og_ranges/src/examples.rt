//! Worked examples, computed from the definitions. The function does nothing, and its contract says what they give.
ghost use Rattle.og_ranges.specs.Examples.{SumsAtTheirEdges, ProductsAtTheirEdges, QuotientsAtTheirEdges, RestsAtTheirEdges};
ghost use Rattle.og_ranges.specs.RangeExamples.{NumbersLie, RulesAreBroken};

/// Intervals at both ends of 64 bits, of one number, and around 0.
pub fn intervals()
    ensures sums { SumsAtTheirEdges }
    ensures products { ProductsAtTheirEdges }
    ensures quotients { QuotientsAtTheirEdges }
    ensures rests { RestsAtTheirEdges }
{}

/// Intervals of expressions, and where there are none.
#[tactic(auto, unfolding(og_model::proofs::Computing::trees, crate::specs::Ranges::range_of))]
pub fn expressions()
    ensures numbers { NumbersLie }
    ensures rules { RulesAreBroken }
{}

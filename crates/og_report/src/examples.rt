//! Worked examples of lines, computed from their definition.
ghost use Rattle.og_report.specs.Examples.{WithBox, WithoutBox, BelowZero, BytesStandBefore};

/// Lines with a box and without one, with numbers below zero; and which bytes stand before a place.
pub fn reports_are_written()
    ensures with_box { WithBox }
    ensures without_box { WithoutBox }
    ensures below_zero { BelowZero }
    ensures bytes { BytesStandBefore }
{}

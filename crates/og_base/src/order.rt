ghost use Rattle.std.specs.Prelude.{◌≡◌};
ghost use Rattle.og_base.specs.Order.{comes_before as before, is_before as earlier, rank as rank_of, sooner as the_sooner};

use crate::{Place, Rule, Violation};

impl Rule {
    /// The place of the rule in the table of rules, counted from 0.
    pub fn rank(self) -> u32
        ensures { result ≡ rank_of self }
    {
        match self {
            Rule::L1 => 0,
            Rule::L2 => 1,
            Rule::L3 => 2,
            Rule::L4 => 3,
            Rule::S1 => 4,
            Rule::S2 => 5,
            Rule::F1 => 6,
            Rule::N1 => 7,
            Rule::N2 => 8,
            Rule::N3 => 9,
            Rule::N4 => 10,
            Rule::N5 => 11,
            Rule::N6 => 12,
            Rule::N7 => 13,
            Rule::T1 => 14,
            Rule::T2 => 15,
            Rule::T3 => 16,
            Rule::T4 => 17,
            Rule::T6 => 18,
            Rule::T7 => 19,
            Rule::G1 => 20,
            Rule::G2 => 21,
            Rule::G3 => 22,
            Rule::G4 => 23,
            Rule::G5 => 24,
            Rule::A1 => 25,
            Rule::A2 => 26,
            Rule::A3 => 27,
            Rule::A4 => 28,
            Rule::A5 => 29,
            Rule::A6 => 30,
            Rule::A7 => 31,
            Rule::A8 => 32,
            Rule::A9 => 33,
            Rule::A10 => 34,
            Rule::A11 => 35,
            Rule::A12 => 36,
            Rule::M1 => 37,
            Rule::M2 => 38,
            Rule::M3 => 39,
            Rule::M4 => 40,
        }
    }
}

fn is_before(a: Place, b: Place) -> bool
    ensures { result ≡ earlier a b }
{
    a.file < b.file
        || a.file == b.file && (a.line < b.line || a.line == b.line && a.column < b.column)
}

impl Violation {
    /// Whether this violation is reported rather than the other: by place, then by the table of rules.
    pub fn comes_before(self, other: Violation) -> bool
        ensures { result ≡ before self other }
    {
        let (a, b) = (self.place, other.place);
        let same = a.file == b.file && a.line == b.line && a.column == b.column;
        is_before(a, b) || same && self.rule.rank() < other.rule.rank()
    }
}

/// The one of the violations so far and a further one that is reported.
pub fn sooner(first: Option<Violation>, next: Violation) -> Option<Violation>
    ensures { result ≡ the_sooner first next }
{
    match first {
        None => Some(next),
        Some(other) => if next.comes_before(other) {
            Some(next)
        } else {
            Some(other)
        },
    }
}

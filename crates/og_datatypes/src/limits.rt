//! The bounds of integer types, and the lengths of sequences of items.
ghost use Rattle.std.specs.Prelude.{◌≡◌, Some};
ghost use Rattle.std.specs.Option.{option_map};
ghost use Rattle.og_dataview.specs.Following.{usable as usable_bounds, bounds};
ghost use Rattle.og_dataview.specs.View.{size_by as size_from, size_of};
ghost use Rattle.og_datatypes.specs.Kept.{as_interval, as_lengths, AreRanges};

use crate::ranges::range_in;
use crate::values::Valued;
use og_dataview::{Interval, within_64_bits};
use og_flat::Limits;

/// The least and the greatest number of an integer type.
#[derive(Clone, Copy, Debug, PartialEq, Eq)]
pub struct Bounds {
    pub lo: i64,
    pub hi: i64,
}

/// The least and the greatest length of a sequence of items.
#[derive(Clone, Copy, Debug, PartialEq, Eq)]
pub struct Lengths {
    pub lo: u32,
    pub hi: u32,
}

/// What is known of the constants and ranges of a scope.
#[derive(Drop)]
pub struct Limited {
    pub valued: Valued,
    pub ranges: Vec<Interval>,
    pub ghost are_ranges: { AreRanges valued.scope.flat ranges.items },
}

impl Limited {
    /// The bounds of an integer type, where it has them.
    pub fn bounds(&self, place: u32) -> Option<Bounds>
        ensures { option_map as_interval result ≡ bounds self.now.valued.scope.flat place }
    {
        if self.valued.scope.is_integer_type(place) {
            usable(range_in(self.ranges.as_slice(), place))
        } else {
            None
        }
    }

    /// The lengths of a sequence of items with this bracket, where it has them.
    pub fn size_of(&self, limits: &Limits) -> Option<Lengths>
        ensures { option_map as_lengths result ≡ size_of self.now.valued.scope.flat limits.now }
    {
        let Limits::Size { range } = limits else {
            return None;
        };
        let interval = self.valued.interval_of(range)?;
        size_by(interval)
    }
}

/// Numbers of 64 bits, one at least.
fn usable(range: Interval) -> Option<Bounds>
    ensures { option_map as_interval result ≡ usable_bounds range }
{
    let lo = within_64_bits(range.lo)?;
    let hi = within_64_bits(range.hi)?;
    if lo <= hi {
        Some(Bounds { lo, hi })
    } else {
        None
    }
}

/// Lengths up to 65,536, one at least.
fn size_by(range: Interval) -> Option<Lengths>
    ensures { option_map as_lengths result ≡ size_from (Some range) }
{
    if range.lo < 0 || range.hi < range.lo || range.hi > 65536 {
        return None;
    }
    Some(Lengths {
        lo: range.lo as u32,
        hi: range.hi as u32,
    })
}

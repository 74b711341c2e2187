//! Numbers from one to another.
ghost use Rattle.std.specs.Prelude.{◌≡◌};
ghost use Rattle.og_flat.specs.Limits.{signed};

/// The numbers from the first to the second, both of them among these. There are none where the second is less.
#[derive(Clone, Copy, Debug, PartialEq, Eq)]
pub struct Interval {
    pub lo: i128,
    pub hi: i128,
}

/// A number as it is written, with its sign.
pub fn signed(is_negative: bool, digits: u64) -> i128
    ensures { result ≡ signed is_negative digits }
{
    if is_negative {
        -i128::from(digits)
    } else {
        i128::from(digits)
    }
}

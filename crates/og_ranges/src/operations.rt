//! What the operators of integer expressions make of intervals (Z.101 section 12.2, the integer operators of Z.104).
ghost use Rattle.std.specs.Prelude.{◌≡◌, ◌≤◌, ◌≤ℤ◌, pos};
ghost use Rattle.og_ranges.specs.Intervals.{IsInterval, sum_of, difference_of, negative_of, product_of, quotient_of, modulus_of, remainder_of, spanned, up_to, leaves_at_most};

use crate::Interval;

/// The sums of a number of each.
pub fn add(a: Interval, b: Interval) -> Interval
    requires left { IsInterval a }
    requires right { IsInterval b }
    ensures value { result ≡ sum_of a b }
    ensures ordered { result.lo ≤ℤ result.hi }
{
    Interval {
        lo: a.lo + b.lo,
        hi: a.hi + b.hi,
    }
}

/// The differences of a number of each.
pub fn sub(a: Interval, b: Interval) -> Interval
    requires left { IsInterval a }
    requires right { IsInterval b }
    ensures value { result ≡ difference_of a b }
    ensures ordered { result.lo ≤ℤ result.hi }
{
    Interval {
        lo: a.lo - b.hi,
        hi: a.hi - b.lo,
    }
}

/// The numbers with the other sign.
pub fn neg(a: Interval) -> Interval
    requires { IsInterval a }
    ensures value { result ≡ negative_of a }
    ensures ordered { result.lo ≤ℤ result.hi }
{
    Interval {
        lo: -a.hi,
        hi: -a.lo,
    }
}

/// From the least to the greatest product of a number of each, which are products of ends.
pub fn mul(a: Interval, b: Interval) -> Interval
    requires left { IsInterval a }
    requires right { IsInterval b }
    ensures value { result ≡ product_of a b }
    ensures ordered { result.lo ≤ℤ result.hi }
{
    spanned(a.lo * b.lo, a.lo * b.hi, a.hi * b.lo, a.hi * b.hi)
}

/// Quotients, truncated toward zero, of a number of each. Where a divisor may be below 1 the interval goes as far as the
/// dividends do, to both sides.
pub fn div(a: Interval, b: Interval) -> Interval
    requires left { IsInterval a }
    requires right { IsInterval b }
    ensures value { result ≡ quotient_of a b }
    ensures ordered { result.lo ≤ℤ result.hi }
{
    if b.lo >= 1 {
        spanned(a.lo / b.lo, a.lo / b.hi, a.hi / b.lo, a.hi / b.hi)
    } else {
        up_to(a.lo.unsigned_abs().max(a.hi.unsigned_abs()))
    }
}

/// What `mod` leaves, whatever its left operand: at least 0 and less than the divisor.
pub fn modulo(a: Interval, b: Interval) -> Interval
    requires left { IsInterval a }
    requires right { IsInterval b }
    requires divisor { pos 0 ≤ℤ b.lo }
    ensures value { result ≡ modulus_of a b }
    ensures ordered { result.lo ≤ℤ result.hi }
{
    let _dividends = a;
    Interval {
        lo: 0,
        hi: leaves_at_most(b),
    }
}

/// What `rem` leaves: less than the divisor, with the sign of the left operand.
pub fn rem(a: Interval, b: Interval) -> Interval
    requires left { IsInterval a }
    requires right { IsInterval b }
    requires divisor { pos 0 ≤ℤ b.lo }
    ensures value { result ≡ remainder_of a b }
    ensures ordered { result.lo ≤ℤ result.hi }
{
    let most = leaves_at_most(b);
    Interval {
        lo: if a.lo < 0 { -most } else { 0 },
        hi: if a.hi > 0 { most } else { 0 },
    }
}

/// From the least to the greatest of four numbers.
fn spanned(p: i128, q: i128, r: i128, s: i128) -> Interval
    ensures value { result ≡ spanned p q r s }
    ensures ordered { result.lo ≤ℤ result.hi }
{
    Interval {
        lo: p.min(q).min(r.min(s)),
        hi: p.max(q).max(r.max(s)),
    }
}

/// From `-n` to `n`.
fn up_to(n: u128) -> Interval
    requires { n ≤ 9_223_372_036_854_775_808 }
    ensures value { result ≡ up_to n }
    ensures ordered { result.lo ≤ℤ result.hi }
{
    let far = n as i128;
    Interval { lo: -far, hi: far }
}

/// The most that a division by a number of the interval leaves.
fn leaves_at_most(b: Interval) -> i128
    requires interval { IsInterval b }
    requires divisor { pos 0 ≤ℤ b.lo }
    ensures value { result ≡ leaves_at_most b }
    ensures natural { pos 0 ≤ℤ result }
{
    if b.hi == 0 { 0 } else { b.hi - 1 }
}
